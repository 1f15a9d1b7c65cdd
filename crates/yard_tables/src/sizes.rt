// Whether the tables that are lent have the yard's sizes: the first check of every call.
ghost use Rattle.std.specs.Prelude.{◌≡◌};
ghost use Rattle.yard_tables.specs.Tables.{sizes_fit};

use crate::Head;
use refusal::limit;
use torrent_blocks::rules;

// Whether a head's sizes are legal, and fit n seats, so many bytes of rows and so many holder counts.
pub fn sizes_fit(h: Head, n: usize, rows: usize, holders: usize) -> bool
    ensures { result ≡ sizes_fit h n rows holders }
{
    let pieces = wide(h.pieces);
    if pieces < 1 {
        return false;
    }
    if limit::PIECES < pieces {
        return false;
    }
    if n < 1 {
        return false;
    }
    if limit::SEATS < n {
        return false;
    }
    if !rules::legal_piece_length(h.piece_length as u64) {
        return false;
    }
    if h.last_length < 1 {
        return false;
    }
    if h.piece_length < h.last_length {
        return false;
    }
    if rows != n * ((pieces + 7) / 8) {
        return false;
    }
    holders == pieces
}

// A number of 32 bits as a size.
pub fn wide(x: u32) -> usize
    ensures { result ≡ x }
{
    x as usize
}
