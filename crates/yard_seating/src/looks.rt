// Looks at the tables, which change nothing: the scarcest piece, one seat, whether a seat has a piece, a holder count.
ghost use Rattle.std.specs.Prelude.{◌≡◌, ◌<◌, ◌≤◌, ◌+◌, ◌/◌, ◌-◌, cond, ltb, length, get_or};
ghost use Rattle.yard_tables.specs.Looks.{fewest, place_of, scarcest_of, seat_of, has_of, count_of};
ghost use Rattle.yard_tables.specs.Tables.{paper, around};
ghost use Rattle.yard_tables.specs.declared.Seat.{Seat};

use crate::row;
use refusal::{Refusal, number, refuse};
use torrent_blocks::PieceNumber;
use yard_tables::{Answer, Head, Seat, bits, sizes};

// The smallest number among the pieces with fewest holders.
pub fn scarcest(h: Head, n: usize, rows: &[u8], holders: &[u16]) -> Result<Answer, Refusal>
    ensures { (s : Seat) → paper result ≡ (scarcest_of n (around h s rows.now holders.now)).answer }
{
    if !sizes::sizes_fit(h, n, rows.len(), holders.len()) {
        return Err(refuse(number::SIZES, 0));
    }
    Ok(Answer::Piece(rarest(holders)))
}

// The record of seat i, which is s.
pub fn seat(
    h: Head,
    s: Seat,
    i: usize,
    n: usize,
    rows: &[u8],
    holders: &[u16],
) -> Result<Answer, Refusal>
    ensures { paper result ≡ (seat_of i n (around h s rows.now holders.now)).answer }
{
    if !sizes::sizes_fit(h, n, rows.len(), holders.len()) {
        return Err(refuse(number::SIZES, 0));
    }
    if n <= i {
        return Err(refuse(number::SEAT, 0));
    }
    Ok(Answer::Record(s))
}

// Whether the truck of seat i has a piece.
pub fn has(
    h: Head,
    i: usize,
    piece: PieceNumber,
    n: usize,
    rows: &[u8],
    holders: &[u16],
) -> Result<Answer, Refusal>
    ensures { (s : Seat) → paper result ≡ (has_of i piece.0 n (around h s rows.now holders.now)).answer }
{
    if !sizes::sizes_fit(h, n, rows.len(), holders.len()) {
        return Err(refuse(number::SIZES, 0));
    }
    if n <= i {
        return Err(refuse(number::SEAT, 0));
    }
    let p = sizes::wide(piece.0);
    if holders.len() <= p {
        return Err(refuse(number::BEYOND, 0));
    }
    let byte = rows[i * row::width(h) + p / 8];
    Ok(Answer::Holds(bits::bit_of(byte, p)))
}

// How many trucks hold a piece.
pub fn count(
    h: Head,
    piece: PieceNumber,
    n: usize,
    rows: &[u8],
    holders: &[u16],
) -> Result<Answer, Refusal>
    ensures { (s : Seat) → paper result ≡ (count_of piece.0 n (around h s rows.now holders.now)).answer }
{
    if !sizes::sizes_fit(h, n, rows.len(), holders.len()) {
        return Err(refuse(number::SIZES, 0));
    }
    let p = sizes::wide(piece.0);
    if holders.len() <= p {
        return Err(refuse(number::BEYOND, 0));
    }
    Ok(Answer::Holders(wide(holders[p])))
}

// The place of the first of the smallest counts.
fn rarest(holders: &[u16]) -> usize
    requires { 1 ≤ length holders.now }
    ensures { result ≡ place_of (fewest holders.now) holders.now }
{
    let mut best = 0;
    for p in 1..holders.len() {
        best = rarer(holders, best, p);
    }
    best
}

// Of two places the one with the smaller count, the first where they are the same.
fn rarer(holders: &[u16], best: usize, p: usize) -> usize
    requires { (best < length holders.now) × (p < length holders.now) }
    ensures { result ≡ cond (ltb (get_or holders.now p 0) (get_or holders.now best 0)) p best }
{
    if holders[p] < holders[best] {
        return p;
    }
    best
}

// A count of 16 bits as a number.
fn wide(count: u16) -> usize
    ensures { result ≡ count }
{
    count as usize
}
