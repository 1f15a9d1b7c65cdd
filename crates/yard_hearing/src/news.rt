// Frames that announce pieces.
ghost use Rattle.std.specs.Prelude.{◌≡◌, false, ◌≤◌, leb, length};
ghost use Rattle.yard_tables.specs.Rows.{width, bit_at, with_bits};
ghost use Rattle.yard_tables.specs.Tables.{around, turn};
ghost use Rattle.yard_tables.specs.Frames.{announce, have_of, bitfield_of};
ghost use Rattle.yard_hearing.specs.Steps.{InTables, full, too_many, gained};

use crate::row;
use crate::row::News;
use refusal::number;
use torrent_blocks::PieceNumber;
use yard_tables::sizes::wide;
use yard_tables::{Head, Seat, Stepped, bits, held, on, reply};

// Have: one piece.
pub fn have_step(
    h: Head,
    s: Seat,
    rows: &mut [u8],
    holders: &mut [u16],
    i: usize,
    n: usize,
    used: usize,
    piece: PieceNumber,
) -> Stepped
    requires { InTables h n i rows.old holders.old }
    ensures { turn result rows.new holders.new ≡ have_of n i used piece.0 (around h s rows.old holders.old) }
{
    let p = wide(piece.0);
    let pieces = wide(h.pieces);
    if pieces <= p {
        return reply::refused(h, s, number::BEYOND);
    }
    let at = i * ((pieces + 7) / 8) + p / 8;
    let had = rows[at];
    if bits::bit_of(had, p) {
        return reply::passed(h, s, used);
    }
    let count = holders[p];
    let news = one_more(count, n);
    if too_many(h, s, n, news) {
        return reply::refused(h, s, number::DAMAGED);
    }
    holders[p] = count + 1;
    rows[at] = had | bits::mask(p);
    gain(h, s, n, news, used)
}

// Bitfield: first of all frames, of the right length, no spare bit.
pub fn bitfield_step(
    h: Head,
    s: Seat,
    rows: &mut [u8],
    holders: &mut [u16],
    i: usize,
    n: usize,
    used: usize,
    said: &[u8],
) -> Stepped
    requires { InTables h n i rows.old holders.old }
    ensures { turn result rows.new holders.new ≡ bitfield_of n i used said.now (around h s rows.old holders.old) }
{
    if !on(s.fresh) {
        return reply::refused(h, s, number::LATE);
    }
    let pieces = wide(h.pieces);
    if said.len() != (pieces + 7) / 8 {
        return reply::refused(h, s, number::BITFIELD);
    }
    if row::spare_set(said, pieces) {
        return reply::refused(h, s, number::SPARE);
    }
    add_step(h, s, rows, holders, i, n, used, said)
}

// The bits, all checks but the last behind them.
fn add_step(
    h: Head,
    s: Seat,
    rows: &mut [u8],
    holders: &mut [u16],
    i: usize,
    n: usize,
    used: usize,
    said: &[u8],
) -> Stepped
    requires { InTables h n i rows.old holders.old × (length said.now ≡ width h.pieces) }
    ensures { turn result rows.new holders.new ≡ announce n i used (bit_at said.now) (with_bits (width h.pieces) i said.now rows.old) (around h s rows.old holders.old) }
{
    let pieces = wide(h.pieces);
    let w = (pieces + 7) / 8;
    let at = i * w;
    let news = row::check_row(rows, said, holders, at, pieces, n as u16);
    if too_many(h, s, n, news) {
        return reply::refused(h, s, number::DAMAGED);
    }
    row::raise_row(rows, said, holders, at, pieces);
    row::merge_row(rows, said, at, w);
    gain(h, s, n, news, used)
}

// One new piece, that has so many holders.
fn one_more(count: u16, n: usize) -> News
    ensures { result ≡ record { added = 1; over = leb n count } }
{
    News {
        added: 1,
        over: n <= count as usize,
    }
}

// Whether a count would pass its top.
fn too_many(h: Head, s: Seat, n: usize, news: News) -> bool
    requires { news.added ≤ 65536 }
    ensures { result ≡ too_many n h s news }
{
    if news.over {
        return true;
    }
    if news.added == 0 {
        return false;
    }
    let sum = held(s) + news.added;
    let pieces = wide(h.pieces);
    if sum < pieces {
        return false;
    }
    if pieces < sum {
        return true;
    }
    n <= wide(h.complete)
}

// The head and the seat with the new pieces.
fn gain(h: Head, s: Seat, n: usize, news: News, used: usize) -> Stepped
    requires { (n ≤ 2000) × (h.pieces ≤ 16384) × (news.added ≤ 65536) × (too_many n h s news ≡ false) }
    ensures { result ≡ gained h s news used }
{
    let sum = held(s) + news.added;
    let mut t = reply::spoken(s);
    t.held = sum as u16;
    if completes(h, s, news) {
        let mut g = h;
        g.complete = h.complete + 1;
        return reply::taken(g, t, used);
    }
    reply::taken(h, t, used)
}

// Whether the truck comes to hold every piece.
fn completes(h: Head, s: Seat, news: News) -> bool
    requires { news.added ≤ 65536 }
    ensures { result ≡ full h s news }
{
    if news.added == 0 {
        return false;
    }
    held(s) + news.added == wide(h.pieces)
}
