// A bitfield beside the row of its seat: what it brings, byte by byte. A byte that brings nothing new is passed by.
ghost use Rattle.std.specs.Prelude.{◌≡◌, not, ◌&&◌, List, ℕ, ◌<◌, ◌≤◌, ◌+◌, ◌*◌, ◌/◌, ◌%◌, length};
ghost use Rattle.yard_tables.specs.Frames.{spare_set};
ghost use Rattle.yard_tables.specs.Rows.{digit};
ghost use Rattle.yard_hearing.specs.Passes.{noted, checked, up, raised, merged};

use yard_tables::bits;

// How many pieces are new, and whether one of them has as many holders as it may.
#[derive(Clone, Copy)]
pub struct News {
    pub added: usize,
    pub over: bool,
}

// First pass: all pieces are looked at, and nothing changes. The row stands from byte `at` on.
pub fn check_row(
    rows: &[u8],
    said: &[u8],
    holders: &[u16],
    at: usize,
    pieces: usize,
    top: u16,
) -> News
    requires { (at + (pieces + 7) / 8 ≤ length rows.now) × ((pieces + 7) / 8 ≤ length said.now) × (pieces ≤ length holders.now) × (pieces ≤ 65536) }
    ensures { result ≡ checked rows.now at said.now holders.now top pieces }
{
    let mut news = News {
        added: 0,
        over: false,
    };
    for k in 0..(pieces + 7) / 8 {
        let p = 8 * k;
        let end = bits::end_of(p, pieces);
        news = check_byte(rows, said, holders, at, p, end, top, news);
    }
    news
}

// Second pass: the holder counts of the new pieces. The row is still as it was.
pub fn raise_row(rows: &[u8], said: &[u8], holders: &mut [u16], at: usize, pieces: usize)
    requires { (at + (pieces + 7) / 8 ≤ length rows.now) × ((pieces + 7) / 8 ≤ length said.now) × (pieces ≤ length holders.old) × (pieces ≤ 65536) }
    ensures { holders.new ≡ raised rows.now at said.now pieces holders.old }
{
    for k in 0..(pieces + 7) / 8 {
        let p = 8 * k;
        let end = bits::end_of(p, pieces);
        raise_byte(rows, said, holders, at, p, end);
    }
}

// Third pass: the row itself, of n bytes.
pub fn merge_row(rows: &mut [u8], said: &[u8], at: usize, n: usize)
    requires { (at + n ≤ length rows.old) × (n ≤ length said.now) }
    ensures { rows.new ≡ merged at said.now n rows.old }
{
    for k in 0..n {
        rows[at + k] |= said[k];
    }
}

// Whether a bit is set past the last piece.
pub fn spare_set(said: &[u8], pieces: usize) -> bool
    requires { (pieces ≤ 8 * length said.now) × (length said.now < 65536) }
    ensures { result ≡ spare_set pieces said.now }
{
    for p in pieces..8 * said.len() {
        if bits::bit_of(said[p / 8], p) {
            return true;
        }
    }
    false
}

// The pieces from p to end, all of one byte.
fn check_byte(
    rows: &[u8],
    said: &[u8],
    holders: &[u16],
    at: usize,
    p: usize,
    end: usize,
    top: u16,
    before: News,
) -> News
    requires { (at + p / 8 < length rows.now) × (p / 8 < length said.now) × (end ≤ length holders.now) × (p ≤ end) × (end ≤ p + 8) × (p % 8 ≡ 0) × (end ≤ 65536)
        × (before ≡ checked rows.now at said.now holders.now top p) }
    ensures { result ≡ checked rows.now at said.now holders.now top end }
{
    let new = new_bits(rows[at + p / 8], said[p / 8]);
    if new == 0 {
        return before;
    }
    let mut news = before;
    for q in p..end {
        news = note(news, bits::bit_of(new, q), holders[q], top);
    }
    news
}

// What a byte that is said brings to one that is had.
fn new_bits(had: u8, says: u8) -> u8
    ensures { (k : ℕ) → k < 8 → digit k result ≡ (digit k says && not (digit k had)) }
{
    says & !had
}

// One piece more, new or not. `|` looks at both sides, so that no branch is left but the one.
fn note(a: News, new: bool, holders: u16, top: u16) -> News
    requires { a.added ≤ 65536 }
    ensures { result ≡ noted a new holders top }
{
    if new {
        return News {
            added: a.added + 1,
            over: a.over | (top <= holders),
        };
    }
    a
}

fn raise_byte(rows: &[u8], said: &[u8], holders: &mut [u16], at: usize, p: usize, end: usize)
    requires { (at + p / 8 < length rows.now) × (p / 8 < length said.now) × (end ≤ length holders.old) × (p ≤ end) × (end ≤ p + 8) × (p % 8 ≡ 0) × (end ≤ 65536) }
    ensures { (l : List ℕ) → holders.old ≡ raised rows.now at said.now p l → holders.new ≡ raised rows.now at said.now end l }
{
    let new = new_bits(rows[at + p / 8], said[p / 8]);
    if new == 0 {
        return;
    }
    for q in p..end {
        holders[q] = raise(holders[q], bits::bit_of(new, q));
    }
}

// A count, one up for a new piece. No count that was checked is near the end of its 16 bits.
fn raise(count: u16, new: bool) -> u16
    ensures { result ≡ up new count }
{
    if new {
        return count.saturating_add(1);
    }
    count
}
