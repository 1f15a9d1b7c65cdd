// Passes over one row and the holder counts, a byte of the row at a time. `at` is the row's first byte.
ghost use Rattle.std.specs.Prelude.{◌≡◌, List, ℕ, ◌<◌, ◌≤◌, ◌+◌, ◌-◌, ◌/◌, ◌%◌, length, replicate};
ghost use Rattle.std.proofs.lemmas.List.Edits.{sets};
ghost use Rattle.yard_tables.specs.Rows.{width};
ghost use Rattle.yard_seating.specs.Steps.{some_zero, lowered};

use yard_tables::{Head, bits, leaving};

// The bytes of a row.
pub fn width(h: Head) -> usize
    ensures { result ≡ width h.pieces }
{
    (h.pieces as usize + 7) / 8
}

// The n bytes at `at` become 0.
pub fn clear(rows: &mut [u8], at: usize, n: usize)
    requires { at + n ≤ length rows.old }
    ensures { rows.new ≡ sets rows.old at (replicate n 0) }
{
    rows[at..at + n].fill(0);
}

// Whether a piece of the row has no holder.
pub fn some_zero(rows: &[u8], holders: &[u16], at: usize, pieces: usize) -> bool
    requires { (at + (pieces + 7) / 8 ≤ length rows.now) × (pieces ≤ length holders.now) × (pieces ≤ 65536) }
    ensures { result ≡ some_zero rows.now at holders.now pieces }
{
    let mut found = false;
    for k in 0..(pieces + 7) / 8 {
        let p = 8 * k;
        let end = bits::end_of(p, pieces);
        found = byte_zero(rows, holders, at, p, end, found);
    }
    found
}

// The count of each piece of the row, one down.
pub fn lower(rows: &[u8], holders: &mut [u16], at: usize, pieces: usize)
    requires { (at + (pieces + 7) / 8 ≤ length rows.now) × (pieces ≤ length holders.old) × (pieces ≤ 65536) }
    ensures { holders.new ≡ lowered rows.now at pieces holders.old }
{
    for k in 0..(pieces + 7) / 8 {
        let p = 8 * k;
        let end = bits::end_of(p, pieces);
        lower_byte(rows, holders, at, p, end);
    }
}

// The pieces from p to end, all of one byte; found is what was found below p.
fn byte_zero(rows: &[u8], holders: &[u16], at: usize, p: usize, end: usize, found: bool) -> bool
    requires { (at + p / 8 < length rows.now) × (end ≤ length holders.now) × (p ≤ end) × (end ≤ p + 8) × (p % 8 ≡ 0) × (end ≤ 65536)
        × (found ≡ some_zero rows.now at holders.now p) }
    ensures { result ≡ some_zero rows.now at holders.now end }
{
    let byte = rows[at + p / 8];
    if byte == 0 {
        return found;
    }
    let mut any = found;
    for q in p..end {
        any |= bits::bit_of(byte, q) & (holders[q] == 0);
    }
    any
}

fn lower_byte(rows: &[u8], holders: &mut [u16], at: usize, p: usize, end: usize)
    requires { (at + p / 8 < length rows.now) × (end ≤ length holders.old) × (p ≤ end) × (end ≤ p + 8) × (p % 8 ≡ 0) × (end ≤ 65536) }
    ensures { (c : List ℕ) → holders.old ≡ lowered rows.now at p c → holders.new ≡ lowered rows.now at end c }
{
    let byte = rows[at + p / 8];
    if byte == 0 {
        return;
    }
    for q in p..end {
        holders[q] = leaving::lower_to(holders[q], bits::bit_of(byte, q));
    }
}
