// Writers' parts: bytes, as they are and as hex digits, decimal numbers, strings and integers, put at a place of lent output;
// and a byte's escape.
// Where one does not fit, nothing is written; what stands before the place and past the part stays.
#![tactic(auto)]

ghost use Rattle.refusal.specs.Paper.{paper};
ghost use Rattle.std.specs.Prelude.{◌≡◌, ◌∷◌, ◌++◌, ◌+◌, ◌-◌, ◌<◌, ◌≤◌, cond, ltb, length};
ghost use Rattle.std.specs.Result.{MatchResult};
ghost use Rattle.refusal.specs.Numbers.{room};
ghost use Rattle.bencode_scalar.specs.Written.{decimal, written_string, written_int};
ghost use Rattle.bencode_writer.specs.Escaped.{percent, small_hex};
ghost use Rattle.bencode_writer.specs.Put.{left, put_of, place_past, Ran};

use refusal::{Refusal, number, refuse};

// The bytes as they are.
#[tactic(auto, unfolding(crate::specs::Put::put_of))]
pub fn literal(out: &mut [u8], at: usize, bytes: &[u8]) -> Result<usize, Refusal>
    ensures { left (paper result) out.new ≡ put_of bytes.now at out.old }
{
    fits(out.len(), at, bytes.len())?;
    Ok(store(out, at, bytes))
}

// Two small hex digits for each byte.
pub fn small_hex(out: &mut [u8], at: usize, bytes: &[u8]) -> Result<usize, Refusal>
    ensures { left (paper result) out.new ≡ put_of (small_hex bytes.now) at out.old }
{
    fits(out.len(), at, 2 * bytes.len())?;
    Ok(store_small_hex(out, at, bytes))
}

// A number in decimal.
#[tactic(auto, unfolding(crate::specs::Put::put_of))]
pub fn decimal(out: &mut [u8], at: usize, n: u64) -> Result<usize, Refusal>
    ensures { left (paper result) out.new ≡ put_of (decimal n) at out.old }
{
    let count = digits(n);
    fits(out.len(), at, count)?;
    Ok(store_decimal(out, at, count, n))
}

// A string: its length, a colon, its bytes.
pub fn string(out: &mut [u8], at: usize, bytes: &[u8]) -> Result<usize, Refusal>
    ensures { left (paper result) out.new ≡ put_of (written_string bytes.now) at out.old }
{
    joined(out, at, b"", bytes.len() as u64, b':', bytes)
}

// An integer: i, its sign and digits, e.
pub fn integer(out: &mut [u8], at: usize, z: i64) -> Result<usize, Refusal>
    ensures { left (paper result) out.new ≡ put_of (written_int z) at out.old }
{
    if z < 0 {
        joined(out, at, b"i-", z.unsigned_abs(), b'e', b"")
    } else {
        joined(out, at, b"i", z.unsigned_abs(), b'e', b"")
    }
}

// How many digits a number has in decimal.
pub fn digits(n: u64) -> usize
    ensures { (result ≡ length (decimal n)) × (result ≤ 20) }
{
    n.max(1).ilog10() as usize + 1
}

// The place past what was put, and 0 of a refusal: for those who saw that it fits.
pub fn end(put: Result<usize, Refusal>) -> usize
    ensures { result ≡ place_past (paper put) }
{
    put.unwrap_or(0)
}

// A byte as % and two capital hex digits, for what keeps only some bytes plain.
pub fn escape(b: u8) -> [u8; 3]
    ensures { result ≡ percent b }
{
    [b'%', hex(b / 16, b'A' - 10), hex(b % 16, b'A' - 10)]
}

// Some bytes, a number in decimal, a mark, and more bytes.
fn joined(
    out: &mut [u8],
    at: usize,
    before: &[u8],
    n: u64,
    mark: u8,
    after: &[u8],
) -> Result<usize, Refusal>
    requires { length before.now ≤ 2 }
    ensures { left (paper result) out.new ≡ put_of (before.now ++ (decimal n ++ (mark ∷ after.now))) at out.old }
{
    let count = digits(n);
    fits(out.len(), at, before.len() + count + 1 + after.len())?;
    let start = store(out, at, before);
    let end = store_decimal(out, start, count, n);
    out[end] = mark;
    Ok(store(out, end + 1, after))
}

// Whether n bytes from `at` on lie within len bytes. It subtracts, since `at + n` may not fit a usize.
fn fits(len: usize, at: usize, n: usize) -> Result<(), Refusal>
    ensures { MatchResult result (λ _. at + n ≤ len) (λ r. (len < at + n) × (r ≡ record { number = room; place = 0 })) }
{
    if at <= len && n <= len - at {
        Ok(())
    } else {
        Err(refuse(number::ROOM, 0))
    }
}

// Stores bytes that fit, and gives the place past them.
fn store(out: &mut [u8], at: usize, bytes: &[u8]) -> usize
    requires { at + length bytes.now ≤ length out.old }
    ensures { Ran bytes.now at out.old result out.new }
{
    // std's copy would ask C for memmove
    for (i, b) in bytes.iter().enumerate() {
        out[at + i] = *b;
    }
    at + bytes.len()
}

// Stores two small hex digits for each byte, and gives the place past them.
fn store_small_hex(out: &mut [u8], at: usize, bytes: &[u8]) -> usize
    requires { at + length (small_hex bytes.now) ≤ length out.old }
    ensures { Ran (small_hex bytes.now) at out.old result out.new }
{
    let mut to = at;
    for &b in bytes {
        to = store(out, to, &[hex(b / 16, b'a' - 10), hex(b % 16, b'a' - 10)]);
    }
    to
}

// Stores the digits of n, `count` of them, from the last to the first, and gives the place past them.
fn store_decimal(out: &mut [u8], at: usize, count: usize, n: u64) -> usize
    requires { (count ≡ length (decimal n)) × (at + count ≤ length out.old) }
    ensures { Ran (decimal n) at out.old result out.new }
{
    let end = at + count;
    let mut left = n;
    for place in (at..end).rev() {
        out[place] = b'0' + (left % 10) as u8;
        left /= 10;
    }
    end
}

// A hex digit, which from ten on is `past` and n.
fn hex(n: u8, past: u8) -> u8
    requires { (n < 16) × (past ≤ 87) }
    ensures { result ≡ cond (ltb n 10) (48 + n) (past + n) }
{
    if n < 10 { b'0' + n } else { past + n }
}
