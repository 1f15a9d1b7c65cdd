// Strings and integers of BEP 3: read at a place of a text, and ordered as keys.
#![tactic(auto)]

ghost use Rattle.std.specs.Prelude.{◌≡◌, true, ℕ, ◌+◌, ◌-◌, ◌<◌, ◌≤◌, min, pred, [], pos, negsuc, Ok, length, drop};
ghost use Rattle.std.specs.Result.{MatchResult};
ghost use Rattle.refusal.specs.Numbers.{cut};
ghost use Rattle.bencode_scalar.specs.declared.Int.TheVariants.{Is, Large};
ghost use Rattle.bencode_scalar.specs.Written.{key_lt};
ghost use Rattle.bencode_scalar.specs.Reading.{got, is_digit, digits_val, digits_len, num_val, num_len, string_at, minus_at, integer_at};
ghost use Rattle.bencode_scalar.specs.Answers.{text_of, integer_is};
ghost use Rattle.bencode_scalar.specs.Steps.{top, ByteAt, Missing, Closes};

use refusal::{Part, Refusal, number, refuse};

// An integer and the place past it; one outside 64 bits has only that place.
#[derive(Clone, Copy, Debug, PartialEq, Eq)]
pub enum Int {
    Is(i64, usize),
    Large(usize),
}

// Whether a byte is a decimal digit.
pub fn digit(b: u8) -> bool
    ensures { result ≡ is_digit b }
{
    b.is_ascii_digit()
}

// The string that begins at `at`.
pub fn string(text: &[u8], at: usize) -> Result<Part, Refusal>
    ensures { (n : ℕ) → text_of text.now n result ≡ string_at (length text.now) (drop at text.now) at n }
{
    let first = byte_at(text, at)?;
    if !digit(first) {
        return Err(refuse(number::BYTE, at));
    }
    let run = number_from(text, first, at + 1);
    expect(text, run.next, b':')?;
    let from = run.next + 1;
    if ((text.len() - from) as u64) < run.value {
        return Err(refuse(number::CUT, text.len()));
    }
    Ok(Part {
        from,
        len: run.value as usize,
    })
}

// The integer, of any length, that begins at `at`.
#[tactic(auto, unfolding(crate::specs::Reading::integer_of))]
pub fn integer(text: &[u8], at: usize) -> Result<Int, Refusal>
    ensures { (n : ℕ) → result ≡ integer_is (integer_at (length text.now) (drop at text.now) at n) }
{
    expect(text, at, b'i')?;
    let p = at + 1;
    let first = byte_at(text, p)?;
    if first == b'-' {
        return negative(text, p + 1);
    }
    if !digit(first) {
        return Err(refuse(number::BYTE, p));
    }
    let run = closed(text, first, p + 1)?;
    Ok(from_zero(run))
}

// Whether one key comes before another.
pub fn precedes(a: &[u8], b: &[u8]) -> bool
    ensures { result ≡ key_lt a.now b.now }
{
    for (x, y) in a.iter().zip(b) {
        let (x, y) = (*x, *y);
        if x != y {
            return x < y;
        }
    }
    a.len() < b.len()
}

// The byte at `at`.
fn byte_at(text: &[u8], at: usize) -> Result<u8, Refusal>
    ensures { MatchResult result (λ b. ByteAt text.now at b) (λ r. (length text.now ≤ at) × (r ≡ record { number = cut; place = length text.now })) }
{
    if at < text.len() {
        Ok(text[at])
    } else {
        Err(refuse(number::CUT, text.len()))
    }
}

// Whether b stands at `at`.
fn expect(text: &[u8], at: usize, b: u8) -> Result<(), Refusal>
    ensures { MatchResult result (λ _. ByteAt text.now at b) (Missing text.now at b) }
{
    if byte_at(text, at)? == b {
        Ok(())
    } else {
        Err(refuse(number::BYTE, at))
    }
}

// The rest of an integer, from after its minus on.
fn negative(text: &[u8], at: usize) -> Result<Int, Refusal>
    ensures { (n : ℕ) → result ≡ integer_is (minus_at (length text.now) (drop at text.now) at n) }
{
    let first = byte_at(text, at)?;
    if first == b'0' || !digit(first) {
        return Err(refuse(number::BYTE, at));
    }
    let run = closed(text, first, at + 1)?;
    Ok(below_zero(run))
}

// The rest of an integer whose first digit b stands before `at`: its number, and the place past its e.
fn closed(text: &[u8], b: u8, at: usize) -> Result<Run, Refusal>
    requires { (at ≤ length text.now) × (is_digit b ≡ true) }
    ensures { Closes text.now b at result }
{
    let run = number_from(text, b, at);
    expect(text, run.next, b'e')?;
    Ok(Run {
        value: run.value,
        next: run.next + 1,
    })
}

// The integer n of that run.
fn from_zero(run: Run) -> Int
    ensures { (n : ℕ) → run.value ≡ min n top → Ok result ≡ integer_is (got (pos n) [] run.next 0) }
{
    if run.value < 9223372036854775808 {
        Int::Is(run.value as i64, run.next)
    } else {
        Int::Large(run.next)
    }
}

// The integer -n of that run.
fn below_zero(run: Run) -> Int
    requires { 1 ≤ run.value }
    ensures { (n : ℕ) → run.value ≡ min n top → Ok result ≡ integer_is (got (negsuc (pred n)) [] run.next 0) }
{
    let less = run.value - 1;
    if less < 9223372036854775808 {
        Int::Is(-1 - less as i64, run.next)
    } else {
        Int::Large(run.next)
    }
}

// The number that a run of digits stands for, or the greatest of 64 bits if it is above that, and where the run ends.
#[derive(Clone, Copy)]
struct Run {
    value: u64,
    next: usize,
}

// The number whose first digit b stands before `at`.
fn number_from(text: &[u8], b: u8, at: usize) -> Run
    requires { (at ≤ length text.now) × (is_digit b ≡ true) }
    ensures { (result.value ≡ min (num_val b (drop at text.now)) top) × (result.next ≡ at + num_len b (drop at text.now)) }
{
    if b == b'0' {
        Run { value: 0, next: at }
    } else {
        digits(text, at, (b - b'0') as u64)
    }
}

// The run of digits from `at` on, whose first digits stand for `acc`. Those past the greatest number are only passed.
fn digits(text: &[u8], at: usize, acc: u64) -> Run
    requires { (at ≤ length text.now) × (acc < 10) }
    ensures { (result.value ≡ min (digits_val acc (drop at text.now)) top) × (result.next ≡ at + digits_len (drop at text.now)) }
{
    let mut value = acc;
    for i in at..text.len() {
        let b = text[i];
        if !digit(b) {
            return Run { value, next: i };
        }
        if value == u64::MAX {
            return Run {
                value,
                next: run_end(text, i),
            };
        }
        value = value.saturating_mul(10).saturating_add((b - b'0') as u64);
    }
    Run {
        value,
        next: text.len(),
    }
}

// Where the run of digits from `at` on ends.
fn run_end(text: &[u8], at: usize) -> usize
    requires { at ≤ length text.now }
    ensures { result ≡ at + digits_len (drop at text.now) }
{
    for i in at..text.len() {
        if !digit(text[i]) {
            return i;
        }
    }
    text.len()
}
