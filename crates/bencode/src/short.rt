// The short ways past a string or an integer, which `value` reads too. Each answer is one number, which stays in a register; an enum's goes through memory.
ghost use Rattle.std.specs.Prelude.{Ok, ◌≡◌, true, ℕ, ◌+◌, ◌*◌, ◌-◌, ◌<◌, ◌≤◌, length, get_or, drop};
ghost use Rattle.bencode_scalar.specs.Reading.{is_digit, digits_val, digits_len, string_at, minus_at, integer_at};
ghost use Rattle.bencode_scalar.specs.Answers.{text_of};
ghost use Rattle.bencode.specs.Decode.{value_from};
ghost use Rattle.bencode.specs.Answers.{step_of, Held, Ended};

use refusal::limit;

// Whether a string or an integer may begin at `at`.
pub fn plain(text: &[u8], at: usize) -> bool
    ensures { result ≡ true → at < length text.now }
{
    if text.len() <= at {
        return false;
    }
    let b = text[at];
    if b == b'i' {
        return true;
    }
    b < 58
}

// The place past the string or integer at `at`, after `count` values, where it is whole and no integer of more than 19 digits; 0 where `value` is to tell.
pub fn leaf(text: &[u8], at: usize, count: usize) -> usize
    requires { at < length text.now }
    ensures { (result ≡ 0 → ⊥) → (count < 16384) × ((levels : ℕ) → Ok (record { at = result; count = count + 1 }) ≡ step_of (value_from levels (length text.now) (drop at text.now) at count)) }
{
    if limit::VALUES <= count {
        return 0;
    }
    let b = text[at];
    if b == b'i' {
        return integer(text, at);
    }
    if bencode_scalar::digit(b) {
        return string(text, at);
    }
    0
}

// How many bytes the string at `at` has, where it is whole and its length has one digit; 100 where not.
pub fn one_digit(text: &[u8], at: usize) -> usize
    requires { at < length text.now }
    ensures { (n : ℕ) → result < 100 → text_of text.now n (Ok (record { from = at + 2; len = result })) ≡ string_at (length text.now) (drop at text.now) at n }
{
    if text.len() - at < 2 {
        return 100;
    }
    let a = text[at];
    if text[at + 1] == b':' {
        if bencode_scalar::digit(a) {
            return within(text, at + 2, units(a));
        }
    }
    100
}

// The same where its length has two digits.
pub fn two_digits(text: &[u8], at: usize) -> usize
    requires { at < length text.now }
    ensures { (n : ℕ) → result < 100 → text_of text.now n (Ok (record { from = at + 3; len = result })) ≡ string_at (length text.now) (drop at text.now) at n }
{
    if text.len() - at < 3 {
        return 100;
    }
    let a = text[at];
    let b = text[at + 1];
    if text[at + 2] == b':' {
        if bencode_scalar::digit(a) {
            if a != b'0' {
                if bencode_scalar::digit(b) {
                    return within(text, at + 3, tens(a, b));
                }
            }
        }
    }
    100
}

// The size itself, where so many bytes stand from `from` on; 100 where not.
fn within(text: &[u8], from: usize, size: usize) -> usize
    requires { from ≤ length text.now }
    ensures { result < 100 → (result ≡ size) × (from + size ≤ length text.now) }
{
    if text.len() - from < size {
        return 100;
    }
    size
}

// What a digit stands for.
fn units(b: u8) -> usize
    requires { is_digit b ≡ true }
    ensures { (result ≡ b - 48) × (result < 10) }
{
    b as usize - 48
}

// What two digits stand for.
fn tens(a: u8, b: u8) -> usize
    requires { (is_digit a ≡ true) × (is_digit b ≡ true) }
    ensures { result ≡ (a - 48) * 10 + (b - 48) }
{
    units(a) * 10 + units(b)
}

// The place past the string whose first digit stands at `at`, where it is whole; 0 where not.
fn string(text: &[u8], at: usize) -> usize
    requires { (at < length text.now) × (is_digit (get_or text.now at 0) ≡ true) }
    ensures { (n : ℕ) → (result ≡ 0 → ⊥) → Ok (record { at = result; count = n }) ≡ step_of (string_at (length text.now) (drop at text.now) at n) }
{
    let b = text[at];
    if b == b'0' {
        return held(text, at + 1, 0);
    }
    sized(text, at + 1, units(b))
}

// The place past the digits from `at` on, a colon and as many bytes as they stand for with `acc`, for those before; 0 where these are not there.
fn sized(text: &[u8], at: usize, acc: usize) -> usize
    requires { (at ≤ length text.now) × (acc < 10) }
    ensures { (result ≡ 0 → ⊥) → Held text.now (at + digits_len (drop at text.now)) (digits_val acc (drop at text.now)) result }
{
    let mut size = acc;
    for i in at..text.len() {
        let b = text[i];
        if !bencode_scalar::digit(b) {
            return held(text, i, size);
        }
        if 1000000000000000000 <= size {
            return 0;
        }
        size = size * 10 + units(b);
    }
    0
}

// The place past a string's colon at `at` and `size` bytes; 0 where these are not there.
fn held(text: &[u8], at: usize, size: usize) -> usize
    requires { at ≤ length text.now }
    ensures { (result ≡ 0 → ⊥) → Held text.now at size result }
{
    if text.len() <= at {
        return 0;
    }
    if text[at] == b':' {
        if size <= text.len() - (at + 1) {
            return at + 1 + size;
        }
    }
    0
}

// The place past the integer whose i stands at `at`, where it is whole and has at most 19 digits; 0 where not.
fn integer(text: &[u8], at: usize) -> usize
    requires { (at < length text.now) × (get_or text.now at 0 ≡ 105) }
    ensures { (n : ℕ) → (result ≡ 0 → ⊥) → Ok (record { at = result; count = n }) ≡ step_of (integer_at (length text.now) (drop at text.now) at n) }
{
    if text.len() - at < 3 {
        return 0;
    }
    let first = text[at + 1];
    if first == b'-' {
        return negative(text, at + 2);
    }
    if first == b'0' {
        return closing(text, at + 2);
    }
    if bencode_scalar::digit(first) {
        return digits(text, at + 2);
    }
    0
}

// The place past the integer whose minus stands before `at`, where it is whole and has at most 19 digits; 0 where not.
fn negative(text: &[u8], at: usize) -> usize
    requires { at < length text.now }
    ensures { (n : ℕ) → (result ≡ 0 → ⊥) → Ok (record { at = result; count = n }) ≡ step_of (minus_at (length text.now) (drop at text.now) at n) }
{
    let b = text[at];
    if b == b'0' {
        return 0;
    }
    if bencode_scalar::digit(b) {
        return digits(text, at + 1);
    }
    0
}

// The place past the digits from `at` on and their e; 0 where there is none, or where they are more than eighteen.
fn digits(text: &[u8], at: usize) -> usize
    requires { at ≤ length text.now }
    ensures { (result ≡ 0 → ⊥) → Ended text.now (at + digits_len (drop at text.now)) result }
{
    for i in at..text.len() {
        if !bencode_scalar::digit(text[i]) {
            return closing(text, i);
        }
        // past these `value` goes in one go, and a run that has no end is not read twice
        if 18 <= i - at {
            return 0;
        }
    }
    0
}

// The place past an integer's e at `at`; 0 where there is none.
fn closing(text: &[u8], at: usize) -> usize
    requires { at < length text.now }
    ensures { (result ≡ 0 → ⊥) → Ended text.now at result }
{
    if text[at] == b'e' {
        return at + 1;
    }
    0
}
