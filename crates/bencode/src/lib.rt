// Bencode read by BEP 3 and document 01: whether a text is the encoding of a value that keeps the limits.
#![tactic(auto)]

mod short;

ghost use Rattle.refusal.specs.Paper.{paper};
ghost use Rattle.refusal.specs.Parts.{bytes_at};
ghost use Rattle.std.specs.Prelude.{◌≡◌, suc, ◌+◌, ◌^◌, ◌<◌, ◌≤◌, length, drop};
ghost use Rattle.bencode.specs.Value.{start, follows};
ghost use Rattle.bencode.specs.Decode.{kind_of, begun, key_of, items_of, entries_of, value_from};
ghost use Rattle.bencode_scalar.specs.Reading.{string_at, integer_at};
ghost use Rattle.bencode.specs.Answers.{check_of, step_of, Inside, prev_of, key_is, told, inside};
ghost use Rattle.bencode.specs.Exact.{Exactly};

use bencode_scalar::Int;
use refusal::{Part, Refusal, limit, number, refuse};

// A place of the text, and how many values have begun before it.
#[derive(Clone, Copy)]
pub struct Cursor {
    pub at: usize,
    pub count: usize,
}

// Whether a text is one value that keeps the limits.
pub fn check(text: &[u8]) -> Result<usize, Refusal>
    ensures meets { paper result ≡ check_of text.now }
    ensures exact { Exactly text.now (paper result) }
{
    if limit::TEXT < text.len() {
        return Err(refuse(number::LONG, 0));
    }
    let c = value(text, Cursor { at: 0, count: 0 }, limit::LEVELS)?;
    let at = c.at;
    if at < text.len() {
        return Err(refuse(number::AFTER, at));
    }
    Ok(c.count)
}

// The value that begins at the cursor, where `levels` more lists and dictionaries may stand in each other.
pub fn value(text: &[u8], c: Cursor, levels: usize) -> Result<Cursor, Refusal>
    ensures { result ≡ step_of (value_from levels (length text.now) (drop c.at text.now) c.at c.count) }
{
    let mut cell = 0;
    let end = inner(text, c.at, c.count, levels, &mut cell);
    step_told(end, cell)
}

// The value that begins at `at`, after `count` others: the place past it, with the count left in `cell`; or 2^63 and a refusal's number, with its place there. A number stays in a register, where an enum goes through memory; no text has 2^63 bytes.
#[cycle(dictionary_inner_list)]
fn inner(text: &[u8], at: usize, count: usize, levels: usize, cell: &mut usize) -> usize
    ensures { told result cell.new ≡ step_of (value_from levels (length text.now) (drop at text.now) at count) }
{
    if text.len() <= at {
        return fail(cell, number::CUT, text.len());
    }
    let b = text[at];
    if begins(b) {
        if limit::VALUES <= count {
            return fail(cell, number::MANY, at);
        }
        if b == b'i' {
            return tell(cell, integer(text, at, count + 1));
        }
        if bencode_scalar::digit(b) {
            return tell(cell, string(text, at, count + 1));
        }
        if levels == 0 {
            return fail(cell, number::DEEP, at);
        }
        if b == b'l' {
            return list(text, at + 1, count + 1, levels - 1, cell);
        }
        return dictionary(text, at + 1, count + 1, levels - 1, cell);
    }
    fail(cell, number::BYTE, at)
}

// The items of a list from `from` on, after `others` values, and its e.
#[cycle(dictionary_inner_list)]
fn list(text: &[u8], from: usize, others: usize, levels: usize, cell: &mut usize) -> usize
    ensures { told result cell.new ≡ step_of (items_of (suc (length text.now)) (value_from levels (length text.now)) (length text.now) (drop from text.now) from others) }
{
    let mut at = from;
    let mut count = others;
    while at < text.len() {
        if text[at] == b'e' {
            return past(cell, at + 1, count);
        }
        if short::plain(text, at) {
            let end = short::leaf(text, at, count);
            if end != 0 {
                at = end;
                count += 1;
                continue;
            }
        }
        let end = inner(text, at, count, levels, cell);
        if 9223372036854775808 <= end {
            return end;
        }
        at = end;
        count = *cell;
    }
    fail(cell, number::CUT, text.len())
}

// The entries of a dictionary from `from` on, after `others` values, and its e.
#[cycle(dictionary_inner_list)]
fn dictionary(text: &[u8], from: usize, others: usize, levels: usize, cell: &mut usize) -> usize
    ensures { told result cell.new ≡ step_of (entries_of (suc (length text.now)) (value_from levels (length text.now)) (length text.now) start (drop from text.now) from others) }
{
    let mut at = from;
    let mut count = others;
    let mut before: Option<Part> = None;
    while at < text.len() {
        if text[at] == b'e' {
            return past(cell, at + 1, count);
        }
        match next_key(text, at, count, before) {
            Ok(key) => {
                before = Some(key);
                at = key.from + key.len;
                count += 1;
                if short::plain(text, at) {
                    let end = short::leaf(text, at, count);
                    if end != 0 {
                        at = end;
                        count += 1;
                        continue;
                    }
                }
                let end = inner(text, at, count, levels, cell);
                if 9223372036854775808 <= end {
                    return end;
                }
                at = end;
                count = *cell;
            }
            Err(r) => return fail(cell, r.number, r.place),
        }
    }
    fail(cell, number::CUT, text.len())
}

// The key that begins at `at`, to come after the one before, if there is one.
fn next_key(text: &[u8], at: usize, count: usize, before: Option<Part>) -> Result<Part, Refusal>
    requires { (at < length text.now) × Inside text.now before }
    ensures { key_is text.now count result ≡ key_of (length text.now) (prev_of text.now before) (drop at text.now) at count }
{
    let key = key_at(text, at, count)?;
    if may_follow(text, before, key) {
        return Ok(key);
    }
    Err(refuse(number::ORDER, at))
}

// The key that begins at `at`, as the first one may.
fn key_at(text: &[u8], at: usize, count: usize) -> Result<Part, Refusal>
    requires { at < length text.now }
    ensures { key_is text.now count result ≡ key_of (length text.now) start (drop at text.now) at count }
{
    if bencode_scalar::digit(text[at]) {
        if limit::VALUES <= count {
            return Err(refuse(number::MANY, at));
        }
        let few = short::one_digit(text, at);
        if few < 100 {
            return Ok(Part {
                from: at + 2,
                len: few,
            });
        }
        let some = short::two_digits(text, at);
        if some < 100 {
            return Ok(Part {
                from: at + 3,
                len: some,
            });
        }
        return bencode_scalar::string(text, at);
    }
    Err(refuse(number::BYTE, at))
}

// Whether a key may come after the one before, if there is one.
fn may_follow(text: &[u8], before: Option<Part>, key: Part) -> bool
    requires { Inside text.now before × (key.from + key.len ≤ length text.now) }
    ensures { result ≡ follows (prev_of text.now before) (bytes_at text.now key) }
{
    let Some(last) = before else { return true };
    bencode_scalar::precedes(
        &text[last.from..last.from + last.len],
        &text[key.from..key.from + key.len],
    )
}

// The integer whose i stands at `at`, as value number `count`.
fn integer(text: &[u8], at: usize, count: usize) -> Result<Cursor, Refusal>
    ensures { result ≡ step_of (integer_at (length text.now) (drop at text.now) at count) }
{
    match bencode_scalar::integer(text, at)? {
        Int::Is(_, next) => passed(next, count),
        Int::Large(next) => passed(next, count),
    }
}

// The string that begins at `at`, as value number `count`.
fn string(text: &[u8], at: usize, count: usize) -> Result<Cursor, Refusal>
    requires { at ≤ length text.now }
    ensures { result ≡ step_of (string_at (length text.now) (drop at text.now) at count) }
{
    let part = bencode_scalar::string(text, at)?;
    passed(part.from + part.len, count)
}

// A step as such a number, with the count or the refusal's place left in `cell`.
fn tell(cell: &mut usize, s: Result<Cursor, Refusal>) -> usize
    ensures { inside s → told result cell.new ≡ s }
{
    match s {
        Ok(c) => past(cell, c.at, c.count),
        Err(r) => fail(cell, r.number, r.place),
    }
}

// The step that such a number tells, with what is left in the cell.
fn step_told(end: usize, left: usize) -> Result<Cursor, Refusal>
    ensures { result ≡ told end left }
{
    if end < 9223372036854775808 {
        return passed(end, left);
    }
    Err(refuse((end % 256) as u8, left))
}

fn past(cell: &mut usize, at: usize, count: usize) -> usize
    ensures { at < 2 ^ 63 → told result cell.new ≡ Ok (record { at = at; count = count }) }
{
    *cell = count;
    at
}

fn fail(cell: &mut usize, number: u8, place: usize) -> usize
    ensures { told result cell.new ≡ Err (record { number = number; place = place }) }
{
    *cell = place;
    9223372036854775808 + number as usize
}

// Whether a value can begin with this byte.
fn begins(b: u8) -> bool
    ensures { result ≡ begun (kind_of b) }
{
    if b == b'i' {
        return true;
    }
    if b == b'l' {
        return true;
    }
    if b == b'd' {
        return true;
    }
    bencode_scalar::digit(b)
}

fn passed(at: usize, count: usize) -> Result<Cursor, Refusal>
    ensures { result ≡ Ok (record { at = at; count = count }) }
{
    Ok(Cursor { at, count })
}
