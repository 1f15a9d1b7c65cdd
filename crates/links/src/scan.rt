// One pass over a link: where its hash stands, and where dn and tr stand and how many bytes they spell.
ghost use Rattle.std.specs.Prelude.{◌≡◌, cond, [], ◌∷◌, ◌+◌, ◌-◌, ◌<◌, ◌≤◌, eqb, length, take, drop};
ghost use Rattle.links.specs.Reading.{Seen, begun, naming, value, opening, fed, finish, field_of};
ghost use Rattle.links.specs.Places.{ScannedAs, Shows, TurnedAs, answer_at, named_at, closed_at, keeps, kept, whole_of};

use crate::{kinds, values};

// What a name is the name of.
#[derive(Clone, Copy)]
pub enum Field {
    Hash,
    Name,
    Address,
    Other,
}

// Where a value stands, and how many bytes it spells.
#[derive(Clone, Copy)]
pub struct Spelt {
    pub from: usize,
    pub size: usize,
}

// What the pairs so far have said; the hash by its first digit.
#[derive(Clone, Copy)]
pub struct Pass {
    pub hash: Option<Spelt>,
    pub name: Option<Spelt>,
    pub address: Option<Spelt>,
}

// What a text that is not too long says as a link: the place of the hash's first digit, dn and tr; or the place of the
// first fault.
pub fn scan(text: &[u8]) -> Result<(usize, Option<Spelt>, Option<Spelt>), usize>
    ensures { ScannedAs text.now result (finish (fed begun text.now)) }
{
    let start = kinds::word(text, 0, b"magnet:?");
    if start < 8 {
        return Err(start);
    }
    let mut pass = Pass {
        hash: None,
        name: None,
        address: None,
    };
    let mut at = 8;
    loop {
        let (said, next) = pair(text, at, pass)?;
        pass = said;
        match next {
            Some(n) => at = n,
            None => return whole(pass, text.len()),
        }
    }
}

// The pair whose name begins at a place: what the pairs have said then, and where another begins unless the text ends; or
// the place of the first fault.
fn pair(text: &[u8], at: usize, pass: Pass) -> Result<(Pass, Option<usize>), usize>
    requires { at ≤ length text.now }
    ensures { (n : Seen) → Shows text.now pass n → TurnedAs text.now (answer_at text.now at n (naming [])) at result }
{
    let stop = kinds::name_end(text, at);
    if stop == at {
        return Err(at);
    }
    if stop == text.len() {
        return Err(stop);
    }
    if text[stop] != b'=' {
        return Err(stop);
    }
    named(text, at, stop, pass)
}

// The same, where its name goes up to an "=" at `stop`.
fn named(text: &[u8], at: usize, stop: usize, pass: Pass) -> Result<(Pass, Option<usize>), usize>
    requires { (at < stop) × (stop < length text.now) }
    ensures { (n : Seen) → Shows text.now pass n → TurnedAs text.now (named_at text.now at stop n) at result }
{
    let field = field_of(text, at, stop);
    if has(field, pass) {
        return Err(at);
    }
    match field {
        Field::Hash => hash(text, stop + 1, pass),
        Field::Name => value(text, stop + 1, field, pass),
        Field::Address => value(text, stop + 1, field, pass),
        Field::Other => value(text, stop + 1, field, pass),
    }
}

// The value of xt: urn:btih: and 40 hex digits.
fn hash(text: &[u8], from: usize, pass: Pass) -> Result<(Pass, Option<usize>), usize>
    requires { from ≤ length text.now }
    ensures { (n : Seen) → Shows text.now pass n → TurnedAs text.now (answer_at text.now from n (opening Field.Hash)) from result }
{
    let lead = kinds::word(text, from, b"urn:btih:");
    if lead < 9 {
        return Err(from + lead);
    }
    let count = kinds::hash_digits(text, from + 9);
    if count < 40 {
        return Err(from + 9 + count);
    }
    closed(text, from + 49, with(Field::Hash, from + 9, 20, pass))
}

// The value of any other name.
fn value(text: &[u8], from: usize, field: Field, pass: Pass) -> Result<(Pass, Option<usize>), usize>
    requires { from ≤ length text.now }
    ensures { (n : Seen) → Shows text.now pass n → (field ≡ Field.Hash → ⊥) → TurnedAs text.now (answer_at text.now from n (value field [])) from result }
{
    let (to, size) = values::spelt(text, from)?;
    closed(text, to, with(field, from, size, pass))
}

// After a pair that ends at a place.
fn closed(text: &[u8], at: usize, pass: Pass) -> Result<(Pass, Option<usize>), usize>
    requires { at ≤ length text.now }
    ensures { result ≡ closed_at text.now at pass }
{
    if text.len() <= at {
        return Ok((pass, None));
    }
    if text[at] != b'&' {
        return Err(at);
    }
    Ok((pass, Some(at + 1)))
}

// After the last pair, at the end of a text of `count` bytes.
fn whole(pass: Pass, count: usize) -> Result<(usize, Option<Spelt>, Option<Spelt>), usize>
    ensures { result ≡ whole_of pass count }
{
    match pass.hash {
        Some(hash) => Ok((hash.from, pass.name, pass.address)),
        None => Err(count),
    }
}

fn field_of(text: &[u8], at: usize, stop: usize) -> Field
    requires { (at < stop) × (stop < length text.now) }
    ensures { result ≡ field_of (take (stop - at) (drop at text.now)) }
{
    if stop - at != 2 {
        return Field::Other;
    }
    known(text[at], text[at + 1])
}

// By the two letters of a name.
fn known(a: u8, b: u8) -> Field
    ensures { result ≡ field_of (a ∷ b ∷ []) }
{
    if a == b'x' {
        return if_ends(b, b't', Field::Hash);
    }
    if a == b'd' {
        return if_ends(b, b'n', Field::Name);
    }
    if a == b't' {
        return if_ends(b, b'r', Field::Address);
    }
    Field::Other
}

fn if_ends(b: u8, last: u8, field: Field) -> Field
    ensures { result ≡ cond (eqb b last) field Field.Other }
{
    if b == last {
        return field;
    }
    Field::Other
}

// Whether the pairs so far have said it.
fn has(field: Field, pass: Pass) -> bool
    ensures { result ≡ keeps field pass }
{
    match field {
        Field::Hash => pass.hash.is_some(),
        Field::Name => pass.name.is_some(),
        Field::Address => pass.address.is_some(),
        Field::Other => false,
    }
}

// What is said with one value more.
fn with(field: Field, from: usize, size: usize, pass: Pass) -> Pass
    ensures { result ≡ kept field (record { from = from; size = size }) pass }
{
    let value = Some(Spelt { from, size });
    match field {
        Field::Hash => Pass {
            hash: value,
            ..pass
        },
        Field::Name => Pass {
            name: value,
            ..pass
        },
        Field::Address => Pass {
            address: value,
            ..pass
        },
        Field::Other => pass,
    }
}
