// A walk over a bencode text: what stands at a place, and where the next thing stands. Every call answers for any text
// and any place, for a text that is too long by 8; on one that `bencode::check` has taken, what it tells is the text's
// value, part by part.
#![tactic(auto)]

ghost use Rattle.refusal.specs.Paper.{paper};
ghost use Rattle.std.specs.Prelude.{Ok, ◌≡◌, suc, ◌+◌, ◌-◌, ◌≤◌, min, length};
ghost use Rattle.refusal.specs.Parts.{bytes_at};
ghost use Rattle.bencode_walk.specs.Walk.{seen_paper, string_seen, integer_seen, look_of, entry_paper, entry_of, skip_of, seek_paper, seek_of};

use bencode::Cursor;
use bencode_scalar::Int;
use refusal::{Part, Refusal, limit, number, refuse};

// What stands at a place. The last number is the place past it; of a list or dictionary it is the place of the first
// item or key, or of the e.
#[derive(Clone, Copy)]
pub enum Seen {
    String(Part, usize),
    Integer(i64, usize),
    // An integer outside 64 bits, by its sign and digits.
    Long(Part, usize),
    List(usize),
    Dictionary(usize),
    End(usize),
}

// What stands where a dictionary's next entry may begin: a key's bytes and the place of its value, or the e and the place past it.
#[derive(Clone, Copy)]
pub enum Next {
    Key(Part, usize),
    Close(usize),
}

// Where a key was found, by the places of its entry and its value, or where it would stand.
#[derive(Clone, Copy)]
pub enum Sought {
    Found(usize, usize),
    Missing(usize),
}

// What stands at a place.
pub fn look(text: &[u8], at: usize) -> Result<Seen, Refusal>
    ensures { seen_paper result ≡ look_of text.now at }
{
    if limit::TEXT < text.len() {
        return Err(refuse(number::LONG, 0)); // wherever it is looked at
    }
    if text.len() <= at {
        return Err(refuse(number::CUT, text.len()));
    }
    let b = text[at];
    if b == b'i' {
        return integer(text, at);
    }
    if b == b'l' {
        return Ok(Seen::List(at + 1));
    }
    if b == b'd' {
        return Ok(Seen::Dictionary(at + 1));
    }
    if b == b'e' {
        return Ok(Seen::End(at + 1));
    }
    string(text, at)
}

// What stands where an entry of a dictionary, or its e, is due.
pub fn entry(text: &[u8], at: usize) -> Result<Next, Refusal>
    ensures { entry_paper result ≡ entry_of text.now at }
{
    match look(text, at)? {
        Seen::String(key, value) => Ok(Next::Key(key, value)),
        Seen::End(past) => Ok(Next::Close(past)),
        _ => Err(refuse(number::BYTE, at)),
    }
}

// Where a key stands among the entries from a place on: they ascend, so it stops at the first key that is not before it.
// A later key may be sought from the place where this one was found or missed.
pub fn seek(text: &[u8], at: usize, key: &[u8]) -> Result<Sought, Refusal>
    ensures { seek_paper result ≡ seek_of (suc (length text.now)) text.now at key.now }
{
    let mut p = at;
    loop {
        match entry(text, p)? {
            Next::Key(k, value) => {
                let here = bytes(text, k);
                if bencode_scalar::precedes(here, key) {
                    p = skip(text, value)?;
                } else if here == key {
                    return Ok(Sought::Found(p, value));
                } else {
                    return Ok(Sought::Missing(p));
                }
            }
            Next::Close(_) => return Ok(Sought::Missing(p)),
        }
    }
}

// The place past the value at a place, whatever it holds.
pub fn skip(text: &[u8], at: usize) -> Result<usize, Refusal>
    ensures { paper result ≡ skip_of text.now at }
{
    if limit::TEXT < text.len() {
        return Err(refuse(number::LONG, 0));
    }
    let c = bencode::value(text, Cursor { at, count: 0 }, limit::LEVELS)?;
    Ok(c.at)
}

// The very part of the text, as far as the text goes.
pub fn bytes(text: &[u8], p: Part) -> &[u8]
    ensures same { result.now ≡ bytes_at text.now p }
    ensures there { (result.ref_ptr.0 ≡ text.entry.ref_ptr.0) × (result.ref_ptr.1 ≡ text.entry.ref_ptr.1 + min p.from (length text.now)) }
{
    let from = refusal::least(p.from, text.len());
    let len = refusal::least(p.len, text.len() - from);
    let end = from + len;
    &text[from..end]
}

fn string(text: &[u8], at: usize) -> Result<Seen, Refusal>
    requires { at ≤ length text.now }
    ensures { seen_paper result ≡ string_seen text.now at }
{
    let part = bencode_scalar::string(text, at)?;
    Ok(Seen::String(part, part.from + part.len))
}

fn integer(text: &[u8], at: usize) -> Result<Seen, Refusal>
    ensures { seen_paper result ≡ integer_seen text.now at }
{
    match bencode_scalar::integer(text, at)? {
        Int::Is(z, next) => Ok(Seen::Integer(z, next)),
        Int::Large(next) => long(at, next),
    }
}

// Sign and digits stand between the i and the e.
fn long(at: usize, next: usize) -> Result<Seen, Refusal>
    requires { at + 2 ≤ next }
    ensures { result ≡ Ok (Seen.Long (record { from = at + 1; len = next - (at + 2) }) next) }
{
    Ok(Seen::Long(
        Part {
            from: at + 1,
            len: next - (at + 2),
        },
        next,
    ))
}
