// Names and paths: which bytes may be one, and where they stand.
ghost use Rattle.std.specs.Prelude.{◌≡◌, ℕ, ◌+◌, length, drop};
ghost use Rattle.refusal.specs.Paper.{paper, map};
ghost use Rattle.bencode.specs.Value.{Value, Items, encode};
ghost use Rattle.bencode.specs.Decode.{closes};
ghost use Rattle.bencode_walk.specs.Stands.{Stands, StandItems};
ghost use Rattle.bencode_fields.specs.Looks.{ending_at};
ghost use Rattle.torrent_metainfo.specs.Rules.{clean, dots, good_name, name_at, elements_of, path_at};

use bencode_walk::Seen;
use refusal::{Part, Refusal, number, refuse};

// A name, or an element of a path.
pub fn name_at(text: &[u8], at: usize) -> Result<Part, Refusal>
    ensures { (d : ℕ) → (v : Value) → Stands text.now d at v → paper result ≡ name_at at v }
{
    let part = bencode_fields::string_at(text, at)?;
    if is_good(bencode_walk::bytes(text, part)) {
        Ok(part)
    } else {
        Err(refuse(number::NAME, at))
    }
}

// A path, once each of its elements is looked at.
pub fn path_at(text: &[u8], at: usize) -> Result<(usize, usize), Refusal>
    ensures { (d : ℕ) → (v : Value) → Stands text.now d at v → paper result ≡ map (ending_at (at + length (encode v))) (path_at at v) }
{
    let first = bencode_fields::list_at(text, at)?;
    if ends(text, first) {
        return Err(refuse(number::NAME, at));
    }
    let past = elements(text, first)?;
    Ok((first, past))
}

// Whether a list or dictionary ends at a place.
pub fn ends(text: &[u8], at: usize) -> bool
    ensures { result ≡ closes (drop at text.now) }
{
    at < text.len() && text[at] == b'e'
}

// The place past the elements of a path and its e.
fn elements(text: &[u8], first: usize) -> Result<usize, Refusal>
    ensures { (d : ℕ) → (vs : Items) → StandItems text.now d first vs → paper result ≡ map (λ q. q + 1) (elements_of first vs) }
{
    let mut p = first;
    loop {
        match bencode_walk::look(text, p)? {
            Seen::String(part, next) => {
                if is_good(bencode_walk::bytes(text, part)) {
                    p = next;
                } else {
                    return Err(refuse(number::NAME, p));
                }
            },
            Seen::End(past) => return Ok(past),
            _ => return Err(refuse(number::KIND, p)),
        }
    }
}

// Whether bytes may be a name: not empty, "." or "..", and no "/" or zero byte among them.
#[tactic(auto, unfolding(crate::specs::Rules::good_name))]
pub fn is_good(name: &[u8]) -> bool
    ensures { result ≡ good_name name.now }
{
    !is_special(name) && is_clean(name)
}

fn is_special(name: &[u8]) -> bool
    ensures { result ≡ dots name.now }
{
    name.is_empty() || name == b".".as_slice() || name == b"..".as_slice()
}

fn is_clean(name: &[u8]) -> bool
    ensures { result ≡ clean name.now }
{
    name.iter().all(|b| *b != b'/' && *b != 0)
}
