// Typed looks: what a reader of torrents or tracker replies asks of a place. Every call answers for any text and any
// place: another kind is refused by 10, a number out of range by 11, an e, where no value stands, by 2, and what cannot be
// read as `bencode_walk::look` refuses it.
#![tactic(auto)]

ghost use Rattle.std.specs.Prelude.{ℕ, ◌<◌, ◌^◌, Result, ◌≡◌};
ghost use Rattle.refusal.specs.Paper.{Outcome, paper, map};
ghost use Rattle.refusal.specs.declared.Refusal.{Refusal};
ghost use Rattle.bencode.specs.Decode.{unless_long};
ghost use Rattle.bencode_walk.specs.Walk.{seek_paper};
ghost use Rattle.bencode_fields.specs.Looks.{ending_at, string_of, natural_of, number_of, list_of, dictionary_of, ranged, needed, sought_after};

use bencode_walk::{Seen, Sought};
use refusal::{Part, Refusal, limit, number, refuse};

// The string at a place; another kind of value is refused by 10 there.
pub fn string_at(text: &[u8], at: usize) -> Result<Part, Refusal>
    ensures { paper result ≡ string_of text.now at }
{
    match bencode_walk::look(text, at)? {
        Seen::String(bytes, _) => Ok(bytes),
        Seen::End(_) => Err(refuse(number::BYTE, at)), // no value stands there
        _ => Err(refuse(number::KIND, at)),
    }
}

// A number from 0 to `most`.
pub fn natural_at(text: &[u8], at: usize, most: u64) -> Result<u64, Refusal>
    ensures { paper result ≡ natural_of most text.now at }
{
    let (n, _) = number_at(text, at, most)?;
    Ok(n)
}

// The same, with the place past it.
pub fn number_at(text: &[u8], at: usize, most: u64) -> Result<(u64, usize), Refusal>
    ensures { paper result ≡ number_of most text.now at }
{
    match bencode_walk::look(text, at)? {
        Seen::Integer(z, past) => within(z, most, at, past),
        Seen::Long(_, _) => Err(refuse(number::RANGE, at)),
        Seen::End(_) => Err(refuse(number::BYTE, at)),
        _ => Err(refuse(number::KIND, at)),
    }
}

// The list at a place: where its first item stands. Another kind is refused by 10.
pub fn list_at(text: &[u8], at: usize) -> Result<usize, Refusal>
    ensures { paper result ≡ list_of text.now at }
{
    match bencode_walk::look(text, at)? {
        Seen::List(first) => Ok(first),
        Seen::End(_) => Err(refuse(number::BYTE, at)),
        _ => Err(refuse(number::KIND, at)),
    }
}

// The dictionary at a place: where its first key stands. Another kind is refused by 10.
pub fn dictionary_at(text: &[u8], at: usize) -> Result<usize, Refusal>
    ensures { paper result ≡ dictionary_of text.now at }
{
    match bencode_walk::look(text, at)? {
        Seen::Dictionary(first) => Ok(first),
        Seen::End(_) => Err(refuse(number::BYTE, at)),
        _ => Err(refuse(number::KIND, at)),
    }
}

// The string under a key of the dictionary at `dictionary`, where the key was sought; the key missing is refused by 10 there.
pub fn string_under(
    text: &[u8],
    dictionary: usize,
    sought: Result<Sought, Refusal>,
) -> Result<Part, Refusal>
    ensures { paper result ≡ unless_long text.now (needed dictionary (seek_paper sought) (string_of text.now)) }
{
    under(text, dictionary, sought, |value| string_at(text, value))
}

// The number under a key, from 0 to the most that is allowed, or 11 at its place; the key missing is 10 at the dictionary.
pub fn natural_under(
    text: &[u8],
    dictionary: usize,
    sought: Result<Sought, Refusal>,
    most: u64,
) -> Result<u64, Refusal>
    ensures { paper result ≡ unless_long text.now (needed dictionary (seek_paper sought) (natural_of most text.now)) }
{
    under(
        text,
        dictionary,
        sought,
        |value| natural_at(text, value, most),
    )
}

// The list under a key; the key missing is 10 at the dictionary.
pub fn list_under(
    text: &[u8],
    dictionary: usize,
    sought: Result<Sought, Refusal>,
) -> Result<usize, Refusal>
    ensures { paper result ≡ unless_long text.now (needed dictionary (seek_paper sought) (list_of text.now)) }
{
    under(text, dictionary, sought, |value| list_at(text, value))
}

// The dictionary under a key; the key missing is 10 at the dictionary.
pub fn dictionary_under(
    text: &[u8],
    dictionary: usize,
    sought: Result<Sought, Refusal>,
) -> Result<usize, Refusal>
    ensures { paper result ≡ unless_long text.now (needed dictionary (seek_paper sought) (dictionary_of text.now)) }
{
    under(text, dictionary, sought, |value| dictionary_at(text, value))
}

// Where a later key stands, sought from where the search for an earlier one stopped.
pub fn seek_after(
    text: &[u8],
    sought: Result<Sought, Refusal>,
    key: &[u8],
) -> Result<Sought, Refusal>
    ensures { seek_paper result ≡ unless_long text.now (sought_after text.now (seek_paper sought) key.now) }
{
    if limit::TEXT < text.len() {
        return Err(refuse(number::LONG, 0));
    }
    match sought? {
        Sought::Found(at, _) => bencode_walk::seek(text, at, key),
        Sought::Missing(at) => bencode_walk::seek(text, at, key),
    }
}

// What `read` makes of the value under a key, where the key was sought; the key missing is 10 at the dictionary.
fn under<T, F: FnOnce(usize) -> Result<T, Refusal>>(
    text: &[u8],
    dictionary: usize,
    sought: Result<Sought, Refusal>,
    read: F,
) -> Result<T, Refusal>
    requires { F.IsAlwaysCallable read }
    ensures { (of : ℕ → Outcome T) → ((q : ℕ) (r : Result T Refusal) → q < 2 ^ 64 → F.post read q r → paper r ≡ of q) → paper result ≡ unless_long text.now (needed dictionary (seek_paper sought) of) }
{
    if limit::TEXT < text.len() {
        return Err(refuse(number::LONG, 0));
    }
    match sought? {
        Sought::Found(_, value) => read(value),
        Sought::Missing(_) => Err(refuse(number::KIND, dictionary)),
    }
}

// The number z of the integer at `at`, from 0 to `most`.
fn within(z: i64, most: u64, at: usize, past: usize) -> Result<(u64, usize), Refusal>
    ensures { paper result ≡ map (ending_at past) (ranged most at z) }
{
    if z < 0 {
        return Err(refuse(number::RANGE, at));
    }
    let n = z as u64;
    if most < n {
        return Err(refuse(number::RANGE, at));
    }
    Ok((n, past))
}
