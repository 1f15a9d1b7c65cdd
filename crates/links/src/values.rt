// Values: how far one goes and how many bytes it spells, and its bytes stored.
ghost use Rattle.std.specs.Prelude.{◌≡◌, List, ℕ, ◌+◌, ◌*◌, ◌<◌, ◌≤◌, length, get_or};
ghost use Rattle.std.proofs.lemmas.List.Edits.{sets};
ghost use Rattle.links.specs.Link.{Said};
ghost use Rattle.links.specs.Reading.{nibble, stored_in};
ghost use Rattle.links.specs.Places.{Valued, SpeltAt, HashAt, Holds, size_in};

use crate::kinds;
use crate::scan::Spelt;

// The place where the value ends that begins at `from`, and how many bytes it spells; or the place where an escape is
// broken off.
pub fn spelt(text: &[u8], from: usize) -> Result<(usize, usize), usize>
    requires { from ≤ length text.now }
    ensures { Valued text.now from result }
{
    let mut at = from;
    let mut escapes = 0;
    while at < text.len() {
        if kinds::is_plain(text[at]) {
            at += 1;
            continue;
        }
        if text[at] != b'%' {
            return Ok((at, at - from - 2 * escapes));
        }
        let count = kinds::escape_digits(text, at + 1);
        if count < 2 {
            return Err(at + 1 + count);
        }
        at += 3;
        escapes += 1;
    }
    Ok((at, at - from - 2 * escapes))
}

// Stores the bytes that a value spells at the front of output that has room for them.
pub fn put(text: &[u8], x: Option<Spelt>, out: &mut [u8])
    requires { (v : Said) × Holds (SpeltAt text.now) x v × (size_in x ≤ length out.old) }
    ensures { (v : Said) → Holds (SpeltAt text.now) x v → out.new ≡ stored_in v out.old }
{
    match x {
        Some(v) => decode(text, v.from, v.size, out),
        None => {}
    }
}

// The bytes of a hash whose first digit stands at a place.
pub fn hash(text: &[u8], from: usize) -> [u8; 20]
    requires { (bs : List ℕ) × HashAt text.now from bs }
    ensures { (bs : List ℕ) → HashAt text.now from bs → result ≡ bs }
{
    let mut hash = [0u8; 20];
    for i in 0..20 {
        hash[i] = pair(text, from + 2 * i);
    }
    hash
}

fn decode(text: &[u8], from: usize, size: usize, out: &mut [u8])
    requires { (bs : List ℕ) × SpeltAt text.now from bs × (size ≡ length bs) × (size ≤ length out.old) }
    ensures { (bs : List ℕ) → SpeltAt text.now from bs → size ≡ length bs → out.new ≡ sets out.old 0 bs }
{
    let mut at = from;
    for i in 0..size {
        if text[at] == b'%' {
            out[i] = pair(text, at + 1);
            at += 3;
            continue;
        }
        out[i] = text[at];
        at += 1;
    }
}

// The byte of the two hex digits at a place.
fn pair(text: &[u8], at: usize) -> u8
    requires { (at + 1 < length text.now) × (nibble (get_or text.now at 0) < 16) × (nibble (get_or text.now (at + 1) 0) < 16) }
    ensures { result ≡ 16 * nibble (get_or text.now at 0) + nibble (get_or text.now (at + 1) 0) }
{
    16 * kinds::value(text[at]) + kinds::value(text[at + 1])
}
