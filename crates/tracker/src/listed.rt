// Entries that are dictionaries of a list: peer id, ip and port.
ghost use Rattle.std.specs.Prelude.{◌≡◌, ◌≤◌, IfSome, pos};
ghost use Rattle.refusal.specs.Limits.{largest_port};
ghost use Rattle.refusal.specs.Paper.{paper, taken};
ghost use Rattle.bencode_walk.specs.Walk.{seek_paper};
ghost use Rattle.bencode_fields.specs.Looks.{needed};
ghost use Rattle.tracker.specs.Entries.{id_of, listed, listed_paper, listed_at, count_of, nth_at};
ghost use Rattle.tracker.specs.Usual.{Reads, Ends};

use bencode_scalar::Int;
use bencode_walk::Sought;
use refusal::{Part, Refusal, limit, number, refuse};

// An entry of a list: where its peer id and its ip stand, and the port.
#[derive(Clone, Copy)]
pub struct Listed {
    pub id: Part,
    pub ip: Part,
    pub port: u64,
}

// The entry whose dictionary stands at a place.
pub fn listed_at(text: &[u8], at: usize) -> Result<(Listed, usize), Refusal>
    ensures { listed_paper result ≡ listed_at text.now at }
{
    match usual(text, at) {
        Some(found) => Ok(found),
        None => any_form(text, at),
    }
}

// The entry at a place, where it has the usual form.
fn usual(text: &[u8], at: usize) -> Option<(Listed, usize)>
    ensures { IfSome result (λ x. listed_at text.now at ≡ taken (record { entry = listed x.0; next = x.1 })) }
{
    // What a text over the limit comes to, `any_form` says.
    if limit::TEXT < text.len() {
        return None;
    }
    let string = past_run(text, at, b"d2:ip")?;
    let ip = bencode_scalar::string(text, string).ok()?;
    let past = ip.from + ip.len;
    let (port, next) = ending(text, past)?;
    let id = Part {
        from: past + 12,
        len: 20,
    };
    Some((Listed { id, ip, port }, next))
}

// What stands at a place, where it is the ending of the usual form.
fn ending(text: &[u8], at: usize) -> Option<(u64, usize)>
    ensures { IfSome result (λ x. Ends text.now at x.0 x.1) }
{
    let id = past_run(text, at, b"7:peer id20:")?;
    if text.len() - id < 20 {
        return None;
    }
    let integer = past_run(text, id + 20, b"4:port")?;
    let Ok(Int::Is(z, past)) = bencode_scalar::integer(text, integer) else {
        return None;
    };
    let port = port_of(z)?;
    let next = past_run(text, past, b"e")?;
    Some((port, next))
}

// The place past these bytes, where they stand at a place. Inlined, it compares with bytes that are known: else a list of
// usual entries takes a tenth longer.
#[inline]
fn past_run(text: &[u8], at: usize, run: &[u8]) -> Option<usize>
    ensures { IfSome result (λ q. Reads text.now at run.now q) }
{
    if at <= text.len() && text[at..].starts_with(run) {
        Some(at + run.len())
    } else {
        None
    }
}

// The port that an integer is, where it is one.
fn port_of(z: i64) -> Option<u64>
    ensures { IfSome result (λ n. (z ≡ pos n) × (n ≤ largest_port)) }
{
    let n = u64::try_from(z).ok()?;
    (n <= limit::PORT as u64).then_some(n)
}

// The entry at a place in any form. The keys are sought in the order of their bytes, and checked in document 01's order.
fn any_form(text: &[u8], at: usize) -> Result<(Listed, usize), Refusal>
    ensures { listed_paper result ≡ listed_at text.now at }
{
    let first = bencode_fields::dictionary_at(text, at)?;
    let ips = bencode_walk::seek(text, first, b"ip");
    let ids = bencode_fields::seek_after(text, ips, b"peer id");
    let ports = bencode_fields::seek_after(text, ids, b"port");
    let id = id_under(text, at, ids)?;
    let ip = bencode_fields::string_under(text, at, ips)?;
    let port = bencode_fields::natural_under(text, at, ports, limit::PORT as u64)?;
    let next = bencode_walk::skip(text, at)?;
    Ok((Listed { id, ip, port }, next))
}

// How many entries a list has whose first item stands at a place, or the first refusal among them.
pub fn count(text: &[u8], first: usize) -> Result<usize, Refusal>
    ensures { paper result ≡ count_of text.now first }
{
    if limit::TEXT < text.len() {
        return Err(refuse(number::LONG, 0));
    }
    // A walk: each entry says where the next begins.
    let mut at = first;
    let mut n: usize = 0;
    while at < text.len() {
        if text[at] == b'e' {
            return Ok(n);
        }
        let (_, next) = listed_at(text, at)?;
        at = next;
        n += 1;
    }
    Err(refuse(number::CUT, text.len()))
}

// Entry number n of those from a place on.
pub(crate) fn nth(text: &[u8], first: usize, n: usize) -> Result<(Listed, usize), Refusal>
    ensures { listed_paper result ≡ nth_at n text.now first }
{
    let mut at = first;
    for _ in 0..n {
        at = bencode_walk::skip(text, at)?;
    }
    listed_at(text, at)
}

// A peer id is a string of 20 bytes.
fn id_under(
    text: &[u8],
    dictionary: usize,
    sought: Result<Sought, Refusal>,
) -> Result<Part, Refusal>
    ensures { paper result ≡ needed dictionary (seek_paper sought) (id_of text.now) }
{
    match sought? {
        Sought::Found(_, value) => id_at(text, value),
        Sought::Missing(_) => Err(refuse(number::KIND, dictionary)),
    }
}

fn id_at(text: &[u8], at: usize) -> Result<Part, Refusal>
    ensures { paper result ≡ id_of text.now at }
{
    let id = bencode_fields::string_at(text, at)?;
    if id.len != 20 {
        return Err(refuse(number::PEER, at));
    }
    Ok(id)
}
