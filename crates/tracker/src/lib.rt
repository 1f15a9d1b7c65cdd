// Tracker replies by document 01: read, asked for an entry, and walked; and compact ones written.
#![tactic(auto)]

ghost use Rattle.std.specs.Prelude.{◌≡◌};
ghost use Rattle.refusal.specs.Paper.{then, map};
ghost use Rattle.tracker.specs.Reply.{counted, reply_of, nth_of};
ghost use Rattle.tracker.specs.Reading.{reply_paper, entry_count, peer_paper, whole_of, answered_of, peers_of, compact_of, listing_of};

use bencode_walk::{Seen, Sought};
use compact::Packed;
use listed::Listed;
use refusal::{Part, Refusal, limit, number, refuse};

pub mod compact;
pub mod listed;
pub mod writing;

// What a reply that is no failure says: the seconds to wait, how many entries there are, and where the first stands.
#[derive(Clone, Copy)]
pub struct Peers {
    pub interval: u64,
    pub count: usize,
    pub first: usize,
}

// What a reply is: why it failed, or its entries in one form or the other.
#[derive(Clone, Copy)]
pub enum Reply {
    // The bytes of the failure reason.
    Failure(Part),
    // Entries of six bytes.
    Compact(Peers),
    // Dictionaries of a list.
    List(Peers),
}

// One entry of a reply in its form.
#[derive(Clone, Copy)]
pub enum Found {
    Packed(Packed),
    Listed(Listed),
}

// The reply that a text is.
pub fn read(text: &[u8]) -> Result<Reply, Refusal>
    ensures { reply_paper result ≡ map counted (reply_of text.now) }
{
    bencode::check(text)?;
    whole(text)
}

// Entry number n of the reply that a text is.
pub fn peer(text: &[u8], n: usize) -> Result<Found, Refusal>
    ensures { peer_paper result ≡ then (reply_of text.now) (nth_of n) }
{
    match read(text)? {
        Reply::Compact(p) if n < p.count => {
            let (entry, _) = compact::nth(text, p.first, n)?;
            Ok(Found::Packed(entry))
        }
        Reply::List(p) if n < p.count => {
            let (entry, _) = listed::nth(text, p.first, n)?;
            Ok(Found::Listed(entry))
        }
        _ => Err(refuse(number::BEYOND, 0)),
    }
}

// How many entries a reply has: 0 beside a failure reason.
pub fn entries(reply: Result<Reply, Refusal>) -> usize
    ensures { result ≡ entry_count (reply_paper reply) }
{
    match reply {
        Ok(Reply::Compact(p) | Reply::List(p)) => p.count,
        Ok(Reply::Failure(_)) | Err(_) => 0,
    }
}

// The reply of a text that is bencode. A failure reason is the whole answer.
fn whole(text: &[u8]) -> Result<Reply, Refusal>
    ensures { reply_paper result ≡ whole_of text.now }
{
    let first = bencode_fields::dictionary_at(text, 0)?;
    match bencode_walk::seek(text, first, b"failure reason")? {
        Sought::Found(_, value) => {
            let reason = bencode_fields::string_at(text, value)?;
            Ok(Reply::Failure(reason))
        }
        Sought::Missing(at) => answered(text, at),
    }
}

fn answered(text: &[u8], at: usize) -> Result<Reply, Refusal>
    ensures { reply_paper result ≡ answered_of text.now at }
{
    let intervals = bencode_walk::seek(text, at, b"interval");
    let peers = bencode_fields::seek_after(text, intervals, b"peers");
    let interval = bencode_fields::natural_under(text, 0, intervals, limit::INTERVAL as u64)?;
    match peers? {
        Sought::Found(_, value) => peers_at(text, value, interval),
        Sought::Missing(_) => Err(refuse(number::KIND, 0)),
    }
}

fn peers_at(text: &[u8], at: usize, interval: u64) -> Result<Reply, Refusal>
    ensures { reply_paper result ≡ peers_of text.now interval at }
{
    match bencode_walk::look(text, at)? {
        Seen::String(p, _) => packed_peers(p, at, interval),
        Seen::List(first) => listed_peers(text, first, interval),
        _ => Err(refuse(number::KIND, at)),
    }
}

fn packed_peers(p: Part, at: usize, interval: u64) -> Result<Reply, Refusal>
    ensures { reply_paper result ≡ compact_of interval at p.from p.len }
{
    if p.len % 6 != 0 {
        return Err(refuse(number::PEER, at));
    }
    Ok(Reply::Compact(Peers {
        interval,
        count: p.len / 6,
        first: p.from,
    }))
}

fn listed_peers(text: &[u8], first: usize, interval: u64) -> Result<Reply, Refusal>
    ensures { reply_paper result ≡ listing_of text.now interval first }
{
    let count = listed::count(text, first)?;
    Ok(Reply::List(Peers {
        interval,
        count,
        first,
    }))
}
