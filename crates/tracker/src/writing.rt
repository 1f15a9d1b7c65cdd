// Compact replies, written.
ghost use Rattle.refusal.specs.Paper.{paper};
ghost use Rattle.std.specs.Prelude.{◌≡◌, ◌+◌, ◌≤◌, length};
ghost use Rattle.std.proofs.lemmas.List.Edits.{sets};
ghost use Rattle.bencode_writer.specs.Put.{left};
ghost use Rattle.tracker.specs.Writing.{text_of, write_of};

use refusal::{Refusal, limit, number, refuse};

// The reply with these seconds to wait and these entries, and the place past it.
pub fn write(out: &mut [u8], interval: u64, peers: &[u8]) -> Result<usize, Refusal>
    ensures { left (paper result) out.new ≡ write_of interval peers.now out.old }
{
    if (limit::INTERVAL as u64) < interval {
        return Err(refuse(number::RANGE, 0));
    }
    if 0 < peers.len() % 6 {
        return Err(refuse(number::PEER, 0));
    }
    let numbers = bencode_writer::digits(interval) + bencode_writer::digits(peers.len() as u64);
    // Where the sum does not fit, the text is too long by far.
    let size = peers.len().saturating_add(numbers + 22);
    if limit::TEXT < size {
        return Err(refuse(number::LONG, 0));
    }
    if out.len() < size {
        return Err(refuse(number::ROOM, 0));
    }
    Ok(put_all(out, interval, peers))
}

fn put_all(out: &mut [u8], interval: u64, peers: &[u8]) -> usize
    requires { length (text_of interval peers.now) ≤ length out.old }
    ensures { (result ≡ length (text_of interval peers.now)) × (out.new ≡ sets out.old 0 (text_of interval peers.now)) }
{
    let a = bencode_writer::end(bencode_writer::literal(out, 0, b"d8:intervali"));
    let b = bencode_writer::end(bencode_writer::decimal(out, a, interval));
    let c = bencode_writer::end(bencode_writer::literal(out, b, b"e5:peers"));
    let d = bencode_writer::end(bencode_writer::string(out, c, peers));
    bencode_writer::end(bencode_writer::literal(out, d, b"e"))
}
