// SHA-1 of a message that comes in parts: start, add each part, finish. However it is cut, the digest is the whole's.
ghost use Rattle.refusal.specs.Paper.{paper};
ghost use Rattle.std.specs.Prelude.{◌≡◌, ◌+◌, ◌%◌, ◌≤◌, length, replicate};
ghost use Rattle.refusal.specs.Limits.{longest_piece};
ghost use Rattle.hash_digest.specs.Message.{hashed, rest, filled};
ghost use Rattle.hash_sha1.specs.Sha1.{initial, compress};
ghost use Rattle.hash_sha1.specs.Digest.{left};
ghost use Rattle.hash_sha1.specs.Parts.{begun, grown, add_of, finish_of};

use crate::block::Hash;
use crate::{block, once};
use hash_digest::message;
use refusal::{Refusal, limit, number, refuse};

// The length that stands for every one above the limit.
const TOO_LONG: u32 = limit::PIECE as u32 + 1;

// A message so far: the hash value after its whole blocks, the bytes after them with zeros up to a block,
// and how many bytes it has. One of more than 16,777,216 bytes is kept as one of 16,777,217, and refused when finished.
#[derive(Clone, Copy, Debug, PartialEq, Eq)]
pub struct Stream {
    pub hash: Hash,
    pub tail: [u8; 64],
    pub length: u32,
}

// The empty message.
pub fn start() -> Stream
    ensures { result ≡ begun }
{
    empty(0)
}

// The message with a part after it.
pub fn add(s: Stream, part: &[u8]) -> Stream
    ensures { result ≡ add_of s part.now }
{
    let before = s.length as usize;
    // By subtraction, since the sum of the lengths may not fit.
    if limit::PIECE < before || limit::PIECE - before < part.len() {
        return empty(TOO_LONG);
    }
    longer(s, part)
}

// Writes the digest. A refusal leaves `out` as it was.
pub fn finish(s: Stream, out: &mut [u8; 20]) -> Result<(), Refusal>
    ensures { left (paper result) out.new ≡ finish_of s out.old }
{
    let length = s.length as usize;
    if limit::PIECE < length {
        return Err(refuse(number::LONG, 0));
    }
    *out = block::spread(once::last(s.hash, &s.tail[..length % 64], s.length));
    Ok(())
}

// A part that is not too long: fewer bytes than fill a block are kept, and else hashing goes on from a first block.
fn longer(s: Stream, part: &[u8]) -> Stream
    requires { s.length + length part.now ≤ longest_piece }
    ensures { result ≡ grown s part.now }
{
    let kept = (s.length % 64) as usize;
    let length = s.length + part.len() as u32;
    let first = message::gathered(&s.tail[..kept], part);
    if part.len() < 64 - kept {
        return Stream {
            hash: s.hash,
            tail: first,
            length,
        };
    }
    onward(block::block(s.hash, &first), &part[64 - kept..], length)
}

// Goes on with bytes that begin a block.
fn onward(h: Hash, m: &[u8], length: u32) -> Stream
    ensures { result ≡ record { hash = hashed compress h m.now; tail = filled 64 (rest m.now); length = length } }
{
    Stream {
        hash: block::whole(h, m),
        tail: message::gathered(b"", &m[m.len() - m.len() % 64..]),
        length,
    }
}

fn empty(length: u32) -> Stream
    ensures { result ≡ record { hash = initial; tail = replicate 64 0; length = length } }
{
    Stream {
        hash: block::initial(),
        tail: [0; 64],
        length,
    }
}
