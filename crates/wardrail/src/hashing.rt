// SHA-1 of a message that comes in parts, for C. The message so far is held in six words, the hash value after its whole
// blocks and how many bytes it has, and in 64 bytes, those after its whole blocks.
ghost use Rattle.refusal.specs.Paper.{paper};
ghost use Rattle.std.specs.Prelude.{◌≡◌};
ghost use Rattle.hash_sha1.specs.Parts.{begun, add_of, finish_of};
ghost use Rattle.wardrail.specs.Said.{word_of};
ghost use Rattle.wardrail.specs.Hashing.{state_of, Holds, Digested};

use crate::row::word;
use hash_sha1::stream;
use hash_sha1::stream::Stream;
use refusal::Refusal;

// The empty message.
pub fn wardrail_sha1_start(words: &mut [u32; 6], tail: &mut [u8; 64])
    ensures { Holds begun words.new tail.new }
{
    hold(stream::start(), words, tail);
}

// The message with a part after it.
pub fn wardrail_sha1_add(words: &mut [u32; 6], tail: &mut [u8; 64], part: &[u8])
    ensures { Holds (add_of (state_of words.old tail.old) part.now) words.new tail.new }
{
    hold(stream::add(state(*words, *tail), part), words, tail);
}

// Writes the digest of the message; a refusal leaves `digest` as it was.
pub fn wardrail_sha1_finish(words: &[u32; 6], tail: &[u8; 64], digest: &mut [u8; 20]) -> u64
    ensures { Digested (finish_of (state_of words.now tail.now) digest.old) result digest.new }
{
    hashed_word(stream::finish(state(*words, *tail), digest))
}

// Leaves a message so far in six words and 64 bytes.
fn hold(s: Stream, words: &mut [u32; 6], tail: &mut [u8; 64])
    ensures { Holds s words.new tail.new }
{
    *words = [s.hash.a, s.hash.b, s.hash.c, s.hash.d, s.hash.e, s.length];
    // By a variable: the check covers no array that goes from field to place.
    let kept = s.tail;
    *tail = kept;
}

// The message so far that six words and 64 bytes hold.
fn state(w: [u32; 6], tail: [u8; 64]) -> Stream
    ensures { result ≡ state_of w tail }
{
    let mut s = stream::start();
    s.hash.a = w[0];
    s.hash.b = w[1];
    s.hash.c = w[2];
    s.hash.d = w[3];
    s.hash.e = w[4];
    s.tail = tail;
    s.length = w[5];
    s
}

// The word of a digest.
pub(crate) fn hashed_word(h: Result<(), Refusal>) -> u64
    ensures { result ≡ word_of (paper h) }
{
    match h {
        Ok(()) => 0,
        Err(r) => word(r),
    }
}
