// SHA-1 of a message that comes in parts, for C. The message so far is held in six words, the hash value after its whole
// blocks and how many bytes it has, and in 64 bytes, those after its whole blocks.
ghost use Rattle.hash_sha1.specs.Parts.{begun, add_of, finish_of};
ghost use Rattle.wardrail.specs.Hashing.{state_of, Holds, Digested};

// The empty message.
#[unsafe(no_mangle)]
pub extern "C" fn wardrail_sha1_start(words: &mut [u32; 6], tail: &mut [u8; 64])
    ensures { Holds begun words.new tail.new }
{
    wardrail::hashing::wardrail_sha1_start(words, tail);
}

// The message with a part after it.
#[unsafe(no_mangle)]
pub extern "C" fn wardrail_sha1_add(words: &mut [u32; 6], tail: &mut [u8; 64], part: &[u8])
    ensures { Holds (add_of (state_of words.old tail.old) part.now) words.new tail.new }
{
    wardrail::hashing::wardrail_sha1_add(words, tail, part);
}

// Writes the digest of the message; a refusal leaves `digest` as it was.
#[unsafe(no_mangle)]
pub extern "C" fn wardrail_sha1_finish(
    words: &[u32; 6],
    tail: &[u8; 64],
    digest: &mut [u8; 20],
) -> u64
    ensures { Digested (finish_of (state_of words.now tail.now) digest.old) result digest.new }
{
    wardrail::hashing::wardrail_sha1_finish(words, tail, digest)
}
