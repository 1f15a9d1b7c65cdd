// The texts, frames and hashes of `wardrail`, exported to C: each export has the words of the library's function, and calls it.
#![tactic(auto)]

ghost use Rattle.bencode.specs.Answers.{check_of};
ghost use Rattle.hash_sha1.specs.Digest.{digest_of};
ghost use Rattle.wardrail.specs.Said.{Tells};
ghost use Rattle.wardrail.specs.Hashing.{Digested};

mod addresses;
mod files;
mod frames;
mod hashing;
mod looks;
mod magnets;
mod mapping;
mod peers;
mod replies;
mod torrents;
mod weeks;
mod writers;

// Whether a text is one value that keeps the limits. `detail` becomes its count of values.
#[unsafe(no_mangle)]
pub extern "C" fn wardrail_check(text: &[u8], detail: &mut u64) -> u64
    ensures { Tells (check_of text.now) detail.old result detail.new }
{
    wardrail::wardrail_check(text, detail)
}

// Writes the SHA-1 digest of at most 16,777,216 bytes; a refusal leaves `digest` as it was.
#[unsafe(no_mangle)]
pub extern "C" fn wardrail_sha1(message: &[u8], digest: &mut [u8; 20]) -> u64
    ensures { Digested (digest_of message.now digest.old) result digest.new }
{
    wardrail::wardrail_sha1(message, digest)
}
