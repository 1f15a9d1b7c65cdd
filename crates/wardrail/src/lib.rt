// Texts, frames and hashes for C: each call answers 0 where it is taken, and leaves what else it says in what is lent; or else the word of
// its refusal, number and place, and then leaves all that is lent as it was.
#![tactic(auto)]

ghost use Rattle.bencode.specs.Answers.{check_of};
ghost use Rattle.hash_sha1.specs.Digest.{digest_of};
ghost use Rattle.wardrail.specs.Said.{Tells};
ghost use Rattle.wardrail.specs.Hashing.{Digested};

use crate::hashing::hashed_word;
use crate::row::counted;

pub mod addresses;
pub mod files;
pub mod frames;
pub mod hashing;
pub mod looks;
pub mod magnets;
pub mod mapping;
pub mod peers;
pub mod replies;
mod row;
pub mod torrents;
pub mod weeks;
pub mod writers;

// Whether a text is one value that keeps the limits. `detail` becomes its count of values.
pub fn wardrail_check(text: &[u8], detail: &mut u64) -> u64
    ensures { Tells (check_of text.now) detail.old result detail.new }
{
    counted(detail, bencode::check(text))
}

// Writes the SHA-1 digest of at most 16,777,216 bytes; a refusal leaves `digest` as it was.
pub fn wardrail_sha1(message: &[u8], digest: &mut [u8; 20]) -> u64
    ensures { Digested (digest_of message.now digest.old) result digest.new }
{
    hashed_word(hash_sha1::digest(message, digest))
}
