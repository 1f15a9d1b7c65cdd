// SHA-1 (FIPS 180-4) of a lent slice, or of a message that comes in parts (`stream`).
#![tactic(auto)]

mod block;
mod once;
pub mod stream;

ghost use Rattle.std.specs.Prelude.{◌≡◌};
ghost use Rattle.hash_sha1.specs.Digest.{left, digest_of, agreement_of};
ghost use Rattle.refusal.specs.Paper.{paper};

pub use block::Hash;
use refusal::{Refusal, limit, number, refuse};

// Writes the digest of at most 16,777,216 bytes. A refusal leaves `out` as it was.
pub fn digest(message: &[u8], out: &mut [u8; 20]) -> Result<(), Refusal>
    ensures { left (paper result) out.new ≡ digest_of message.now out.old }
{
    if limit::PIECE < message.len() {
        return Err(refuse(number::LONG, 0));
    }
    *out = block::spread(once::hash(message));
    Ok(())
}

// Whether the digest of at most 16,777,216 bytes is the expected one; bytes that are not 20 are none.
pub fn agrees(message: &[u8], expected: &[u8]) -> Result<bool, Refusal>
    ensures { paper result ≡ agreement_of message.now expected.now }
{
    let mut found = [0u8; 20];
    digest(message, &mut found)?;
    Ok(found.as_slice() == expected)
}
