// SHA-1 of a message that is all there: its whole blocks as they stand, and one block of our own for its end. A stream ends by the same.
ghost use Rattle.std.specs.Prelude.{◌≡◌, ◌%◌, ◌≤◌, ◌++◌, length};
ghost use Rattle.refusal.specs.Limits.{longest_piece};
ghost use Rattle.hash_digest.specs.Message.{hashed, padding, pad};
ghost use Rattle.hash_sha1.specs.Sha1.{initial, compress};

use crate::block;
use crate::block::Hash;

// Where a block's last eight bytes, the length, begin.
const LENGTH_AT: usize = 56;

// The hash value after all blocks of a message and its padding.
pub fn hash(m: &[u8]) -> Hash
    requires { length m.now ≤ longest_piece }
    ensures { result ≡ hashed compress initial (pad m.now) }
{
    last(
        block::whole(block::initial(), m),
        &m[m.len() - m.len() % 64..],
        m.len() as u32,
    )
}

// The hash value after the last blocks, which hold the bytes after the whole blocks and the padding.
pub fn last(h: Hash, held: &[u8], count: u32) -> Hash
    requires { length held.now ≡ count % 64 }
    ensures { result ≡ hashed compress h (held.now ++ padding count) }
{
    // Made here and lent to each step: an array that a call hands back is there twice.
    let mut end = [0u8; 64];
    end[..held.len()].copy_from_slice(held);
    end[held.len()] = 128;
    let mut value = h;
    // The length has no room after so many bytes: it stands in a block of its own.
    if LENGTH_AT <= held.len() {
        value = block::block(h, &end);
        end = [0u8; 64];
    }
    refusal::big_endian::write::<u64>(&mut end, LENGTH_AT, (count as u64) * 8);
    block::block(value, &end)
}
