// The bytes that a message's whole blocks leave, in a block of their own.
ghost use Rattle.std.specs.Prelude.{◌≡◌, ◌++◌};
ghost use Rattle.hash_digest.specs.Message.{filled};

// A block of the held bytes and the part's, as many as there is room for, and zeros after them.
pub fn gathered(held: &[u8], part: &[u8]) -> [u8; 64]
    ensures { result ≡ filled 64 (held.now ++ part.now) }
{
    let mut block = [0u8; 64];
    let first = held.len().min(64);
    block[..first].copy_from_slice(&held[..first]);
    let second = part.len().min(64 - first);
    block[first..first + second].copy_from_slice(&part[..second]);
    block
}
