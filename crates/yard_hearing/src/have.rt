// A have that is all there, seen by its first five bytes: its length and its id.
ghost use Rattle.std.specs.Prelude.{◌≡◌, true, ◌+◌, ◌≤◌, length};
ghost use Rattle.refusal.specs.Paper.{taken};
ghost use Rattle.peer_wire.specs.Message.{have};
ghost use Rattle.peer_wire.specs.Frames.{found, number_in, read_of};

use refusal::big_endian;

// Whether the bytes begin with a whole have.
pub fn is_whole(bytes: &[u8]) -> bool
    ensures { result ≡ true → (9 ≤ length bytes.now) × (read_of bytes.now ≡ taken (found (have (number_in bytes.now 5)) 9)) }
{
    if bytes.len() < 9 {
        return false;
    }
    if number(bytes, 0) != 5 {
        return false;
    }
    bytes[4] == 4
}

// The number in four bytes that are there.
pub fn number(bytes: &[u8], at: usize) -> u32
    requires { at + 4 ≤ length bytes.now }
    ensures { result ≡ number_in bytes.now at }
{
    big_endian::read::<u32>(bytes, at).unwrap_or(0)
}
