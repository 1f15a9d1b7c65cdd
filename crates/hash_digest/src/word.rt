// Words of 32 bits: the functions of 4.1.1 of FIPS 180-4, by fewer steps than it writes.
ghost use Rattle.std.specs.Prelude.{◌≡◌};
ghost use Rattle.hash_digest.specs.Words.{ch, maj, parity};

// Ch.
pub fn choose(x: u32, y: u32, z: u32) -> u32
    ensures { result ≡ ch x y z }
{
    z ^ (x & (y ^ z))
}

// Parity.
pub fn odd(x: u32, y: u32, z: u32) -> u32
    ensures { result ≡ parity x y z }
{
    x ^ y ^ z
}

// Maj.
pub fn most(x: u32, y: u32, z: u32) -> u32
    ensures { result ≡ maj x y z }
{
    (x & y) | (z & (x | y))
}
