// SHA-1 of a message's whole blocks: 6.1.2 of FIPS 180-4, in the window of sixteen words of 6.1.3.
ghost use Rattle.std.specs.Prelude.{◌≡◌, ℕ, ◌+◌, ◌<◌, ◌≤◌};
ghost use Rattle.hash_digest.specs.Message.{hashed};
ghost use Rattle.hash_sha1.specs.declared.block.Hash.{Hash};
ghost use Rattle.hash_sha1.specs.declared.block.Constants.{Constants};
ghost use Rattle.hash_sha1.specs.Sha1.{initial, plus, compress, output};
ghost use Rattle.hash_digest.specs.Words.{ch, parity, maj};
ghost use Rattle.hash_digest.specs.Window.{in_window, made, renewed, moved};
ghost use Rattle.hash_sha1.specs.Rounds.{constants, rule, Made, round_by, rounds_at, run, opening, turn, turns};

use hash_digest::word::{choose, most, odd};

// 4.1.1: the function of the rounds of one kind.
trait Kind {
    ghost mix: { ℕ → ℕ → ℕ → ℕ };

    fn mix(x: u32, y: u32, z: u32) -> u32
        ensures { result ≡ mix x y z };
}

struct Ch;

impl Kind for Ch {
    ghost mix = { ch };

    fn mix(x: u32, y: u32, z: u32) -> u32 {
        choose(x, y, z)
    }
}

struct Parity;

impl Kind for Parity {
    ghost mix = { parity };

    fn mix(x: u32, y: u32, z: u32) -> u32 {
        odd(x, y, z)
    }
}

struct Maj;

impl Kind for Maj {
    ghost mix = { maj };

    fn mix(x: u32, y: u32, z: u32) -> u32 {
        most(x, y, z)
    }
}

// A hash value, and the working variables of the rounds.
#[derive(Clone, Copy, Debug, PartialEq, Eq)]
pub struct Hash {
    pub a: u32,
    pub b: u32,
    pub c: u32,
    pub d: u32,
    pub e: u32,
}

// 4.2.1: the constants of each twenty rounds.
#[derive(Clone, Copy)]
struct Constants {
    first: u32,
    second: u32,
    third: u32,
    last: u32,
}

// 5.3.1: the initial hash value.
pub fn initial() -> Hash
    ensures { result ≡ initial }
{
    Hash {
        a: 0x67452301,
        b: 0xefcdab89,
        c: 0x98badcfe,
        d: 0x10325476,
        e: 0xc3d2e1f0,
    }
}

// The hash value after the whole blocks of a message.
pub fn whole(first: Hash, m: &[u8]) -> Hash
    ensures { result ≡ hashed compress first m.now }
{
    all(first, m, standard())
}

// The hash value after one more block. The module is private: only `stream` and `once` call it, with blocks of 64 bytes.
pub fn block(h: Hash, b: &[u8; 64]) -> Hash
    ensures { result ≡ compress h b.now }
{
    all(h, b, standard())
}

// The digest's bytes.
pub fn spread(h: Hash) -> [u8; 20]
    ensures { result ≡ output h }
{
    let mut out = [0u8; 20];
    out[0..4].copy_from_slice(&h.a.to_be_bytes());
    out[4..8].copy_from_slice(&h.b.to_be_bytes());
    out[8..12].copy_from_slice(&h.c.to_be_bytes());
    out[12..16].copy_from_slice(&h.d.to_be_bytes());
    out[16..20].copy_from_slice(&h.e.to_be_bytes());
    out
}

// The constants are handed over, so that the compiler does not know them here: it adds what it knows last, where the next round waits for it.
fn all(first: Hash, m: &[u8], k: Constants) -> Hash
    requires { k ≡ constants }
    ensures { result ≡ hashed compress first m.now }
{
    let mut w = [0u32; 16];
    let mut h = first;
    let (blocks, _) = m.as_chunks::<64>();
    for b in blocks {
        h = compressed(h, b, k, &mut w);
    }
    h
}

fn standard() -> Constants
    ensures { result ≡ constants }
{
    Constants {
        first: 0x5a827999,
        second: 0x6ed9eba1,
        third: 0x8f1bbcdc,
        last: 0xca62c1d6,
    }
}

// Steps 1 to 4. What `w` holds before does not matter.
fn compressed(h: Hash, b: &[u8; 64], k: Constants, w: &mut [u32; 16]) -> Hash
    requires { k ≡ constants }
    ensures { result ≡ compress h b.now }
{
    words_to_16(b, w);
    let first = opening(h, k.first, w);
    let second = twenty::<Parity, 20>(first, k.second, w);
    let third = twenty::<Maj, 40>(second, k.third, w);
    let last = twenty::<Parity, 60>(third, k.last, w);
    sum(last, h)
}

fn words_to_16(b: &[u8; 64], w: &mut [u32; 16])
    ensures { Made b.now 16 w.new }
{
    for t in 0..16 {
        w[t] = u32::from_be_bytes([b[4 * t], b[4 * t + 1], b[4 * t + 2], b[4 * t + 3]]);
    }
}

// The first twenty rounds: sixteen on the block's own words, and four.
fn opening(before: Hash, k: u32, w: &mut [u32; 16]) -> Hash
    ensures { run result w.new ≡ opening k (run before w.old) }
{
    let own = rounds::<Ch, 16>(before, k, w, 0);
    turn::<Ch>(own, k, w, 16)
}

// Twenty rounds of one kind from T on, whose words are still to be made. They are written out: where every place is
// a number, the compiler keeps the words in registers. As a loop they have 0.93 of this speed.
fn twenty<F: Kind, const T: usize>(before: Hash, k: u32, w: &mut [u32; 16]) -> Hash
    requires { (16 ≤ T) × (T + 20 ≤ 80) }
    ensures { run result w.new ≡ turns F.mix k T 5 (run before w.old) }
{
    let one = turn::<F>(before, k, w, T);
    let two = turn::<F>(one, k, w, T + 4);
    let three = turn::<F>(two, k, w, T + 8);
    let four = turn::<F>(three, k, w, T + 12);
    turn::<F>(four, k, w, T + 16)
}

// Four rounds from t on, once their words stand in the places of those sixteen before.
fn turn<F: Kind>(g: Hash, k: u32, w: &mut [u32; 16], t: usize) -> Hash
    requires { (16 ≤ t) × (t + 4 ≤ 80) }
    ensures { run result w.new ≡ turn F.mix k t (run g w.old) }
{
    four_words(w, t);
    rounds::<F, 4>(g, k, w, t)
}

// Step 1, four words from t on.
fn four_words(w: &mut [u32; 16], t: usize)
    requires { (16 ≤ t) × (t + 4 ≤ 80) }
    ensures { w.new ≡ moved rule t 4 w.old }
{
    for i in 0..4 {
        next_word(w, t + i);
    }
}

// Word t in the place of the one sixteen before it.
fn next_word(w: &mut [u32; 16], t: usize)
    requires { (16 ≤ t) × (t < 80) }
    ensures { w.new ≡ renewed rule t w.old }
{
    w[t % 16] = mixed(w, t);
}

fn mixed(w: &[u32; 16], t: usize) -> u32
    requires { (16 ≤ t) × (t < 80) }
    ensures { result ≡ made rule (in_window w.now) t }
{
    (w[(t - 3) % 16] ^ w[(t - 8) % 16] ^ w[(t - 14) % 16] ^ w[(t - 16) % 16]).rotate_left(1)
}

// Step 3, N rounds from t on.
fn rounds<F: Kind, const N: usize>(g: Hash, k: u32, w: &[u32; 16], t: usize) -> Hash
    requires { t + N ≤ 80 }
    ensures { result ≡ rounds_at F.mix k t N g w.now }
{
    let mut now = g;
    for i in 0..N {
        now = round::<F>(now, k, w[(t + i) % 16]);
    }
    now
}

fn round<F: Kind>(g: Hash, k: u32, w: u32) -> Hash
    ensures { result ≡ round_by F.mix k g w }
{
    let a = g
        .a
        .rotate_left(5)
        .wrapping_add(F::mix(g.b, g.c, g.d))
        .wrapping_add(g.e)
        .wrapping_add(k)
        .wrapping_add(w);
    Hash {
        a,
        b: g.a,
        c: g.b.rotate_left(30),
        d: g.c,
        e: g.d,
    }
}

fn sum(g: Hash, h: Hash) -> Hash
    ensures { result ≡ plus g h }
{
    Hash {
        a: g.a.wrapping_add(h.a),
        b: g.b.wrapping_add(h.b),
        c: g.c.wrapping_add(h.c),
        d: g.d.wrapping_add(h.d),
        e: g.e.wrapping_add(h.e),
    }
}
