// A week's file of bodies, written: the bodies are read and hashed, and then the table and the bodies are put into lent output.
ghost use Rattle.std.specs.Prelude.{◌≡◌, [], ◌++◌, ◌+◌, ◌*◌, ◌≤◌, eqb, length};
ghost use Rattle.refusal.specs.Limits.{most_text, most_packages};
ghost use Rattle.refusal.specs.Paper.{paper, then};
ghost use Rattle.refusal.specs.BigEndian.{bytes_of};
ghost use Rattle.bencode_writer.specs.Put.{left, puts, Ran};
ghost use Rattle.torrent_blocks.specs.Rules.{sum};
ghost use Rattle.week.specs.File.{table_bytes};
ghost use Rattle.week.specs.Writing.{cut_by, packages_from};
ghost use Rattle.week.specs.Noted.{short_file, packages_by, entries_by_of, Hashes, HashesOne, KeepsOne};

use crate::entries::given;
use bencode_writer::{end, literal};
use refusal::big_endian::write;
use refusal::{Refusal, limit, number, refuse};

// Whether the exact sum of lengths is `count`.
pub fn add_up(lengths: &[u64], count: usize) -> bool
    ensures { result ≡ eqb (sum lengths.now) count }
{
    let mut left = count as u64;
    for &len in lengths {
        if left < len {
            return false;
        }
        left -= len;
    }
    left == 0
}

// Writes the file of bodies whose lengths add up to all of `bodies`.
pub fn written(bodies: &[u8], lengths: &[u64], out: &mut [u8]) -> Result<usize, Refusal>
    requires { (length lengths.now ≤ most_packages) × (sum lengths.now ≡ length bodies.now) }
    ensures { left (paper result) out.new ≡ puts out.old (then (packages_from [] (cut_by lengths.now bodies.now)) short_file) }
{
    let mut hashes = [0u8; 5120];
    hash_all(bodies, lengths, &mut hashes)?;
    stored(bodies, lengths, &hashes, out)
}

// Hashes all bodies, each a torrent, to the front of `hashes`, 20 bytes each; a refusal where one is none or has a hash given before.
fn hash_all(bodies: &[u8], lengths: &[u64], hashes: &mut [u8]) -> Result<(), Refusal>
    requires { (length lengths.now ≤ most_packages) × (sum lengths.now ≡ length bodies.now) × (5120 ≤ length hashes.old) }
    ensures { Hashes bodies.now lengths.now result hashes.new }
{
    let mut at = 0;
    for (i, &len) in lengths.iter().enumerate() {
        let past = at + len as usize;
        hash_one(&bodies[at..past], i, hashes)?;
        at = past;
    }
    Ok(())
}

// Hashes a body, the i-th.
fn hash_one(body: &[u8], i: usize, hashes: &mut [u8]) -> Result<(), Refusal>
    requires { 20 * i + 20 ≤ length hashes.old }
    ensures { HashesOne body.now i hashes.old result hashes.new }
{
    let mut hash = [0u8; 20];
    match torrent_metainfo::info_hash(body, &mut hash) {
        Ok(()) => kept(&hash, i, hashes),
        Err(r) => Err(refuse(r.number, 0)),
    }
}

// Keeps the i-th hash, if it is none of those before it.
fn kept(hash: &[u8; 20], i: usize, hashes: &mut [u8]) -> Result<(), Refusal>
    requires { 20 * i + 20 ≤ length hashes.old }
    ensures { KeepsOne hash.now i hashes.old result hashes.new }
{
    if given(hashes, 0, 20, i, hash) {
        return Err(refuse(number::WEEK, 0));
    }
    let _ = literal(hashes, 20 * i, hash);
    Ok(())
}

// Writes the file of bodies whose hashes are known, if there is room for it.
fn stored(bodies: &[u8], lengths: &[u64], hashes: &[u8], out: &mut [u8]) -> Result<usize, Refusal>
    requires { (length lengths.now ≤ most_packages) × (sum lengths.now ≡ length bodies.now) × (20 * length lengths.now ≤ length hashes.now) }
    ensures { left (paper result) out.new ≡ puts out.old (short_file (packages_by lengths.now bodies.now hashes.now)) }
{
    let size = 4 + 28 * lengths.len() + bodies.len();
    if limit::TEXT < size {
        return Err(refuse(number::LONG, 0));
    }
    if out.len() < size {
        return Err(refuse(number::ROOM, 0));
    }
    write::<u32>(out, 0, lengths.len() as u32);
    let at = entries(lengths, hashes, out);
    Ok(end(literal(out, at, bodies)))
}

// Puts the table's entries, and gives the place past them.
fn entries(lengths: &[u64], hashes: &[u8], out: &mut [u8]) -> usize
    requires { (length lengths.now ≤ most_packages) × (20 * length lengths.now ≤ length hashes.now) × (table_bytes (length lengths.now) ≤ length out.old) × (table_bytes (length lengths.now) + sum lengths.now ≤ most_text) }
    ensures { Ran (entries_by_of (table_bytes (length lengths.now)) lengths.now hashes.now) 4 out.old result out.new }
{
    let mut body = 4 + 28 * lengths.len();
    let mut at = 4;
    for (i, &len) in lengths.iter().enumerate() {
        let len = len as usize;
        at = entry(out, at, body, len, &hashes[20 * i..20 * i + 20]);
        body += len;
    }
    at
}

// Puts one entry, at a place with room for it.
fn entry(out: &mut [u8], at: usize, body: usize, len: usize, hash: &[u8]) -> usize
    requires { (body ≤ most_text) × (len ≤ most_text) × (length hash.now ≡ 20) × (at + 28 ≤ length out.old) }
    ensures { Ran (bytes_of 4 body ++ (bytes_of 4 len ++ hash.now)) at out.old result out.new }
{
    write::<u32>(out, at, body as u32);
    write::<u32>(out, at + 4, len as u32);
    end(literal(out, at + 8, hash))
}
