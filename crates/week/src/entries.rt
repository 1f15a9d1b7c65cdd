// The table of a week's file: how many packages there are, and for each its offset, its length and its hash, 28 bytes in all.
ghost use Rattle.std.specs.Prelude.{◌≡◌, ◌&&◌, not, ◌+◌, ◌*◌, ◌<◌, ◌≤◌, leb, length};
ghost use Rattle.refusal.specs.Limits.{most_text};
ghost use Rattle.refusal.specs.Numbers.{week};
ghost use Rattle.refusal.specs.Paper.{paper, taken, then, map};
ghost use Rattle.refusal.specs.BigEndian.{fits};
ghost use Rattle.torrent_metainfo.specs.Rules.{provided};
ghost use Rattle.week.specs.File.{table_bytes};
ghost use Rattle.week.specs.Rules.{length_place, hash_place, field_at, count_of, runs_at, hash_at, hashes_before, among, entry_of, entries_of};

use refusal::big_endian::read;
use refusal::{Refusal, limit, number, refuse};

// The number of packages that a file begins with.
pub fn count(file: &[u8]) -> Result<usize, Refusal>
    ensures { paper result ≡ count_of file.now }
{
    match read::<u32>(file, 0) {
        Some(n) => in_range(n),
        None => Err(refuse(number::WEEK, 0)),
    }
}

fn in_range(n: u32) -> Result<usize, Refusal>
    ensures { paper result ≡ provided (leb 1 n && leb n 256) week 0 (taken n) }
{
    if n == 0 {
        return Err(refuse(number::WEEK, 0));
    }
    if (limit::PACKAGES as u32) < n {
        return Err(refuse(number::WEEK, 0));
    }
    Ok(n as usize)
}

// Checks all entries of a table of n packages, each body standing where the one before it ends, and that the last ends the file.
pub fn all(file: &[u8], n: usize) -> Result<usize, Refusal>
    requires { (n ≤ 256) × (length file.now ≤ most_text) }
    ensures { paper result ≡ map (λ end. n) (entries_of file.now n 0 (table_bytes n)) }
{
    let mut at = 4 + 28 * n;
    for i in 0..n {
        at = entry(file, i, at)?;
    }
    if at < file.len() {
        return Err(refuse(number::WEEK, at));
    }
    Ok(n)
}

// The entry of package i, whose body is to stand at `at`.
fn entry(file: &[u8], i: usize, at: usize) -> Result<usize, Refusal>
    requires { (i < 256) × (at ≤ most_text) × (length file.now ≤ most_text) }
    ensures { paper result ≡ entry_of file.now i at }
{
    let place = 4 + 28 * i;
    match read::<u32>(file, place) {
        Some(offset) => {
            if offset as usize != at {
                return Err(refuse(number::WEEK, place));
            }
            sized(file, i, at)
        }
        None => Err(refuse(number::WEEK, place)),
    }
}

// The rest of the entry, its length and its hash, where its offset is right.
fn sized(file: &[u8], i: usize, at: usize) -> Result<usize, Refusal>
    requires { (i < 256) × (at ≤ most_text) × (length file.now ≤ most_text) }
    ensures { paper result ≡ then (field_at file.now (length_place i)) (λ n. provided (leb (at + n) (length file.now)) week (length_place i) (provided (fits 20 file.now (hash_place i)) week (hash_place i) (provided (not (among (hash_at file.now i) (hashes_before file.now i))) week (hash_place i) (taken (at + n))))) }
{
    let place = 8 + 28 * i;
    match read::<u32>(file, place) {
        Some(n) => {
            let past = at + n as usize;
            if file.len() < past {
                return Err(refuse(number::WEEK, place));
            }
            fresh(file, i, past)
        }
        None => Err(refuse(number::WEEK, place)),
    }
}

// The rest of the entry, its hash, where its body ends at `past`.
fn fresh(file: &[u8], i: usize, past: usize) -> Result<usize, Refusal>
    requires { (i < 256) × (length file.now ≤ most_text) }
    ensures { paper result ≡ provided (fits 20 file.now (hash_place i)) week (hash_place i) (provided (not (among (hash_at file.now i) (hashes_before file.now i))) week (hash_place i) (taken past)) }
{
    let place = 12 + 28 * i;
    if file.len() < place + 20 {
        return Err(refuse(number::WEEK, place));
    }
    if given(file, 12, 28, i, &file[place..place + 20]) {
        return Err(refuse(number::WEEK, place));
    }
    Ok(past)
}

// Whether a hash is one of `count` runs of 20 bytes, of which the first stands at `from` and each next one `stride` bytes on.
pub fn given(bytes: &[u8], from: usize, stride: usize, count: usize, hash: &[u8]) -> bool
    requires { (20 ≤ stride) × (from + stride * count ≤ length bytes.now) }
    ensures { result ≡ among hash.now (runs_at bytes.now from stride count) }
{
    for i in 0..count {
        let at = from + stride * i;
        if &bytes[at..at + 20] == hash {
            return true;
        }
    }
    false
}
