// The bodies of a week's file: each is read once, and hashed.
ghost use Rattle.std.specs.Prelude.{◌≡◌, ◌+◌, ◌*◌, ◌<◌, ◌≤◌, ltb, length, take, drop};
ghost use Rattle.refusal.specs.Limits.{most_text};
ghost use Rattle.refusal.specs.Numbers.{week, beyond};
ghost use Rattle.refusal.specs.Paper.{paper, taken, then};
ghost use Rattle.refusal.specs.Parts.{bytes_at};
ghost use Rattle.refusal.specs.BigEndian.{big_endian_of};
ghost use Rattle.hash_sha1.specs.Sha1.{sha1};
ghost use Rattle.hash_sha1.specs.Digest.{same};
ghost use Rattle.torrent_metainfo.specs.Rules.{provided};
ghost use Rattle.torrent_metainfo.specs.Reading.{read_of};
ghost use Rattle.week.specs.Rules.{hash_place, moved, entry_for, body_of, placed_of, within_of, package_at, none, sums_from, week_of};
ghost use Rattle.week.specs.Noted.{Noted};
ghost use Rattle.week.specs.declared.Week.{Week};

use crate::{Entry, Week};
use refusal::big_endian::read;
use refusal::{Part, Refusal, number, refuse};
use torrent_metainfo::Torrent;

// Reads a file, its table and then body by body, and keeps files and bytes of each package, two by two.
pub fn summed(file: &[u8], counts: &mut [u64]) -> Result<Week, Refusal>
    requires { 512 ≤ length counts.old }
    ensures result_value { paper result ≡ week_of file.now }
    ensures kept { (w : Week) → paper result ≡ taken w → (w.count ≤ 256) × (512 ≤ length counts.new) × Noted file.now w.count counts.new }
{
    let n = crate::table(file)?;
    each(file, n, counts)
}

// The same, where the table has n packages.
fn each(file: &[u8], n: usize, counts: &mut [u64]) -> Result<Week, Refusal>
    requires { (n ≤ 256) × (512 ≤ length counts.old) }
    ensures result_value { paper result ≡ sums_from file.now n 0 (none n) }
    ensures kept { (w : Week) → paper result ≡ taken w → (w.count ≡ n) × (512 ≤ length counts.new) × Noted file.now n counts.new }
{
    let mut files: u64 = 0;
    let mut total: u64 = 0;
    for i in 0..n {
        let e = crate::package_at(file, i)?;
        counts[2 * i] = e.files;
        counts[2 * i + 1] = e.total;
        files += e.files;
        total += e.total;
    }
    weekly(n, files, total)
}

// Package i of a file that was read, of n packages: what was kept of it, and what the table has.
pub fn chosen(file: &[u8], n: usize, i: usize, counts: &[u64]) -> Result<Entry, Refusal>
    requires { ((w : Week) × (week_of file.now ≡ taken w) × (w.count ≡ n)) × (n ≤ 256) × (512 ≤ length counts.now) × Noted file.now n counts.now }
    ensures { paper result ≡ provided (ltb i n) beyond 0 (package_at file.now i) }
{
    if n <= i {
        return Err(refuse(number::BEYOND, 0));
    }
    let from = number_at(file, 4 + 28 * i);
    let len = number_at(file, 8 + 28 * i);
    told(i, from, len, counts[2 * i], counts[2 * i + 1])
}

// The number of four bytes at a place where they are.
fn number_at(file: &[u8], at: usize) -> usize
    requires { at + 4 ≤ length file.now }
    ensures { result ≡ big_endian_of (take 4 (drop at file.now)) }
{
    match read::<u32>(file, at) {
        Some(x) => x as usize,
        None => 0,
    }
}

// Package i of a file that begins with n packages, by its entry alone.
pub fn within(file: &[u8], n: usize, i: usize) -> Result<Entry, Refusal>
    requires { (n ≤ 256) × (length file.now ≤ most_text) }
    ensures { paper result ≡ provided (ltb i n) beyond 0 (within_of file.now i) }
{
    if n <= i {
        return Err(refuse(number::BEYOND, 0));
    }
    match read::<u32>(file, 4 + 28 * i) {
        Some(from) => match read::<u32>(file, 8 + 28 * i) {
            Some(len) => placed(file, i, from as usize, len as usize),
            None => Err(refuse(number::WEEK, 8 + 28 * i)),
        },
        None => Err(refuse(number::WEEK, 4 + 28 * i)),
    }
}

// Package i, whose body is to have `len` bytes at `from`.
fn placed(file: &[u8], i: usize, from: usize, len: usize) -> Result<Entry, Refusal>
    requires { (i < 256) × (from < 4294967296) × (len < 4294967296) × (length file.now ≤ most_text) }
    ensures { paper result ≡ placed_of file.now i from len }
{
    if file.len() < from + len {
        return Err(refuse(number::WEEK, 8 + 28 * i));
    }
    if file.len() < 32 + 28 * i {
        return Err(refuse(number::WEEK, 12 + 28 * i));
    }
    body(file, i, from, len)
}

// Package i, whose body has `len` bytes at `from`.
fn body(file: &[u8], i: usize, from: usize, len: usize) -> Result<Entry, Refusal>
    requires { (i < 256) × (from + len ≤ length file.now) × (32 + 28 * i ≤ length file.now) × (length file.now ≤ most_text) }
    ensures { paper result ≡ body_of file.now i from len }
{
    torrent(
        &file[from..from + len],
        &file[12 + 28 * i..32 + 28 * i],
        i,
        from,
    )
}

// Package i, whose body is `text`, which stands at `from`, and whose hash the table has.
fn torrent(text: &[u8], hash: &[u8], i: usize, from: usize) -> Result<Entry, Refusal>
    requires { (i < 256) × (from + length text.now ≤ most_text) }
    ensures { paper result ≡ then (moved from (read_of text.now)) (λ t. provided (same (sha1 (bytes_at text.now t.info)) hash.now) week (hash_place i) (taken (entry_for i from (length text.now) t))) }
{
    match torrent_metainfo::read(text) {
        Ok(t) => hashed(text, t, hash, i, from),
        Err(r) => Err(refuse(r.number, from + r.place)),
    }
}

// Package i, whose body at `from` is a torrent, where its info hash is the table's.
fn hashed(text: &[u8], t: Torrent, hash: &[u8], i: usize, from: usize) -> Result<Entry, Refusal>
    requires { (i < 256) × (read_of text.now ≡ taken t) }
    ensures { paper result ≡ provided (same (sha1 (bytes_at text.now t.info)) hash.now) week (hash_place i) (taken (entry_for i from (length text.now) t)) }
{
    let content = t.content;
    if hash_sha1::agrees(bencode_walk::bytes(text, t.info), hash)? {
        return told(i, from, text.len(), content.files as u64, content.total);
    }
    Err(refuse(number::WEEK, 12 + 28 * i))
}

fn told(i: usize, from: usize, len: usize, files: u64, total: u64) -> Result<Entry, Refusal>
    requires { i < 256 }
    ensures { result ≡ Ok (record { hash = record { from = hash_place i; len = 20 }; body = record { from = from; len = len }; files = files; total = total }) }
{
    Ok(Entry {
        hash: Part {
            from: 12 + 28 * i,
            len: 20,
        },
        body: Part { from, len },
        files,
        total,
    })
}

fn weekly(count: usize, files: u64, total: u64) -> Result<Week, Refusal>
    ensures { result ≡ Ok (record { count = count; files = files; total = total }) }
{
    Ok(Week {
        count,
        files,
        total,
    })
}
