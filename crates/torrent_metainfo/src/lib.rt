// Torrents, read by document 01. A call takes the torrent's text and trusts nothing kept from an earlier call.
#![tactic(auto)]

mod files;
mod info;
mod keys;
mod names;

ghost use Rattle.refusal.specs.Paper.{paper};
ghost use Rattle.std.specs.Prelude.{◌≡◌, ℕ, ◌+◌, ◌≤◌, min, length};
ghost use Rattle.refusal.specs.Parts.{bytes_at};
ghost use Rattle.bencode.specs.Value.{Value, Entries, Prev};
ghost use Rattle.bencode.specs.Exact.{Fine};
ghost use Rattle.bencode_walk.specs.Stands.{StandEntries};
ghost use Rattle.torrent_metainfo.specs.Rules.{torrent_of, top_of, good_name};
ghost use Rattle.torrent_metainfo.specs.Reading.{read_of, file_at, announce_in, name_in_of};
ghost use Rattle.hash_sha1.specs.Digest.{left};
ghost use Rattle.torrent_metainfo.specs.Hashes.{info_hash_of};

use bencode_walk::Sought;
use refusal::{Part, Refusal};

// What a torrent says. Parts and places are of its text.
#[derive(Clone, Copy)]
pub struct Torrent {
    pub announce: Part,
    pub info: Part,
    pub name: Part,
    pub pieces: Part,
    pub piece_length: u64,
    pub piece_count: u64,
    pub content: Content,
}

// One file, whose length stands at `place`, or a list of files there: the first of them stands one past it.
#[derive(Clone, Copy)]
pub struct Content {
    pub single: bool,
    pub place: usize,
    pub files: usize,
    pub total: u64,
}

// One file of many: its length, the place of its path's first element, and the place past the file.
#[derive(Clone, Copy)]
pub struct File {
    pub length: u64,
    pub path: usize,
    pub next: usize,
}

// What was found of info's keys; `listed` is what the files are.
#[derive(Clone, Copy)]
struct Known {
    files: Result<Sought, Refusal>,
    listed: Result<(Content, usize), Refusal>,
    length: Result<Sought, Refusal>,
    name: Result<Sought, Refusal>,
    piece_length: Result<Sought, Refusal>,
    pieces: Result<Sought, Refusal>,
}

// The torrent that a text is.
pub fn read(text: &[u8]) -> Result<Torrent, Refusal>
    ensures { paper result ≡ read_of text.now }
{
    bencode::check(text)?;
    top(text)
}

// The bytes of announce, as the part of the text where they stand; none where the torrent is refused.
pub fn announce(text: &[u8]) -> &[u8]
    ensures same { result.now ≡ bytes_at text.now (announce_in (read_of text.now)) }
    ensures there { (result.ref_ptr.0 ≡ text.entry.ref_ptr.0) × (result.ref_ptr.1 ≡ text.entry.ref_ptr.1 + min (announce_in (read_of text.now)).from (length text.now)) }
{
    match read(text) {
        Ok(t) => bencode_walk::bytes(text, t.announce),
        Err(_) => &text[..0],
    }
}

// The bytes of the name, in the same way.
pub fn name(text: &[u8]) -> &[u8]
    ensures same { result.now ≡ bytes_at text.now (name_in_of (read_of text.now)) }
    ensures there { (result.ref_ptr.0 ≡ text.entry.ref_ptr.0) × (result.ref_ptr.1 ≡ text.entry.ref_ptr.1 + min (name_in_of (read_of text.now)).from (length text.now)) }
{
    match read(text) {
        Ok(t) => bencode_walk::bytes(text, t.name),
        Err(_) => &text[..0],
    }
}

// Writes the info hash: SHA-1 of info's bytes as they stand. A refusal leaves `out` as it was.
pub fn info_hash(text: &[u8], out: &mut [u8; 20]) -> Result<(), Refusal>
    ensures { left (paper result) out.new ≡ info_hash_of text.now out.old }
{
    let t = read(text)?;
    hash_sha1::digest(bencode_walk::bytes(text, t.info), out)
}

// Whether bytes may be a name or an element of a path: not empty, "." or "..", and no "/" or zero byte among them.
pub fn legal_name(name: &[u8]) -> bool
    ensures { result ≡ good_name name.now }
{
    names::is_good(name)
}

// The file that stands at a place of any text. The first of many stands one past the place of their list, and each
// tells where the next one stands; a list of files ends where none does.
pub fn file_at(text: &[u8], at: usize) -> Result<File, Refusal>
    ensures { paper result ≡ file_at text.now at }
{
    bencode_walk::skip(text, at)?;
    files::file(text, at)
}

// The torrent of a text that bencode takes.
fn top(text: &[u8]) -> Result<Torrent, Refusal>
    ensures { (v : Value) → Fine text.now v → paper result ≡ torrent_of v }
{
    let first = bencode_fields::dictionary_at(text, 0)?;
    announced(text, first)
}

// The torrent whose first key stands at `first`.
fn announced(text: &[u8], first: usize) -> Result<Torrent, Refusal>
    ensures { (d : ℕ) → (before : Prev) → (es : Entries) → d ≤ 32 → StandEntries text.now d first before es → first ≡ 1 → paper result ≡ top_of es }
{
    let announce = bencode_walk::seek(text, first, b"announce");
    let info = bencode_walk::seek(text, keys::stop(announce), b"info");
    let a = bencode_fields::string_under(text, 0, announce)?;
    let inside = bencode_fields::dictionary_under(text, 0, info)?;
    info::read(text, a, keys::value(info), inside)
}
