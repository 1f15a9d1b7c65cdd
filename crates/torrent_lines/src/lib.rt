// Document 01's listing of a torrent: all bytes that the listing program prints are decided here.
#![tactic(auto)]

mod files;
mod ink;

ghost use Rattle.std.specs.Prelude.{◌≡◌, [], ◌∷◌, ◌+◌, ◌≤◌, length};
ghost use Rattle.refusal.specs.Paper.{paper, taken};
ghost use Rattle.bencode_writer.specs.Put.{left, put_of, Ran};
ghost use Rattle.torrent_metainfo.specs.Reading.{read_of};
ghost use Rattle.torrent_lines.specs.Lines.{escaped, first_line, file_line, refused_line, most_listed, most_printed, listing_of};
ghost use Rattle.torrent_lines.specs.Places.{far};

use refusal::{Refusal, number, refuse};
use torrent_metainfo::Torrent;

// The most bytes of a text that is listed.
pub const TEXT: usize = 65536;
// The most bytes that a listing has: six for each byte of a text.
pub const MOST: usize = 393216;

// Writes the listing of a text to the front of `out`, and tells how many bytes it has; where they do not fit, 37 and
// `out` as it was. Output of `MOST` bytes is enough for every text.
pub fn listing(text: &[u8], out: &mut [u8]) -> Result<usize, Refusal>
    ensures out_after { left (paper result) out.new ≡ put_of (listing_of text.now) 0 out.old }
    ensures enough { most_printed ≤ length out.old → paper result ≡ taken (length (listing_of text.now)) }
{
    if out.len() < MOST && out.len() < size(text) {
        return Err(refuse(number::ROOM, 0));
    }
    Ok(write(text, out))
}

// How many bytes the listing of a text has.
pub fn size(text: &[u8]) -> usize
    ensures { result ≡ length (listing_of text.now) }
{
    let mut scratch = [0u8; 1];
    write(text, &mut scratch)
}

// Writes the line of a refusal as far as `out` goes, and tells how many bytes it has.
pub fn refused(number: u8, place: usize, out: &mut [u8]) -> usize
    ensures ran { Ran (refused_line number place) 0 out.old result out.new }
    ensures most { result ≤ most_printed }
{
    let at = ink::literal(out, 0, b"refused ");
    let to = ink::numbered(out, at, number as u64, b" at ");
    ink::numbered(out, to, place as u64, b"\n")
}

// Writes the listing as far as `out` goes, and tells how many bytes it has.
fn write(text: &[u8], out: &mut [u8]) -> usize
    ensures ran { Ran (listing_of text.now) 0 out.old result out.new }
    ensures most { result ≤ most_printed }
{
    if TEXT < text.len() {
        return refused(number::LONG, 0, out);
    }
    match torrent_metainfo::read(text) {
        Ok(t) => torrent(text, t, out),
        Err(r) => refused(r.number, r.place, out),
    }
}

// The lines of the torrent that a text is.
fn torrent(text: &[u8], t: Torrent, out: &mut [u8]) -> usize
    requires { (read_of text.now ≡ taken t) × (length text.now ≤ most_listed) }
    ensures ran { Ran (listing_of text.now) 0 out.old result out.new }
    ensures most { result ≤ most_printed }
{
    let name = bencode_walk::bytes(text, t.name);
    let content = t.content;
    let at = first_line(name, t, out);
    if content.single {
        return only_file(name, content.total, out, at);
    }
    files::many(text, content.place + 1, out, at)
}

fn first_line(name: &[u8], t: Torrent, out: &mut [u8]) -> usize
    requires { length (escaped name.now) ≤ most_printed }
    ensures { Ran (first_line name.now (record { files = t.content.files; total = t.content.total; pieces = t.piece_count; size = t.piece_length })) 0 out.old result out.new }
{
    let content = t.content;
    let a = ink::escaped(out, 0, name);
    let b = ink::byte(out, a, b' ');
    let c = ink::numbered(out, b, content.files as u64, b" files ");
    let d = ink::numbered(out, c, content.total, b" bytes ");
    let e = ink::numbered(out, d, t.piece_count, b" pieces of ");
    ink::numbered(out, e, t.piece_length, b"\n")
}

// The line of a single file, whose path is its name.
fn only_file(name: &[u8], total: u64, out: &mut [u8], at: usize) -> usize
    requires { at + length (escaped name.now) + 60 ≤ far }
    ensures { Ran (file_line 0 (record { length = total; path = name.now ∷ [] })) at out.old result out.new }
{
    let a = ink::literal(out, at, b"0 ");
    let b = ink::numbered(out, a, total, b" ");
    let c = ink::escaped(out, b, name);
    ink::byte(out, c, b'\n')
}
