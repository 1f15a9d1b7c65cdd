// One line a file, for torrents of many files.
ghost use Rattle.std.specs.Prelude.{[], ◌∷◌, ◌++◌, List, ℕ, ◌+◌, ◌≤◌, length};
ghost use Rattle.bencode_scalar.specs.Written.{decimal};
ghost use Rattle.bencode_writer.specs.Put.{Ran};
ghost use Rattle.torrent_lines.specs.Places.{PathPrinted, FilesPrinted, far};

use crate::ink;
use torrent_metainfo::File;

// The lines of the files of which the first stands at `first`: each begins where those before it end.
pub fn many(text: &[u8], first: usize, out: &mut [u8], at: usize) -> usize
    requires { (w : List ℕ) × FilesPrinted text.now first 0 w × (at + length w + 60 ≤ far) }
    ensures { (w : List ℕ) → FilesPrinted text.now first 0 w → Ran w at out.old result out.new }
{
    let mut p = first;
    let mut to = at;
    let mut offset: u64 = 0;
    while let Ok(f) = torrent_metainfo::file_at(text, p) {
        to = line(text, f, offset, out, to);
        offset += f.length;
        p = f.next;
    }
    to
}

// Offset, length and path of a file.
fn line(text: &[u8], f: File, offset: u64, out: &mut [u8], at: usize) -> usize
    requires { (w : List ℕ) × PathPrinted text.now f.path 32 w × (at + length w + 60 ≤ far) }
    ensures { (w : List ℕ) → PathPrinted text.now f.path 32 w → Ran (decimal offset ++ (32 ∷ (decimal f.length ++ (w ++ (10 ∷ []))))) at out.old result out.new }
{
    let a = ink::numbered(out, at, offset, b" ");
    let b = ink::decimal(out, a, f.length);
    let c = path(text, f.path, out, b);
    ink::byte(out, c, b'\n')
}

// A space and the elements of a path, of which the first stands at `first`, with "/" between them.
fn path(text: &[u8], first: usize, out: &mut [u8], at: usize) -> usize
    requires { (w : List ℕ) × PathPrinted text.now first 32 w × (at + length w + 3 ≤ far) }
    ensures { (w : List ℕ) → PathPrinted text.now first 32 w → Ran w at out.old result out.new }
{
    let mut p = first;
    let mut to = at;
    let mut mark = b' ';
    while let Ok(part) = bencode_fields::string_at(text, p) {
        to = ink::byte(out, to, mark);
        to = ink::escaped(out, to, bencode_walk::bytes(text, part));
        mark = b'/';
        p = part.from + part.len;
    }
    to
}
