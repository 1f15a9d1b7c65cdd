// Files, paths and pieces of a torrent for C.
ghost use Rattle.std.specs.Prelude.{◌≡◌, Ok};
ghost use Rattle.refusal.specs.Paper.{map, taken};
ghost use Rattle.torrent_metainfo.specs.Reading.{file_at};
ghost use Rattle.torrent_contents.specs.Files.{entry_of};
ghost use Rattle.torrent_contents.specs.Paths.{element_of, element_paper};
ghost use Rattle.torrent_contents.specs.Pieces.{hash_of, check_of};
ghost use Rattle.wardrail.specs.Said.{Tells};
ghost use Rattle.wardrail.specs.Files.{file_detail, walked_detail, element_detail, part_detail, yes_detail};

use crate::row::told;
use refusal::Part;
use torrent_blocks::PieceNumber;
use torrent_contents::{Element, Entry};
use torrent_metainfo::File;

// File number `number` of a torrent. `detail` becomes where it starts in the joined content, its length, the place of its
// path's first element, and 1 for a single file, whose name begins at that place, or else 0.
pub fn wardrail_file(text: &[u8], number: usize, detail: &mut [u64; 4]) -> u64
    ensures { Tells (map file_detail (entry_of text.now number)) detail.old result detail.new }
{
    told(
        detail,
        torrent_contents::file(text, number).map(entry_words),
    )
}

// The file of many at a place, to walk all of them in one pass. `detail` becomes its length, the place of its path's first
// element, and the place past it, where the next stands.
pub fn wardrail_file_at(text: &[u8], at: usize, detail: &mut [u64; 3]) -> u64
    ensures { Tells (map walked_detail (file_at text.now at)) detail.old result detail.new }
{
    told(detail, torrent_metainfo::file_at(text, at).map(file_words))
}

// The element of a path at a place. `detail` becomes 1, its first byte and length, and the place of the next; or 0, 0, 0
// and the place past the path.
pub fn wardrail_element_at(text: &[u8], at: usize, detail: &mut [u64; 4]) -> u64
    ensures { Tells (map element_detail (element_of text.now at)) detail.old result detail.new }
{
    told(
        detail,
        torrent_contents::element_at(text, at).map(element_words),
    )
}

// The 20 bytes of a piece's hash, by first byte and length.
pub fn wardrail_piece_hash(text: &[u8], piece: u32, detail: &mut [u64; 2]) -> u64
    ensures { Tells (map part_detail (hash_of text.now piece)) detail.old result detail.new }
{
    told(
        detail,
        torrent_contents::piece_hash(text, PieceNumber(piece)).map(part_words),
    )
}

// Whether these are the bytes of a piece. `detail` becomes 1 for yes and 0 for no.
pub fn wardrail_piece_check(text: &[u8], piece: u32, bytes: &[u8], detail: &mut u64) -> u64
    ensures { Tells (map yes_detail (check_of text.now piece bytes.now)) detail.old result detail.new }
{
    told(
        detail,
        torrent_contents::check_piece(text, PieceNumber(piece), bytes).map(u64::from),
    )
}

// Where the file starts in the joined content, its length, the place of its path, and 1 for a single file or else 0.
fn entry_words(e: Entry) -> [u64; 4]
    ensures { result ≡ file_detail e }
{
    [e.offset.0, e.length, e.path as u64, u64::from(e.single)]
}

// Its length, the place of its path, and the place past it.
fn file_words(f: File) -> [u64; 3]
    ensures { result ≡ walked_detail f }
{
    [f.length, f.path as u64, f.next as u64]
}

// 1, the element's first byte and length, and the place of the next; or 0 and the place past the path.
fn element_words(e: Element) -> [u64; 4]
    ensures { taken result ≡ map element_detail (element_paper (Ok e)) }
{
    match e {
        Element::Is(x, next) => [1, x.from as u64, x.len as u64, next as u64],
        Element::End(past) => [0, 0, 0, past as u64],
    }
}

// First byte and length.
fn part_words(x: Part) -> [u64; 2]
    ensures { result ≡ part_detail x }
{
    [x.from as u64, x.len as u64]
}
