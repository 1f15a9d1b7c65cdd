// What a torrent holds: its files, the elements of their paths, the hashes of its pieces, and the check of a piece.
// A call takes the torrent's text and trusts nothing kept from an earlier call.
#![tactic(auto)]

mod files;
mod pieces;

ghost use Rattle.refusal.specs.Paper.{paper};
ghost use Rattle.std.specs.Prelude.{◌≡◌};
ghost use Rattle.torrent_contents.specs.Files.{entry_of};
ghost use Rattle.torrent_contents.specs.Paths.{element_paper, element_of};
ghost use Rattle.torrent_contents.specs.Pieces.{hash_of, check_of};

use bencode_walk::Seen;
use refusal::{Part, Refusal, number, refuse};
use torrent_blocks::{ContentOffset, PieceNumber};

// A file: where it starts in the joined content, its length, and the place of its path's first element.
// A single file has no path but its name, whose bytes begin at `path`.
#[derive(Clone, Copy)]
pub struct Entry {
    pub offset: ContentOffset,
    pub length: u64,
    pub path: usize,
    pub single: bool,
}

// An element of a path and the place of the next, or the place past the path.
#[derive(Clone, Copy)]
pub enum Element {
    Is(Part, usize),
    End(usize),
}

// File number `number` of the torrent that a text is. All files of a torrent are walked by `torrent_metainfo::file_at`.
pub fn file(text: &[u8], number: usize) -> Result<Entry, Refusal>
    ensures { paper result ≡ entry_of text.now number }
{
    let t = torrent_metainfo::read(text)?;
    files::numbered(text, t, number)
}

// The element of a path that stands at a place of any text, or the path's end. What it hands out may be a name.
pub fn element_at(text: &[u8], at: usize) -> Result<Element, Refusal>
    ensures { element_paper result ≡ element_of text.now at }
{
    match bencode_walk::look(text, at)? {
        Seen::String(part, next) => {
            if torrent_metainfo::legal_name(bencode_walk::bytes(text, part)) {
                return Ok(Element::Is(part, next));
            }
            Err(refuse(number::NAME, at))
        },
        Seen::End(past) => Ok(Element::End(past)),
        _ => Err(refuse(number::KIND, at)),
    }
}

// The hash of a piece of the torrent that a text is, as a part of that text.
pub fn piece_hash(text: &[u8], piece: PieceNumber) -> Result<Part, Refusal>
    ensures { paper result ≡ hash_of text.now piece.0 }
{
    let t = torrent_metainfo::read(text)?;
    pieces::hash(t, piece)
}

// Whether these are the bytes of a piece: yes exactly when their digest is the torrent's.
pub fn check_piece(text: &[u8], piece: PieceNumber, bytes: &[u8]) -> Result<bool, Refusal>
    ensures { paper result ≡ check_of text.now piece.0 bytes.now }
{
    let t = torrent_metainfo::read(text)?;
    pieces::check(text, t, piece, bytes)
}
