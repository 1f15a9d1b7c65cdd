// A piece's hash and its check.
ghost use Rattle.refusal.specs.Paper.{paper};
ghost use Rattle.std.specs.Prelude.{◌≡◌, ◌+◌, ◌*◌, ◌≤◌};
ghost use Rattle.refusal.specs.Limits.{most_text};
ghost use Rattle.torrent_contents.specs.Pieces.{hash_in, check_in};

use refusal::{Part, Refusal, limit, number, refuse};
use torrent_blocks::PieceNumber;
use torrent_blocks::rules::Total;
use torrent_metainfo::Torrent;

// Where the hash of a piece of the torrent `t` stands.
pub fn hash(t: Torrent, piece: PieceNumber) -> Result<Part, Refusal>
    requires { t.pieces.from + 20 * t.piece_count ≤ most_text }
    ensures { paper result ≡ hash_in piece.0 t }
{
    if t.piece_count <= piece.0 as u64 {
        return Err(refuse(number::BEYOND, 0));
    }
    let pieces = t.pieces;
    Ok(Part {
        from: pieces.from + 20 * (piece.0 as usize),
        len: 20,
    })
}

// Whether these are the bytes of a piece of the torrent `t`, which `text` is.
pub fn check(text: &[u8], t: Torrent, piece: PieceNumber, bytes: &[u8]) -> Result<bool, Refusal>
    requires { t.pieces.from + 20 * t.piece_count ≤ most_text }
    ensures { paper result ≡ check_in text.now piece.0 bytes.now t }
{
    let part = hash(t, piece)?;
    if limit::PIECE < bytes.len() {
        return Err(refuse(number::LONG, 0));
    }
    let content = t.content;
    let size = torrent_blocks::piece_bytes(Total(content.total), t.piece_length, piece);
    if bytes.len() as u64 != size {
        return Err(refuse(number::OUTSIDE, 0));
    }
    let same = hash_sha1::agrees(bytes, bencode_walk::bytes(text, part))?;
    Ok(same)
}
