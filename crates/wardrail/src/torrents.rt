// Torrents for C.
ghost use Rattle.std.specs.Prelude.{◌≡◌};
ghost use Rattle.refusal.specs.Paper.{map};
ghost use Rattle.torrent_metainfo.specs.Reading.{read_of};
ghost use Rattle.torrent_metainfo.specs.Hashes.{info_hash_of};
ghost use Rattle.wardrail.specs.Said.{Tells};
ghost use Rattle.wardrail.specs.Torrents.{torrent_detail};
ghost use Rattle.wardrail.specs.Hashing.{Digested};

use crate::hashing::hashed_word;
use crate::row::told;
use torrent_metainfo::Torrent;

// Reads a torrent. `detail` becomes the first byte and the length of announce, info, name and pieces, the piece length,
// how many pieces, 1 for a single file or else 0, the place of length or files, how many files, and the total.
pub fn wardrail_torrent(text: &[u8], detail: &mut [u64; 14]) -> u64
    ensures { Tells (map torrent_detail (read_of text.now)) detail.old result detail.new }
{
    told(detail, torrent_metainfo::read(text).map(words))
}

// Writes the info hash; a refusal leaves `digest` as it was.
pub fn wardrail_info_hash(text: &[u8], digest: &mut [u8; 20]) -> u64
    ensures { Digested (info_hash_of text.now digest.old) result digest.new }
{
    hashed_word(torrent_metainfo::info_hash(text, digest))
}

// Its parts by first byte and length, then its numbers.
fn words(t: Torrent) -> [u64; 14]
    ensures { result ≡ torrent_detail t }
{
    [
        t.announce.from as u64,
        t.announce.len as u64,
        t.info.from as u64,
        t.info.len as u64,
        t.name.from as u64,
        t.name.len as u64,
        t.pieces.from as u64,
        t.pieces.len as u64,
        t.piece_length,
        t.piece_count,
        u64::from(t.content.single),
        t.content.place as u64,
        t.content.files as u64,
        t.content.total,
    ]
}
