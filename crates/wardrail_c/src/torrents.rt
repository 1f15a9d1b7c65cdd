// Torrents for C.
ghost use Rattle.refusal.specs.Paper.{map};
ghost use Rattle.torrent_metainfo.specs.Reading.{read_of};
ghost use Rattle.torrent_metainfo.specs.Hashes.{info_hash_of};
ghost use Rattle.wardrail.specs.Said.{Tells};
ghost use Rattle.wardrail.specs.Torrents.{torrent_detail};
ghost use Rattle.wardrail.specs.Hashing.{Digested};

// Reads a torrent. `detail` becomes the first byte and the length of announce, info, name and pieces, the piece length,
// how many pieces, 1 for a single file or else 0, the place of length or files, how many files, and the total.
#[unsafe(no_mangle)]
pub extern "C" fn wardrail_torrent(text: &[u8], detail: &mut [u64; 14]) -> u64
    ensures { Tells (map torrent_detail (read_of text.now)) detail.old result detail.new }
{
    wardrail::torrents::wardrail_torrent(text, detail)
}

// Writes the info hash; a refusal leaves `digest` as it was.
#[unsafe(no_mangle)]
pub extern "C" fn wardrail_info_hash(text: &[u8], digest: &mut [u8; 20]) -> u64
    ensures { Digested (info_hash_of text.now digest.old) result digest.new }
{
    wardrail::torrents::wardrail_info_hash(text, digest)
}
