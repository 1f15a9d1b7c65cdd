// Files, paths and pieces of a torrent for C.
ghost use Rattle.refusal.specs.Paper.{map};
ghost use Rattle.torrent_metainfo.specs.Reading.{file_at};
ghost use Rattle.torrent_contents.specs.Files.{entry_of};
ghost use Rattle.torrent_contents.specs.Paths.{element_of};
ghost use Rattle.torrent_contents.specs.Pieces.{hash_of, check_of};
ghost use Rattle.wardrail.specs.Said.{Tells};
ghost use Rattle.wardrail.specs.Files.{file_detail, walked_detail, element_detail, part_detail, yes_detail};

// File number `number` of a torrent. `detail` becomes where it starts in the joined content, its length, the place of its
// path's first element, and 1 for a single file, whose name begins at that place, or else 0.
#[unsafe(no_mangle)]
pub extern "C" fn wardrail_file(text: &[u8], number: usize, detail: &mut [u64; 4]) -> u64
    ensures { Tells (map file_detail (entry_of text.now number)) detail.old result detail.new }
{
    wardrail::files::wardrail_file(text, number, detail)
}

// The file of many at a place, to walk all of them in one pass. `detail` becomes its length, the place of its path's first
// element, and the place past it, where the next stands.
#[unsafe(no_mangle)]
pub extern "C" fn wardrail_file_at(text: &[u8], at: usize, detail: &mut [u64; 3]) -> u64
    ensures { Tells (map walked_detail (file_at text.now at)) detail.old result detail.new }
{
    wardrail::files::wardrail_file_at(text, at, detail)
}

// The element of a path at a place. `detail` becomes 1, its first byte and length, and the place of the next; or 0, 0, 0
// and the place past the path.
#[unsafe(no_mangle)]
pub extern "C" fn wardrail_element_at(text: &[u8], at: usize, detail: &mut [u64; 4]) -> u64
    ensures { Tells (map element_detail (element_of text.now at)) detail.old result detail.new }
{
    wardrail::files::wardrail_element_at(text, at, detail)
}

// The 20 bytes of a piece's hash, by first byte and length.
#[unsafe(no_mangle)]
pub extern "C" fn wardrail_piece_hash(text: &[u8], piece: u32, detail: &mut [u64; 2]) -> u64
    ensures { Tells (map part_detail (hash_of text.now piece)) detail.old result detail.new }
{
    wardrail::files::wardrail_piece_hash(text, piece, detail)
}

// Whether these are the bytes of a piece. `detail` becomes 1 for yes and 0 for no.
#[unsafe(no_mangle)]
pub extern "C" fn wardrail_piece_check(
    text: &[u8],
    piece: u32,
    bytes: &[u8],
    detail: &mut u64,
) -> u64
    ensures { Tells (map yes_detail (check_of text.now piece bytes.now)) detail.old result detail.new }
{
    wardrail::files::wardrail_piece_check(text, piece, bytes, detail)
}
