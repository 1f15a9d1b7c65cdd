// Where blocks fall, for C.
ghost use Rattle.refusal.specs.Paper.{map};
ghost use Rattle.torrent_blocks.specs.Spans.{joined_files};
ghost use Rattle.torrent_blocks.specs.Answers.{spot, block_of, byte_of, size_of, parts_written};
ghost use Rattle.wardrail.specs.Said.{Tells};
ghost use Rattle.wardrail.specs.Mapping.{spot_detail};
ghost use Rattle.wardrail.specs.Writers.{Wrote};

// Writes the parts of a block from the start of `out` on, three numbers each: file, offset in it, length. `detail` becomes
// how many parts.
#[unsafe(no_mangle)]
pub extern "C" fn wardrail_block(
    lengths: &[u64],
    piece_length: u64,
    piece: u32,
    offset: u32,
    count: u32,
    out: &mut [u64],
    detail: &mut u64,
) -> u64
    ensures { Wrote (parts_written (block_of (joined_files lengths.now) piece_length (spot piece offset) count) out.old) detail.old result detail.new out.new }
{
    wardrail::mapping::wardrail_block(lengths, piece_length, piece, offset, count, out, detail)
}

// The piece of a file's byte and its offset there, as the two numbers of `detail`.
#[unsafe(no_mangle)]
pub extern "C" fn wardrail_byte(
    lengths: &[u64],
    piece_length: u64,
    file: usize,
    offset: u64,
    detail: &mut [u64; 2],
) -> u64
    ensures { Tells (map spot_detail (byte_of (joined_files lengths.now) piece_length file offset)) detail.old result detail.new }
{
    wardrail::mapping::wardrail_byte(lengths, piece_length, file, offset, detail)
}

// The bytes of a piece as `detail`.
#[unsafe(no_mangle)]
pub extern "C" fn wardrail_piece_size(
    lengths: &[u64],
    piece_length: u64,
    piece: u32,
    detail: &mut u64,
) -> u64
    ensures { Tells (size_of (joined_files lengths.now) piece_length piece) detail.old result detail.new }
{
    wardrail::mapping::wardrail_piece_size(lengths, piece_length, piece, detail)
}
