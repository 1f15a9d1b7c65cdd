// Where blocks fall, for C.
ghost use Rattle.std.specs.Prelude.{◌≡◌, Ok};
ghost use Rattle.refusal.specs.Paper.{map, taken};
ghost use Rattle.torrent_blocks.specs.Spans.{joined_files};
ghost use Rattle.torrent_blocks.specs.Answers.{spot, block_of, byte_of, size_of, parts_written, place_paper};
ghost use Rattle.wardrail.specs.Said.{Tells};
ghost use Rattle.wardrail.specs.Mapping.{spot_detail};
ghost use Rattle.wardrail.specs.Writers.{Wrote};

use crate::row::{counted, told};
use torrent_blocks::{PieceNumber, PieceOffset, Spot};

// Writes the parts of a block from the start of `out` on, three numbers each: file, offset in it, length. `detail` becomes
// how many parts.
pub fn wardrail_block(
    lengths: &[u64],
    piece_length: u64,
    piece: u32,
    offset: u32,
    count: u32,
    out: &mut [u64],
    detail: &mut u64,
) -> u64
    ensures { Wrote (parts_written (block_of (joined_files lengths.now) piece_length (spot piece offset) count) out.old) detail.old result detail.new out.new }
{
    let parts = torrent_blocks::block(
        lengths,
        piece_length,
        PieceNumber(piece),
        PieceOffset(offset),
        count,
        out,
    );
    counted(detail, parts)
}

// The piece of a file's byte and its offset there, as the two numbers of `detail`.
pub fn wardrail_byte(
    lengths: &[u64],
    piece_length: u64,
    file: usize,
    offset: u64,
    detail: &mut [u64; 2],
) -> u64
    ensures { Tells (map spot_detail (byte_of (joined_files lengths.now) piece_length file offset)) detail.old result detail.new }
{
    told(
        detail,
        torrent_blocks::byte(lengths, piece_length, file, offset).map(spot_words),
    )
}

// The bytes of a piece as `detail`.
pub fn wardrail_piece_size(lengths: &[u64], piece_length: u64, piece: u32, detail: &mut u64) -> u64
    ensures { Tells (size_of (joined_files lengths.now) piece_length piece) detail.old result detail.new }
{
    told(
        detail,
        torrent_blocks::piece_size(lengths, piece_length, PieceNumber(piece)),
    )
}

fn spot_words(spot: Spot) -> [u64; 2]
    ensures { taken result ≡ map spot_detail (place_paper (Ok spot)) }
{
    [spot.piece.0 as u64, spot.offset.0 as u64]
}
