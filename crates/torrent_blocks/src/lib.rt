// Where a block falls: from a piece and an offset there to parts of files, and back.
// Files lie one after the other in the joined content, by their lengths.
#![tactic(auto)]

mod parts;
pub mod rules;

ghost use Rattle.std.specs.Prelude.{◌≡◌, ◌&&◌, min};
ghost use Rattle.refusal.specs.Paper.{paper};
ghost use Rattle.torrent_blocks.specs.Rules.{piece_length_of, file_count, pieces_of, total_and, largest, sum};
ghost use Rattle.torrent_blocks.specs.Numberings.{widest, content_offset, piece_number, piece_offset, piece_bytes_of};
ghost use Rattle.torrent_blocks.specs.Spans.{joined_files};
ghost use Rattle.torrent_blocks.specs.Answers.{spot, place_paper, lies, size_of, block_of, byte_of, left, parts_written};

use parts::{Files, Parts};
use refusal::{Refusal, limit, number, refuse};
use rules::Total;

// The three numberings. None can be passed for another.
// The number of a piece.
#[derive(Clone, Copy, Debug, PartialEq, Eq)]
pub struct PieceNumber(pub u32);
// An offset inside a piece.
#[derive(Clone, Copy, Debug, PartialEq, Eq)]
pub struct PieceOffset(pub u32);
// An offset in the joined content of all files.
#[derive(Clone, Copy, Debug, PartialEq, Eq)]
pub struct ContentOffset(pub u64);

// A piece, and an offset in it.
#[derive(Clone, Copy, Debug, PartialEq, Eq)]
pub struct Spot {
    pub piece: PieceNumber,
    pub offset: PieceOffset,
}

// The parts of the block of `count` bytes at an offset of a piece, three numbers each from the start of `out` on: file, offset in it, length.
// The output has room for a third as many parts as it has numbers; what stands past the parts stays.
pub fn block(
    lengths: &[u64],
    piece_length: u64,
    piece: PieceNumber,
    offset: PieceOffset,
    count: u32,
    out: &mut [u64],
) -> Result<usize, Refusal>
    ensures { left (paper result) out.new ≡ parts_written (block_of (joined_files lengths.now) piece_length (spot piece.0 offset.0) count) out.old }
{
    // One pass over the lengths: the files before the block, those in it, those past it. Only once everything is checked
    // those in it are read again, to write, and before that to count its parts where there may not be room. No memory is used but `out`.
    // A piece length that is not legal is refused before any of them is read.
    if !rules::legal_piece_length(piece_length) {
        return Err(refuse(number::RANGE, 0));
    }
    let from = content_offset(piece_length, piece, offset);
    let files = Files::seek(lengths, from);
    let held = held(lengths, piece_length, files.total(), piece)?;
    if !lies_within(held, offset, count) {
        return Err(refuse(number::OUTSIDE, 0));
    }
    let to = ContentOffset(from.0 + count as u64);
    let parts = Parts { files, from, to };
    if !parts.fit(out.len() / 3) {
        return Err(refuse(number::ROOM, 0));
    }
    Ok(parts.write(out))
}

// The piece of a file's byte and its offset there. One pass over the lengths.
pub fn byte(lengths: &[u64], piece_length: u64, file: usize, offset: u64) -> Result<Spot, Refusal>
    ensures { place_paper result ≡ byte_of (joined_files lengths.now) piece_length file offset }
{
    let files = Files::reach(lengths, file);
    let total = files.total();
    if !keeps_rules(piece_length, lengths.len(), total) {
        return Err(refuse(number::RANGE, 0));
    }
    let Some(size) = lengths.get(file) else {
        return Err(refuse(number::BEYOND, 0));
    };
    if *size <= offset {
        return Err(refuse(number::OUTSIDE, 0));
    }
    let place = ContentOffset(files.start.0 + offset);
    Ok(Spot {
        piece: piece_number(piece_length, place),
        offset: piece_offset(piece_length, place),
    })
}

// The length of a piece: the piece length, and less where the last is short. One pass over the lengths.
pub fn piece_size(lengths: &[u64], piece_length: u64, piece: PieceNumber) -> Result<u64, Refusal>
    ensures { paper result ≡ size_of (joined_files lengths.now) piece_length piece.0 }
{
    let total = rules::with_files(Total(0), lengths);
    held(lengths, piece_length, total, piece)
}

// The place in the content of an offset of a piece. One past every number of 64 bits is the largest.
pub fn content_offset(piece_length: u64, piece: PieceNumber, offset: PieceOffset) -> ContentOffset
    ensures { result.0 ≡ content_offset piece_length piece.0 offset.0 }
{
    let start = (piece.0 as u64).saturating_mul(piece_length);
    ContentOffset(start.saturating_add(offset.0 as u64))
}

// The piece of a place in the content; 0 where the piece length is 0. One past every number of 32 bits is the largest, which is no piece.
pub fn piece_number(piece_length: u64, place: ContentOffset) -> PieceNumber
    ensures { result.0 ≡ piece_number piece_length place.0 }
{
    if piece_length == 0 {
        return PieceNumber(0);
    }
    PieceNumber(capped(place.0 / piece_length))
}

// The piece of a number that a host gives. One past every number of 32 bits is the largest, which is no piece.
pub fn piece_numbered(n: usize) -> PieceNumber
    ensures { result.0 ≡ min n widest }
{
    PieceNumber(capped(n as u64))
}

// The offset of a place in its piece.
pub fn piece_offset(piece_length: u64, place: ContentOffset) -> PieceOffset
    ensures { result.0 ≡ piece_offset piece_length place.0 }
{
    if piece_length == 0 {
        return PieceOffset(capped(place.0));
    }
    PieceOffset(capped(place.0 % piece_length))
}

// How many bytes a piece has: the piece length, what is left for the last, none past that.
pub fn piece_bytes(total: Total, piece_length: u64, piece: PieceNumber) -> u64
    ensures { result ≡ piece_bytes_of total.0 piece_length piece.0 }
{
    let start = content_offset(piece_length, piece, PieceOffset(0));
    total.0.saturating_sub(start.0).min(piece_length)
}

// The length of a piece of files whose total is known.
fn held(
    lengths: &[u64],
    piece_length: u64,
    total: Total,
    piece: PieceNumber,
) -> Result<u64, Refusal>
    requires { total.0 ≡ min (sum lengths.now) largest }
    ensures { paper result ≡ size_of (joined_files lengths.now) piece_length piece.0 }
{
    if !keeps_rules(piece_length, lengths.len(), total) {
        return Err(refuse(number::RANGE, 0));
    }
    if rules::pieces(total, piece_length) <= piece.0 as u64 {
        return Err(refuse(number::BEYOND, 0));
    }
    Ok(piece_bytes(total, piece_length, piece))
}

// The rules for a piece length, a number of files and their total. A file that is too long makes the total too large.
fn keeps_rules(piece_length: u64, files: usize, total: Total) -> bool
    ensures { result ≡ piece_length_of piece_length && (file_count files && total_and total.0 (pieces_of total.0 piece_length)) }
{
    rules::legal_piece_length(piece_length)
        && rules::legal_file_count(files)
        && rules::legal_total(total, piece_length)
}

// Whether a block of so many bytes may be, and its last byte lies within its piece.
fn lies_within(held: u64, offset: PieceOffset, count: u32) -> bool
    ensures { result ≡ lies held offset.0 count }
{
    (1..=limit::BLOCK).contains(&(count as usize)) && offset.0 as u64 + count as u64 <= held
}

fn capped(n: u64) -> u32
    ensures { result ≡ min n widest }
{
    n.min(u32::MAX as u64) as u32
}
