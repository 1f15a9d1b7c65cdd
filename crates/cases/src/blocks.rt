// Blocks to parts of files, bytes of files to pieces, and the sizes of pieces. The second word lists the lengths.
ghost use Rattle.std.specs.Prelude.{◌≤◌};

use crate::line::{LISTED, Line, value};
use crate::report;
use std::io::Stdout;
use torrent_blocks::{PieceNumber, PieceOffset};

// What the lent output holds before each call.
const MARK: u64 = 77;

// So many numbers are 1,025 parts, one more than a torrent may have files.
const MOST: usize = 3075;

pub fn block(output: Stdout, line: Line) {
    let mut lengths = [0u64; LISTED];
    let lengths = line.list(2, &mut lengths);
    let mut space = [MARK; MOST];
    within(output, line, lengths, &mut space);
}

fn within(output: Stdout, line: Line, lengths: &[u64], space: &mut [u64; MOST]) {
    let found = torrent_blocks::block(
        lengths,
        line.number(1),
        PieceNumber(line.small(3)),
        PieceOffset(line.small(4)),
        line.small(5),
        &mut space[..room(line.word(6))],
    );
    match found {
        Ok(count) => parts(output, space, count),
        Err(r) => {
            report::refused(output, r);
            report::marks(output, space, 0, &MARK);
        }
    }
}

// So many parts, or `1+2` for one and two numbers more, in numbers.
fn room(word: &[u8]) -> usize
    ensures { result ≤ MOST }
{
    let mut numbers = word.splitn(2, |b| *b == b'+').map(value);
    let parts = numbers.next().unwrap_or(0);
    let more = numbers.next().unwrap_or(0);
    if 1024 < parts {
        return MOST;
    }
    (parts * 3 + more % 3) as usize
}

fn parts(output: Stdout, space: &[u64], count: usize) {
    for (i, part) in space.chunks_exact(3).take(count).enumerate() {
        if 0 < i {
            report::say(output, b" ");
        }
        report::decimal(output, part[0]);
        report::field(output, b":", part[1]);
        report::field(output, b":", part[2]);
    }
    report::marks(output, space, count.saturating_mul(3), &MARK);
}

pub fn byte(output: Stdout, line: Line) {
    let mut lengths = [0u64; LISTED];
    let lengths = line.list(2, &mut lengths);
    let file = line.number(3) as usize;
    match torrent_blocks::byte(lengths, line.number(1), file, line.number(4)) {
        Ok(spot) => {
            report::decimal(output, spot.piece.0 as u64);
            report::number(output, spot.offset.0 as u64);
        }
        Err(r) => report::refused(output, r),
    }
}

pub fn size(output: Stdout, line: Line) {
    let mut lengths = [0u64; LISTED];
    let lengths = line.list(2, &mut lengths);
    match torrent_blocks::piece_size(lengths, line.number(1), PieceNumber(line.small(3))) {
        Ok(n) => report::decimal(output, n),
        Err(r) => report::refused(output, r),
    }
}
