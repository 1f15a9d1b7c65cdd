// Each writer, into as many bytes as its line says; what it does not write has to stay.
use crate::line::{Line, MARK, value};
use crate::report;
use crate::wire::twenty;
use peer_wire::write;
use refusal::{Refusal, big_endian};
use std::io::Stdout;
use torrent_blocks::{PieceNumber, PieceOffset};

// No output of the script is longer.
const MOST: usize = 1048577;

// Room for the lengths of a week's bodies: one more than there may be.
const BODIES: usize = 257;

pub fn ask(output: Stdout, line: Line, room: &mut [u8], brief: bool) {
    let mut out = [MARK; MOST];
    lend(output, line, room, brief, &mut out);
}

// The array as a slice, whose length is known here from its type alone.
fn lend(output: Stdout, line: Line, room: &mut [u8], brief: bool, out: &mut [u8; MOST]) {
    let n = line.room(room_at(line.word(0)), MOST);
    within(output, line, room, brief, &mut out[..n]);
}

fn within(output: Stdout, line: Line, room: &mut [u8], brief: bool, out: &mut [u8]) {
    match put(line, out, room) {
        Ok(n) => written(output, out, n, brief),
        Err(r) => refused(output, r, out),
    }
}

// The word that is the room.
fn room_at(name: &[u8]) -> usize {
    match name {
        b"write-torrent" => 6,
        b"write-link" => 2,
        _ => 3,
    }
}

fn put(line: Line, out: &mut [u8], room: &mut [u8]) -> Result<usize, Refusal> {
    let (x, rest) = line.bytes(1, room);
    let (y, rest) = line.bytes(2, rest);
    match line.word(0) {
        b"write-torrent" => {
            let (pieces, _) = line.bytes(5, rest);
            torrent_authoring::write(out, x, y, line.number(3), pieces, line.number(4))
        }
        b"write-reply" => tracker::writing::write(out, line.number(1), y),
        b"write-handshake" => write::handshake(out, &twenty(x), &twenty(y)),
        b"write-link" => links::write(x, out),
        b"write-week" => {
            let mut lengths = [0u64; BODIES];
            week::write(x, line.list(2, &mut lengths), out)
        }
        _ => frame(out, line.word(1), y),
    }
}

// A frame by the writer of its kind where the payload has its shape, and else by that of any frame, which alone C has.
fn frame(out: &mut [u8], word: &[u8], payload: &[u8]) -> Result<usize, Refusal> {
    if word.contains(&b'k') {
        return write::keepalive(out);
    }
    let id = (value(word) % 256) as u8;
    let piece = PieceNumber(four(payload, 0));
    let begin = PieceOffset(four(payload, 4));
    let length = four(payload, 8);
    match (id, payload.len()) {
        (4, 4) => write::have(out, piece),
        (5, _) => write::bitfield(out, payload),
        (6, 12) => write::request(out, piece, begin, length),
        (7, 8..) => write::piece(out, piece, begin, &payload[8..]),
        (8, 12) => write::cancel(out, piece, begin, length),
        (4 | 6 | 7 | 8, _) => write::raw(out, id, payload),
        (_, 0) => write::plain(out, id),
        _ => write::raw(out, id, payload),
    }
}

fn four(bytes: &[u8], at: usize) -> u32 {
    big_endian::read::<u32>(bytes, at).unwrap_or(0)
}

pub fn written(output: Stdout, out: &[u8], n: usize, brief: bool) {
    let Some(text) = out.get(..n) else {
        return;
    };
    if brief {
        report::sum(output, text);
    } else {
        report::hex(output, text);
    }
    report::marks(output, out, n, &MARK);
}

pub fn refused(output: Stdout, r: Refusal, out: &[u8]) {
    report::refused(output, r);
    report::marks(output, out, 0, &MARK);
}
