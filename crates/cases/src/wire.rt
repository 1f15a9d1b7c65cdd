// Frames and handshakes, read whole and cut after every byte.
use crate::report;
use peer_wire::{Frame, Greeting, Read};
use refusal::Part;
use std::io::Stdout;
use torrent_blocks::{PieceNumber, PieceOffset};

// The frame that the bytes begin with: its payload, or its numbers and where its bytes stand.
pub fn frame(output: Stdout, bytes: &[u8], places: bool) {
    match peer_wire::read_frame(bytes) {
        Ok(Read::Wait) => report::say(output, b"wait"),
        Ok(Read::Keepalive(used)) => keepalive(output, used, places),
        Ok(Read::Whole(f, used)) => whole(output, bytes, f, used, places),
        Err(r) => report::refused(output, r),
    }
}

fn keepalive(output: Stdout, used: usize, places: bool) {
    report::field(output, b"taken ", used as u64);
    report::say(output, b" keepalive");
    if !places {
        report::next_hex(output, b"");
    }
}

fn whole(output: Stdout, bytes: &[u8], f: Frame, used: usize, places: bool) {
    report::field(output, b"taken ", used as u64);
    if places {
        return fields(output, f);
    }
    // After four bytes of length the id, and then the payload.
    if let Some([id, payload @ ..]) = bytes.get(4..used) {
        report::number(output, *id as u64);
        report::next_hex(output, payload);
    }
}

fn fields(output: Stdout, f: Frame) {
    match f {
        Frame::Choke => report::number(output, 0),
        Frame::Unchoke => report::number(output, 1),
        Frame::Interested => report::number(output, 2),
        Frame::NotInterested => report::number(output, 3),
        Frame::Have(p) => have(output, p),
        Frame::Bitfield(bits) => some(output, 5, bits),
        Frame::Request(p, b, l) => three(output, 6, p, b, l),
        Frame::Piece(p, b, block) => piece(output, p, b, block),
        Frame::Cancel(p, b, l) => three(output, 8, p, b, l),
        Frame::Other(id, rest) => some(output, id, rest),
    }
}

fn have(output: Stdout, p: PieceNumber) {
    report::number(output, 4);
    report::number(output, p.0 as u64);
}

// An id and where some bytes stand.
fn some(output: Stdout, id: u8, p: Part) {
    report::number(output, id as u64);
    report::next_part(output, p);
}

fn three(output: Stdout, id: u8, p: PieceNumber, b: PieceOffset, l: u32) {
    report::number(output, id as u64);
    report::number(output, p.0 as u64);
    report::number(output, b.0 as u64);
    report::number(output, l as u64);
}

fn piece(output: Stdout, p: PieceNumber, b: PieceOffset, block: Part) {
    report::number(output, 7);
    report::number(output, p.0 as u64);
    report::number(output, b.0 as u64);
    report::next_part(output, block);
}

// The handshake that the bytes begin with: its bytes, or where they stand.
pub fn handshake(output: Stdout, bytes: &[u8], info: &[u8], places: bool) {
    match peer_wire::read_handshake(bytes, &twenty(info)) {
        Ok(Greeting::Await) => report::say(output, b"wait"),
        Ok(Greeting::Hello(free, peer, used)) => hello(output, bytes, free, peer, used, places),
        Err(r) => report::refused(output, r),
    }
}

fn hello(output: Stdout, bytes: &[u8], free: Part, peer: Part, used: usize, places: bool) {
    report::say(output, b"taken ");
    if places {
        report::decimal(output, used as u64);
        report::next_part(output, free);
        return report::next_part(output, peer);
    }
    report::hex(output, bencode_walk::bytes(bytes, free));
    report::next_hex(output, bencode_walk::bytes(bytes, peer));
}

// How many of the cuts are waits, and then the whole.
pub fn frame_cuts(output: Stdout, bytes: &[u8]) {
    let count = waits(bytes, |cut| {
        matches!(peer_wire::read_frame(cut), Ok(Read::Wait))
    });
    report::decimal(output, count as u64);
    report::say(output, b" ");
    frame(output, bytes, true);
}

pub fn handshake_cuts(output: Stdout, bytes: &[u8], info: &[u8]) {
    let hash = twenty(info);
    let count = waits(bytes, |cut| {
        matches!(peer_wire::read_handshake(cut, &hash), Ok(Greeting::Await))
    });
    report::decimal(output, count as u64);
    report::say(output, b" ");
    handshake(output, bytes, info, true);
}

// How many of the cuts, from no byte to all but one, are waits.
fn waits<F: Fn(&[u8]) -> bool>(bytes: &[u8], is_wait: F) -> usize
    requires { F.IsAlwaysCallable is_wait }
{
    (0..bytes.len())
        .filter(|cut| bytes.get(..*cut).is_some_and(|start| is_wait(start)))
        .count()
}

// The first twenty bytes; past the last, 0.
pub fn twenty(bytes: &[u8]) -> [u8; 20] {
    std::array::from_fn(|i| bytes.get(i).copied().unwrap_or(0))
}
