// A line of the script, and what it calls.
use crate::line::Line;
use crate::{
    addresses, blocks, hashes, magnets, replies, report, texts, torrents, weeks, wire, writers,
};
use std::io::Stdout;

// A remark, or a call, or `sum` and a call: no other call has a u second, and none has under four bytes.
pub fn answer(output: Stdout, line: Line, room: &mut [u8]) {
    if line.text.len() < 4 || line.text.starts_with(b"#") {
        return;
    }
    match line.text {
        [_, b'u', _, _, text @ ..] => ask(output, Line { text }, room, true),
        _ => ask(output, line, room, false),
    }
    report::say(output, b"\n");
}

fn ask(output: Stdout, line: Line, room: &mut [u8], brief: bool) {
    match line.word(0) {
        b"block" => blocks::block(output, line),
        b"byte" => blocks::byte(output, line),
        b"size" => blocks::size(output, line),
        b"link" => magnets::link(output, line, room),
        b"write-torrent"
        | b"write-reply"
        | b"write-handshake"
        | b"write-frame"
        | b"write-link"
        | b"write-week" => writers::ask(output, line, room, brief),
        _ => read(output, line, room),
    }
}

// The calls of a text or of other bytes, which are the first word after the name.
fn read(output: Stdout, line: Line, room: &mut [u8]) {
    let (x, rest) = line.bytes(1, room);
    let (y, rest) = line.bytes(2, rest);
    match line.word(0) {
        b"bencode" => texts::check(output, x),
        b"walk" => texts::walk(output, x),
        b"torrent" => torrents::torrent(output, x),
        b"file" => torrents::file(output, x, line.number(2) as usize),
        b"places" => torrents::places(output, x),
        b"piece" => torrents::piece(output, x, line.small(2), line.bytes(3, rest).0),
        b"reply" => replies::reply(output, x),
        b"peer" => replies::peer(output, x, line.number(2) as usize),
        b"entries" => replies::entries(output, x),
        b"address" => addresses::address(output, x, y),
        b"week" => weeks::sums(output, x),
        b"package" => weeks::package(output, x, line.number(2) as usize),
        b"frame" => wire::frame(output, x, false),
        b"frame-cuts" => wire::frame_cuts(output, x),
        b"handshake" => wire::handshake(output, x, y, false),
        b"handshake-cuts" => wire::handshake_cuts(output, x, y),
        b"sha1" => hashes::whole(output, x),
        b"sha1-parts" => hashes::parts(output, x, line),
        _ => report::say(output, b"no call"),
    }
}
