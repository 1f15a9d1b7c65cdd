// Answers a replay script (docs/REPLAY.md), the file stdin, for every call that needs no yard, a line each, held to the file stdout.
// tests/scripts/case_table.py makes the script; the second program and the C host answer it too.
#![tactic(auto)]

mod addresses;
mod blocks;
mod calls;
mod hashes;
mod line;
mod magnets;
mod replies;
mod report;
mod texts;
mod torrents;
mod weeks;
mod wire;
mod writers;

use line::Line;
use std::io;
use std::io::{Cursor, Read, Stdin, Stdout};

// No script is longer.
const MOST: usize = 524288;

// Room for the bytes of a line's words.
const ROOM: usize = 2097152;

fn main(rt: HostRuntime) {
    let mut script = Cursor::new([0u8; MOST]);
    let mut room = [0u8; ROOM];
    work(rt.stdin(), rt.stdout(), &mut script, &mut room);
}

// The arrays are lent, so that their lengths are known here from their types alone. A failed read counts as the end of the script.
fn work(input: Stdin, output: Stdout, script: &mut Cursor<[u8; MOST]>, room: &mut [u8; ROOM]) {
    let _ = io::copy(&mut input.take(MOST as u64), script);
    let n = (script.position() as usize).min(MOST);
    for text in script.get_ref()[..n].split(|b| *b == b'\n') {
        calls::answer(output, Line { text }, room);
    }
}
