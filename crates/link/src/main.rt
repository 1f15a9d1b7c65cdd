// The program for a torrent's link: reads standard input, and prints the line that `links::line` decides.
#![tactic(auto)]

use std::io;
use std::io::{Cursor, Read, Write};

// One byte more than a link is made of tells that there is too much.
const MOST: usize = 65537;

fn main(rt: HostRuntime) {
    let mut space = [0u8; MOST];
    let mut torrent = Cursor::new(&mut space[..]);
    // A failed read counts as the end of the input, and a failed write is passed over.
    let _ = io::copy(&mut rt.stdin().take(MOST as u64), &mut torrent);
    let n = (torrent.position() as usize).min(space.len());
    let mut printed = [0u8; 393285];
    let count = links::line(&space[..n], &mut printed);
    let _ = rt.stdout().write_all(&printed[..count]);
}
