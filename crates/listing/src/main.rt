// The listing program of document 01: reads standard input, and prints what `torrent_lines::listing` decides.
#![tactic(auto)]

use std::io;
use std::io::{Cursor, Read, Write};

// One byte more than is listed tells that there is too much.
const MOST: usize = 65537;

fn main(rt: HostRuntime) {
    let mut space = [0u8; MOST];
    let mut torrent = Cursor::new(&mut space[..]);
    // A failed read counts as the end of the input.
    let _ = io::copy(&mut rt.stdin().take(MOST as u64), &mut torrent);
    let n = (torrent.position() as usize).min(space.len());
    let mut printed = [0u8; 393216];
    // There is room for every listing, so no refusal is met here, and a failed write is passed over.
    if let Ok(count) = torrent_lines::listing(&space[..n], &mut printed) {
        let _ = rt.stdout().write_all(&printed[..count]);
    }
}
