// The program for a week's file: reads standard input, and prints the lines that `week::listing` decides.
#![tactic(auto)]

use std::io;
use std::io::{Cursor, Read, Stdin, Stdout, Write};

// One byte more than a file may have tells that there is too much.
const MOST: usize = 1048577;

fn main(rt: HostRuntime) {
    work(rt.stdin(), rt.stdout(), &mut Cursor::new([0u8; MOST]));
}

// The space is lent, so that its length is known here from its type alone. A failed read counts as the end of the input, and a
// failed write is passed over.
fn work(input: Stdin, output: Stdout, file: &mut Cursor<[u8; MOST]>) {
    let _ = io::copy(&mut input.take(MOST as u64), file);
    let n = (file.position() as usize).min(MOST);
    let mut printed = [0u8; 21332];
    let count = week::listing(&file.get_ref()[..n], &mut printed);
    let _ = output.write_all(&printed[..count]);
}
