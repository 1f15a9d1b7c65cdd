// Magnet links: the hash, dn and tr, decoded into as many bytes as a line says; what is not written has to stay.
use crate::line::{Line, MARK};
use crate::{report, writers};
use std::io::Stdout;

// No name or address of the script is longer.
const MOST: usize = 255;

pub fn link(output: Stdout, line: Line, room: &mut [u8]) {
    let (text, _) = line.bytes(1, room);
    let mut name = [MARK; MOST];
    let mut address = [MARK; MOST];
    let n = line.room(2, MOST);
    let m = line.room(3, MOST);
    read(output, text, &mut name[..n], &mut address[..m]);
}

fn read(output: Stdout, text: &[u8], name: &mut [u8], address: &mut [u8]) {
    let mut hash = [MARK; 20];
    match links::read(text, &mut hash, name, address) {
        Ok((dn, tr)) => {
            report::hex(output, &hash);
            given(output, dn, name);
            given(output, tr, address);
        }
        Err(r) => {
            writers::refused(output, r, &hash);
            report::marks(output, name, 0, &MARK);
            report::marks(output, address, 0, &MARK);
        }
    }
}

// What a link says of a thing, after a space.
fn given(output: Stdout, said: Option<usize>, out: &[u8]) {
    report::say(output, b" ");
    match said {
        None => {
            report::say(output, b"none");
            report::marks(output, out, 0, &MARK);
        }
        Some(n) => writers::written(output, out, n, false),
    }
}
