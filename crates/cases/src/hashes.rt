// SHA-1 of bytes, whole and in parts.
use crate::line::{LISTED, Line};
use crate::report;
use hash_sha1::stream;
use refusal::Refusal;
use std::io::Stdout;

pub fn whole(output: Stdout, bytes: &[u8]) {
    let mut out = [0u8; 20];
    let answer = hash_sha1::digest(bytes, &mut out);
    show(output, answer, &out);
}

// In parts of the lengths that the second word lists, cut where the bytes end, and the rest.
pub fn parts(output: Stdout, bytes: &[u8], line: Line) {
    let mut room = [0u64; LISTED];
    cut(output, bytes, line.list(2, &mut room));
}

fn cut(output: Stdout, bytes: &[u8], lengths: &[u64]) {
    let mut s = stream::start();
    let mut rest = bytes;
    for length in lengths {
        let (part, after) = rest.split_at((*length).min(rest.len() as u64) as usize);
        s = stream::add(s, part);
        rest = after;
    }
    let mut out = [0u8; 20];
    let answer = stream::finish(stream::add(s, rest), &mut out);
    show(output, answer, &out);
}

pub fn show(output: Stdout, answer: Result<(), Refusal>, out: &[u8; 20]) {
    match answer {
        Ok(()) => report::hex(output, out),
        Err(r) => report::refused(output, r),
    }
}
