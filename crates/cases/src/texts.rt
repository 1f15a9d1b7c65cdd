// Bencode: a text checked, and walked.
use crate::report;
use bencode_walk::Seen;
use refusal::{Part, Refusal};
use std::io::Stdout;

pub fn check(output: Stdout, text: &[u8]) {
    match bencode::check(text) {
        Ok(count) => report::field(output, b"taken ", count as u64),
        Err(r) => report::refused(output, r),
    }
}

// What stands at each place: as many turns as there are bytes are enough.
pub fn walk(output: Stdout, text: &[u8]) {
    let mut at = seen(output, text, 0);
    for _ in 0..text.len() {
        if text.len() <= at {
            return;
        }
        report::say(output, b" ");
        at = seen(output, text, at);
    }
}

// Shows what stands at a place, and answers the place past it; past a refusal that is the end.
fn seen(output: Stdout, text: &[u8], at: usize) -> usize {
    match bencode_walk::look(text, at) {
        Ok(Seen::String(p, next)) => string(output, text, p, next),
        Ok(Seen::Integer(z, next)) => integer(output, z, next),
        Ok(Seen::Long(p, next)) => long(output, text, p, next),
        Ok(Seen::List(next)) => letter(output, b"l", next),
        Ok(Seen::Dictionary(next)) => letter(output, b"d", next),
        Ok(Seen::End(next)) => letter(output, b"e", next),
        Err(r) => stop(output, text.len(), r),
    }
}

fn string(output: Stdout, text: &[u8], p: Part, next: usize) -> usize {
    report::say(output, b"s");
    report::hex(output, bencode_walk::bytes(text, p));
    next
}

fn integer(output: Stdout, z: i64, next: usize) -> usize {
    let mut out = [0u8; 22];
    let r = bencode_writer::integer(&mut out, 0, z);
    signed(output, r, &out);
    next
}

// An integer as it is written, without its e.
fn signed(output: Stdout, r: Result<usize, Refusal>, out: &[u8]) {
    let end = bencode_writer::end(r);
    if 0 < end {
        let e = end - 1;
        if e <= out.len() {
            report::say(output, &out[0..e]);
        }
    }
}

fn long(output: Stdout, text: &[u8], p: Part, next: usize) -> usize {
    report::say(output, b"n");
    report::say(output, bencode_walk::bytes(text, p));
    next
}

fn letter(output: Stdout, letter: &[u8], next: usize) -> usize {
    report::say(output, letter);
    next
}

fn stop(output: Stdout, end: usize, r: Refusal) -> usize {
    report::refused(output, r);
    end
}
