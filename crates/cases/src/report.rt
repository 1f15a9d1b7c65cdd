// Words, numbers and bytes of an answer. A failed write is passed over.
use refusal::{Part, Refusal};
use std::io::{Stdout, Write};

pub fn say(output: Stdout, text: &[u8]) {
    let _ = output.write_all(text);
}

pub fn decimal(output: Stdout, n: u64) {
    let _ = output.print(n);
}

// A number after a space.
pub fn number(output: Stdout, n: u64) {
    field(output, b" ", n);
}

// A number after a word.
pub fn field(output: Stdout, word: &[u8], n: u64) {
    say(output, word);
    decimal(output, n);
}

pub fn refused(output: Stdout, r: Refusal) {
    field(output, b"refused ", r.number as u64);
    field(output, b" at ", r.place as u64);
}

// A place with a length.
pub fn part(output: Stdout, p: Part) {
    decimal(output, p.from as u64);
    field(output, b":", p.len as u64);
}

// The same after a space.
pub fn next_part(output: Stdout, p: Part) {
    say(output, b" ");
    part(output, p);
}

// Bytes in hex.
pub fn hex(output: Stdout, bytes: &[u8]) {
    if bytes.is_empty() {
        return say(output, b"-");
    }
    for b in bytes {
        digits(output, *b);
    }
}

// The same after a space.
pub fn next_hex(output: Stdout, bytes: &[u8]) {
    say(output, b" ");
    hex(output, bytes);
}

pub fn digits(output: Stdout, b: u8) {
    let _ = print!(output; "{b:02x}");
}

// How many bytes, a colon and their digest.
pub fn sum(output: Stdout, bytes: &[u8]) {
    decimal(output, bytes.len() as u64);
    say(output, b":");
    crate::hashes::whole(output, bytes);
}

// A word where lent output past what a call writes is not as it was.
pub fn marks<T: PartialEq>(output: Stdout, out: &[T], written: usize, mark: &T) {
    if out.iter().skip(written).any(|x| *x != *mark) {
        say(output, b" output changed");
    }
}
