// A line for each message: its name, and its digest or why there is none.
use hash_sha1::stream;
use hash_sha1::stream::Stream;
use refusal::Refusal;
use std::fmt::Display;
use std::io::Stdout;

// A message as a whole, and in parts of seven bytes.
pub fn both(output: Stdout, name: impl Display + Drop, message: &[u8]) {
    let _ = print!(output; "{name}: ");
    let mut out = [0u8; 20];
    let whole = hash_sha1::digest(message, &mut out);
    show(output, whole, &out);
    parts(output, format_args!("{name} in parts"), message, 7);
}

// A message in parts of so many bytes; 0 is as 1.
pub fn parts(output: Stdout, name: impl Display + Drop, message: &[u8], size: usize) {
    let _ = print!(output; "{name}: ");
    ended(output, cut(message, size));
}

// 256 times 65,536 zeros are the most that is taken; one byte more is not.
pub fn limits(output: Stdout) {
    let zeros = [0u8; 65536];
    let most = (0..256).fold(stream::start(), |s, _| stream::add(s, &zeros));
    say(output, "16777216 zeros: ");
    ended(output, most);
    say(output, "16777217 zeros: ");
    ended(output, stream::add(most, b"\0"));
}

// The digest of abc against itself, against itself but the last byte, and against 19 of its bytes.
pub fn agreements(output: Stdout) {
    let mut out = [0u8; 20];
    let whole = hash_sha1::digest(b"abc", &mut out);
    show(output, whole, &out);
    compare(output, &out);
    compare(output, &out[..19]);
    out[19] = 0;
    compare(output, &out);
}

fn compare(output: Stdout, expected: &[u8]) {
    match hash_sha1::agrees(b"abc", expected) {
        Ok(true) => say(output, "same\n"),
        Ok(false) => say(output, "other\n"),
        Err(r) => refused(output, r),
    }
}

fn say(output: Stdout, text: &str) {
    let _ = print!(output; "{text}");
}

fn cut(message: &[u8], size: usize) -> Stream {
    message
        .chunks(size.max(1))
        .fold(stream::start(), stream::add)
}

fn ended(output: Stdout, s: Stream) {
    let mut out = [0u8; 20];
    let whole = stream::finish(s, &mut out);
    show(output, whole, &out);
}

fn show(output: Stdout, answer: Result<(), Refusal>, out: &[u8; 20]) {
    match answer {
        Ok(()) => hex(output, out),
        Err(r) => refused(output, r),
    }
}

fn hex(output: Stdout, out: &[u8; 20]) {
    for b in out {
        let _ = print!(output; "{b:02x}");
    }
    say(output, "\n");
}

fn refused(output: Stdout, r: Refusal) {
    let _ = println!(output; "refused {} at {}", r.number, r.place);
}
