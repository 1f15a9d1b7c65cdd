// The published messages of FIPS 180-4 and the lengths around a block's end, whole and in parts, a line each, held to the file stdout.
// tests/sha1_vectors.sh makes the same messages and has sha1sum print the same lines.
#![tactic(auto)]

mod message;
mod report;

use std::io::Stdout;

fn main(rt: HostRuntime) {
    all(rt.stdout(), &mut [0u8; 1000000]);
}

// The space is lent, so that its length is known here from its type alone.
fn all(output: Stdout, space: &mut [u8; 1000000]) {
    published(output);
    message::fill(space, b'a', 0);
    report::both(output, "one million a", space);
    message::fill(space, 0, 1);
    around(output, space);
    for size in [1, 63, 64, 65, 1000] {
        report::parts(output, format_args!("parts of {size}"), space, size);
    }
    report::limits(output);
    report::agreements(output);
}

// The messages of the standard's examples that fit a line.
fn published(output: Stdout) {
    report::both(output, "empty", b"");
    report::both(output, "abc", b"abc");
    report::both(
        output,
        "448 bits",
        b"abcdbcdecdefdefgefghfghighijhijkijkljklmklmnlmnomnopnopq",
    );
    report::both(
        output,
        "896 bits",
        b"abcdefghbcdefghicdefghijdefghijkefghijklfghijklmghijklmnhijklmnoijklmnopjklmnopqklmnopqrlmnopqrsmnopqrstnopqrstu",
    );
}

// The first bytes of the space, so many that they end just before a block's end, or its place for the length, or just past it.
fn around(output: Stdout, space: &[u8]) {
    for count in [55, 56, 63, 64, 65, 119, 120, 127, 128] {
        if let Some(message) = space.get(..count) {
            report::both(output, format_args!("{count} bytes"), message);
        }
    }
}
