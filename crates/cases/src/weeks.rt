// A week's file: what it comes to, and one of its packages.
use crate::report;
use std::io::Stdout;

pub fn sums(output: Stdout, file: &[u8]) {
    match week::read(file) {
        Ok(w) => {
            report::field(output, b"taken ", w.count as u64);
            report::number(output, w.files);
            report::number(output, w.total);
        }
        Err(r) => report::refused(output, r),
    }
}

// Package n.
pub fn package(output: Stdout, file: &[u8], n: usize) {
    match week::package(file, n) {
        Ok(e) => {
            report::hex(output, bencode_walk::bytes(file, e.hash));
            report::number(output, e.body.from as u64);
            report::number(output, e.body.len as u64);
            report::number(output, e.files);
            report::number(output, e.total);
        }
        Err(r) => report::refused(output, r),
    }
}
