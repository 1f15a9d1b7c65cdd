// Torrents: what they say, where it stands, their files and pieces.
use crate::{hashes, report};
use refusal::{Part, Refusal};
use std::io::Stdout;
use torrent_blocks::PieceNumber;
use torrent_contents::{Element, Entry};
use torrent_metainfo::{Content, Torrent};

pub fn torrent(output: Stdout, text: &[u8]) {
    match torrent_metainfo::read(text) {
        Ok(t) => taken(output, text, t),
        Err(r) => report::refused(output, r),
    }
}

fn taken(output: Stdout, text: &[u8], t: Torrent) {
    report::say(output, b"taken ");
    report::hex(output, torrent_metainfo::announce(text));
    report::next_hex(output, torrent_metainfo::name(text));
    report::number(output, t.piece_length);
    report::number(output, t.piece_count);
    counts(output, t.content);
    info_hash(output, text);
}

fn counts(output: Stdout, c: Content) {
    report::number(output, c.files as u64);
    report::number(output, c.total);
}

fn info_hash(output: Stdout, text: &[u8]) {
    report::say(output, b" ");
    let mut out = [0u8; 20];
    let answer = torrent_metainfo::info_hash(text, &mut out);
    hashes::show(output, answer, &out);
}

// File n: where it starts, its length, and its path.
pub fn file(output: Stdout, text: &[u8], n: usize) {
    match torrent_contents::file(text, n) {
        Ok(e) => entry(output, text, e),
        Err(r) => report::refused(output, r),
    }
}

fn entry(output: Stdout, text: &[u8], e: Entry) {
    let offset = e.offset;
    report::decimal(output, offset.0);
    report::number(output, e.length);
    report::say(output, b" ");
    if e.single {
        return report::hex(output, torrent_metainfo::name(text));
    }
    path(output, text, e.path, true);
}

// Walks a path, as many turns as there are bytes at most, and answers the place past it.
fn path(output: Stdout, text: &[u8], first: usize, shown: bool) -> usize {
    let mut at = first;
    for _ in 0..text.len() {
        match torrent_contents::element_at(text, at) {
            Ok(Element::Is(x, next)) => {
                element(output, text, x, shown, at != first);
                at = next;
            }
            Ok(Element::End(past)) => return past,
            Err(r) => return stop(output, r),
        }
    }
    at
}

fn stop(output: Stdout, r: Refusal) -> usize {
    report::refused(output, r);
    r.place
}

fn element(output: Stdout, text: &[u8], x: Part, shown: bool, later: bool) {
    if shown {
        if later {
            report::say(output, b"/");
        }
        report::hex(output, bencode_walk::bytes(text, x));
    }
}

// Where the parts of a torrent stand.
pub fn places(output: Stdout, text: &[u8]) {
    match torrent_metainfo::read(text) {
        Ok(t) => parts(output, text, t),
        Err(r) => report::refused(output, r),
    }
}

fn parts(output: Stdout, text: &[u8], t: Torrent) {
    report::part(output, t.announce);
    report::next_part(output, t.name);
    report::next_part(output, t.info);
    report::next_part(output, t.pieces);
    hashes_at(output, text, t.piece_count);
    content(output, text, t.content);
}

// The hashes of the first piece and the last, and what refuses the one past it.
fn hashes_at(output: Stdout, text: &[u8], count: u64) {
    hash(output, text, 0);
    if 0 < count {
        hash(output, text, count - 1);
    }
    hash(output, text, count);
}

fn hash(output: Stdout, text: &[u8], n: u64) {
    let Ok(piece) = u32::try_from(n) else {
        return;
    };
    match torrent_contents::piece_hash(text, PieceNumber(piece)) {
        Ok(x) => report::next_part(output, x),
        Err(r) => report::number(output, r.number as u64),
    }
}

fn content(output: Stdout, text: &[u8], c: Content) {
    if c.single {
        report::say(output, b" single ");
        return path_at(output, text, 0, false);
    }
    report::field(output, b" files ", c.place as u64);
    walked(output, text, files_end(output, text, c.place, c.files));
    path_at(output, text, 0, true);
    if 0 < c.files {
        path_at(output, text, c.files - 1, true);
    }
}

// Where a file's path begins, or the place past it.
fn path_at(output: Stdout, text: &[u8], n: usize, past: bool) {
    match torrent_contents::file(text, n) {
        Ok(e) => path_place(output, text, e.path, past),
        Err(r) => report::refused(output, r),
    }
}

fn path_place(output: Stdout, text: &[u8], first: usize, past: bool) {
    if past {
        return report::number(output, path(output, text, first, false) as u64);
    }
    report::decimal(output, first as u64);
}

// The place that the files come to, walked one by one from the list's place on.
fn files_end(output: Stdout, text: &[u8], place: usize, count: usize) -> usize {
    if text.len() <= place {
        return place;
    }
    let mut at = place + 1;
    for _ in 0..count {
        at = past_file(output, text, at);
    }
    at
}

fn past_file(output: Stdout, text: &[u8], at: usize) -> usize {
    match torrent_metainfo::file_at(text, at) {
        Ok(f) => f.next,
        Err(r) => stop(output, r),
    }
}

// No file stands past the last.
fn walked(output: Stdout, text: &[u8], at: usize) {
    report::number(output, at as u64);
    match torrent_metainfo::file_at(text, at) {
        Ok(f) => report::number(output, f.length),
        Err(r) => report::number(output, r.number as u64),
    }
}

// Whether bytes are piece n.
pub fn piece(output: Stdout, text: &[u8], n: u32, bytes: &[u8]) {
    match torrent_contents::check_piece(text, PieceNumber(n), bytes) {
        Ok(true) => report::say(output, b"yes"),
        Ok(false) => report::say(output, b"no"),
        Err(r) => report::refused(output, r),
    }
}
