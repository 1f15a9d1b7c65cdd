// Tracker replies: what they say, their entries, and where these stand.
use crate::report;
use refusal::Part;
use std::io::Stdout;
use tracker::compact::Packed;
use tracker::listed::Listed;
use tracker::{Found, Peers, Reply};

pub fn reply(output: Stdout, text: &[u8]) {
    match tracker::read(text) {
        Ok(Reply::Failure(p)) => failed(output, text, p),
        Ok(Reply::Compact(p)) => taken(output, p),
        Ok(Reply::List(p)) => taken(output, p),
        Err(r) => report::refused(output, r),
    }
}

fn failed(output: Stdout, text: &[u8], p: Part) {
    report::say(output, b"failure ");
    report::hex(output, bencode_walk::bytes(text, p));
}

fn taken(output: Stdout, p: Peers) {
    report::field(output, b"taken ", p.interval);
    report::number(output, p.count as u64);
}

// Entry n.
pub fn peer(output: Stdout, text: &[u8], n: usize) {
    match tracker::peer(text, n) {
        Ok(Found::Packed(x)) => packed(output, x),
        Ok(Found::Listed(x)) => listed(output, text, x),
        Err(r) => report::refused(output, r),
    }
}

fn packed(output: Stdout, x: Packed) {
    let a = x.address;
    report::say(output, b"none");
    report::say(output, b" ");
    report::digits(output, a.0);
    report::digits(output, a.1);
    report::digits(output, a.2);
    report::digits(output, a.3);
    report::number(output, x.port);
}

fn listed(output: Stdout, text: &[u8], x: Listed) {
    report::hex(output, bencode_walk::bytes(text, x.id));
    report::next_hex(output, bencode_walk::bytes(text, x.ip));
    report::number(output, x.port);
}

// Where the parts of a reply stand.
pub fn entries(output: Stdout, text: &[u8]) {
    match tracker::read(text) {
        Ok(Reply::Failure(p)) => reason(output, p),
        Ok(Reply::Compact(p)) => walked(output, b"compact ", p, |at| {
            tracker::compact::packed_at(text, at).map_or(0, |(_, next)| next)
        }),
        Ok(Reply::List(p)) => list(output, text, p),
        Err(r) => report::refused(output, r),
    }
}

fn reason(output: Stdout, p: Part) {
    report::say(output, b"failure ");
    report::part(output, p);
}

fn list(output: Stdout, text: &[u8], p: Peers) {
    walked(output, b"list ", p, |at| {
        tracker::listed::listed_at(text, at).map_or(0, |(_, next)| next)
    });
    if 0 < p.count {
        parts(output, text, 0);
        parts(output, text, p.count - 1);
    }
}

// Where the first entry stands, and the place that the entries come to, walked one by one. A refusal answers place 0,
// where no entry stands.
fn walked<F: Fn(usize) -> usize>(output: Stdout, form: &[u8], p: Peers, past: F)
    requires { F.IsAlwaysCallable past }
{
    let mut at = p.first;
    for _ in 0..p.count {
        at = past(at);
    }
    report::field(output, form, p.first as u64);
    report::number(output, at as u64);
}

// Where the peer id and the ip of an entry stand.
fn parts(output: Stdout, text: &[u8], n: usize) {
    match tracker::peer(text, n) {
        Ok(Found::Packed(_)) => {}
        Ok(Found::Listed(x)) => places(output, x),
        Err(r) => report::refused(output, r),
    }
}

fn places(output: Stdout, x: Listed) {
    report::next_part(output, x.id);
    report::next_part(output, x.ip);
}
