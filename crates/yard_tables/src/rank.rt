// The seats that want the uplink, ranked in one pass: the four that sent most bytes, and whose turn the free place is.
ghost use Rattle.std.specs.Prelude.{◌≡◌, cond, ◌&&◌, eqb};
ghost use Rattle.yard_tables.specs.Rounds.{nobody};
ghost use Rattle.yard_tables.specs.Ranks.{no_place_of, ranking, unranked, wants_it, beaten, inserted, noted, rank_step};

use crate::sizes::wide;
use crate::{Head, Seat, on};

// What stands where there is no seat: NOBODY as a size.
pub const NONE: usize = 4294967295;

// A seat and the bytes that it sent, or NONE.
#[derive(Clone, Copy)]
pub struct Place {
    pub seat: usize,
    pub bytes: u64,
}

// The four so far, the best first; the lowest seat that wants the uplink, and the lowest after the one that last had the
// free place.
#[derive(Clone, Copy)]
pub struct Ranking {
    pub first: Place,
    pub second: Place,
    pub third: Place,
    pub fourth: Place,
    pub lowest: usize,
    pub next: usize,
}

// Before the first seat.
pub fn unranked() -> Ranking
    ensures { result ≡ unranked }
{
    Ranking {
        first: no_place(),
        second: no_place(),
        third: no_place(),
        fourth: no_place(),
        lowest: NONE,
        next: NONE,
    }
}

// One seat more, number i.
pub fn rank_step(best: Ranking, s: Seat, i: usize, h: Head) -> Ranking
    ensures { result ≡ rank_step h.last best s i }
{
    if wants(s) {
        return insert(note(best, i, h), standing(i, s));
    }
    best
}

// A truck sits there, and is interested.
fn wants(s: Seat) -> bool
    ensures { result ≡ wants_it s }
{
    on(s.taken) && on(s.peer_interested)
}

// The lowest seats, with one more that wants the uplink.
fn note(r: Ranking, i: usize, h: Head) -> Ranking
    ensures { result ≡ noted h.last i r }
{
    Ranking {
        lowest: kept(r.lowest, true, i),
        next: kept(r.next, wide(h.last) < i, i),
        ..r
    }
}

// The four, with one more that comes after all that sent as many bytes.
fn insert(r: Ranking, new: Place) -> Ranking
    ensures { result ≡ inserted new r }
{
    let first = r.first;
    let second = r.second;
    let third = r.third;
    if !beaten(r.fourth, new) {
        return r;
    }
    if !beaten(third, new) {
        return four(r, first, second, third, new);
    }
    if !beaten(second, new) {
        return four(r, first, second, new, third);
    }
    if !beaten(first, new) {
        return four(r, first, new, second, third);
    }
    four(r, new, first, second, third)
}

// The lowest seats as they are, with these four.
fn four(r: Ranking, first: Place, second: Place, third: Place, fourth: Place) -> Ranking
    ensures { result ≡ ranking first second third fourth r.lowest r.next }
{
    Ranking {
        first,
        second,
        third,
        fourth,
        ..r
    }
}

// Nobody, or one that sent fewer bytes.
fn beaten(p: Place, new: Place) -> bool
    ensures { result ≡ beaten p new }
{
    p.seat == NONE || p.bytes < new.bytes
}

// The first seat that is found is kept.
fn kept(found: usize, counts: bool, i: usize) -> usize
    ensures { result ≡ cond (eqb found nobody && counts) i found }
{
    if found == NONE && counts { i } else { found }
}

fn standing(i: usize, s: Seat) -> Place
    ensures { result ≡ record { seat = i; bytes = s.bytes } }
{
    Place {
        seat: i,
        bytes: s.bytes,
    }
}

fn no_place() -> Place
    ensures { result ≡ no_place_of }
{
    Place {
        seat: NONE,
        bytes: 0,
    }
}
