// Thin functions over lent seats: one seat taken out or put back, and the five passes over all of them.
#![tactic(auto)]

ghost use Rattle.std.specs.Prelude.{◌≡◌, not, position, ◌+◌, ◌<◌, ◌≤◌, ◌^◌, length, get_or, set, replicate};
ghost use Rattle.std.proofs.lemmas.List.Edits.{sets};
ghost use Rattle.yard_tables.specs.Seats.{on, cleared};
ghost use Rattle.yard_tables.specs.Counting.{each};
ghost use Rattle.yard_tables.specs.Ranks.{ranked, mark_step, choke_step, unchoke_step};
ghost use Rattle.yard_tables.specs.Seating.{lowest_free};
ghost use Rattle.yard_tables.specs.Looks.{page_of, lines_of};
ghost use Rattle.yard_scans.specs.Pages.{empty_page, page_step, line_step, line_of, as_lines};

use yard_tables::rank::{Ranking, rank_step, unranked};
use yard_tables::round::{Marks, choke, unchoke};
use yard_tables::sizes::wide;
use yard_tables::{Head, Page, Seat, cleared_seat, held, on};

// The seat at i, and a cleared one past the end.
pub fn seat_get(seats: &[Seat], i: usize) -> Seat
    ensures { result ≡ get_or seats.now i cleared }
{
    match seats.get(i) {
        Some(s) => *s,
        None => cleared_seat(),
    }
}

// The seat at i is set, and nothing happens past the end.
pub fn seat_set(seats: &mut [Seat], i: usize, s: Seat)
    ensures { seats.new ≡ set seats.old i s }
{
    if seats.len() <= i {
        return;
    }
    seats[i] = s;
}

// The lowest free seat, or the number of seats.
pub fn lowest_free(seats: &[Seat]) -> usize
    ensures { result ≡ lowest_free seats.now }
{
    first_free(seats).unwrap_or(seats.len())
}

fn first_free(seats: &[Seat]) -> Option<usize>
    ensures { result ≡ position (λ s. not (on s.taken)) seats.now }
{
    seats.iter().position(|s| !on(s.taken))
}

// Every seat is cleared.
pub fn clear_seats(seats: &mut [Seat])
    ensures { seats.new ≡ replicate (length seats.old) cleared }
{
    seats.fill(cleared_seat());
}

// The seats ranked: the four that want the uplink and sent most, and whose turn the free place is.
pub fn rank_seats(seats: &[Seat], h: Head) -> Ranking
    ensures { result ≡ ranked h.last seats.now }
{
    let mut best = unranked();
    for (i, s) in seats.iter().enumerate() {
        best = rank_step(best, *s, i, h);
    }
    best
}

// The marks of a round at every seat: every truck is choked, and then the four and the holder of the free place are not.
pub fn mark_seats(seats: &mut [Seat], marks: Marks)
    ensures { seats.new ≡ each (λ i s. mark_step marks s i) seats.old }
{
    choke_seats(seats);
    unchoke_seat(seats, marks.fourth);
    unchoke_seat(seats, marks.third);
    unchoke_seat(seats, marks.second);
    unchoke_seat(seats, marks.first);
    unchoke_seat(seats, marks.free);
}

fn choke_seats(seats: &mut [Seat])
    ensures { seats.new ≡ each (λ i s. choke_step s) seats.old }
{
    for s in seats.iter_mut() {
        *s = choke(*s);
    }
}

// Nothing happens past the end.
fn unchoke_seat(seats: &mut [Seat], i: usize)
    ensures { seats.new ≡ set seats.old i (unchoke_step (get_or seats.old i cleared)) }
{
    let s = seat_get(seats, i);
    seat_set(seats, i, unchoke(s));
}

// Which page of the missing list is asked for: the trucks that lack one of so many pieces, from a first seat on, on at
// most so many lines.
#[derive(Clone, Copy)]
pub struct Asked {
    pub pieces: u32,
    pub first: usize,
    pub lines: usize,
}

// The page, whose lines are written into what is lent.
pub fn list_missing(seats: &[Seat], page: &mut [u32], asked: Asked) -> Page
    ensures { (result ≡ page_of asked.pieces asked.first asked.lines seats.now)
        × (page.new ≡ sets page.old 0 (as_lines (lines_of asked.pieces asked.first asked.lines seats.now))) }
{
    let mut listed = empty_page(seats.len());
    for (i, s) in seats.iter().enumerate() {
        listed = list_step(asked, listed, *s, i, page);
    }
    listed
}

// One seat more: it is counted if its truck lacks a piece, listed if it is asked for and there is room, and else it may be
// the next.
fn list_step(asked: Asked, p: Page, s: Seat, i: usize, page: &mut [u32]) -> Page
    requires { (p.written ≤ p.total) × (p.total + 1 < 2 ^ 64) }
    ensures { (result ≡ page_step asked p s i) × (page.new ≡ line_step asked p s i page.old) }
{
    if !on(s.taken) {
        return p;
    }
    if held(s) == wide(asked.pieces) {
        return p;
    }
    let total = p.total + 1;
    if i < asked.first {
        return Page {
            written: p.written,
            total,
            next: p.next,
        };
    }
    let written = p.written;
    if written < asked.lines {
        put_line(page, written, i);
        return Page {
            written: written + 1,
            total,
            next: p.next,
        };
    }
    Page {
        written,
        total,
        next: p.next.min(i),
    }
}

// A page before the first of n seats.
fn empty_page(n: usize) -> Page
    ensures { result ≡ empty_page n }
{
    Page {
        written: 0,
        total: 0,
        next: n,
    }
}

fn put_line(page: &mut [u32], k: usize, i: usize)
    ensures { page.new ≡ set page.old k (line_of i) }
{
    if page.len() <= k {
        return;
    }
    page[k] = line_of(i);
}

fn line_of(i: usize) -> u32
    ensures { result ≡ line_of i }
{
    u32::try_from(i).unwrap_or(u32::MAX)
}
