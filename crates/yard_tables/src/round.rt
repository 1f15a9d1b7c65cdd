// What a round makes of the head and of each seat, once the seats are ranked.
ghost use Rattle.std.specs.Prelude.{◌≡◌, min};
ghost use Rattle.yard_tables.specs.Rounds.{nobody, misplaced};
ghost use Rattle.yard_tables.specs.Ranks.{free_of, marks_of, next_number, last_of, head_of, turned, four_in, among, choke_step, unchoke_step, count_of};

use crate::rank::{NONE, Ranking};
use crate::sizes::wide;
use crate::{Head, NOBODY, Seat, on};

// The seats that a round unchokes, the free place's among them, or NONE.
#[derive(Clone, Copy)]
pub struct Marks {
    pub first: usize,
    pub second: usize,
    pub third: usize,
    pub fourth: usize,
    pub free: usize,
}

// What a round leaves of the head, the marks that it sets, and how many trucks it unchokes.
#[derive(Clone, Copy)]
pub struct Turned {
    pub head: Head,
    pub marks: Marks,
    pub unchoked: usize,
}

// Whether the round number is over 2, or the free place, now (nobody aside) or last, is no seat of n.
pub fn misplaced(h: Head, n: usize) -> bool
    ensures { result ≡ misplaced h n }
{
    2 < h.round || (h.free != NOBODY && n <= wide(h.free) || n <= wide(h.last))
}

// Whose the free place is after a round: on round number 0 the next seat's, else its holder's.
pub fn free_place(h: Head, best: Ranking) -> usize
    ensures { result ≡ free_of h best }
{
    if 0 < h.round {
        return wide(h.free);
    }
    if best.next == NONE {
        return best.lowest;
    }
    best.next
}

// A round: `free` has the free place then, and `holder` is that seat.
pub fn turn(h: Head, best: Ranking, free: usize, holder: Seat) -> Turned
    ensures { result ≡ turned h best free holder }
{
    let marks = marks_of(best, free);
    Turned {
        head: turned_head(h, free),
        marks,
        unchoked: unchoked(marks, holder),
    }
}

// A seat that a round chokes: the bytes of a taken one begin anew.
pub fn choke(s: Seat) -> Seat
    ensures { result ≡ choke_step s }
{
    if on(s.taken) {
        return Seat {
            bytes: 0,
            am_choking: 1,
            ..s
        };
    }
    s
}

// A seat that it unchokes after all.
pub fn unchoke(s: Seat) -> Seat
    ensures { result ≡ unchoke_step s }
{
    if !on(s.taken) {
        return s;
    }
    Seat { am_choking: 0, ..s }
}

fn turned_head(h: Head, free: usize) -> Head
    ensures { result ≡ head_of h free }
{
    Head {
        round: next_number(h.round),
        free: narrow(free),
        last: last_place(h, free),
        ..h
    }
}

fn next_number(round: u32) -> u32
    ensures { result ≡ next_number round }
{
    if round < 2 {
        return round + 1;
    }
    0
}

// Where the free place last was: it stays there if it goes to nobody.
fn last_place(h: Head, free: usize) -> u32
    ensures { result ≡ last_of h free }
{
    if h.round == 0 && free != NONE {
        return narrow(free);
    }
    h.last
}

fn marks_of(r: Ranking, free: usize) -> Marks
    ensures { result ≡ marks_of r free }
{
    Marks {
        first: r.first.seat,
        second: r.second.seat,
        third: r.third.seat,
        fourth: r.fourth.seat,
        free,
    }
}

// How many trucks are unchoked: the four, and the holder of the free place if a truck sits there and is none of them.
fn unchoked(m: Marks, holder: Seat) -> usize
    ensures { result ≡ count_of m holder }
{
    four_in(m) + usize::from(on(holder.taken) && !among(m, m.free))
}

// The first of them that is nobody ends the four.
fn four_in(m: Marks) -> usize
    ensures { result ≡ four_in m }
{
    let four = [m.first, m.second, m.third, m.fourth];
    four.iter().position(|s| *s == NONE).unwrap_or(4)
}

// Whether seat i is one of the four.
fn among(m: Marks, i: usize) -> bool
    ensures { result ≡ among m i }
{
    [m.first, m.second, m.third, m.fourth].contains(&i)
}

// A seat's number as 32 bits hold it.
fn narrow(seat: usize) -> u32
    ensures { result ≡ min seat nobody }
{
    seat.min(NONE) as u32
}
