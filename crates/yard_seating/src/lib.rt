// The yard's steps besides frames, on the head and a seat by value, over the rows and the holder counts that are lent:
// starting, sitting down, leaving, our own marks; `looks` has what only looks. Each checks the sizes first, and a
// refusal changes nothing. `i` is the seat, and `n` the number of seats.
#![tactic(auto)]

ghost use Rattle.std.specs.Prelude.{◌≡◌, false, cond, List, [], ◌∷◌, ◌<◌, ◌≤◌, ◌+◌, ◌-◌, ◌*◌, eqb, length};
ghost use Rattle.std.proofs.lemmas.List.Edits.{sets};
ghost use Rattle.refusal.specs.Numbers.{sizes};
ghost use Rattle.peer_wire.specs.Message.{framed};
ghost use Rattle.yard_tables.specs.Counting.{bit};
ghost use Rattle.yard_tables.specs.Rows.{width};
ghost use Rattle.yard_tables.specs.Seats.{cleared, arrived, counted, placed, we_choke, we_want};
ghost use Rattle.yard_tables.specs.Tables.{paper, around, turn, yard_of, sizes_fit};
ghost use Rattle.yard_tables.specs.Seating.{start_of, sit_of, leave_of, mark_of};
ghost use Rattle.yard_tables.specs.Step.{choke_frame, interest_frame, if_taken};
ghost use Rattle.yard_tables.specs.Replies.{head_at_zero};
ghost use Rattle.yard_seating.specs.Steps.{begun, empty_head, fault_at, marked_or};

use peer_wire::write;
use refusal::{Refusal, number, refuse};
use yard_tables::{Answer, Head, NOBODY, Seat, Stepped, leaving, on, reply, sizes};

pub mod looks;
mod row;

// The head of a yard of these sizes with nobody in it, whose n seats are then to be cleared.
pub fn start_step(
    pieces: u32,
    piece_length: u32,
    last_length: u32,
    n: usize,
    rows: &mut [u8],
    holders: &mut [u16],
) -> Result<Head, Refusal>
    ensures { (h : Head) (seats : List Seat) → length seats ≡ n → begun result h seats rows.new holders.new ≡ start_of pieces piece_length last_length (yard_of h seats rows.old holders.old) }
{
    let empty = empty_head(pieces, piece_length, last_length);
    if !sizes::sizes_fit(empty, n, rows.len(), holders.len()) {
        return Err(refuse(number::SIZES, 0));
    }
    rows.fill(0);
    holders.fill(0);
    Ok(begin(empty, n))
}

// A truck sits down at the lowest free seat i, which is n where none is free.
pub fn sit_step(h: Head, s: Seat, rows: &mut [u8], holders: &[u16], i: usize, n: usize) -> Stepped
    ensures { turn result rows.new holders.now ≡ sit_of i n (around h s rows.old holders.now) }
{
    let row_bytes = rows.len();
    let counts = holders.len();
    if !sizes::sizes_fit(h, n, row_bytes, counts) {
        return reply::refused(h, s, number::SIZES);
    }
    if n <= i {
        return reply::refused(h, s, number::FULL);
    }
    if n <= h.taken as usize {
        return reply::refused(h, s, number::DAMAGED);
    }
    let w = row::width(h);
    row::clear(rows, i * w, w);
    seated(h, i)
}

// The truck of seat i leaves: a first pass over its row finds a count that is 0, a second lowers them.
pub fn leave_step(
    h: Head,
    s: Seat,
    rows: &mut [u8],
    holders: &mut [u16],
    i: usize,
    n: usize,
) -> Stepped
    ensures { turn result rows.new holders.new ≡ leave_of i n (around h s rows.old holders.old) }
{
    let row_bytes = rows.len();
    let counts = holders.len();
    if let Some(number) = fault_at(h, s, i, n, row_bytes, counts) {
        return reply::refused(h, s, number);
    }
    let w = row::width(h);
    let at = i * w;
    if leaving::head_at_zero(h, s) {
        return reply::refused(h, s, number::DAMAGED);
    }
    if row::some_zero(rows, holders, at, counts) {
        return reply::refused(h, s, number::DAMAGED);
    }
    row::lower(rows, holders, at, counts);
    row::clear(rows, at, w);
    gone(leaving::give_up(h, i), s)
}

// We choke the truck of seat i, or no longer: the frame is written.
pub fn choke_step(
    h: Head,
    s: Seat,
    rows: &[u8],
    holders: &[u16],
    i: usize,
    n: usize,
    on: bool,
    out: &mut [u8],
) -> Stepped
    ensures step { turn result rows.now holders.now ≡ mark_of (we_choke on) (length out.old) i n (around h s rows.now holders.now) }
    ensures frame { out.new ≡ sets out.old 0 (if_taken (paper result.answer) (choke_frame on)) }
{
    if let Some(number) = fault_at(h, s, i, n, rows.len(), holders.len()) {
        return reply::refused(h, s, number);
    }
    let mut t = s;
    t.am_choking = on as u8;
    mark(h, s, t, choke_id(on), out)
}

// We are interested in what the truck of seat i has, or no longer: the frame is written.
pub fn interest_step(
    h: Head,
    s: Seat,
    rows: &[u8],
    holders: &[u16],
    i: usize,
    n: usize,
    on: bool,
    out: &mut [u8],
) -> Stepped
    ensures step { turn result rows.now holders.now ≡ mark_of (we_want on) (length out.old) i n (around h s rows.now holders.now) }
    ensures frame { out.new ≡ sets out.old 0 (if_taken (paper result.answer) (interest_frame on)) }
{
    if let Some(number) = fault_at(h, s, i, n, rows.len(), holders.len()) {
        return reply::refused(h, s, number);
    }
    let mut t = s;
    t.am_interested = on as u8;
    mark(h, s, t, interest_id(on), out)
}

// The seat s becomes t, and the frame of this id is written, unless there is no room.
fn mark(h: Head, s: Seat, t: Seat, id: u8, out: &mut [u8]) -> Stepped
    requires { id < 4 }
    ensures step { result ≡ marked_or h s t (length out.old) }
    ensures frame { out.new ≡ sets out.old 0 (if_taken (paper result.answer) (framed (id ∷ []))) }
{
    if out.len() < 5 {
        return reply::refused(h, s, number::ROOM);
    }
    let _ = write::plain(out, id);
    marked(h, t)
}

fn choke_id(on: bool) -> u8
    ensures { (result ≡ cond on 0 1) × (result < 4) }
{
    if on {
        return 0;
    }
    1
}

fn interest_id(on: bool) -> u8
    ensures { (result ≡ cond on 2 3) × (result < 4) }
{
    if on {
        return 2;
    }
    3
}

// The number of the refusal where the sizes do not fit or no truck sits at i.
fn fault_at(h: Head, s: Seat, i: usize, n: usize, row_bytes: usize, counts: usize) -> Option<u8>
    ensures { result ≡ fault_at h s i n row_bytes counts }
{
    if !sizes::sizes_fit(h, n, row_bytes, counts) {
        return Some(number::SIZES);
    }
    if n <= i {
        return Some(number::SEAT);
    }
    if on(s.taken) {
        return None;
    }
    Some(number::SEAT)
}

fn empty_head(pieces: u32, piece_length: u32, last_length: u32) -> Head
    ensures { result ≡ empty_head pieces piece_length last_length }
{
    Head {
        pieces,
        piece_length,
        last_length,
        taken: 0,
        complete: 0,
        round: 0,
        free: NOBODY,
        last: 0,
    }
}

// The free place was last at the last of n seats, so that it comes to the first.
fn begin(empty: Head, n: usize) -> Head
    requires { (1 ≤ n) × (n ≤ 2000) }
    ensures { result ≡ placed empty.round empty.free (n - 1) empty }
{
    let mut h = empty;
    h.last = (n - 1) as u32;
    h
}

fn seated(h: Head, i: usize) -> Stepped
    requires { h.taken < 2000 }
    ensures { result ≡ record { head = counted (h.taken + 1) h.complete h; seat = arrived; answer = Ok (Answer.Seated i) } }
{
    let mut g = h;
    g.taken = h.taken + 1;
    Stepped {
        head: g,
        seat: yard_tables::arrived_seat(),
        answer: Ok(Answer::Seated(i)),
    }
}

// The head and the seat once the truck of s has left.
fn gone(h: Head, s: Seat) -> Stepped
    requires { head_at_zero h s ≡ false }
    ensures { result ≡ record { head = counted (h.taken - 1) (h.complete - bit (eqb s.held h.pieces)) h; seat = cleared; answer = Ok Answer.Done } }
{
    let mut g = h;
    g.taken = h.taken - 1;
    if yard_tables::held(s) == sizes::wide(h.pieces) {
        g.complete = h.complete - 1;
        return left_seat(g);
    }
    left_seat(g)
}

fn left_seat(h: Head) -> Stepped
    ensures { result ≡ record { head = h; seat = cleared; answer = Ok Answer.Done } }
{
    Stepped {
        head: h,
        seat: yard_tables::cleared_seat(),
        answer: Ok(Answer::Done),
    }
}

fn marked(h: Head, s: Seat) -> Stepped
    ensures { result ≡ record { head = h; seat = s; answer = Ok (Answer.Wrote 5) } }
{
    Stepped {
        head: h,
        seat: s,
        answer: Ok(Answer::Wrote(5)),
    }
}
