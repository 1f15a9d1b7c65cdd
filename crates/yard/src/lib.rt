// The yard's calls over the tables that C lends. Each takes one seat out, runs a covered step on it and the head, and puts both back;
// a start, a page and a round go over all seats. What it leaves is `step` of the definitions, for any tables, and what it tells is
// `step`'s answer in numbers: 0, the refusal's, or 255 where more bytes are needed. A refusal and a wait leave all that is lent as it was.
#![tactic(auto)]

ghost use Rattle.std.specs.Prelude.{◌≡◌, length};
ghost use Rattle.std.proofs.lemmas.List.Edits.{sets};
ghost use Rattle.yard_tables.specs.Tables.{paper, yard_of};
ghost use Rattle.yard_tables.specs.Step.{Call, step, written};
ghost use Rattle.yard_telling.specs.Telling.{Steps, Tells, Looks, Shows, code_of, told_of};

use refusal::Refusal;
use torrent_blocks::piece_numbered;
use yard_hearing::{feed_step, heard_head};
use yard_scans::{
    Asked, clear_seats, list_missing, lowest_free, mark_seats, rank_seats, seat_get, seat_set,
};
use yard_seating::{choke_step, interest_step, leave_step, looks, sit_step, start_step};
use yard_tables::round::{free_place, turn};
use yard_tables::{Answer, Head, Seat};
use yard_telling::{Told, code, shown, tell};

mod pages;
mod rounds;

// A yard of so many pieces starts.
pub fn wardrail_yard_start(
    head: &mut Head,
    seats: &mut [Seat],
    rows: &mut [u8],
    holders: &mut [u16],
    pieces: u32,
    piece_length: u32,
    last_length: u32,
) -> u64
    ensures { Steps (step (Call.start pieces piece_length last_length) (yard_of head.old seats.old rows.old holders.old))
        result (yard_of head.new seats.new rows.new holders.new) }
{
    let n = seats.len();
    match start_step(pieces, piece_length, last_length, n, rows, holders) {
        Ok(begun) => {
            clear_seats(seats);
            *head = begun;
            0
        }
        Err(r) => r.number as u64,
    }
}

// A truck sits down: `value` becomes its seat.
pub fn wardrail_yard_sit(
    head: &mut Head,
    seats: &mut [Seat],
    rows: &mut [u8],
    holders: &[u16],
    told: &mut Told,
) -> u64
    ensures { Tells (step Call.sit (yard_of head.old seats.old rows.old holders.now))
        told.old result told.new (yard_of head.new seats.new rows.new holders.now) }
{
    let n = seats.len();
    let i = lowest_free(seats);
    let s = seat_get(seats, i);
    let r = sit_step(*head, s, rows, holders, i, n);
    seat_set(seats, i, r.seat);
    *head = r.head;
    say(r.answer, told)
}

// The truck of a seat leaves.
pub fn wardrail_yard_leave(
    head: &mut Head,
    seats: &mut [Seat],
    rows: &mut [u8],
    holders: &mut [u16],
    seat: usize,
) -> u64
    ensures { Steps (step (Call.leave seat) (yard_of head.old seats.old rows.old holders.old))
        result (yard_of head.new seats.new rows.new holders.new) }
{
    let n = seats.len();
    let s = seat_get(seats, seat);
    let r = leave_step(*head, s, rows, holders, seat, n);
    seat_set(seats, seat, r.seat);
    *head = r.head;
    code(r.answer)
}

// Bytes came in from the truck of a seat: `value` becomes how many the first frame used, and `request` what becomes of one.
pub fn wardrail_yard_feed(
    head: &mut Head,
    seats: &mut [Seat],
    rows: &mut [u8],
    holders: &mut [u16],
    seat: usize,
    bytes: &[u8],
    told: &mut Told,
) -> u64
    ensures { Tells (step (Call.feed seat bytes.now) (yard_of head.old seats.old rows.old holders.old))
        told.old result told.new (yard_of head.new seats.new rows.new holders.new) }
{
    let n = seats.len();
    let s = seat_get(seats, seat);
    let r = feed_step(*head, s, rows, holders, seat, n, bytes);
    seat_set(seats, seat, r.seat);
    *head = heard_head(*head, r.head);
    say(r.answer, told)
}

// We choke the truck of a seat, or no longer: the frame's 5 bytes are written.
pub fn wardrail_yard_choke(
    head: &mut Head,
    seats: &mut [Seat],
    rows: &[u8],
    holders: &[u16],
    seat: usize,
    on: bool,
    frame: &mut [u8],
) -> u64
    ensures { (Steps (step (Call.choke seat on (length frame.old)) (yard_of head.old seats.old rows.now holders.now))
        result (yard_of head.new seats.new rows.now holders.now))
        × (frame.new ≡ sets frame.old 0 (written (Call.choke seat on (length frame.old))
        (yard_of head.old seats.old rows.now holders.now))) }
{
    let n = seats.len();
    let s = seat_get(seats, seat);
    let r = choke_step(*head, s, rows, holders, seat, n, on, frame);
    seat_set(seats, seat, r.seat);
    *head = r.head;
    code(r.answer)
}

// We are interested in what the truck of a seat has, or no longer: the frame's 5 bytes are written.
pub fn wardrail_yard_interest(
    head: &mut Head,
    seats: &mut [Seat],
    rows: &[u8],
    holders: &[u16],
    seat: usize,
    on: bool,
    frame: &mut [u8],
) -> u64
    ensures { (Steps (step (Call.interest seat on (length frame.old)) (yard_of head.old seats.old rows.now holders.now))
        result (yard_of head.new seats.new rows.now holders.now))
        × (frame.new ≡ sets frame.old 0 (written (Call.interest seat on (length frame.old))
        (yard_of head.old seats.old rows.now holders.now))) }
{
    let n = seats.len();
    let s = seat_get(seats, seat);
    let r = interest_step(*head, s, rows, holders, seat, n, on, frame);
    seat_set(seats, seat, r.seat);
    *head = r.head;
    code(r.answer)
}

// A page of the missing list: `value` becomes how many lines were written, `total` and `next` as the page says.
pub fn wardrail_yard_missing(
    head: &mut Head,
    seats: &[Seat],
    rows: &[u8],
    holders: &[u16],
    first: usize,
    page: &mut [u32],
    told: &mut Told,
) -> u64
    ensures { (Looks (step (Call.missing first (length page.old)) (yard_of head.old seats.now rows.now holders.now)).answer
        told.old result told.new)
        × (page.new ≡ sets page.old 0 (written (Call.missing first (length page.old))
        (yard_of head.old seats.now rows.now holders.now)))
        × (head.new ≡ head.old) }
{
    let n = seats.len();
    if let Some(number) = pages::fault(*head, n, rows, holders, first) {
        return number as u64;
    }
    let asked = Asked {
        pieces: head.pieces,
        first,
        lines: page.len(),
    };
    let listed = list_missing(seats, page, asked);
    say(Ok(Answer::Listed(listed)), told)
}

// The scarcest piece becomes `value`.
pub fn wardrail_yard_scarcest(
    head: &mut Head,
    seats: &[Seat],
    rows: &[u8],
    holders: &[u16],
    told: &mut Told,
) -> u64
    ensures { (Looks (step Call.scarcest (yard_of head.old seats.now rows.now holders.now)).answer
        told.old result told.new)
        × (head.new ≡ head.old) }
{
    let n = seats.len();
    let a = looks::scarcest(*head, n, rows, holders);
    say(a, told)
}

// The record of a seat becomes `seen`.
pub fn wardrail_yard_look(
    head: &mut Head,
    seats: &[Seat],
    rows: &[u8],
    holders: &[u16],
    seat: usize,
    seen: &mut Seat,
) -> u64
    ensures { (Shows (step (Call.look seat) (yard_of head.old seats.now rows.now holders.now)).answer
        seen.old result seen.new)
        × (head.new ≡ head.old) }
{
    let n = seats.len();
    let s = seat_get(seats, seat);
    let a = looks::seat(*head, s, seat, n, rows, holders);
    *seen = shown(a, *seen);
    code(a)
}

// `value` becomes 1 where the truck of a seat has a piece, and else 0.
pub fn wardrail_yard_has(
    head: &mut Head,
    seats: &[Seat],
    rows: &[u8],
    holders: &[u16],
    seat: usize,
    piece: usize,
    told: &mut Told,
) -> u64
    ensures { (Looks (step (Call.has seat piece) (yard_of head.old seats.now rows.now holders.now)).answer
        told.old result told.new)
        × (head.new ≡ head.old) }
{
    let n = seats.len();
    let p = piece_numbered(piece);
    let a = looks::has(*head, seat, p, n, rows, holders);
    say(a, told)
}

// How many trucks hold a piece becomes `value`.
pub fn wardrail_yard_count(
    head: &mut Head,
    seats: &[Seat],
    rows: &[u8],
    holders: &[u16],
    piece: usize,
    told: &mut Told,
) -> u64
    ensures { (Looks (step (Call.count piece) (yard_of head.old seats.now rows.now holders.now)).answer
        told.old result told.new)
        × (head.new ≡ head.old) }
{
    let n = seats.len();
    let p = piece_numbered(piece);
    let a = looks::count(*head, p, n, rows, holders);
    say(a, told)
}

// A round: who is unchoked until the next one. `value` becomes how many trucks are.
pub fn wardrail_yard_round(
    head: &mut Head,
    seats: &mut [Seat],
    rows: &[u8],
    holders: &[u16],
    told: &mut Told,
) -> u64
    ensures { Tells (step Call.round (yard_of head.old seats.old rows.now holders.now))
        told.old result told.new (yard_of head.new seats.new rows.now holders.now) }
{
    let n = seats.len();
    if let Some(number) = rounds::fault(*head, n, rows, holders) {
        return number as u64;
    }
    let ranking = rank_seats(seats, *head);
    let free = free_place(*head, ranking);
    let holder = seat_get(seats, free);
    let r = turn(*head, ranking, free, holder);
    mark_seats(seats, r.marks);
    *head = r.head;
    say(Ok(Answer::Unchoked(r.unchoked)), told)
}

// Tells an answer: what it says beside its number goes into the record that is lent.
fn say(a: Result<Answer, Refusal>, told: &mut Told) -> u64
    ensures number { result ≡ code_of (paper a) }
    ensures beside { told.new ≡ told_of (paper a) told.old }
{
    *told = tell(a, *told);
    code(a)
}
