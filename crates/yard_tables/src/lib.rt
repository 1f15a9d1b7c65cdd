// The yard's tables, and what a call answers. The definitions (specs/) say what each call makes of them.
#![tactic(auto)]

ghost use Rattle.std.specs.Prelude.{◌≡◌};
ghost use Rattle.yard_tables.specs.Seats.{on, cleared, arrived};

use refusal::Refusal;

pub mod bits;
pub mod block;
pub mod leaving;
pub mod rank;
pub mod reply;
pub mod round;
pub mod sizes;

// The head's free place where no seat has it.
pub const NOBODY: u32 = 4294967295;

// The yard's head record: its sizes, how many of its seats are taken and how many hold every piece, the number of the next
// round modulo 3, and the free place, a seat's or NOBODY's, with the seat that it last was.
#[repr(C)]
#[derive(Clone, Copy)]
pub struct Head {
    pub pieces: u32,
    pub piece_length: u32,
    pub last_length: u32,
    pub taken: u32,
    pub complete: u32,
    pub round: u32,
    pub free: u32,
    pub last: u32,
}

// One seat. Fresh: no frame of its truck with an id was taken yet. The marks are BEP 3's, `am` ours and `peer` the
// truck's. The flags and `held` are one word of 64 bits, and `bytes`, those of its blocks since the last round, another, so
// that no byte is padding.
#[repr(C)]
#[derive(Clone, Copy)]
pub struct Seat {
    pub taken: u8,
    pub fresh: u8,
    pub am_choking: u8,
    pub am_interested: u8,
    pub peer_choking: u8,
    pub peer_interested: u8,
    pub held: u16,
    pub bytes: u64,
}

// A page of the missing list: how many lines were written, how many trucks of the whole yard lack a piece, and the
// next missing seat that is not listed, or the number of seats.
#[derive(Clone, Copy)]
pub struct Page {
    pub written: usize,
    pub total: usize,
    pub next: usize,
}

// What a call answers.
#[derive(Clone, Copy)]
pub enum Answer {
    // More bytes are needed, and nothing was used.
    Wait,
    // Started, or left.
    Done,
    // A frame was taken: how many bytes it used. A request is to be served, or to be dropped.
    Taken(usize),
    Serve(usize),
    Dropped(usize),
    // The seat that was given.
    Seated(usize),
    // How many bytes were written.
    Wrote(usize),
    Listed(Page),
    // What was looked at.
    Record(Seat),
    Holds(bool),
    Holders(usize),
    Piece(usize),
    // How many trucks a round unchokes.
    Unchoked(usize),
}

// What a call at one seat makes of the head and the seat, and its answer.
#[derive(Clone, Copy)]
pub struct Stepped {
    pub head: Head,
    pub seat: Seat,
    pub answer: Result<Answer, Refusal>,
}

// A flag is on where it is not 0; the yard itself writes 0 and 1.
pub fn on(flag: u8) -> bool
    ensures { result ≡ on flag }
{
    flag != 0
}

// How many pieces the truck of a seat holds.
pub fn held(s: Seat) -> usize
    ensures { result ≡ s.held }
{
    s.held as usize
}

// A free seat: all marks off, nothing held.
pub fn cleared_seat() -> Seat
    ensures { result ≡ cleared }
{
    Seat {
        taken: 0,
        fresh: 0,
        am_choking: 0,
        am_interested: 0,
        peer_choking: 0,
        peer_interested: 0,
        held: 0,
        bytes: 0,
    }
}

// The seat of a truck that has just sat down: fresh, both sides choking and uninterested.
pub fn arrived_seat() -> Seat
    ensures { result ≡ arrived }
{
    Seat {
        taken: 1,
        fresh: 1,
        am_choking: 1,
        am_interested: 0,
        peer_choking: 1,
        peer_interested: 0,
        held: 0,
        bytes: 0,
    }
}
