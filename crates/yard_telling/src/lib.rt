// What the yard's answers are for C: a number, and a record of numbers or a seat beside it.
#![tactic(auto)]

ghost use Rattle.std.specs.Prelude.{◌≡◌};
ghost use Rattle.yard_tables.specs.Tables.{paper};
ghost use Rattle.yard_telling.specs.Telling.{code_of, told_of, shown_of, one as one_of};

use refusal::Refusal;
use yard_tables::{Answer, Page, Seat};

// What a call says beside its number.
#[repr(C)]
#[derive(Clone, Copy)]
pub struct Told {
    pub value: u64,
    // Of a frame: 1 for a request to be served, 2 for one to be dropped.
    pub request: u64,
    // Of a page: how many trucks of the yard lack a piece, and the next missing seat that is not listed, or the number of seats.
    pub total: u64,
    pub next: u64,
}

// The number of an answer: the refusal's, 255 for a wait, and else 0.
pub fn code(a: Result<Answer, Refusal>) -> u64
    ensures { result ≡ code_of (paper a) }
{
    match a {
        Err(x) => x.number as u64,
        Ok(Answer::Wait) => 255,
        Ok(_) => 0,
    }
}

// What an answer says beside its number; a refusal, a wait and an answer without a number leave the record as it was.
pub fn tell(a: Result<Answer, Refusal>, was: Told) -> Told
    ensures { result ≡ told_of (paper a) was }
{
    match a {
        Err(_) => was,
        Ok(Answer::Serve(n)) => heard(n as u64, 1),
        Ok(Answer::Dropped(n)) => heard(n as u64, 2),
        Ok(Answer::Listed(p)) => page(p),
        Ok(Answer::Holds(b)) => one(b as u64),
        Ok(Answer::Taken(n)) => one(n as u64),
        Ok(Answer::Seated(n)) => one(n as u64),
        Ok(Answer::Wrote(n)) => one(n as u64),
        Ok(Answer::Holders(n)) => one(n as u64),
        Ok(Answer::Piece(n)) => one(n as u64),
        Ok(Answer::Unchoked(n)) => one(n as u64),
        _ => was,
    }
}

// The seat that was looked at; any other answer leaves the seat as it was.
pub fn shown(a: Result<Answer, Refusal>, seen: Seat) -> Seat
    ensures { result ≡ shown_of (paper a) seen }
{
    match a {
        Ok(Answer::Record(s)) => s,
        _ => seen,
    }
}

fn one(value: u64) -> Told
    ensures { result ≡ one_of value }
{
    heard(value, 0)
}

fn heard(value: u64, request: u64) -> Told
    ensures { result ≡ record { value = value; request = request; total = 0; next = 0 } }
{
    Told {
        value,
        request,
        total: 0,
        next: 0,
    }
}

fn page(p: Page) -> Told
    ensures { result ≡ record { value = p.written; request = 0; total = p.total; next = p.next } }
{
    Told {
        value: p.written as u64,
        request: 0,
        total: p.total as u64,
        next: p.next as u64,
    }
}
