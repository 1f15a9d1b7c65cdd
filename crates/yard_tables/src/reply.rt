// Steps by value, from which the answers of calls at one seat are put together.
ghost use Rattle.std.specs.Prelude.{◌≡◌};
ghost use Rattle.yard_tables.specs.Seats.{spoken, they_choke, they_want};
ghost use Rattle.yard_tables.specs.Replies.{stepped, refusing};

use crate::{Answer, Head, Seat, Stepped};

// Nothing changes.
pub fn refused(h: Head, s: Seat, number: u8) -> Stepped
    ensures { result ≡ refusing h s number }
{
    Stepped {
        head: h,
        seat: s,
        answer: Err(refusal::refuse(number, 0)),
    }
}

// More bytes are needed: nothing changes, and nothing is used.
pub fn waiting(h: Head, s: Seat) -> Stepped
    ensures { result ≡ stepped h s (Ok Answer.Wait) }
{
    Stepped {
        head: h,
        seat: s,
        answer: Ok(Answer::Wait),
    }
}

// A frame that was taken, with the head and the seat that it leaves.
pub fn taken(h: Head, s: Seat, used: usize) -> Stepped
    ensures { result ≡ stepped h s (Ok (Answer.Taken used)) }
{
    Stepped {
        head: h,
        seat: s,
        answer: Ok(Answer::Taken(used)),
    }
}

// A frame with an id that changes nothing but that the seat is no longer fresh.
pub fn passed(h: Head, s: Seat, used: usize) -> Stepped
    ensures { result ≡ stepped h (spoken s) (Ok (Answer.Taken used)) }
{
    taken(h, spoken(s), used)
}

// Each frame with an id that is taken ends fresh.
pub fn spoken(s: Seat) -> Seat
    ensures { result ≡ spoken s }
{
    Seat { fresh: 0, ..s }
}

// With the truck's own marks.
pub fn they_choke(s: Seat, b: bool) -> Seat
    ensures { result ≡ they_choke b s }
{
    Seat {
        peer_choking: b as u8,
        ..s
    }
}

pub fn they_want(s: Seat, b: bool) -> Seat
    ensures { result ≡ they_want b s }
{
    Seat {
        peer_interested: b as u8,
        ..s
    }
}
