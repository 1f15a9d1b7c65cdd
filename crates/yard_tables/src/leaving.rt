// The counts that the leaving of a truck lowers.
ghost use Rattle.std.specs.Prelude.{◌≡◌, ◌-◌};
ghost use Rattle.yard_tables.specs.Counting.{bit};
ghost use Rattle.yard_tables.specs.Replies.{head_at_zero};
ghost use Rattle.yard_tables.specs.Seating.{given_up};

use crate::sizes::wide;
use crate::{Head, NOBODY, Seat, held};

// Whether one of the head's counts is 0 that the leaving of s lowers.
pub fn head_at_zero(h: Head, s: Seat) -> bool
    ensures { result ≡ head_at_zero h s }
{
    h.taken == 0 || held(s) == wide(h.pieces) && h.complete == 0
}

// Who leaves gives the free place up.
pub fn give_up(h: Head, i: usize) -> Head
    ensures { result ≡ given_up i h }
{
    if wide(h.free) == i {
        return Head { free: NOBODY, ..h };
    }
    h
}

// The holders of a piece without one that has it or not.
pub fn lower_to(count: u16, has: bool) -> u16
    ensures { result ≡ count - bit has }
{
    count.saturating_sub(u16::from(has))
}
