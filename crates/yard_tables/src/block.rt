// Frames that speak of a block.
ghost use Rattle.std.specs.Prelude.{◌≡◌, ◌+◌, ◌≤◌, ltb, leb};
ghost use Rattle.refusal.specs.Limits.{most_sent};
ghost use Rattle.refusal.specs.Paper.{taken};
ghost use Rattle.yard_tables.specs.Tables.{paper};
ghost use Rattle.yard_tables.specs.Frames.{piece_size, block_fits, requested};
ghost use Rattle.yard_tables.specs.Replies.{block_step, piece_step};
ghost use Rattle.yard_tables.specs.Seats.{having};

use crate::sizes::wide;
use crate::{Answer, Head, Seat, Stepped, on, reply};
use refusal::{Refusal, limit, number};
use torrent_blocks::{PieceNumber, PieceOffset};

// A block of piece p that fits or not; a is the answer where it does. The head's lengths are looked at by who calls, so that
// LLVM keeps the numbers of the head that is handed on apart.
pub fn block_step(
    h: Head,
    s: Seat,
    p: PieceNumber,
    fits: bool,
    a: Result<Answer, Refusal>,
) -> Stepped
    ensures { result ≡ block_step h s p.0 fits a }
{
    if beyond(h, p) {
        return reply::refused(h, s, number::BEYOND);
    }
    if !fits {
        return reply::refused(h, s, number::OUTSIDE);
    }
    Stepped {
        head: h,
        seat: reply::spoken(s),
        answer: a,
    }
}

// A piece, whose block's bytes are counted up to 2^53.
pub fn piece_step(h: Head, s: Seat, p: PieceNumber, fits: bool, len: usize, used: usize) -> Stepped
    ensures { result ≡ piece_step h s p.0 fits len used }
{
    if beyond(h, p) {
        return reply::refused(h, s, number::BEYOND);
    }
    if !fits {
        return reply::refused(h, s, number::OUTSIDE);
    }
    if too_much(s, len) {
        return reply::refused(h, s, number::DAMAGED);
    }
    reply::passed(h, sent(s, len), used)
}

// Whether there is no such piece.
fn beyond(h: Head, p: PieceNumber) -> bool
    ensures { result ≡ leb h.pieces p.0 }
{
    h.pieces <= p.0
}

// Whether so many bytes more are more than 2^53.
fn too_much(s: Seat, len: usize) -> bool
    ensures { result ≡ ltb most_sent (s.bytes + len) }
{
    limit::SENT < s.bytes.saturating_add(len as u64)
}

// With so many bytes more.
fn sent(s: Seat, len: usize) -> Seat
    requires { s.bytes + len ≤ most_sent }
    ensures { result ≡ having (s.bytes + len) s }
{
    Seat {
        bytes: s.bytes + len as u64,
        ..s
    }
}

// Serve exactly if we don't choke and they are interested.
pub fn asked(s: Seat, used: usize) -> Result<Answer, Refusal>
    ensures { paper result ≡ taken (requested used s) }
{
    if !on(s.am_choking) && on(s.peer_interested) {
        return Ok(Answer::Serve(used));
    }
    Ok(Answer::Dropped(used))
}

// A block has 1 to 16,384 bytes and ends within its piece.
pub fn lies_within(h: Head, p: PieceNumber, begin: PieceOffset, len: usize) -> bool
    ensures { result ≡ block_fits h p.0 begin.0 len }
{
    1 <= len && len <= limit::BLOCK && wide(begin.0) + len <= size_of(h, p)
}

// The last piece may be short.
fn size_of(h: Head, p: PieceNumber) -> usize
    ensures { result ≡ piece_size h p.0 }
{
    if wide(p.0) + 1 == wide(h.pieces) {
        return wide(h.last_length);
    }
    wide(h.piece_length)
}
