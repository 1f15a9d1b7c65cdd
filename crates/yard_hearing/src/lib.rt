// A frame for a seat: the covered step behind the yard's call. It takes the head and the seat by value, and the rows and
// the holder counts as they are lent; whatever they hold, a refusal and a wait leave them as they were.
#![tactic(auto)]

ghost use Rattle.std.specs.Prelude.{◌≡◌};
ghost use Rattle.peer_wire.specs.Frames.{message, meant};
ghost use Rattle.yard_tables.specs.Seats.{counted};
ghost use Rattle.yard_tables.specs.Tables.{around, turn};
ghost use Rattle.yard_tables.specs.Frames.{message_of, feed_of};
ghost use Rattle.yard_hearing.specs.Steps.{InTables, Inside};

use peer_wire::{Frame, Read};
use refusal::number;
use torrent_blocks::PieceNumber;
use yard_tables::sizes::wide;
use yard_tables::{Answer, Head, Seat, Stepped, block, on, reply, sizes};

mod have;
mod news;
mod row;

// What the first frame of the bytes for seat i of n leaves of the head, the seat and the tables, and its answer.
pub fn feed_step(
    h: Head,
    s: Seat,
    rows: &mut [u8],
    holders: &mut [u16],
    i: usize,
    n: usize,
    bytes: &[u8],
) -> Stepped
    ensures { turn result rows.new holders.new ≡ feed_of i bytes.now n (around h s rows.old holders.old) }
{
    let rows_len = rows.len();
    let holders_len = holders.len();
    if !sizes::sizes_fit(h, n, rows_len, holders_len) {
        return reply::refused(h, s, number::SIZES);
    }
    if n <= i {
        return reply::refused(h, s, number::SEAT);
    }
    if !on(s.taken) {
        return reply::refused(h, s, number::SEAT);
    }
    // Most frames are haves. One that is all there goes past the reader of all frames, whose answer is large.
    if have::is_whole(bytes) {
        let piece = PieceNumber(have::number(bytes, 5));
        return news::have_step(h, s, rows, holders, i, n, 9, piece);
    }
    match peer_wire::read_frame(bytes) {
        Ok(Read::Wait) => reply::waiting(h, s),
        Err(r) => reply::refused(h, s, r.number),
        Ok(Read::Keepalive(used)) => reply::taken(h, s, used),
        Ok(Read::Whole(f, used)) => {
            // Copies are lent to the call, so that LLVM may keep h and s out of memory.
            let g = h;
            let t = s;
            frame_step(g, t, rows, holders, i, n, bytes, f, used)
        }
    }
}

// A frame with an id, by what it says.
fn frame_step(
    h: Head,
    s: Seat,
    rows: &mut [u8],
    holders: &mut [u16],
    i: usize,
    n: usize,
    bytes: &[u8],
    f: Frame,
    used: usize,
) -> Stepped
    requires { InTables h n i rows.old holders.old × Inside bytes.now (message f) }
    ensures { turn result rows.new holders.new ≡ message_of n i used (meant bytes.now (message f)) (around h s rows.old holders.old) }
{
    match f {
        Frame::Choke => reply::passed(h, reply::they_choke(s, true), used),
        Frame::Unchoke => reply::passed(h, reply::they_choke(s, false), used),
        Frame::Interested => reply::passed(h, reply::they_want(s, true), used),
        Frame::NotInterested => reply::passed(h, reply::they_want(s, false), used),
        Frame::Have(p) => news::have_step(h, s, rows, holders, i, n, used, p),
        Frame::Bitfield(part) => {
            let from = part.from;
            let end = from + part.len;
            news::bitfield_step(h, s, rows, holders, i, n, used, &bytes[from..end])
        }
        Frame::Request(p, begin, len) => {
            let within = block::lies_within(h, p, begin, wide(len));
            block::block_step(h, s, p, within, block::asked(s, used))
        }
        Frame::Piece(p, begin, part) => {
            let within = block::lies_within(h, p, begin, part.len);
            block::piece_step(h, s, p, within, part.len, used)
        }
        Frame::Cancel(p, begin, len) => {
            let within = block::lies_within(h, p, begin, wide(len));
            block::block_step(h, s, p, within, Ok(Answer::Taken(used)))
        }
        Frame::Other(_, _) => reply::passed(h, s, used),
    }
}

// The head with what a frame may change of it: the seats complete.
pub fn heard_head(was: Head, h: Head) -> Head
    ensures { result ≡ counted was.taken h.complete was }
{
    let mut g = was;
    g.complete = h.complete;
    g
}
