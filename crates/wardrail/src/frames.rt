// Frames and handshakes for C, read from the start of lent bytes. A wait is answered by 255, and leaves `detail` too.
ghost use Rattle.std.specs.Prelude.{◌≡◌, Ok};
ghost use Rattle.refusal.specs.Paper.{paper};
ghost use Rattle.peer_wire.specs.Frames.{read_of, read_paper, message};
ghost use Rattle.peer_wire.specs.Handshake.{shake_of, greeting_paper};
ghost use Rattle.wardrail.specs.Said.{Tells};
ghost use Rattle.wardrail.specs.Frames.{frame_told, shake_told, message_words};

use crate::row::told;
use peer_wire::{Frame, Greeting, Read};
use refusal::{Refusal, refuse};

// A wait is told as a refusal without a place is, by a number that none has.
const WAIT: u8 = 255;

// The frame at the start of the bytes. `detail` becomes 1 for a keepalive or 2 for another frame; how many bytes it used;
// its id; its piece, begin and length; first byte and length of its bitfield, block or unknown payload. What a frame does
// not have is 0.
pub fn wardrail_frame(bytes: &[u8], detail: &mut [u64; 8]) -> u64
    ensures { Tells (frame_told (read_of bytes.now)) detail.old result detail.new }
{
    told(detail, peer_wire::read_frame(bytes).and_then(frame_words))
}

// The handshake at the start of the bytes, for an info hash. `detail` becomes how many bytes it used, and first byte and
// length of the free bytes and of the peer id.
pub fn wardrail_handshake(bytes: &[u8], info: &[u8; 20], detail: &mut [u64; 5]) -> u64
    ensures { Tells (shake_told (shake_of info.now bytes.now)) detail.old result detail.new }
{
    told(
        detail,
        peer_wire::read_handshake(bytes, info).and_then(greeting_words),
    )
}

fn frame_words(read: Read) -> Result<[u64; 8], Refusal>
    ensures { paper result ≡ frame_told (read_paper (Ok read)) }
{
    match read {
        Read::Wait => Err(refuse(WAIT, 0)),
        Read::Keepalive(used) => Ok([1, used as u64, 0, 0, 0, 0, 0, 0]),
        Read::Whole(f, used) => Ok(message_words(f, used as u64)),
    }
}

fn greeting_words(greeting: Greeting) -> Result<[u64; 5], Refusal>
    ensures { paper result ≡ shake_told (greeting_paper (Ok greeting)) }
{
    match greeting {
        Greeting::Await => Err(refuse(WAIT, 0)),
        Greeting::Hello(free, peer, used) => Ok([
            used as u64,
            free.from as u64,
            free.len as u64,
            peer.from as u64,
            peer.len as u64,
        ]),
    }
}

// A frame that is no keepalive: how many bytes it used, its id, its piece, begin and length, and first byte and length
// of what it carries. What it does not have is 0.
fn message_words(f: Frame, used: u64) -> [u64; 8]
    ensures { result ≡ message_words used (message f) }
{
    match f {
        Frame::Choke => [2, used, 0, 0, 0, 0, 0, 0],
        Frame::Unchoke => [2, used, 1, 0, 0, 0, 0, 0],
        Frame::Interested => [2, used, 2, 0, 0, 0, 0, 0],
        Frame::NotInterested => [2, used, 3, 0, 0, 0, 0, 0],
        Frame::Have(p) => [2, used, 4, p.0 as u64, 0, 0, 0, 0],
        Frame::Bitfield(x) => [2, used, 5, 0, 0, 0, x.from as u64, x.len as u64],
        Frame::Request(p, b, l) => [2, used, 6, p.0 as u64, b.0 as u64, l as u64, 0, 0],
        Frame::Piece(p, b, x) => [
            2,
            used,
            7,
            p.0 as u64,
            b.0 as u64,
            0,
            x.from as u64,
            x.len as u64,
        ],
        Frame::Cancel(p, b, l) => [2, used, 8, p.0 as u64, b.0 as u64, l as u64, 0, 0],
        Frame::Other(id, x) => [2, used, id as u64, 0, 0, 0, x.from as u64, x.len as u64],
    }
}
