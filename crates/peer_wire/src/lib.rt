// The wire between peers: frames and the handshake, read from the start of lent bytes. `write` has the writers.
// Each reader uses only the first frame or handshake that the bytes hold; a wait uses nothing.
#![tactic(auto)]

ghost use Rattle.std.specs.Prelude.{◌≡◌, true, ◌&&◌, ◌+◌, ◌-◌, ◌≤◌, ◌<◌, length, get_or};
ghost use Rattle.peer_wire.specs.Frames.{allowed, number_in, message_in, sized_of, read_of, message, read_paper};
ghost use Rattle.peer_wire.specs.Handshake.{agree, greeting_paper, shake_of};

use refusal::{Part, Refusal, big_endian, limit, number, refuse};
use torrent_blocks::{PieceNumber, PieceOffset};

pub mod write;

// What a frame says, by its id from 0 to 8; numbers in BEP 3's order.
#[derive(Clone, Copy)]
pub enum Frame {
    Choke,
    Unchoke,
    Interested,
    NotInterested,
    Have(PieceNumber),
    Bitfield(Part),
    // The last number is the block's length.
    Request(PieceNumber, PieceOffset, u32),
    // And where the block lies.
    Piece(PieceNumber, PieceOffset, Part),
    Cancel(PieceNumber, PieceOffset, u32),
    // A frame of another id, to be passed by: the id, and where its payload lies.
    Other(u8, Part),
}

// What the bytes begin with. The last number is how many of them it used.
#[derive(Clone, Copy)]
pub enum Read {
    Wait,
    Keepalive(usize),
    Whole(Frame, usize),
}

// What a handshake comes to: where the free bytes and the peer id lie, and how many bytes it used.
#[derive(Clone, Copy)]
pub enum Greeting {
    Await,
    Hello(Part, Part, usize),
}

// The frame at the start of the bytes.
pub fn read_frame(bytes: &[u8]) -> Result<Read, Refusal>
    ensures { read_paper result ≡ read_of bytes.now }
{
    if bytes.len() < 4 {
        return Ok(Read::Wait);
    }
    sized(bytes, word(bytes, 0))
}

// The handshake at the start of the bytes, for an info hash.
pub fn read_handshake(bytes: &[u8], info: &[u8; 20]) -> Result<Greeting, Refusal>
    ensures { greeting_paper result ≡ shake_of info.now bytes.now }
{
    if !agrees(b"\x13BitTorrent protocol", bytes) {
        return Err(refuse(number::PROTOCOL, 0));
    }
    if bytes.len() < 68 {
        return Ok(Greeting::Await);
    }
    if !agrees(&bytes[28..48], info) {
        return Err(refuse(number::HASH, 0));
    }
    Ok(Greeting::Hello(Part { from: 20, len: 8 }, Part { from: 48, len: 20 }, 68))
}

// A frame whose length is read.
fn sized(bytes: &[u8], n: u32) -> Result<Read, Refusal>
    requires { 4 ≤ length bytes.now }
    ensures { read_paper result ≡ sized_of bytes.now n }
{
    if limit::FRAME < n as usize {
        return Err(refuse(number::FRAME, 0));
    }
    if n == 0 {
        return Ok(Read::Keepalive(4));
    }
    let end = 4 + n as usize;
    if bytes.len() < end {
        return Ok(Read::Wait);
    }
    let id = bytes[4];
    if !is_allowed(id, n as usize) {
        return Err(refuse(number::PAYLOAD, 0));
    }
    Ok(Read::Whole(whole(bytes, id, n as usize), end))
}

// What a whole frame says: its length is n, and one that its id may have.
fn whole(bytes: &[u8], id: u8, n: usize) -> Frame
    requires { (4 + n ≤ length bytes.now) × (id ≡ get_or bytes.now 4 0) × (allowed id n ≡ true) }
    ensures { message result ≡ message_in bytes.now n }
{
    match id {
        0 => Frame::Choke,
        1 => Frame::Unchoke,
        2 => Frame::Interested,
        3 => Frame::NotInterested,
        4 => Frame::Have(PieceNumber(word(bytes, 5))),
        5 => Frame::Bitfield(Part {
            from: 5,
            len: n - 1,
        }),
        6 => Frame::Request(
            PieceNumber(word(bytes, 5)),
            PieceOffset(word(bytes, 9)),
            word(bytes, 13),
        ),
        7 => Frame::Piece(
            PieceNumber(word(bytes, 5)),
            PieceOffset(word(bytes, 9)),
            Part {
                from: 13,
                len: n - 9,
            },
        ),
        8 => Frame::Cancel(
            PieceNumber(word(bytes, 5)),
            PieceOffset(word(bytes, 9)),
            word(bytes, 13),
        ),
        _ => Frame::Other(
            id,
            Part {
                from: 5,
                len: n - 1,
            },
        ),
    }
}

// Whether a frame of this id may have this length.
fn is_allowed(id: u8, n: usize) -> bool
    ensures { result ≡ allowed id n }
{
    match id {
        0..=3 => n == 1,
        4 => n == 5,
        5 => 2 <= n && n <= 2049,
        6 => n == 13,
        7 => 10 <= n && n <= 16393,
        8 => n == 13,
        _ => 1 <= n && n <= limit::FRAME,
    }
}

// The number in four bytes that are there.
fn word(bytes: &[u8], at: usize) -> u32
    requires { at + 4 ≤ length bytes.now }
    ensures { result ≡ number_in bytes.now at }
{
    big_endian::read::<u32>(bytes, at).unwrap_or(0)
}

// Whether two runs of bytes are the same, as far as both go.
fn agrees(a: &[u8], b: &[u8]) -> bool
    ensures { result ≡ agree a.now b.now }
{
    a.iter().zip(b.iter()).all(|(x, y)| x == y)
}
