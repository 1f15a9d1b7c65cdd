// Writers of frames and of the handshake, at the start of lent output. Fields are checked by the reader's rules and
// order, then the room; on a refusal nothing changes, and what is past the written part stays.
ghost use Rattle.refusal.specs.Paper.{paper};
ghost use Rattle.std.specs.Prelude.{◌≡◌, [], ◌∷◌, ◌++◌, ◌+◌, ◌≤◌, length};
ghost use Rattle.bencode_writer.specs.Put.{left, put_of};
ghost use Rattle.peer_wire.specs.Message.{keepalive, have, bitfield, request, piece, cancel, word, body, encode};
ghost use Rattle.peer_wire.specs.Frames.{write_of};
ghost use Rattle.peer_wire.specs.Handshake.{handshake, zeros};

use refusal::{Refusal, big_endian, limit, number, refuse};
use torrent_blocks::{PieceNumber, PieceOffset};

// A keepalive: four zeros. Every writer here answers how many bytes it put, or its refusal.
pub fn keepalive(out: &mut [u8]) -> Result<usize, Refusal>
    ensures { left (paper result) out.new ≡ put_of (encode keepalive) 0 out.old }
{
    bencode_writer::literal(out, 0, b"\x00\x00\x00\x00")
}

// A frame of any id and payload.
pub fn raw(out: &mut [u8], id: u8, payload: &[u8]) -> Result<usize, Refusal>
    ensures { left (paper result) out.new ≡ write_of (id ∷ payload.now) out.old }
{
    framed(out, id, b"", payload)
}

// A frame with no payload: choke 0, unchoke 1, interested 2, not interested 3.
pub fn plain(out: &mut [u8], id: u8) -> Result<usize, Refusal>
    ensures { left (paper result) out.new ≡ write_of (id ∷ []) out.old }
{
    framed(out, id, b"", b"")
}

// A have of a piece.
pub fn have(out: &mut [u8], index: PieceNumber) -> Result<usize, Refusal>
    ensures { left (paper result) out.new ≡ write_of (body (have index.0)) out.old }
{
    framed(out, 4, &one(index.0), b"")
}

// A bitfield, high bit first; no bytes, or over 2,048, are 21.
pub fn bitfield(out: &mut [u8], bits: &[u8]) -> Result<usize, Refusal>
    ensures { left (paper result) out.new ≡ write_of (body (bitfield bits.now)) out.old }
{
    framed(out, 5, b"", bits)
}

// A request for a block.
pub fn request(
    out: &mut [u8],
    index: PieceNumber,
    begin: PieceOffset,
    len: u32,
) -> Result<usize, Refusal>
    ensures { left (paper result) out.new ≡ write_of (body (request index.0 begin.0 len)) out.old }
{
    framed(out, 6, &three(index.0, begin.0, len), b"")
}

// A piece frame, its block copied in.
pub fn piece(
    out: &mut [u8],
    index: PieceNumber,
    begin: PieceOffset,
    block: &[u8],
) -> Result<usize, Refusal>
    ensures { left (paper result) out.new ≡ write_of (body (piece index.0 begin.0 block.now)) out.old }
{
    framed(out, 7, &two(index.0, begin.0), block)
}

// A cancel of a request.
pub fn cancel(
    out: &mut [u8],
    index: PieceNumber,
    begin: PieceOffset,
    len: u32,
) -> Result<usize, Refusal>
    ensures { left (paper result) out.new ≡ write_of (body (cancel index.0 begin.0 len)) out.old }
{
    framed(out, 8, &three(index.0, begin.0, len), b"")
}

// The handshake, its free bytes 0.
pub fn handshake(out: &mut [u8], info: &[u8; 20], peer: &[u8; 20]) -> Result<usize, Refusal>
    ensures { left (paper result) out.new ≡ put_of (handshake zeros info.now peer.now) 0 out.old }
{
    shake(out, info, peer)
}

fn shake(out: &mut [u8], info: &[u8], peer: &[u8]) -> Result<usize, Refusal>
    requires { (length info.now ≡ 20) × (length peer.now ≡ 20) }
    ensures { left (paper result) out.new ≡ put_of (handshake zeros info.now peer.now) 0 out.old }
{
    if out.len() < 68 {
        return Err(refuse(number::ROOM, 0));
    }
    let _ = bencode_writer::literal(
        out,
        0,
        b"\x13BitTorrent protocol\x00\x00\x00\x00\x00\x00\x00\x00",
    );
    let _ = bencode_writer::literal(out, 28, info);
    bencode_writer::literal(out, 48, peer)
}

// A frame whose payload is some numbers and some bytes.
fn framed(out: &mut [u8], id: u8, numbers: &[u8], rest: &[u8]) -> Result<usize, Refusal>
    requires { length numbers.now ≤ 12 }
    ensures { left (paper result) out.new ≡ write_of (id ∷ (numbers.now ++ rest.now)) out.old }
{
    let head = 1 + numbers.len();
    // It subtracts, since the sum may not fit a usize.
    if limit::FRAME - head < rest.len() {
        return Err(refuse(number::FRAME, 0));
    }
    let n = head + rest.len();
    if !crate::is_allowed(id, n) {
        return Err(refuse(number::PAYLOAD, 0));
    }
    if out.len() < 4 + n {
        return Err(refuse(number::ROOM, 0));
    }
    big_endian::write::<u32>(out, 0, n as u32);
    out[4] = id;
    let _ = bencode_writer::literal(out, 5, numbers);
    bencode_writer::literal(out, 4 + head, rest)
}

fn one(a: u32) -> [u8; 4]
    ensures { result ≡ word a }
{
    let mut numbers = [0u8; 4];
    big_endian::write::<u32>(&mut numbers, 0, a);
    numbers
}

fn two(a: u32, b: u32) -> [u8; 8]
    ensures { result ≡ word a ++ word b }
{
    let mut numbers = [0u8; 8];
    big_endian::write::<u32>(&mut numbers, 0, a);
    big_endian::write::<u32>(&mut numbers, 4, b);
    numbers
}

fn three(a: u32, b: u32, c: u32) -> [u8; 12]
    ensures { result ≡ word a ++ (word b ++ word c) }
{
    let mut numbers = [0u8; 12];
    big_endian::write::<u32>(&mut numbers, 0, a);
    big_endian::write::<u32>(&mut numbers, 4, b);
    big_endian::write::<u32>(&mut numbers, 8, c);
    numbers
}
