// Writers for C, each at the start of `out`. `detail` becomes how many bytes were written, and what is past them stays.
ghost use Rattle.std.specs.Prelude.{◌∷◌, length};
ghost use Rattle.refusal.specs.Paper.{map};
ghost use Rattle.bencode_writer.specs.Put.{put_of};
ghost use Rattle.peer_wire.specs.Message.{keepalive, encode};
ghost use Rattle.peer_wire.specs.Frames.{write_of as frame_of};
ghost use Rattle.peer_wire.specs.Handshake.{handshake, zeros};
ghost use Rattle.tracker.specs.Writing.{write_of as reply_text_of};
ghost use Rattle.torrent_authoring.specs.Writing.{fields, size_of, write_of as torrent_text_of};
ghost use Rattle.links.specs.Writing.{written_of, write_of as link_text_of};
ghost use Rattle.week.specs.Writing.{write_of as week_text_of};
ghost use Rattle.wardrail.specs.Said.{Tells};
ghost use Rattle.wardrail.specs.Writers.{Wrote};

use crate::row::counted;

// A frame of any id and payload.
pub fn wardrail_write_frame(id: u8, payload: &[u8], out: &mut [u8], detail: &mut u64) -> u64
    ensures { Wrote (frame_of (id ∷ payload.now) out.old) detail.old result detail.new out.new }
{
    counted(detail, peer_wire::write::raw(out, id, payload))
}

// A keepalive.
pub fn wardrail_write_keepalive(out: &mut [u8], detail: &mut u64) -> u64
    ensures { Wrote (put_of (encode keepalive) 0 out.old) detail.old result detail.new out.new }
{
    counted(detail, peer_wire::write::keepalive(out))
}

// The handshake, its free bytes 0.
pub fn wardrail_write_handshake(
    info: &[u8; 20],
    peer: &[u8; 20],
    out: &mut [u8],
    detail: &mut u64,
) -> u64
    ensures { Wrote (put_of (handshake zeros info.now peer.now) 0 out.old) detail.old result detail.new out.new }
{
    counted(detail, peer_wire::write::handshake(out, info, peer))
}

// A torrent of one file.
pub fn wardrail_write_torrent(
    announce: &[u8],
    name: &[u8],
    piece_length: u64,
    pieces: &[u8],
    length: u64,
    out: &mut [u8],
    detail: &mut u64,
) -> u64
    ensures { Wrote (torrent_text_of (fields announce.now name.now piece_length pieces.now length) out.old) detail.old result detail.new out.new }
{
    counted(
        detail,
        torrent_authoring::write(out, announce, name, piece_length, pieces, length),
    )
}

// How many bytes of output that torrent needs.
pub fn wardrail_torrent_size(
    announce: &[u8],
    name: &[u8],
    piece_length: u64,
    pieces: &[u8],
    length: u64,
    detail: &mut u64,
) -> u64
    ensures { Tells (size_of (fields announce.now name.now piece_length pieces.now length)) detail.old result detail.new }
{
    counted(
        detail,
        torrent_authoring::size(announce, name, piece_length, pieces, length),
    )
}

// The link of a torrent.
pub fn wardrail_write_link(torrent: &[u8], out: &mut [u8], detail: &mut u64) -> u64
    ensures { Wrote (link_text_of torrent.now out.old) detail.old result detail.new out.new }
{
    counted(detail, links::write(torrent, out))
}

// How many bytes of output that link needs.
pub fn wardrail_link_size(torrent: &[u8], detail: &mut u64) -> u64
    ensures { Tells (map length (written_of torrent.now)) detail.old result detail.new }
{
    counted(detail, links::size(torrent))
}

// A week's file of bodies that stand one after the other and have these lengths.
pub fn wardrail_write_week(bodies: &[u8], lengths: &[u64], out: &mut [u8], detail: &mut u64) -> u64
    ensures { Wrote (week_text_of bodies.now lengths.now out.old) detail.old result detail.new out.new }
{
    counted(detail, week::write(bodies, lengths, out))
}

// A compact reply.
pub fn wardrail_write_reply(interval: u64, peers: &[u8], out: &mut [u8], detail: &mut u64) -> u64
    ensures { Wrote (reply_text_of interval peers.now out.old) detail.old result detail.new out.new }
{
    counted(detail, tracker::writing::write(out, interval, peers))
}
