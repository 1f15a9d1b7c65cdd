// Frames and handshakes for C, read from the start of lent bytes. A wait is answered by 255, and leaves `detail` too.
ghost use Rattle.peer_wire.specs.Frames.{read_of};
ghost use Rattle.peer_wire.specs.Handshake.{shake_of};
ghost use Rattle.wardrail.specs.Said.{Tells};
ghost use Rattle.wardrail.specs.Frames.{frame_told, shake_told};

// The frame at the start of the bytes. `detail` becomes 1 for a keepalive or 2 for another frame; how many bytes it used;
// its id; its piece, begin and length; first byte and length of its bitfield, block or unknown payload. What a frame does
// not have is 0.
#[unsafe(no_mangle)]
pub extern "C" fn wardrail_frame(bytes: &[u8], detail: &mut [u64; 8]) -> u64
    ensures { Tells (frame_told (read_of bytes.now)) detail.old result detail.new }
{
    wardrail::frames::wardrail_frame(bytes, detail)
}

// The handshake at the start of the bytes, for an info hash. `detail` becomes how many bytes it used, and first byte and
// length of the free bytes and of the peer id.
#[unsafe(no_mangle)]
pub extern "C" fn wardrail_handshake(bytes: &[u8], info: &[u8; 20], detail: &mut [u64; 5]) -> u64
    ensures { Tells (shake_told (shake_of info.now bytes.now)) detail.old result detail.new }
{
    wardrail::frames::wardrail_handshake(bytes, info, detail)
}
