// An entry of a tracker's reply by its number, for C.
ghost use Rattle.refusal.specs.Paper.{then, map};
ghost use Rattle.tracker.specs.Reply.{reply_of, nth_of};
ghost use Rattle.wardrail.specs.Said.{Tells};
ghost use Rattle.wardrail.specs.Peers.{peer_detail};

// Entry number `number` of a reply. `detail` becomes 2, its four bytes of address and its port; or 3, first byte and
// length of its peer id and of its ip, and its port.
#[unsafe(no_mangle)]
pub extern "C" fn wardrail_peer(text: &[u8], number: usize, detail: &mut [u64; 6]) -> u64
    ensures { Tells (map peer_detail (then (reply_of text.now) (nth_of number))) detail.old result detail.new }
{
    wardrail::peers::wardrail_peer(text, number, detail)
}
