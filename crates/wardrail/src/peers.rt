// An entry of a tracker's reply by its number, for C.
ghost use Rattle.std.specs.Prelude.{◌≡◌, Ok};
ghost use Rattle.refusal.specs.Paper.{then, map, taken};
ghost use Rattle.tracker.specs.Reply.{reply_of, nth_of};
ghost use Rattle.tracker.specs.Reading.{peer_paper};
ghost use Rattle.wardrail.specs.Said.{Tells};
ghost use Rattle.wardrail.specs.Peers.{peer_detail};

use crate::row::told;
use tracker::Found;

// Entry number `number` of a reply. `detail` becomes 2, its four bytes of address and its port; or 3, first byte and
// length of its peer id and of its ip, and its port.
pub fn wardrail_peer(text: &[u8], number: usize, detail: &mut [u64; 6]) -> u64
    ensures { Tells (map peer_detail (then (reply_of text.now) (nth_of number))) detail.old result detail.new }
{
    told(detail, tracker::peer(text, number).map(peer_words))
}

fn peer_words(peer: Found) -> [u64; 6]
    ensures { taken result ≡ map peer_detail (peer_paper (Ok peer)) }
{
    match peer {
        Found::Packed(x) => [
            2,
            x.address.0 as u64,
            x.address.1 as u64,
            x.address.2 as u64,
            x.address.3 as u64,
            x.port,
        ],
        Found::Listed(x) => [
            3,
            x.id.from as u64,
            x.id.len as u64,
            x.ip.from as u64,
            x.ip.len as u64,
            x.port,
        ],
    }
}
