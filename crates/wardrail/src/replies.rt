// Tracker replies for C.
ghost use Rattle.std.specs.Prelude.{◌≡◌, Ok};
ghost use Rattle.refusal.specs.Paper.{map, taken};
ghost use Rattle.tracker.specs.Reply.{reply_of, counted};
ghost use Rattle.tracker.specs.Reading.{reply_paper};
ghost use Rattle.tracker.specs.Entries.{listed_at, packed_at, listed_paper, packed_paper};
ghost use Rattle.wardrail.specs.Said.{Tells};
ghost use Rattle.wardrail.specs.Replies.{reply_detail, entry_detail};

use crate::row::told;
use tracker::Reply;
use tracker::compact::Packed;
use tracker::listed::Listed;

// Reads a tracker's reply. `detail` becomes 1 with the first byte and the length of a failure reason; or 2 for entries of
// six bytes or 3 for a list, the seconds to wait, how many entries, and the place of the first.
pub fn wardrail_reply(text: &[u8], detail: &mut [u64; 4]) -> u64
    ensures { Tells (map reply_detail (map counted (reply_of text.now))) detail.old result detail.new }
{
    told(detail, tracker::read(text).map(reply_words))
}

// The entry of a list whose dictionary stands at a place. `detail` becomes first byte and length of its peer id and of
// its ip, its port, and the place past it, where the next stands.
pub fn wardrail_listed_at(text: &[u8], at: usize, detail: &mut [u64; 6]) -> u64
    ensures { Tells (map entry_detail (listed_at text.now at)) detail.old result detail.new }
{
    told(
        detail,
        tracker::listed::listed_at(text, at).map(listed_words),
    )
}

// The entry of six bytes at a place. `detail` becomes its four bytes of address, its port, and the place past it.
pub fn wardrail_packed_at(text: &[u8], at: usize, detail: &mut [u64; 6]) -> u64
    ensures { Tells (map entry_detail (packed_at text.now at)) detail.old result detail.new }
{
    told(
        detail,
        tracker::compact::packed_at(text, at).map(packed_words),
    )
}

fn reply_words(reply: Reply) -> [u64; 4]
    ensures { taken result ≡ map reply_detail (reply_paper (Ok reply)) }
{
    match reply {
        Reply::Failure(p) => [1, p.from as u64, p.len as u64, 0],
        Reply::Compact(p) => [2, p.interval, p.count as u64, p.first as u64],
        Reply::List(p) => [3, p.interval, p.count as u64, p.first as u64],
    }
}

// An entry of a list, and the place past it.
fn listed_words(entry: (Listed, usize)) -> [u64; 6]
    ensures { taken result ≡ map entry_detail (listed_paper (Ok entry)) }
{
    let (x, next) = entry;
    [
        x.id.from as u64,
        x.id.len as u64,
        x.ip.from as u64,
        x.ip.len as u64,
        x.port,
        next as u64,
    ]
}

// An entry of six bytes, and the place past it.
fn packed_words(entry: (Packed, usize)) -> [u64; 6]
    ensures { taken result ≡ map entry_detail (packed_paper (Ok entry)) }
{
    let (x, next) = entry;
    [
        x.address.0 as u64,
        x.address.1 as u64,
        x.address.2 as u64,
        x.address.3 as u64,
        x.port,
        next as u64,
    ]
}
