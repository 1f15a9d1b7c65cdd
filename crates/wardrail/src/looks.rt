// What stands at a place of a text, for C.
ghost use Rattle.std.specs.Prelude.{◌≡◌, Ok};
ghost use Rattle.refusal.specs.Paper.{map, taken};
ghost use Rattle.bencode_walk.specs.Walk.{look_of, seen_paper};
ghost use Rattle.wardrail.specs.Said.{Tells};
ghost use Rattle.wardrail.specs.Looks.{look_detail};

use crate::row::told;
use bencode_walk::Seen;

// What stands at a place of any text. `detail` becomes 1 for a string, 2 for an integer, 3 for one outside 64 bits, 4 for a list, 5 for a
// dictionary or 6 for an end; first byte and length of a string's bytes, or of the sign and digits of an integer outside 64 bits; the place
// past it, or of the first thing in a list or dictionary.
pub fn wardrail_look(text: &[u8], at: usize, detail: &mut [u64; 4]) -> u64
    ensures { Tells (map look_detail (look_of text.now at)) detail.old result detail.new }
{
    told(detail, bencode_walk::look(text, at).map(seen_words))
}

fn seen_words(seen: Seen) -> [u64; 4]
    ensures { taken result ≡ map look_detail (seen_paper (Ok seen)) }
{
    match seen {
        Seen::String(x, next) => [1, x.from as u64, x.len as u64, next as u64],
        Seen::Integer(_, next) => [2, 0, 0, next as u64],
        Seen::Long(x, next) => [3, x.from as u64, x.len as u64, next as u64],
        Seen::List(first) => [4, 0, 0, first as u64],
        Seen::Dictionary(first) => [5, 0, 0, first as u64],
        Seen::End(past) => [6, 0, 0, past as u64],
    }
}
