// What stands at a place of a text, for C.
ghost use Rattle.refusal.specs.Paper.{map};
ghost use Rattle.bencode_walk.specs.Walk.{look_of};
ghost use Rattle.wardrail.specs.Said.{Tells};
ghost use Rattle.wardrail.specs.Looks.{look_detail};

// What stands at a place of any text. `detail` becomes 1 for a string, 2 for an integer, 3 for one outside 64 bits, 4 for a list, 5 for a
// dictionary or 6 for an end; first byte and length of a string's bytes, or of the sign and digits of an integer outside 64 bits; the place
// past it, or of the first thing in a list or dictionary.
#[unsafe(no_mangle)]
pub extern "C" fn wardrail_look(text: &[u8], at: usize, detail: &mut [u64; 4]) -> u64
    ensures { Tells (map look_detail (look_of text.now at)) detail.old result detail.new }
{
    wardrail::looks::wardrail_look(text, at, detail)
}
