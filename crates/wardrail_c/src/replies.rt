// Tracker replies for C.
ghost use Rattle.refusal.specs.Paper.{map};
ghost use Rattle.tracker.specs.Reply.{reply_of, counted};
ghost use Rattle.tracker.specs.Entries.{listed_at, packed_at};
ghost use Rattle.wardrail.specs.Said.{Tells};
ghost use Rattle.wardrail.specs.Replies.{reply_detail, entry_detail};

// Reads a tracker's reply. `detail` becomes 1 with the first byte and the length of a failure reason; or 2 for entries of
// six bytes or 3 for a list, the seconds to wait, how many entries, and the place of the first.
#[unsafe(no_mangle)]
pub extern "C" fn wardrail_reply(text: &[u8], detail: &mut [u64; 4]) -> u64
    ensures { Tells (map reply_detail (map counted (reply_of text.now))) detail.old result detail.new }
{
    wardrail::replies::wardrail_reply(text, detail)
}

// The entry of a list whose dictionary stands at a place. `detail` becomes first byte and length of its peer id and of
// its ip, its port, and the place past it, where the next stands.
#[unsafe(no_mangle)]
pub extern "C" fn wardrail_listed_at(text: &[u8], at: usize, detail: &mut [u64; 6]) -> u64
    ensures { Tells (map entry_detail (listed_at text.now at)) detail.old result detail.new }
{
    wardrail::replies::wardrail_listed_at(text, at, detail)
}

// The entry of six bytes at a place. `detail` becomes its four bytes of address, its port, and the place past it.
#[unsafe(no_mangle)]
pub extern "C" fn wardrail_packed_at(text: &[u8], at: usize, detail: &mut [u64; 6]) -> u64
    ensures { Tells (map entry_detail (packed_at text.now at)) detail.old result detail.new }
{
    wardrail::replies::wardrail_packed_at(text, at, detail)
}
