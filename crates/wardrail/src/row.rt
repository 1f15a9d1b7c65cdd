// How a call answers C: a row of numbers that is left in what is lent, with the answer 0; or the word of a refusal, which leaves it.
ghost use Rattle.std.specs.Prelude.{◌≡◌, ◌+◌, ◌*◌, ◌%◌, ◌^◌};
ghost use Rattle.refusal.specs.Paper.{paper};
ghost use Rattle.wardrail.specs.Said.{Tells};

use refusal::Refusal;

// The word of a refusal: its number in the lowest 8 bits, and its place in the 56 above them.
pub fn word(r: Refusal) -> u64
    ensures { result ≡ r.number + 256 * (r.place % 2 ^ 56) }
{
    r.number as u64 + 256 * (r.place as u64 % 72057594037927936)
}

// The word of a refusal of a sheet, which is passed beside a torrent: its place in 55 bits, and the top bit set.
pub fn sheet_word(r: Refusal) -> u64
    ensures { result ≡ r.number + 256 * (r.place % 2 ^ 55) + 2 ^ 63 }
{
    r.number as u64 + 256 * (r.place as u64 % 36028797018963968) + 9223372036854775808
}

// What a call says: the row of what is taken and 0, or the word of its refusal.
pub fn told<D: Copy>(detail: &mut D, answer: Result<D, Refusal>) -> u64
    ensures { Tells (paper answer) detail.old result detail.new }
{
    match answer {
        Ok(row) => {
            *detail = row;
            0
        }
        Err(r) => word(r),
    }
}

// What a call says that answers how many.
pub fn counted(detail: &mut u64, answer: Result<usize, Refusal>) -> u64
    ensures { Tells (paper answer) detail.old result detail.new }
{
    told(detail, answer.map(|n| n as u64))
}
