// What a round is refused for.
ghost use Rattle.std.specs.Prelude.{◌≡◌, length};
ghost use Rattle.yard.specs.Rounds.{round_fault};

use refusal::number;
use yard_tables::{Head, round, sizes};

// The number of the refusal of a round.
pub fn fault(h: Head, n: usize, rows: &[u8], holders: &[u16]) -> Option<u8>
    ensures { result ≡ round_fault h n (length rows.now) (length holders.now) }
{
    if !sizes::sizes_fit(h, n, rows.len(), holders.len()) {
        return Some(number::SIZES);
    }
    if round::misplaced(h, n) {
        return Some(number::DAMAGED);
    }
    None
}
