// What a page of the missing list is refused for.
ghost use Rattle.std.specs.Prelude.{◌≡◌, length};
ghost use Rattle.yard.specs.Pages.{page_fault};

use refusal::number;
use yard_tables::{Head, sizes};

// The number of the refusal of a page from a first seat on.
pub fn fault(h: Head, n: usize, rows: &[u8], holders: &[u16], first: usize) -> Option<u8>
    ensures { result ≡ page_fault h n (length rows.now) (length holders.now) first }
{
    if !sizes::sizes_fit(h, n, rows.len(), holders.len()) {
        return Some(number::SIZES);
    }
    if n < first {
        return Some(number::SEAT);
    }
    None
}
