// The tracker's address for a torrent by a sheet, for C.
ghost use Rattle.std.specs.Prelude.{◌≡◌};
ghost use Rattle.refusal.specs.Paper.{refusal};
ghost use Rattle.sheets.specs.Reading.{find_of};
ghost use Rattle.wardrail.specs.Addresses.{word_from, text_number, TellsOf};

use crate::row::{sheet_word, word};
use refusal::Refusal;
use sheets::Source;

// The tracker's address for a torrent by a sheet. `detail` becomes 1 where it stands in the torrent or 2 in the sheet, and its first byte and
// length there. The word of a refusal of the sheet has its top bit set.
pub fn wardrail_address(torrent: &[u8], sheet: &[u8], detail: &mut [u64; 3]) -> u64
    ensures { TellsOf (find_of torrent.now sheet.now) detail.old result detail.new }
{
    let found = sheets::find(torrent, sheet);
    match found.part {
        Ok(x) => {
            *detail = [text_number(found.source), x.from as u64, x.len as u64];
            0
        }
        Err(r) => word_from(found.source, r),
    }
}

// 1 for the torrent, 2 for the sheet.
fn text_number(source: Source) -> u64
    ensures { result ≡ text_number source }
{
    match source {
        Source::Torrent => 1,
        Source::Sheet => 2,
    }
}

// The word of a refusal of one of them.
fn word_from(source: Source, r: Refusal) -> u64
    ensures { result ≡ word_from source (refusal r) }
{
    match source {
        Source::Torrent => word(r),
        Source::Sheet => sheet_word(r),
    }
}
