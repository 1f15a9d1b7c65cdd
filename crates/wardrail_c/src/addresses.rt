// The tracker's address for a torrent by a sheet, for C.
ghost use Rattle.sheets.specs.Reading.{find_of};
ghost use Rattle.wardrail.specs.Addresses.{TellsOf};

// The tracker's address for a torrent by a sheet. `detail` becomes 1 where it stands in the torrent or 2 in the sheet, and its first byte and
// length there. The word of a refusal of the sheet has its top bit set.
#[unsafe(no_mangle)]
pub extern "C" fn wardrail_address(torrent: &[u8], sheet: &[u8], detail: &mut [u64; 3]) -> u64
    ensures { TellsOf (find_of torrent.now sheet.now) detail.old result detail.new }
{
    wardrail::addresses::wardrail_address(torrent, sheet, detail)
}
