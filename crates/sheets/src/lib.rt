// The tracker's address for a torrent by a depot's sheet, a dictionary from info hashes to addresses. A call takes both
// texts and trusts nothing kept from an earlier call.
#![tactic(auto)]

mod rows;

ghost use Rattle.std.specs.Prelude.{◌≡◌, ◌≤◌, length};
ghost use Rattle.refusal.specs.Limits.{longest_piece};
ghost use Rattle.refusal.specs.Paper.{taken};
ghost use Rattle.refusal.specs.Parts.{bytes_at};
ghost use Rattle.hash_sha1.specs.Sha1.{sha1};
ghost use Rattle.sheets.specs.Rules.{sheet_of};
ghost use Rattle.sheets.specs.Reading.{of, told, listed_as, address_in, find_of, chosen, handed, handed_at};

use refusal::{Part, Refusal};

// Which of the two texts.
#[derive(Clone, Copy)]
pub enum Source {
    Torrent,
    Sheet,
}

// In which text the address stands and its bytes there, or which text is refused and why.
#[derive(Clone, Copy)]
pub struct Found {
    pub source: Source,
    pub part: Result<Part, Refusal>,
}

// Where the address for a torrent stands: in the sheet under the torrent's info hash, or else in the torrent, as its announce.
pub fn find(torrent: &[u8], sheet: &[u8]) -> Found
    ensures { told result ≡ find_of torrent.now sheet.now }
{
    match torrent_metainfo::read(torrent) {
        Ok(t) => hashed(torrent, t.announce, t.info, sheet),
        Err(r) => answered(Source::Torrent, Err(r)),
    }
}

// The bytes of the address, as the part of the sheet or of the torrent where they stand; none where one of them is refused.
pub fn address<'a>(torrent: &'a [u8], sheet: &'a [u8]) -> &'a [u8]
    ensures same { result.now ≡ handed (find_of torrent.now sheet.now) torrent.now sheet.now }
    ensures there { (result.ref_ptr.0 ≡ chosen (find_of torrent.now sheet.now).source torrent.entry.ref_ptr.0 sheet.entry.ref_ptr.0) × (result.ref_ptr.1 ≡ handed_at (find_of torrent.now sheet.now) torrent.now sheet.now torrent.entry.ref_ptr.1 sheet.entry.ref_ptr.1) }
{
    let answer = find(torrent, sheet);
    let part = match answer.part {
        Ok(part) => part,
        Err(_) => Part { from: 0, len: 0 },
    };
    part_of(torrent, sheet, answer.source, part)
}

// The very part of one of the two texts.
fn part_of<'a>(torrent: &'a [u8], sheet: &'a [u8], source: Source, part: Part) -> &'a [u8]
    ensures same { result.now ≡ handed (of source (taken part)) torrent.now sheet.now }
    ensures there { (result.ref_ptr.0 ≡ chosen source torrent.entry.ref_ptr.0 sheet.entry.ref_ptr.0) × (result.ref_ptr.1 ≡ handed_at (of source (taken part)) torrent.now sheet.now torrent.entry.ref_ptr.1 sheet.entry.ref_ptr.1) }
{
    match source {
        Source::Torrent => bencode_walk::bytes(torrent, part),
        Source::Sheet => bencode_walk::bytes(sheet, part),
    }
}

// The same as `find`, where announce and info of the torrent are known. Info is no longer than a text, so it has a hash.
fn hashed(torrent: &[u8], announce: Part, info: Part, sheet: &[u8]) -> Found
    ensures { length (bytes_at torrent.now info) ≤ longest_piece → told result ≡ address_in announce (sheet_of (sha1 (bytes_at torrent.now info)) sheet.now) }
{
    let mut hash = [0u8; 20];
    match hash_sha1::digest(bencode_walk::bytes(torrent, info), &mut hash) {
        Ok(()) => listed(announce, sheet, &hash),
        Err(r) => answered(Source::Torrent, Err(r)),
    }
}

// The same, where the info hash is known.
fn listed(announce: Part, sheet: &[u8], hash: &[u8; 20]) -> Found
    ensures { told result ≡ address_in announce (sheet_of hash.now sheet.now) }
{
    sourced(announce, rows::read(sheet, hash))
}

fn sourced(announce: Part, row: Result<Option<Part>, Refusal>) -> Found
    ensures { told result ≡ address_in announce (listed_as row) }
{
    match row {
        Ok(Some(p)) => answered(Source::Sheet, Ok(p)),
        Ok(None) => answered(Source::Torrent, Ok(announce)),
        Err(r) => answered(Source::Sheet, Err(r)),
    }
}

fn answered(source: Source, part: Result<Part, Refusal>) -> Found
    ensures { result ≡ record { source = source; part = part } }
{
    Found { source, part }
}
