// The info dictionary: its checks in document 01's order.
ghost use Rattle.refusal.specs.Paper.{paper};
ghost use Rattle.std.specs.Prelude.{◌≡◌, ℕ, ◌+◌, ◌-◌, ◌≤◌};
ghost use Rattle.bencode.specs.Value.{dict, Entries};
ghost use Rattle.bencode_walk.specs.Stands.{Stands};
ghost use Rattle.bencode_fields.specs.Values.{must};
ghost use Rattle.bencode_walk.specs.Lookup.{Under};
ghost use Rattle.torrent_metainfo.specs.Keys.{Tells};
ghost use Rattle.torrent_metainfo.specs.Rules.{name_at, piece_length_at, info_of, sized_of};

use crate::{Content, Torrent, files, keys, names};
use bencode_walk::Sought;
use refusal::{Part, Refusal, limit, number, refuse};
use torrent_blocks::rules;
use torrent_blocks::rules::Total;

// The torrent whose info stands at `at`, with its first key at `first`.
pub fn read(text: &[u8], announce: Part, at: usize, first: usize) -> Result<Torrent, Refusal>
    ensures { (d : ℕ) → (es : Entries) → d ≤ 32 → Stands text.now d at (dict es) → first ≡ at + 1 → paper result ≡ info_of announce at es }
{
    let k = keys::note(text, at, first);
    let name = name_under(text, at, k.name)?;
    let n = piece_length_under(text, at, k.piece_length)?;
    let hashes = bencode_fields::string_under(text, at, k.pieces)?;
    let c = files::content(text, at, k)?;
    let end = keys::close(text, keys::stop(k.pieces))?;
    sized(
        announce,
        from_to(at, end),
        name,
        hashes,
        keys::value(k.pieces),
        n,
        c,
    )
}

fn from_to(from: usize, to: usize) -> Part
    ensures { result ≡ record { from = from; len = to - from } }
{
    Part {
        from,
        len: to.saturating_sub(from),
    }
}

fn name_under(
    text: &[u8],
    dictionary: usize,
    sought: Result<Sought, Refusal>,
) -> Result<Part, Refusal>
    ensures { (d : ℕ) → (u : Under) → Tells text.now d u sought → paper result ≡ must dictionary u name_at }
{
    match sought? {
        Sought::Found(_, at) => names::name_at(text, at),
        Sought::Missing(_) => Err(refuse(number::KIND, dictionary)),
    }
}

fn piece_length_under(
    text: &[u8],
    dictionary: usize,
    sought: Result<Sought, Refusal>,
) -> Result<u64, Refusal>
    ensures { (d : ℕ) → (u : Under) → Tells text.now d u sought → paper result ≡ must dictionary u piece_length_at }
{
    let n = bencode_fields::natural_under(text, dictionary, sought, limit::PIECE as u64)?;
    if rules::legal_piece_length(n) {
        Ok(n)
    } else {
        Err(refuse(number::RANGE, keys::value(sought)))
    }
}

// How many files, the total, how many pieces, and the length of pieces, which stands at `place`.
fn sized(
    announce: Part,
    info: Part,
    name: Part,
    pieces: Part,
    place: usize,
    piece_length: u64,
    c: Content,
) -> Result<Torrent, Refusal>
    ensures { paper result ≡ sized_of announce info name pieces place piece_length c }
{
    if rules::legal_file_count(c.files) {
        if rules::legal_total(Total(c.total), piece_length) {
            let count = rules::pieces(Total(c.total), piece_length);
            if pieces.len as u64 == 20 * count {
                return Ok(Torrent {
                    announce,
                    info,
                    name,
                    pieces,
                    piece_length,
                    piece_count: count,
                    content: c,
                });
            }
            return Err(refuse(number::PIECES, place));
        }
        return Err(refuse(number::RANGE, c.place));
    }
    Err(refuse(number::RANGE, c.place))
}
