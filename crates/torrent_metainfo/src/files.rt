// The files of a torrent, and its content by them.
ghost use Rattle.std.specs.Prelude.{◌≡◌, ℕ, ◌≤◌, Ok};
ghost use Rattle.refusal.specs.Paper.{paper, taken, map};
ghost use Rattle.refusal.specs.Limits.{longest_file};
ghost use Rattle.bencode_fields.specs.Values.{natural_at, must};
ghost use Rattle.bencode_fields.specs.Looks.{needed};
ghost use Rattle.bencode.specs.Value.{Value};
ghost use Rattle.bencode_walk.specs.Lookup.{Under};
ghost use Rattle.bencode_walk.specs.Stands.{Stands};
ghost use Rattle.bencode_walk.specs.Walk.{seek_paper};
ghost use Rattle.torrent_metainfo.specs.Keys.{Tells};
ghost use Rattle.torrent_metainfo.specs.Rules.{file_of, one_file, content_of};
ghost use Rattle.torrent_metainfo.specs.Reading.{files_at, stopped};

use crate::{Content, File, Known, keys, names};
use bencode_walk::Sought;
use refusal::{Refusal, limit, number, refuse};
use torrent_blocks::rules;
use torrent_blocks::rules::Total;

// The file that stands at `at`: each of its entries is passed once.
pub fn file(text: &[u8], at: usize) -> Result<File, Refusal>
    ensures { (d : ℕ) → (v : Value) → d ≤ 32 → Stands text.now d at v → paper result ≡ file_of at v }
{
    let first = bencode_fields::dictionary_at(text, at)?;
    let size = bencode_walk::seek(text, first, b"length")?;
    let (length, rest) = bencode_fields::number_at(text, found(size, at)?, limit::FILE as u64)?;
    let elements = bencode_walk::seek(text, rest, b"path")?;
    let (path, end) = names::path_at(text, found(elements, at)?)?;
    let next = keys::close(text, end)?;
    Ok(File { length, path, next })
}

// The content of the torrent whose info stands at `info`, by its keys. What was found comes as it
// was answered, refusals too: by document 01's order, faults of the content count after those of info's other keys.
pub fn content(text: &[u8], info: usize, k: Known) -> Result<Content, Refusal>
    ensures { (d : ℕ) → (a b : Under) → d ≤ 32 → Tells text.now d a k.length → Tells text.now d b k.files → paper k.listed ≡ must info b files_at → paper result ≡ map stopped (content_of info a b) }
{
    match (k.length?, k.files?) {
        (Sought::Found(_, _), Sought::Found(_, _)) => Err(refuse(number::KIND, info)),
        (Sought::Found(_, at), Sought::Missing(_)) => one(text, at),
        (Sought::Missing(_), _) => Ok(k.listed?.0),
    }
}

// The files under the key files of info, which stands at `info`.
pub fn under(
    text: &[u8],
    info: usize,
    files: Result<Sought, Refusal>,
) -> Result<(Content, usize), Refusal>
    ensures { (d : ℕ) → (u : Under) → d ≤ 32 → Tells text.now d u files → paper result ≡ must info u files_at }
{
    listed(text, found(files?, info)?)
}

// The value under a key that was sought; the key missing is refused by 10 at its dictionary.
fn found(sought: Sought, dictionary: usize) -> Result<usize, Refusal>
    ensures { paper result ≡ needed dictionary (seek_paper (Ok sought)) taken }
{
    match sought {
        Sought::Found(_, value) => Ok(value),
        Sought::Missing(_) => Err(refuse(number::KIND, dictionary)),
    }
}

fn one(text: &[u8], at: usize) -> Result<Content, Refusal>
    ensures { (d : ℕ) → (v : Value) → Stands text.now d at v → paper result ≡ map (one_file at) (natural_at longest_file at v) }
{
    let total = bencode_fields::natural_at(text, at, limit::FILE as u64)?;
    Ok(Content {
        single: true,
        place: at,
        files: 1,
        total,
    })
}

// The files of the list at `place`, and the place past it.
fn listed(text: &[u8], place: usize) -> Result<(Content, usize), Refusal>
    ensures { (d : ℕ) → (v : Value) → d ≤ 32 → Stands text.now d place v → paper result ≡ files_at place v }
{
    let first = bencode_fields::list_at(text, place)?;
    let mut p = first;
    let mut total = Total(0);
    // Each file has a byte of its own, so there are fewer files than bytes.
    for files in 0..text.len() {
        if names::ends(text, p) {
            let c = Content {
                single: false,
                place,
                files,
                total: total.0,
            };
            return Ok((c, p + 1));
        }
        let f = file(text, p)?;
        p = f.next;
        total = rules::with_file(total, f.length);
    }
    Err(refuse(number::CUT, text.len()))
}
