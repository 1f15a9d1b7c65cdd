// Files by number.
ghost use Rattle.std.specs.Prelude.{◌≡◌};
ghost use Rattle.refusal.specs.Paper.{paper, taken};
ghost use Rattle.torrent_metainfo.specs.Reading.{read_of};
ghost use Rattle.torrent_contents.specs.Files.{entry_of, single};
ghost use Rattle.torrent_contents.specs.Steps.{walk_to};

use crate::Entry;
use refusal::{Refusal, number, refuse};
use torrent_blocks::rules::Total;
use torrent_blocks::{ContentOffset, rules};
use torrent_metainfo::{File, Torrent};

// File number `number` of the torrent `t`.
pub fn numbered(text: &[u8], t: Torrent, number: usize) -> Result<Entry, Refusal>
    requires { read_of text.now ≡ taken t }
    ensures { paper result ≡ entry_of text.now number }
{
    let content = t.content;
    if content.files <= number {
        return Err(refuse(number::BEYOND, 0));
    }
    if content.single {
        return only(t);
    }
    nth(text, content.place + 1, number)
}

// The file that stands `number` files past the one at `first`.
fn nth(text: &[u8], first: usize, number: usize) -> Result<Entry, Refusal>
    ensures { paper result ≡ walk_to number text.now first 0 }
{
    let mut at = first;
    let mut passed = Total(0);
    for _n in 0..number {
        let f = torrent_metainfo::file_at(text, at)?;
        at = f.next;
        passed = rules::with_file(passed, f.length);
    }
    let f = torrent_metainfo::file_at(text, at)?;
    Ok(Entry {
        offset: ContentOffset(passed.0),
        length: f.length,
        path: f.path,
        single: false,
    })
}

fn only(t: Torrent) -> Result<Entry, Refusal>
    ensures { result ≡ Ok (single t) }
{
    Ok(Entry {
        offset: ContentOffset(0),
        length: t.content.total,
        path: t.name.from,
        single: true,
    })
}
