// Where the keys of a dictionary were sought.
ghost use Rattle.std.specs.Prelude.{◌≡◌, ℕ, ◌+◌, ◌≤◌, length};
ghost use Rattle.refusal.specs.Paper.{paper, taken};
ghost use Rattle.bencode.specs.Value.{Entries, Prev, encode_entries};
ghost use Rattle.bencode_walk.specs.Stands.{StandEntries};
ghost use Rattle.torrent_metainfo.specs.Keys.{stop_of, place_found, past_of};
ghost use Rattle.torrent_metainfo.specs.Noted.{Noted};

use crate::{Content, Known, files};
use bencode_walk::{Next, Sought};
use refusal::Refusal;

// Where a search stopped: a later key is sought from there on.
pub fn stop(sought: Result<Sought, Refusal>) -> usize
    ensures { result ≡ stop_of sought }
{
    match sought {
        Ok(Sought::Found(at, _)) => at,
        Ok(Sought::Missing(at)) => at,
        Err(r) => r.place,
    }
}

// The place of the value that was found.
pub fn value(sought: Result<Sought, Refusal>) -> usize
    ensures { result ≡ place_found sought }
{
    match sought {
        Ok(Sought::Found(_, at)) => at,
        Ok(Sought::Missing(_)) => 0,
        Err(_) => 0,
    }
}

// One pass over info at `info`: its keys in their order. The files are read on the way, so that their list is passed once.
pub fn note(text: &[u8], info: usize, first: usize) -> Known
    ensures { (d : ℕ) → (before : Prev) → (es : Entries) → d ≤ 32 → StandEntries text.now d first before es → Noted text.now d info first es result }
{
    let files = bencode_walk::seek(text, first, b"files");
    let listed = files::under(text, info, files);
    let length = bencode_walk::seek(text, past(files, listed), b"length");
    let name = bencode_walk::seek(text, stop(length), b"name");
    let piece_length = bencode_walk::seek(text, stop(name), b"piece length");
    let pieces = bencode_walk::seek(text, stop(piece_length), b"pieces");
    Known {
        files,
        listed,
        length,
        name,
        piece_length,
        pieces,
    }
}

// The place past the dictionary whose entry, or e, stands at `from`: only the entries from there on are passed.
pub fn close(text: &[u8], from: usize) -> Result<usize, Refusal>
    ensures { (d : ℕ) → (before : Prev) → (es : Entries) → d ≤ 32 → StandEntries text.now d from before es → paper result ≡ taken (from + length (encode_entries es)) }
{
    let mut p = from;
    loop {
        match bencode_walk::entry(text, p)? {
            Next::Key(_, value) => p = bencode_walk::skip(text, value)?,
            Next::Close(past) => return Ok(past),
        }
    }
}

// Where the key after files is sought: past their list, if it was read.
fn past(files: Result<Sought, Refusal>, listed: Result<(Content, usize), Refusal>) -> usize
    ensures { result ≡ past_of files listed }
{
    match listed {
        Ok((_, past)) => past,
        Err(_) => stop(files),
    }
}
