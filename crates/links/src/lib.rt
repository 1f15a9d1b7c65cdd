// Magnet links, by BEP 9 as document 02 has it: what a link says, and the link of a torrent. A call takes the whole text
// and trusts nothing kept from an earlier call.
#![tactic(auto)]

mod kinds;
mod scan;
mod values;
mod writing;

ghost use Rattle.std.specs.Prelude.{◌≡◌, ◌≤◌, length};
ghost use Rattle.refusal.specs.Paper.{paper, taken, map};
ghost use Rattle.bencode_writer.specs.Put.{left as put_left, Ran};
ghost use Rattle.torrent_metainfo.specs.Reading.{read_of};
ghost use Rattle.torrent_lines.specs.Lines.{most_listed};
ghost use Rattle.links.specs.Link.{Meaning};
ghost use Rattle.links.specs.Reading.{left_of, left, linked_paper, decoded_to};
ghost use Rattle.links.specs.Writing.{written_of, write_of};
ghost use Rattle.links.specs.Line.{line_of, most_line};
ghost use Rattle.links.specs.Places.{HashAt, SpeltAt, Holds, size_in, given_in};

use bencode_writer::{end, literal};
use refusal::{Refusal, limit, number, refuse};
use scan::Spelt;
use torrent_metainfo::Torrent;

// Reads a link: writes its info hash, and decodes dn to the front of `name` and tr to the front of `address`. A refusal
// leaves all three as they were.
pub fn read(
    text: &[u8],
    hash: &mut [u8; 20],
    name: &mut [u8],
    address: &mut [u8],
) -> Result<(Option<usize>, Option<usize>), Refusal>
    ensures { left (linked_paper result) hash.new name.new address.new ≡ left_of text.now hash.old name.old address.old }
{
    if limit::TEXT < text.len() {
        return Err(refuse(number::LONG, 0));
    }
    match scan::scan(text) {
        Ok((at, dn, tr)) => store(text, at, dn, tr, hash, name, address),
        Err(place) => Err(refuse(number::LINK, place)),
    }
}

// Writes the link of a torrent to the front of `out`, and tells how many bytes it has. A refusal leaves `out` as it was.
pub fn write(torrent: &[u8], out: &mut [u8]) -> Result<usize, Refusal>
    ensures { put_left (paper result) out.new ≡ write_of torrent.now out.old }
{
    let t = torrent_metainfo::read(torrent)?;
    writing::written(torrent, t, out)
}

// How many bytes of output `write` needs for the link of this torrent.
pub fn size(torrent: &[u8]) -> Result<usize, Refusal>
    ensures { paper result ≡ map length (written_of torrent.now) }
{
    let t = torrent_metainfo::read(torrent)?;
    writing::measured(torrent, t)
}

// Writes the line that is printed for a text to the front of `out`, which has room for every line: the link of the
// torrent that the text is, or the refusal. Tells how many bytes it has.
pub fn line(torrent: &[u8], out: &mut [u8; 393285]) -> usize
    ensures ran { Ran (line_of torrent.now) 0 out.old result out.new }
    ensures most { result ≤ most_line }
{
    put_line(torrent, out)
}

// Decodes into the outputs, if both have room.
fn store(
    text: &[u8],
    at: usize,
    dn: Option<Spelt>,
    tr: Option<Spelt>,
    hash: &mut [u8; 20],
    name: &mut [u8],
    address: &mut [u8],
) -> Result<(Option<usize>, Option<usize>), Refusal>
    requires { (m : Meaning) × HashAt text.now at m.hash × Holds (SpeltAt text.now) dn m.name × Holds (SpeltAt text.now) tr m.address }
    ensures { (m : Meaning) → HashAt text.now at m.hash → Holds (SpeltAt text.now) dn m.name → Holds (SpeltAt text.now) tr m.address → left (linked_paper result) hash.new name.new address.new ≡ decoded_to hash.old name.old address.old (taken m) }
{
    if name.len() < size_of(dn) {
        return Err(refuse(number::ROOM, 0));
    }
    if address.len() < size_of(tr) {
        return Err(refuse(number::ROOM, 0));
    }
    *hash = values::hash(text, at);
    values::put(text, dn, name);
    values::put(text, tr, address);
    Ok((told(dn), told(tr)))
}

// How many bytes it spells.
fn size_of(x: Option<Spelt>) -> usize
    ensures { result ≡ size_in x }
{
    match x {
        Some(v) => v.size,
        None => 0,
    }
}

fn told(x: Option<Spelt>) -> Option<usize>
    ensures { result ≡ given_in x }
{
    match x {
        Some(v) => Some(v.size),
        None => None,
    }
}

// The same, where the length of `out` is known as a slice's.
fn put_line(torrent: &[u8], out: &mut [u8]) -> usize
    requires { most_line ≤ length out.old }
    ensures ran { Ran (line_of torrent.now) 0 out.old result out.new }
    ensures most { result ≤ most_line }
{
    if torrent_lines::TEXT < torrent.len() {
        return torrent_lines::refused(number::LONG, 0, out);
    }
    match torrent_metainfo::read(torrent) {
        Ok(t) => put_link(torrent, t, out),
        Err(r) => torrent_lines::refused(r.number, r.place, out),
    }
}

// The link of the torrent that a text is, and a line feed.
fn put_link(torrent: &[u8], t: Torrent, out: &mut [u8]) -> usize
    requires { (read_of torrent.now ≡ taken t) × (length torrent.now ≤ most_listed) × (most_line ≤ length out.old) }
    ensures ran { Ran (line_of torrent.now) 0 out.old result out.new }
    ensures most { result ≤ most_line }
{
    let at = end(writing::written(torrent, t, out));
    end(literal(out, at, b"\n"))
}
