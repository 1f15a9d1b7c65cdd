// The link of a torrent that was read: how many bytes it has, and its bytes put into lent output.
ghost use Rattle.std.specs.Prelude.{◌≡◌, ◌++◌, ◌+◌, ◌*◌, ◌≤◌, length};
ghost use Rattle.refusal.specs.Limits.{most_text};
ghost use Rattle.refusal.specs.Paper.{paper, taken, map};
ghost use Rattle.bencode_writer.specs.Escaped.{escaped_byte};
ghost use Rattle.bencode_writer.specs.Put.{left, puts, Ran};
ghost use Rattle.torrent_metainfo.specs.Reading.{read_of};
ghost use Rattle.links.specs.Writing.{unreserved, escaped, text_of, link_text, unless_long};

use crate::kinds;
use bencode_writer::{end, literal, small_hex};
use refusal::{Refusal, limit, number, refuse};
use torrent_metainfo::Torrent;

// Writes the link of the torrent that a text is.
pub fn written(torrent: &[u8], t: Torrent, out: &mut [u8]) -> Result<usize, Refusal>
    requires { read_of torrent.now ≡ taken t }
    ensures { left (paper result) out.new ≡ puts out.old (unless_long (link_text torrent.now t)) }
{
    let count = measured(torrent, t)?;
    if out.len() < count {
        return Err(refuse(number::ROOM, 0));
    }
    let mut hash = [0u8; 20];
    let _ = hash_sha1::digest(bencode_walk::bytes(torrent, t.info), &mut hash);
    let name = bencode_walk::bytes(torrent, t.name);
    let announce = bencode_walk::bytes(torrent, t.announce);
    Ok(put(&hash, name, announce, out))
}

// How many bytes it has.
pub fn measured(torrent: &[u8], t: Torrent) -> Result<usize, Refusal>
    requires { read_of torrent.now ≡ taken t }
    ensures { paper result ≡ map length (unless_long (link_text torrent.now t)) }
{
    let name = bencode_walk::bytes(torrent, t.name);
    let announce = bencode_walk::bytes(torrent, t.announce);
    let count = needed(name, announce);
    if limit::TEXT < count {
        return Err(refuse(number::LONG, 0));
    }
    Ok(count)
}

// How many bytes a link with this name and announce has: 60 with the hash, and 8 around the two.
fn needed(name: &[u8], announce: &[u8]) -> usize
    requires { (length name.now ≤ most_text) × (length announce.now ≤ most_text) }
    ensures { result ≡ 68 + length (escaped name.now) + length (escaped announce.now) }
{
    68 + escaped_size(name) + escaped_size(announce)
}

fn escaped_size(bytes: &[u8]) -> usize
    requires { length bytes.now ≤ most_text }
    ensures { (result ≡ length (escaped bytes.now)) × (result ≤ 3 * most_text) }
{
    let mut count = 0;
    for &b in bytes {
        count += byte_size(b);
    }
    count
}

fn byte_size(b: u8) -> usize
    ensures { (result ≡ length (escaped_byte unreserved b)) × (result ≤ 3) }
{
    if kinds::is_unreserved(b) {
        return 1;
    }
    3
}

// Puts all of a link, and gives the place past it.
fn put(hash: &[u8; 20], name: &[u8], announce: &[u8], out: &mut [u8]) -> usize
    requires { length (text_of hash.now name.now announce.now) ≤ length out.old }
    ensures { Ran (text_of hash.now name.now announce.now) 0 out.old result out.new }
{
    let a = end(literal(out, 0, b"magnet:?xt=urn:btih:"));
    let b = end(small_hex(out, a, hash));
    let c = value(out, b, b"&dn=", name);
    value(out, c, b"&tr=", announce)
}

// Puts what leads to a value, and the value with its escapes; gives the place past it.
fn value(out: &mut [u8], at: usize, lead: &[u8], bytes: &[u8]) -> usize
    requires { at + length (lead.now ++ escaped bytes.now) ≤ length out.old }
    ensures { Ran (lead.now ++ escaped bytes.now) at out.old result out.new }
{
    let mut to = end(literal(out, at, lead));
    for &b in bytes {
        to = byte(out, to, b);
    }
    to
}

fn byte(out: &mut [u8], at: usize, b: u8) -> usize
    requires { at + length (escaped_byte unreserved b) ≤ length out.old }
    ensures { Ran (escaped_byte unreserved b) at out.old result out.new }
{
    if kinds::is_unreserved(b) {
        out[at] = b;
        return at + 1;
    }
    end(literal(out, at, &bencode_writer::escape(b)))
}
