// Torrents of one file, written: announce, and info with length, name, piece length and pieces.
#![tactic(auto)]

ghost use Rattle.refusal.specs.Paper.{paper};
ghost use Rattle.std.specs.Prelude.{◌≡◌, [], ◌∷◌, ◌++◌, ◌+◌, ◌≤◌, length as length_of};
ghost use Rattle.refusal.specs.Limits.{most_text};
ghost use Rattle.bencode_scalar.specs.Written.{decimal, written_string};
ghost use Rattle.bencode_writer.specs.Put.{left, Ran};
ghost use Rattle.torrent_authoring.specs.Writing.{fields, text_of, size_of, write_of};

use bencode_writer::{digits, end};
use refusal::{Refusal, limit, number, refuse};
use torrent_blocks::rules;
use torrent_blocks::rules::Total;

// Writes the torrent, and answers how many bytes it has. A refusal leaves `out` as it was.
pub fn write(
    out: &mut [u8],
    announce: &[u8],
    name: &[u8],
    piece_length: u64,
    pieces: &[u8],
    length: u64,
) -> Result<usize, Refusal>
    ensures { left (paper result) out.new ≡ write_of (fields announce.now name.now piece_length pieces.now length) out.old }
{
    let n = size(announce, name, piece_length, pieces, length)?;
    if out.len() < n {
        return Err(refuse(number::ROOM, 0));
    }
    Ok(put_all(out, announce, name, piece_length, pieces, length))
}

// How many bytes of output `write` needs for this torrent.
pub fn size(
    announce: &[u8],
    name: &[u8],
    piece_length: u64,
    pieces: &[u8],
    length: u64,
) -> Result<usize, Refusal>
    ensures { paper result ≡ size_of (fields announce.now name.now piece_length pieces.now length) }
{
    if !torrent_metainfo::legal_name(name) {
        return Err(refuse(number::NAME, 0));
    }
    if !rules::legal_piece_length(piece_length) {
        return Err(refuse(number::RANGE, 0));
    }
    if !rules::legal_file_length(length) {
        return Err(refuse(number::RANGE, 0));
    }
    if !rules::legal_total(Total(length), piece_length) {
        return Err(refuse(number::RANGE, 0));
    }
    let count = rules::pieces(Total(length), piece_length);
    if pieces.len() as u64 != 20 * count {
        return Err(refuse(number::PIECES, 0));
    }
    // Tests of their own, since the sum of all lengths may not fit.
    if limit::TEXT < announce.len() {
        return Err(refuse(number::LONG, 0));
    }
    if limit::TEXT < name.len() {
        return Err(refuse(number::LONG, 0));
    }
    let strings = string_size(announce) + string_size(name) + string_size(pieces);
    // What stands around the strings and the digits has 61 bytes.
    let bytes = strings + digits(piece_length) + digits(length) + 61;
    if limit::TEXT < bytes {
        return Err(refuse(number::LONG, 0));
    }
    Ok(bytes)
}

// Puts all of a text that fits, key by key, and gives the place past it.
fn put_all(
    out: &mut [u8],
    announce: &[u8],
    name: &[u8],
    piece_length: u64,
    pieces: &[u8],
    length: u64,
) -> usize
    requires { length_of (text_of (fields announce.now name.now piece_length pieces.now length)) ≤ length_of out.old }
    ensures { Ran (text_of (fields announce.now name.now piece_length pieces.now length)) 0 out.old result out.new }
{
    let a = put_string(out, 0, b"d8:announce", announce);
    let b = put_number(out, a, b"4:infod6:lengthi", length);
    let c = put_string(out, b, b"4:name", name);
    let d = put_number(out, c, b"12:piece lengthi", piece_length);
    let e = put_string(out, d, b"6:pieces", pieces);
    end(bencode_writer::literal(out, e, b"ee"))
}

// Puts what leads to a string, and the string; gives the place past it.
fn put_string(out: &mut [u8], at: usize, lead: &[u8], bytes: &[u8]) -> usize
    requires { at + length_of (lead.now ++ written_string bytes.now) ≤ length_of out.old }
    ensures { Ran (lead.now ++ written_string bytes.now) at out.old result out.new }
{
    let a = end(bencode_writer::literal(out, at, lead));
    end(bencode_writer::string(out, a, bytes))
}

// Puts what leads to an integer's digits, the digits, and its e; gives the place past it.
fn put_number(out: &mut [u8], at: usize, lead: &[u8], n: u64) -> usize
    requires { at + length_of (lead.now ++ (decimal n ++ (101 ∷ []))) ≤ length_of out.old }
    ensures { Ran (lead.now ++ (decimal n ++ (101 ∷ []))) at out.old result out.new }
{
    let a = end(bencode_writer::literal(out, at, lead));
    let b = end(bencode_writer::decimal(out, a, n));
    end(bencode_writer::literal(out, b, b"e"))
}

// How many bytes a string has as it is written.
fn string_size(bytes: &[u8]) -> usize
    requires { length_of bytes.now ≤ most_text }
    ensures { (result ≡ length_of (written_string bytes.now)) × (result ≤ most_text + 21) }
{
    digits(bytes.len() as u64) + 1 + bytes.len()
}
