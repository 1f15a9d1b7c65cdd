// The lines that are printed for a week's file.
ghost use Rattle.std.specs.Prelude.{◌≡◌, ◌+◌, ◌≤◌, length};
ghost use Rattle.bencode_writer.specs.Put.{Ran};
ghost use Rattle.refusal.specs.Paper.{taken};
ghost use Rattle.week.specs.Rules.{week_of};
ghost use Rattle.week.specs.Lines.{most_listing, package_line, last_line, listing_of};
ghost use Rattle.week.specs.Noted.{Noted};

use crate::{Week, bodies};
use bencode_writer::{decimal, end, literal, small_hex};

// Puts all lines to the front of `out`, and tells how many bytes they have.
pub fn put(file: &[u8], out: &mut [u8]) -> usize
    requires { most_listing ≤ length out.old }
    ensures ran { Ran (listing_of file.now) 0 out.old result out.new }
    ensures most { result ≤ most_listing }
{
    let mut counts = [0u64; 512];
    match bodies::summed(file, &mut counts) {
        Ok(w) => all(file, w, &counts, out),
        Err(r) => torrent_lines::refused(r.number, r.place, out),
    }
}

// The lines of a file that was read.
fn all(file: &[u8], w: Week, counts: &[u64], out: &mut [u8]) -> usize
    requires { (week_of file.now ≡ taken w) × (w.count ≤ 256) × (512 ≤ length counts.now) × Noted file.now w.count counts.now × (most_listing ≤ length out.old) }
    ensures ran { Ran (listing_of file.now) 0 out.old result out.new }
    ensures most { result ≤ most_listing }
{
    let mut at = 0;
    for i in 0..w.count {
        let place = 12 + 28 * i;
        at = line(
            &file[place..place + 20],
            counts[2 * i],
            counts[2 * i + 1],
            out,
            at,
        );
    }
    last(w, out, at)
}

// A package's hash, files and bytes.
fn line(hash: &[u8], files: u64, total: u64, out: &mut [u8], at: usize) -> usize
    requires { (length hash.now ≡ 20) × (at + 83 ≤ length out.old) }
    ensures ran { Ran (package_line hash.now files total) at out.old result out.new }
    ensures most { result ≤ at + 83 }
{
    let a = end(small_hex(out, at, hash));
    let b = end(literal(out, a, b" "));
    let c = end(decimal(out, b, files));
    let d = end(literal(out, c, b" "));
    let e = end(decimal(out, d, total));
    end(literal(out, e, b"\n"))
}

// The sums.
fn last(w: Week, out: &mut [u8], at: usize) -> usize
    requires { at + 84 ≤ length out.old }
    ensures ran { Ran (last_line w) at out.old result out.new }
    ensures most { result ≤ at + 84 }
{
    let a = end(decimal(out, at, w.count as u64));
    let b = end(literal(out, a, b" packages "));
    let c = end(decimal(out, b, w.files));
    let d = end(literal(out, c, b" files "));
    let e = end(decimal(out, d, w.total));
    end(literal(out, e, b" bytes\n"))
}
