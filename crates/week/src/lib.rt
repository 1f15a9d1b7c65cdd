// A week's packages in one file, by document 02: a table, then the bodies, each of them a torrent. A call takes the whole file
// and trusts nothing kept from an earlier call.
#![tactic(auto)]

mod bodies;
mod entries;
mod lines;
mod writing;

ghost use Rattle.refusal.specs.Paper.{paper};
ghost use Rattle.std.specs.Prelude.{◌≡◌, ◌≤◌};
ghost use Rattle.bencode_writer.specs.Put.{left, Ran};
ghost use Rattle.week.specs.Rules.{table_of, package_at, week_of, package_of};
ghost use Rattle.week.specs.Writing.{write_of};
ghost use Rattle.week.specs.Lines.{listing_of, most_listing};

use refusal::{Part, Refusal, limit, number, refuse};

// What is told of a package: where in the file its hash and its body stand, how many files the body is of, and their bytes.
#[derive(Clone, Copy)]
pub struct Entry {
    pub hash: Part,
    pub body: Part,
    pub files: u64,
    pub total: u64,
}

// How many packages there are, and the sums over all of their files and of their bytes.
#[derive(Clone, Copy)]
pub struct Week {
    pub count: usize,
    pub files: u64,
    pub total: u64,
}

// What a week's file comes to: its table is checked, then body by body.
pub fn read(file: &[u8]) -> Result<Week, Refusal>
    ensures { paper result ≡ week_of file.now }
{
    let mut counts = [0u64; 512];
    bodies::summed(file, &mut counts)
}

// Package `index` of a week's file, from 0: all of the file is checked.
pub fn package(file: &[u8], index: usize) -> Result<Entry, Refusal>
    ensures { paper result ≡ package_of file.now index }
{
    let mut counts = [0u64; 512];
    let w = bodies::summed(file, &mut counts)?;
    bodies::chosen(file, w.count, index, &counts)
}

// Checks the table alone, and that the last body ends the file. With `package_at` for each package it reads a file as
// `read` does, each body once.
pub fn table(file: &[u8]) -> Result<usize, Refusal>
    ensures { paper result ≡ table_of file.now }
{
    if limit::TEXT < file.len() {
        return Err(refuse(number::LONG, 0));
    }
    let n = entries::count(file)?;
    entries::all(file, n)
}

// Package `index` of any file by its own entry: that is in the table, its body is in the file and a torrent, and its hash
// is that torrent's. No other entry is looked at.
pub fn package_at(file: &[u8], index: usize) -> Result<Entry, Refusal>
    ensures { paper result ≡ package_at file.now index }
{
    if limit::TEXT < file.len() {
        return Err(refuse(number::LONG, 0));
    }
    let n = entries::count(file)?;
    bodies::within(file, n, index)
}

// Writes the file of bodies that stand one after the other in `bodies` and have these lengths to the front of `out`, and
// tells how many bytes it has. A refusal leaves `out` as it was.
pub fn write(bodies: &[u8], lengths: &[u64], out: &mut [u8]) -> Result<usize, Refusal>
    ensures { left (paper result) out.new ≡ write_of bodies.now lengths.now out.old }
{
    if lengths.len() == 0 {
        return Err(refuse(number::WEEK, 0));
    }
    if limit::PACKAGES < lengths.len() {
        return Err(refuse(number::WEEK, 0));
    }
    if writing::add_up(lengths, bodies.len()) {
        return writing::written(bodies, lengths, out);
    }
    Err(refuse(number::WEEK, 0))
}

// Writes the lines that are printed for a file to the front of `out`, which has room for all: one for each package and one
// with the sums, or the refusal. Tells how many bytes they have.
pub fn listing(file: &[u8], out: &mut [u8; 21332]) -> usize
    ensures ran { Ran (listing_of file.now) 0 out.old result out.new }
    ensures most { result ≤ most_listing }
{
    lines::put(file, out)
}
