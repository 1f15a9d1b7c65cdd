// The files one after the other, and the parts of some bytes of the content in them.
ghost use Rattle.std.specs.Prelude.{◌≡◌, ◌+◌, ◌^◌, ◌<◌, length};

use crate::rules::Total;
use crate::{ContentOffset, rules};

// The files from one on: their lengths, the first one's number, and where it starts in the content.
#[derive(Clone, Copy)]
pub(crate) struct Files<'a> {
    lengths: &'a [u64],
    number: usize,
    pub(crate) start: Total,
    ghost numbered: { number + length lengths.now < 2 ^ 64 },
}

// A file, and where it starts and ends in the content.
#[derive(Clone, Copy)]
struct File {
    number: usize,
    start: Total,
    end: Total,
}

// So many bytes of a file, from an offset in it.
#[derive(Clone, Copy)]
pub(crate) struct Part {
    file: usize,
    offset: u64,
    size: u64,
}

// The parts of from..to in files, one after the other.
#[derive(Clone, Copy)]
pub(crate) struct Parts<'a> {
    pub(crate) files: Files<'a>,
    pub(crate) from: ContentOffset,
    pub(crate) to: ContentOffset,
}

impl<'a> Files<'a> {
    ghost use Rattle.std.specs.Prelude.{ℕ, take, min, ◌≤◌, [], MatchOption};
    ghost use Rattle.torrent_blocks.specs.Rules.{largest, sum};
    ghost use Rattle.torrent_blocks.specs.Spans.{joined_files, parts_from};
    ghost use Rattle.torrent_blocks.specs.Steps.{Split, total_from, parts_in};

    // The files from the first on that reaches past `from`. None before it has bytes from there on.
    pub(crate) fn seek(lengths: &'a [u64], from: ContentOffset) -> Files<'a>
        ensures { (total_from result ≡ min (sum lengths.now) largest) × ((to : ℕ) → to ≤ largest → parts_in result from.0 to ≡ parts_from 0 (joined_files lengths.now) from.0 to) }
    {
        let mut files = Files {
            lengths,
            number: 0,
            start: Total(0),
        };
        while let Some((file, rest)) = files.split_first() {
            if from.0 < file.end.0 {
                return files;
            }
            files = rest;
        }
        files
    }

    // The files from a number on, and none if there is none of that number.
    pub(crate) fn reach(lengths: &'a [u64], file: usize) -> Files<'a>
        ensures { (total_from result ≡ min (sum lengths.now) largest) × (result.start.0 ≡ min (sum (take file lengths.now)) largest) }
    {
        let number = file.min(lengths.len());
        let (before, rest) = lengths.split_at(number);
        Files {
            lengths: rest,
            number,
            start: rules::with_files(Total(0), before),
        }
    }

    // The first file, and those past it.
    fn split_first(self) -> Option<(File, Files<'a>)>
        ensures { MatchOption result (self.entry.lengths.now ≡ []) (λ r. Split self.entry r.0 r.1) }
    {
        let (length, lengths) = self.lengths.split_first()?;
        let file = File {
            number: self.number,
            start: self.start,
            end: rules::with_file(self.start, *length),
        };
        let rest = Files {
            lengths,
            number: self.number + 1,
            start: file.end,
        };
        Some((file, rest))
    }

    // The total of all files, with those before these.
    pub(crate) fn total(self) -> Total
        ensures { result.0 ≡ total_from self.entry }
    {
        rules::with_files(self.start, self.lengths)
    }
}

impl File {
    ghost use Rattle.std.specs.Prelude.{◌-◌, ◌≤◌, max, min, MatchOption};
    ghost use Rattle.torrent_blocks.specs.Spans.{part};
    ghost use Rattle.torrent_blocks.specs.Steps.{part_of};

    // The part of from..to in this file, if it has any of them.
    fn part(self, from: ContentOffset, to: ContentOffset) -> Option<Part>
        ensures { MatchOption result (min to.0 self.end.0 ≤ max from.0 self.start.0) (λ p. (max from.0 self.start.0 < min to.0 self.end.0) × (part_of p ≡ part self.number (max from.0 self.start.0 - self.start.0) (min to.0 self.end.0 - max from.0 self.start.0))) }
    {
        let low = from.0.max(self.start.0);
        let high = to.0.min(self.end.0);
        if high <= low {
            return None;
        }
        Some(Part {
            file: self.number,
            offset: low - self.start.0,
            size: high - low,
        })
    }
}

impl Parts<'_> {
    ghost use Rattle.std.specs.Prelude.{◌*◌, ◌≤◌, leb};
    ghost use Rattle.std.proofs.lemmas.List.Edits.{sets};
    ghost use Rattle.torrent_blocks.specs.Answers.{flat};
    ghost use Rattle.torrent_blocks.specs.Steps.{parts_left};

    // Whether there is room for so many parts. They are counted only where there are more files than that.
    pub(crate) fn fit(self, room: usize) -> bool
        ensures { result ≡ leb (length (parts_left self.entry)) room }
    {
        self.files.lengths.len() <= room || self.count() <= room
    }

    // Writes parts from the start of `out` on, and gives how many there are.
    pub(crate) fn write(self, out: &mut [u64]) -> usize
        requires { 3 * length (parts_left self) ≤ length out.old }
        ensures { (result ≡ length (parts_left self.entry)) × (out.new ≡ sets out.old 0 (flat (parts_left self.entry))) }
    {
        let mut n = 0;
        for part in self {
            out[3 * n] = part.file as u64;
            out[3 * n + 1] = part.offset;
            out[3 * n + 2] = part.size;
            n += 1;
        }
        n
    }
}

impl Iterator for Parts<'_> {
    ghost use Rattle.std.specs.Iterator.{YieldsFirstBy, item_count};
    ghost use Rattle.torrent_blocks.specs.Steps.{parts_left, part_of};

    type Item = Part;

    ghost next_gives = { YieldsFirstBy part_of parts_left };

    ghost remaining = { item_count parts_left };

    fn next(&mut self) -> Option<Part> {
        while let Some((file, rest)) = self.files.split_first() {
            if self.to.0 <= file.start.0 {
                return None;
            }
            self.files = rest;
            if let Some(part) = file.part(self.from, self.to) {
                return Some(part);
            }
        }
        None
    }
}
