// A week's file for C.
ghost use Rattle.std.specs.Prelude.{◌≡◌};
ghost use Rattle.refusal.specs.Paper.{map};
ghost use Rattle.week.specs.Rules.{table_of, package_at, week_of, package_of};
ghost use Rattle.wardrail.specs.Said.{Tells};
ghost use Rattle.wardrail.specs.Weeks.{week_detail, package_detail};

use crate::row::{counted, told};
use week::{Entry, Week};

// Reads a week's file. `detail` becomes how many packages there are, and the sums of their files and of their bytes.
pub fn wardrail_week(file: &[u8], detail: &mut [u64; 3]) -> u64
    ensures { Tells (map week_detail (week_of file.now)) detail.old result detail.new }
{
    told(detail, week::read(file).map(sums))
}

// Package `number` of a week's file. `detail` becomes first byte and length of its hash in the table and of its body, how
// many files it has, and their bytes.
pub fn wardrail_week_package(file: &[u8], number: usize, detail: &mut [u64; 6]) -> u64
    ensures { Tells (map package_detail (package_of file.now number)) detail.old result detail.new }
{
    told(detail, week::package(file, number).map(words))
}

// Checks the table of a week's file. `detail` becomes how many packages there are.
pub fn wardrail_week_table(file: &[u8], detail: &mut u64) -> u64
    ensures { Tells (table_of file.now) detail.old result detail.new }
{
    counted(detail, week::table(file))
}

// Package `number` of any file by its own entry, to walk over all packages and read each body once.
pub fn wardrail_week_package_at(file: &[u8], number: usize, detail: &mut [u64; 6]) -> u64
    ensures { Tells (map package_detail (package_at file.now number)) detail.old result detail.new }
{
    told(detail, week::package_at(file, number).map(words))
}

// How many packages, and the sums of their files and of their bytes.
fn sums(w: Week) -> [u64; 3]
    ensures { result ≡ week_detail w }
{
    [w.count as u64, w.files, w.total]
}

// Its parts by first byte and length, then its numbers.
fn words(e: Entry) -> [u64; 6]
    ensures { result ≡ package_detail e }
{
    [
        e.hash.from as u64,
        e.hash.len as u64,
        e.body.from as u64,
        e.body.len as u64,
        e.files,
        e.total,
    ]
}
