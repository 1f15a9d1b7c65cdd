// A week's file for C.
ghost use Rattle.refusal.specs.Paper.{map};
ghost use Rattle.week.specs.Rules.{table_of, package_at, week_of, package_of};
ghost use Rattle.wardrail.specs.Said.{Tells};
ghost use Rattle.wardrail.specs.Weeks.{week_detail, package_detail};

// Reads a week's file. `detail` becomes how many packages there are, and the sums of their files and of their bytes.
#[unsafe(no_mangle)]
pub extern "C" fn wardrail_week(file: &[u8], detail: &mut [u64; 3]) -> u64
    ensures { Tells (map week_detail (week_of file.now)) detail.old result detail.new }
{
    wardrail::weeks::wardrail_week(file, detail)
}

// Package `number` of a week's file. `detail` becomes first byte and length of its hash in the table and of its body, how
// many files it has, and their bytes.
#[unsafe(no_mangle)]
pub extern "C" fn wardrail_week_package(file: &[u8], number: usize, detail: &mut [u64; 6]) -> u64
    ensures { Tells (map package_detail (package_of file.now number)) detail.old result detail.new }
{
    wardrail::weeks::wardrail_week_package(file, number, detail)
}

// Checks the table of a week's file. `detail` becomes how many packages there are.
#[unsafe(no_mangle)]
pub extern "C" fn wardrail_week_table(file: &[u8], detail: &mut u64) -> u64
    ensures { Tells (table_of file.now) detail.old result detail.new }
{
    wardrail::weeks::wardrail_week_table(file, detail)
}

// Package `number` of any file by its own entry, to walk over all packages and read each body once.
#[unsafe(no_mangle)]
pub extern "C" fn wardrail_week_package_at(file: &[u8], number: usize, detail: &mut [u64; 6]) -> u64
    ensures { Tells (map package_detail (package_at file.now number)) detail.old result detail.new }
{
    wardrail::weeks::wardrail_week_package_at(file, number, detail)
}
