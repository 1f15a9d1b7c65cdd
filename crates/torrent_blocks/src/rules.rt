// The number rules for torrents, number by number: for who reads them one after the other as for who has them all.
ghost use Rattle.std.specs.Prelude.{◌≡◌, ◌+◌, min};
ghost use Rattle.torrent_blocks.specs.Rules.{piece_length_of, file_length, file_count, pieces_of, total_and, largest, sum};

use refusal::limit;

// A running total of file lengths. It stops at the largest u64, which is far above every legal total.
#[derive(Clone, Copy, Debug, PartialEq, Eq)]
pub struct Total(pub u64);

// Whether n is a power of two from 16,384 to 16,777,216.
#[tactic(auto, unfolding(crate::specs::Rules::power_from))]
pub fn legal_piece_length(n: u64) -> bool
    ensures { result ≡ piece_length_of n }
{
    matches!(
        n,
        16384
            | 32768
            | 65536
            | 131072
            | 262144
            | 524288
            | 1048576
            | 2097152
            | 4194304
            | 8388608
            | 16777216
    )
}

// Whether a file may have this length.
pub fn legal_file_length(n: u64) -> bool
    ensures { result ≡ file_length n }
{
    n <= limit::FILE as u64
}

// Whether a torrent may have so many files.
pub fn legal_file_count(n: usize) -> bool
    ensures { result ≡ file_count n }
{
    (1..=limit::FILES).contains(&n)
}

// The total with one file more.
pub fn with_file(total: Total, n: u64) -> Total
    ensures { result.0 ≡ min (total.0 + n) largest }
{
    Total(total.0.saturating_add(n))
}

// The total with files more.
pub fn with_files(total: Total, lengths: &[u64]) -> Total
    ensures { result.0 ≡ min (total.0 + sum lengths.now) largest }
{
    let mut all = total;
    for &n in lengths {
        match all.0.checked_add(n) {
            Some(sum) => all = Total(sum),
            None => return Total(u64::MAX),
        }
    }
    all
}

// How many pieces the total has; none where the piece length is 0.
pub fn pieces(total: Total, piece_length: u64) -> u64
    ensures { result ≡ pieces_of total.0 piece_length }
{
    if piece_length == 0 {
        return 0;
    }
    total.0.div_ceil(piece_length)
}

// Whether the total is at least 1, and its pieces at most 16,384.
pub fn legal_total(total: Total, piece_length: u64) -> bool
    ensures { result ≡ total_and total.0 (pieces_of total.0 piece_length) }
{
    1 <= total.0 && pieces(total, piece_length) <= limit::PIECES as u64
}
