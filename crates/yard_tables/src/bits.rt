// The bits of a row's byte: the piece with the smallest number stands highest.
ghost use Rattle.std.specs.Prelude.{◌≡◌, ◌+◌, ◌-◌, ◌%◌, ◌^◌, min};
ghost use Rattle.yard_tables.specs.Rows.{digit};

// Whether piece p is in its byte.
pub fn bit_of(b: u8, p: usize) -> bool
    ensures { result ≡ digit (7 - p % 8) b }
{
    (b >> (7 - p % 8)) & 1 == 1
}

// Piece p alone in its byte.
pub fn mask(p: usize) -> u8
    ensures { result ≡ 2 ^ (7 - p % 8) }
{
    128u8 >> (p % 8)
}

// Where the byte whose first piece is p ends, or all the pieces do.
pub fn end_of(p: usize, pieces: usize) -> usize
    ensures { result ≡ min (p + 8) pieces }
{
    if pieces <= p.saturating_add(8) {
        return pieces;
    }
    p + 8
}
