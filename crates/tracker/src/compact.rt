// Entries of six bytes: four of address and two of port, the most significant first.
ghost use Rattle.std.specs.Prelude.{◌≡◌, ◌+◌, ◌*◌};
ghost use Rattle.tracker.specs.Entries.{packed_paper, packed_at};

use refusal::{Refusal, limit, number, refuse};

// The four bytes of an address.
#[derive(Clone, Copy)]
pub struct Address(pub u8, pub u8, pub u8, pub u8);

// An entry of six bytes.
#[derive(Clone, Copy)]
pub struct Packed {
    pub address: Address,
    pub port: u64,
}

// The entry that begins at a place.
pub fn packed_at(text: &[u8], at: usize) -> Result<(Packed, usize), Refusal>
    ensures { packed_paper result ≡ packed_at text.now at }
{
    if limit::TEXT < text.len() {
        return Err(refuse(number::LONG, 0));
    }
    let rest = &text[at.min(text.len())..];
    let &[a, b, c, d, high, low, ..] = rest else {
        return Err(refuse(number::CUT, text.len()));
    };
    let entry = Packed {
        address: Address(a, b, c, d),
        port: u64::from(u16::from_be_bytes([high, low])),
    };
    Ok((entry, at + 6))
}

// Entry number n of those from a place on.
pub(crate) fn nth(text: &[u8], first: usize, n: usize) -> Result<(Packed, usize), Refusal>
    ensures { packed_paper result ≡ packed_at text.now (first + n * 6) }
{
    // Where the sum does not fit, what it stops at is past every text too.
    packed_at(text, first.saturating_add(n.saturating_mul(6)))
}
