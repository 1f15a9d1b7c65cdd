// Magnet links, read for C.
ghost use Rattle.std.specs.Prelude.{◌≡◌, Ok};
ghost use Rattle.refusal.specs.Paper.{map, taken};
ghost use Rattle.links.specs.Reading.{left_of, linked_paper};
ghost use Rattle.wardrail.specs.Magnets.{link_detail, ReadTo};

use crate::row::told;

// Reads a link into `hash`, `name` and `address`. `detail` becomes, of name and of address, 1 where it is given and 0 where it is not, and
// how many bytes it has.
pub fn wardrail_link(
    text: &[u8],
    hash: &mut [u8; 20],
    name: &mut [u8],
    address: &mut [u8],
    detail: &mut [u64; 4],
) -> u64
    ensures { ReadTo (left_of text.now hash.old name.old address.old) detail.old result detail.new hash.new name.new address.new }
{
    told(
        detail,
        links::read(text, hash, name, address).map(link_words),
    )
}

// Of the name, and of the address: 1 where it is given or else 0, and how many bytes it has.
fn link_words(sizes: (Option<usize>, Option<usize>)) -> [u64; 4]
    ensures { taken result ≡ map link_detail (linked_paper (Ok sizes)) }
{
    let (name, address) = sizes;
    [
        u64::from(name.is_some()),
        name.unwrap_or(0) as u64,
        u64::from(address.is_some()),
        address.unwrap_or(0) as u64,
    ]
}
