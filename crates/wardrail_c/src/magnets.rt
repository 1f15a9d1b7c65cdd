// Magnet links, read for C.
ghost use Rattle.links.specs.Reading.{left_of};
ghost use Rattle.wardrail.specs.Magnets.{ReadTo};

// Reads a link into `hash`, `name` and `address`. `detail` becomes, of name and of address, 1 where it is given and 0 where it is not, and
// how many bytes it has.
#[unsafe(no_mangle)]
pub extern "C" fn wardrail_link(
    text: &[u8],
    hash: &mut [u8; 20],
    name: &mut [u8],
    address: &mut [u8],
    detail: &mut [u64; 4],
) -> u64
    ensures { ReadTo (left_of text.now hash.old name.old address.old) detail.old result detail.new hash.new name.new address.new }
{
    wardrail::magnets::wardrail_link(text, hash, name, address, detail)
}
