// Bytes put at a place of lent output, as far as it goes: each call tells the place past them, and what does not fit is
// counted and not stored. So the same calls tell how many bytes there are, and write them.
ghost use Rattle.std.specs.Prelude.{◌≡◌, ◌∷◌, [], ◌++◌, ◌+◌, ◌≤◌, length};
ghost use Rattle.bencode_scalar.specs.Written.{decimal};
ghost use Rattle.bencode_writer.specs.Escaped.{escaped_byte};
ghost use Rattle.bencode_writer.specs.Put.{Ran};
ghost use Rattle.torrent_lines.specs.Lines.{plain, escaped};
ghost use Rattle.torrent_lines.specs.Places.{far};

// One byte at a place: the place past it.
pub fn byte(out: &mut [u8], at: usize, b: u8) -> usize
    requires { at ≤ far }
    ensures { Ran (b ∷ []) at out.old result out.new }
{
    if out.len() <= at {
        return at + 1;
    }
    out[at] = b;
    at + 1
}

// The bytes as they are.
pub fn literal(out: &mut [u8], at: usize, bytes: &[u8]) -> usize
    requires { at + length bytes.now ≤ far }
    ensures { Ran bytes.now at out.old result out.new }
{
    let mut to = at;
    for &b in bytes {
        to = byte(out, to, b);
    }
    to
}

// A number in decimal.
pub fn decimal(out: &mut [u8], at: usize, n: u64) -> usize
    requires { at + 20 ≤ far }
    ensures { Ran (decimal n) at out.old result out.new }
{
    let mut word = [0u8; 20];
    let count = bencode_writer::end(bencode_writer::decimal(&mut word, 0, n));
    literal(out, at, &word[0..count])
}

// A number in decimal, and a word after it.
pub fn numbered(out: &mut [u8], at: usize, n: u64, word: &[u8]) -> usize
    requires { (at + 31 ≤ far) × (length word.now ≤ 11) }
    ensures ran { Ran (decimal n ++ word.now) at out.old result out.new }
    ensures near { result ≤ at + 31 }
{
    let to = decimal(out, at, n);
    literal(out, to, word)
}

// A name or an element of a path: bytes outside 33 to 126, and "%", as % and two capital hex digits.
pub fn escaped(out: &mut [u8], at: usize, bytes: &[u8]) -> usize
    requires { at + length (escaped bytes.now) + 3 ≤ far }
    ensures { Ran (escaped bytes.now) at out.old result out.new }
{
    let mut to = at;
    for &b in bytes {
        to = one(out, to, b);
    }
    to
}

fn one(out: &mut [u8], at: usize, b: u8) -> usize
    requires { at + 3 ≤ far }
    ensures { Ran (escaped_byte plain b) at out.old result out.new }
{
    if is_plain(b) {
        byte(out, at, b)
    } else {
        literal(out, at, &bencode_writer::escape(b))
    }
}

fn is_plain(b: u8) -> bool
    ensures { result ≡ plain b }
{
    33 <= b && b <= 126 && b != b'%'
}
