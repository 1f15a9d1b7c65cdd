// Kinds of bytes, and how far they go at a place of a text.
ghost use Rattle.std.specs.Prelude.{◌≡◌, true, cond, ◌+◌, ◌<◌, ◌≤◌, min, length, drop};
ghost use Rattle.links.specs.Link.{letter_or_digit, name_byte, plain_byte};
ghost use Rattle.links.specs.Reading.{nibble, is_hex};
ghost use Rattle.links.specs.Writing.{unreserved};
ghost use Rattle.links.specs.Places.{runs, common};

// The place past the bytes of a name.
pub fn name_end(text: &[u8], from: usize) -> usize
    requires { from ≤ length text.now }
    ensures { result ≡ from + runs name_byte (drop from text.now) }
{
    for at in from..text.len() {
        if !is_name(text[at]) {
            return at;
        }
    }
    text.len()
}

// How many of the 40 bytes of a hash at a place are hex digits, from the first on.
pub fn hash_digits(text: &[u8], from: usize) -> usize
    requires { from ≤ length text.now }
    ensures { result ≡ min 40 (runs is_hex (drop from text.now)) }
{
    if all_hex(text, from) {
        return 40;
    }
    digits(text, from, 40)
}

// How many hex digits stand at a place, `most` of them at most.
fn digits(text: &[u8], from: usize, most: usize) -> usize
    requires { from ≤ length text.now }
    ensures { result ≡ min most (runs is_hex (drop from text.now)) }
{
    let end = refusal::least(most, text.len() - from);
    for count in 0..end {
        if !is_hex(text[from + count]) {
            return count;
        }
    }
    end
}

// How many of the two bytes after a "%" are hex digits, from the first on.
pub fn escape_digits(text: &[u8], from: usize) -> usize
    ensures { result ≡ min 2 (runs is_hex (drop from text.now)) }
{
    if text.len() <= from {
        return 0;
    }
    if !is_hex(text[from]) {
        return 0;
    }
    if text.len() <= from + 1 {
        return 1;
    }
    if !is_hex(text[from + 1]) {
        return 1;
    }
    2
}

// How many bytes of a word stand at a place.
pub fn word(text: &[u8], from: usize, word: &[u8]) -> usize
    requires { from ≤ length text.now }
    ensures { result ≡ common (drop from text.now) word.now }
{
    let end = refusal::least(word.len(), text.len() - from);
    for count in 0..end {
        if text[from + count] != word[count] {
            return count;
        }
    }
    end
}

// A byte that stands for itself in a value. Most do by the first two tests.
pub fn is_plain(b: u8) -> bool
    ensures { result ≡ plain_byte b }
{
    if 126 < b {
        return false;
    }
    if b'&' < b {
        return true;
    }
    if b < 33 {
        return false;
    }
    if b == b'#' {
        return false;
    }
    if b == b'%' {
        return false;
    }
    b != b'&'
}

// A byte that is written as it is.
pub fn is_unreserved(b: u8) -> bool
    ensures { result ≡ unreserved b }
{
    if is_letter_or_digit(b) {
        return true;
    }
    if b == b'-' {
        return true;
    }
    if b == b'.' {
        return true;
    }
    if b == b'_' {
        return true;
    }
    b == b'~'
}

// What a hex digit counts, in either case: a letter stands one past a multiple of 16, and counts 10.
pub fn value(b: u8) -> u8
    requires { nibble b < 16 }
    ensures { result ≡ nibble b }
{
    b % 16 + 9 * (b / 64)
}

// A hex digit in either case, by one bit for each byte from "0" to "f".
fn is_hex(b: u8) -> bool
    ensures { result ≡ is_hex b }
{
    if b < b'0' {
        return false;
    }
    if b'f' < b {
        return false;
    }
    let digits: u64 = 35465847073801215;
    (digits >> (b - b'0')) & 1 == 1
}

// Whether 40 hex digits stand at a place. Without a stop at the first other byte, so that LLVM looks at 16 of them at once.
fn all_hex(text: &[u8], from: usize) -> bool
    requires { from ≤ length text.now }
    ensures { result ≡ true → 40 ≤ runs is_hex (drop from text.now) }
{
    if text.len() - from < 40 {
        return false;
    }
    others(text, from) == 0
}

fn others(text: &[u8], from: usize) -> u8
    requires { from + 40 ≤ length text.now }
    ensures { result ≡ 0 → 40 ≤ runs is_hex (drop from text.now) }
{
    let mut count: u8 = 0;
    for i in 0..40 {
        count += other(text[from + i]);
    }
    count
}

// 0 for a hex digit, and 1 for another byte.
fn other(b: u8) -> u8
    ensures { (result ≡ cond (is_hex b) 0 1) × (result ≤ 1) }
{
    if b < b'0' {
        return 1;
    }
    if b <= b'9' {
        return 0;
    }
    if b < b'A' {
        return 1;
    }
    if b <= b'F' {
        return 0;
    }
    if b < b'a' {
        return 1;
    }
    if b <= b'f' {
        return 0;
    }
    1
}

fn is_name(b: u8) -> bool
    ensures { result ≡ name_byte b }
{
    if is_letter_or_digit(b) {
        return true;
    }
    b == b'.'
}

fn is_letter_or_digit(b: u8) -> bool
    ensures { result ≡ letter_or_digit b }
{
    if b < b'0' {
        return false;
    }
    if b <= b'9' {
        return true;
    }
    if b < b'A' {
        return false;
    }
    if b <= b'Z' {
        return true;
    }
    if b < b'a' {
        return false;
    }
    b <= b'z'
}
