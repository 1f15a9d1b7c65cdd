// A line of the script: its words, which spaces part, and what they stand for.
ghost use Rattle.std.specs.Prelude.{◌<◌, ◌≤◌, length};

// What lent output holds before each call.
pub const MARK: u8 = 255;

// Room for the numbers that a word lists: one more than a torrent may have files.
pub const LISTED: usize = 1025;

#[derive(Clone, Copy)]
pub struct Line<'a> {
    pub text: &'a [u8],
}

impl<'a> Line<'a> {
    // Word k; where there are fewer, none.
    pub fn word(self, k: usize) -> &'a [u8] {
        self.text.split(|b| *b == b' ').nth(k).unwrap_or(b"")
    }

    // The number that word k is.
    pub fn number(self, k: usize) -> u64 {
        value(self.word(k))
    }

    // The same in 32 bits: a larger one is the largest, which is no piece, offset or length.
    pub fn small(self, k: usize) -> u32 {
        u32::try_from(self.number(k)).unwrap_or(u32::MAX)
    }

    // The bytes that word k stands for, in a lent room, and the room that is left: parts that `.` joins, each of them hex,
    // `HEX*COUNT` or `@COUNT`; `-` is none.
    pub fn bytes<'b>(self, k: usize, room: &'b mut [u8]) -> (&'b [u8], &'b mut [u8]) {
        let mut at = 0;
        for part in self.word(k).split(|b| *b == b'.') {
            at = add_part(room, at, part);
        }
        let (word, rest) = room.split_at_mut(at);
        (word, rest)
    }

    // The numbers of word k, each up to a comma or the end, in a lent room; `-` is none.
    pub fn list<'b>(self, k: usize, room: &'b mut [u64]) -> &'b [u64] {
        let mut at = 0;
        for item in self.word(k).split_inclusive(|b| *b == b',') {
            at = add_number(room, at, item);
        }
        &room[..at]
    }

    // How much output word k says, but no more than `most`.
    pub fn room(self, k: usize, most: usize) -> usize
        ensures { result ≤ most }
    {
        self.number(k).min(most as u64) as usize
    }
}

// The number that digits stand for; what is no digit is passed over.
pub fn value(digits: &[u8]) -> u64 {
    digits
        .iter()
        .filter(|b| b.is_ascii_digit())
        .fold(0u64, |n, b| with_digit(n, *b - b'0'))
}

// A number with one more digit, where 64 bits hold it ten times.
fn with_digit(n: u64, digit: u8) -> u64 {
    if n <= u64::MAX / 10 {
        return n.wrapping_mul(10).wrapping_add(digit as u64);
    }
    n
}

// What stands before a star, and how many times it is meant; once where there is none.
fn times(word: &[u8]) -> (&[u8], u64) {
    match word.iter().position(|b| *b == b'*') {
        Some(star) => (&word[..star], value(&word[star..])),
        None => (word, 1),
    }
}

// A number, or `0*1023` for a number so many times.
fn add_number(room: &mut [u64], at: usize, item: &[u8]) -> usize
    requires { at ≤ length room.old }
    ensures { (at ≤ result) × (result ≤ length room.old) }
{
    if item.contains(&b'-') {
        return at;
    }
    let (digits, count) = times(item);
    let n = value(digits);
    let mut to = at;
    for _ in 0..count {
        to = put(room, to, n);
    }
    to
}

fn add_part(room: &mut [u8], at: usize, part: &[u8]) -> usize
    requires { at ≤ length room.old }
    ensures { (at ≤ result) × (result ≤ length room.old) }
{
    if part.contains(&b'@') {
        return add_places(room, at, value(part));
    }
    let (digits, count) = times(part);
    let mut to = at;
    for _ in 0..count {
        to = add_hex(room, to, digits);
    }
    to
}

// So many bytes, each its place modulo 251.
fn add_places(room: &mut [u8], at: usize, count: u64) -> usize
    requires { at ≤ length room.old }
    ensures { (at ≤ result) × (result ≤ length room.old) }
{
    let mut to = at;
    for _ in 0..count {
        to = put(room, to, (to % 251) as u8);
    }
    to
}

// A byte for each two digits.
fn add_hex(room: &mut [u8], at: usize, digits: &[u8]) -> usize
    requires { at ≤ length room.old }
    ensures { (at ≤ result) × (result ≤ length room.old) }
{
    let mut to = at;
    for pair in digits.chunks_exact(2) {
        to = put(room, to, digit(pair[0]) * 16 + digit(pair[1]));
    }
    to
}

// Puts one at a place, and answers the place past it; where the room ends, nothing is put.
fn put<T: Copy>(room: &mut [T], at: usize, x: T) -> usize
    requires { at ≤ length room.old }
    ensures { (at ≤ result) × (result ≤ length room.old) }
{
    match room.get_mut(at) {
        Some(place) => {
            *place = x;
            at + 1
        }
        None => at,
    }
}

fn digit(b: u8) -> u8
    ensures { result < 16 }
{
    match b {
        b'0'..=b'9' => b - b'0',
        b'a'..=b'f' => b - b'a' + 10,
        _ => 0,
    }
}
