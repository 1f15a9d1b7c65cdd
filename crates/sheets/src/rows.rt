// The rows of a sheet, info hash and address, in one pass: the bytes are read, each row is checked, and the hash is looked for.
// A row that breaks a rule is kept in mind, since what the rest of the text is refused for as bencode comes before it.
ghost use Rattle.std.specs.Prelude.{◌≡◌, true, false, cond, ◌<◌, ◌≤◌, eqb, length, get_or, drop};
ghost use Rattle.refusal.specs.Limits.{most_text};
ghost use Rattle.refusal.specs.Numbers.{peer};
ghost use Rattle.refusal.specs.Paper.{taken, refused};
ghost use Rattle.refusal.specs.Parts.{bytes_at};
ghost use Rattle.bencode_scalar.specs.Reading.{is_digit};
ghost use Rattle.bencode.specs.Value.{follows};
ghost use Rattle.bencode.specs.Decode.{key_of};
ghost use Rattle.sheets.specs.Rules.{sheet_of};
ghost use Rattle.sheets.specs.Reading.{listed_as};
ghost use Rattle.sheets.specs.Turns.{prev_in, key_in, Reads, Turned, under_key, with_address, without_address, ended_as};

use bencode::Cursor;
use refusal::{Part, Refusal, limit, number, refuse};

// How far the pass has come: the place of the next row, how many values have begun, the key before, and what the rows so far come to.
#[derive(Clone, Copy)]
struct Stage {
    at: usize,
    count: usize,
    before: Option<Part>,
    row: Result<Option<Part>, Refusal>,
}

// What stands under a key: a string, by its bytes, or another value, by the place past it and how many values have begun.
#[derive(Clone, Copy)]
enum Held {
    String(Part),
    Other(usize, usize),
}

// Where the address for a hash stands in the sheet that a text is.
pub fn read(sheet: &[u8], hash: &[u8]) -> Result<Option<Part>, Refusal>
    ensures { listed_as result ≡ sheet_of hash.now sheet.now }
{
    if limit::TEXT < sheet.len() {
        return Err(refuse(number::LONG, 0));
    }
    if opens(sheet) {
        return pass(sheet, hash);
    }
    bencode::check(sheet)?;
    Err(refuse(number::KIND, 0))
}

// Whether the text begins as a dictionary.
fn opens(sheet: &[u8]) -> bool
    ensures { (result ≡ true → (0 < length sheet.now) × (get_or sheet.now 0 0 ≡ 100)) × (result ≡ false → 0 < length sheet.now → get_or sheet.now 0 0 ≡ 100 → ⊥) }
{
    !sheet.is_empty() && sheet[0] == b'd'
}

// The rows of a text that begins as a dictionary.
fn pass(sheet: &[u8], hash: &[u8]) -> Result<Option<Part>, Refusal>
    ensures { length sheet.now ≤ most_text → 0 < length sheet.now → get_or sheet.now 0 0 ≡ 100 → listed_as result ≡ sheet_of hash.now sheet.now }
{
    let mut stage = Stage {
        at: 1,
        count: 1,
        before: None,
        row: Ok(None),
    };
    loop {
        let at = stage.at;
        if sheet.len() <= at {
            return Err(refuse(number::CUT, sheet.len()));
        }
        if sheet[at] == b'e' {
            let so_far = stage.row;
            return ended(sheet.len(), at + 1, so_far);
        }
        stage = advance(sheet, hash, stage)?;
    }
}

// What the rows come to, where the dictionary ends before `past`.
fn ended(
    end: usize,
    past: usize,
    row: Result<Option<Part>, Refusal>,
) -> Result<Option<Part>, Refusal>
    ensures { listed_as result ≡ ended_as end past (listed_as row) }
{
    if past < end {
        return Err(refuse(number::AFTER, past));
    }
    row
}

// One row.
fn advance(sheet: &[u8], hash: &[u8], stage: Stage) -> Result<Stage, Refusal>
    requires { stage.at < length sheet.now }
    ensures { Turned sheet.now hash.now stage result }
{
    let before = stage.before;
    let k = key(sheet, stage.at, stage.count, before)?;
    entered(sheet, hash, stage, k)
}

// The row whose key is read: its value, and what the rows come to with it.
fn entered(sheet: &[u8], hash: &[u8], stage: Stage, k: Part) -> Result<Stage, Refusal>
    requires { (stage.at < length sheet.now) × (key_in sheet.now stage.count (Ok k) ≡ key_of (length sheet.now) (prev_in sheet.now stage.before) (drop stage.at sheet.now) stage.at stage.count) }
    ensures { Turned sheet.now hash.now stage result }
{
    let place = k.from + k.len;
    let count = stage.count + 1;
    let so_far = stage.row;
    match value_at(sheet, place, count)? {
        Held::String(v) => on(
            v.from + v.len,
            count + 1,
            k,
            with_address(sheet, hash, so_far, stage.at, k, v),
        ),
        Held::Other(next, more) => on(next, more, k, without(so_far, stage.at, k.len, place)),
    }
}

fn on(
    at: usize,
    count: usize,
    k: Part,
    row: Result<Option<Part>, Refusal>,
) -> Result<Stage, Refusal>
    ensures { result ≡ Ok (record { at = at; count = count; before = Some k; row = row }) }
{
    Ok(Stage {
        at,
        count,
        before: Some(k),
        row,
    })
}

// What the rows come to with one whose key k stands at `at` and whose address is v.
fn with_address(
    sheet: &[u8],
    hash: &[u8],
    so_far: Result<Option<Part>, Refusal>,
    at: usize,
    k: Part,
    v: Part,
) -> Result<Option<Part>, Refusal>
    ensures { listed_as result ≡ with_address hash.now at (bytes_at sheet.now k) k.len v (listed_as so_far) }
{
    match so_far? {
        Some(p) => if_twenty(k.len, at, Ok(Some(p))),
        None => if_twenty(k.len, at, sought(sheet, hash, k, v)),
    }
}

// The address v, where its key is the hash.
fn sought(sheet: &[u8], hash: &[u8], k: Part, v: Part) -> Result<Option<Part>, Refusal>
    ensures { listed_as result ≡ taken (under_key hash.now (bytes_at sheet.now k) v) }
{
    let own = bencode_walk::bytes(sheet, k);
    if check::same(own, hash) {
        return Ok(Some(v));
    }
    Ok(None)
}

// The row, where its key has 20 bytes; else 15 at the key.
fn if_twenty(
    len: usize,
    at: usize,
    row: Result<Option<Part>, Refusal>,
) -> Result<Option<Part>, Refusal>
    ensures { listed_as result ≡ cond (eqb len 20) (listed_as row) (refused peer at) }
{
    if len == 20 {
        return row;
    }
    Err(refuse(number::PEER, at))
}

// What the rows come to with one whose key, of `len` bytes, stands at `at`, and whose value, at `place`, is no string.
fn without(
    so_far: Result<Option<Part>, Refusal>,
    at: usize,
    len: usize,
    place: usize,
) -> Result<Option<Part>, Refusal>
    ensures { listed_as result ≡ without_address at len place (listed_as so_far) }
{
    so_far?;
    if_twenty(len, at, Err(refuse(number::KIND, place)))
}

// The key that begins at `at`, after `count` values, to come after the one before.
fn key(sheet: &[u8], at: usize, count: usize, before: Option<Part>) -> Result<Part, Refusal>
    requires { at < length sheet.now }
    ensures { key_in sheet.now count result ≡ key_of (length sheet.now) (prev_in sheet.now before) (drop at sheet.now) at count }
{
    if limit::VALUES <= count {
        if bencode_scalar::digit(sheet[at]) {
            return Err(refuse(number::MANY, at));
        }
        return Err(refuse(number::BYTE, at));
    }
    let k = bencode_scalar::string(sheet, at)?;
    if may_follow(sheet, before, k) {
        return Ok(k);
    }
    Err(refuse(number::ORDER, at))
}

// Whether a key may come after the one before, if there is one.
fn may_follow(sheet: &[u8], before: Option<Part>, k: Part) -> bool
    ensures { result ≡ follows (prev_in sheet.now before) (bytes_at sheet.now k) }
{
    match before {
        None => true,
        Some(p) => bencode_scalar::precedes(
            bencode_walk::bytes(sheet, p),
            bencode_walk::bytes(sheet, k),
        ),
    }
}

// The value at `at`, after `count` others.
fn value_at(sheet: &[u8], at: usize, count: usize) -> Result<Held, Refusal>
    requires { at ≤ length sheet.now }
    ensures { Reads sheet.now at count result }
{
    if digit_at(sheet, at) {
        return string(sheet, at, count);
    }
    let c = bencode::value(sheet, Cursor { at, count }, limit::LEVELS - 1)?;
    Ok(Held::Other(c.at, c.count))
}

// The string whose first digit stands at `at`.
fn string(sheet: &[u8], at: usize, count: usize) -> Result<Held, Refusal>
    requires { (at < length sheet.now) × (is_digit (get_or sheet.now at 0) ≡ true) }
    ensures { Reads sheet.now at count result }
{
    if limit::VALUES <= count {
        return Err(refuse(number::MANY, at));
    }
    Ok(Held::String(bencode_scalar::string(sheet, at)?))
}

// Whether a digit stands at `at`.
fn digit_at(sheet: &[u8], at: usize) -> bool
    ensures { (result ≡ true → (at < length sheet.now) × (is_digit (get_or sheet.now at 0) ≡ true)) × (result ≡ false → at < length sheet.now → is_digit (get_or sheet.now at 0) ≡ false) }
{
    if sheet.len() <= at {
        return false;
    }
    bencode_scalar::digit(sheet[at])
}
