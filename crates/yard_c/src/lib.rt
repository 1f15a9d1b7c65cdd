// The yard's calls of `yard`, exported to C: each export has the words of the library's function, and calls it.
#![tactic(auto)]

ghost use Rattle.std.specs.Prelude.{◌≡◌, length};
ghost use Rattle.std.proofs.lemmas.List.Edits.{sets};
ghost use Rattle.yard_tables.specs.Tables.{yard_of};
ghost use Rattle.yard_tables.specs.Step.{Call, step, written};
ghost use Rattle.yard_telling.specs.Telling.{Steps, Tells, Looks, Shows};

use yard_tables::{Head, Seat};
use yard_telling::Told;

// A yard of so many pieces starts.
#[unsafe(no_mangle)]
pub extern "C" fn wardrail_yard_start(
    head: &mut Head,
    seats: &mut [Seat],
    rows: &mut [u8],
    holders: &mut [u16],
    pieces: u32,
    piece_length: u32,
    last_length: u32,
) -> u64
    ensures { Steps (step (Call.start pieces piece_length last_length) (yard_of head.old seats.old rows.old holders.old))
        result (yard_of head.new seats.new rows.new holders.new) }
{
    yard::wardrail_yard_start(
        head,
        seats,
        rows,
        holders,
        pieces,
        piece_length,
        last_length,
    )
}

// A truck sits down: `value` becomes its seat.
#[unsafe(no_mangle)]
pub extern "C" fn wardrail_yard_sit(
    head: &mut Head,
    seats: &mut [Seat],
    rows: &mut [u8],
    holders: &[u16],
    told: &mut Told,
) -> u64
    ensures { Tells (step Call.sit (yard_of head.old seats.old rows.old holders.now))
        told.old result told.new (yard_of head.new seats.new rows.new holders.now) }
{
    yard::wardrail_yard_sit(head, seats, rows, holders, told)
}

// The truck of a seat leaves.
#[unsafe(no_mangle)]
pub extern "C" fn wardrail_yard_leave(
    head: &mut Head,
    seats: &mut [Seat],
    rows: &mut [u8],
    holders: &mut [u16],
    seat: usize,
) -> u64
    ensures { Steps (step (Call.leave seat) (yard_of head.old seats.old rows.old holders.old))
        result (yard_of head.new seats.new rows.new holders.new) }
{
    yard::wardrail_yard_leave(head, seats, rows, holders, seat)
}

// Bytes came in from the truck of a seat: `value` becomes how many the first frame used, and `request` what becomes of one.
#[unsafe(no_mangle)]
pub extern "C" fn wardrail_yard_feed(
    head: &mut Head,
    seats: &mut [Seat],
    rows: &mut [u8],
    holders: &mut [u16],
    seat: usize,
    bytes: &[u8],
    told: &mut Told,
) -> u64
    ensures { Tells (step (Call.feed seat bytes.now) (yard_of head.old seats.old rows.old holders.old))
        told.old result told.new (yard_of head.new seats.new rows.new holders.new) }
{
    yard::wardrail_yard_feed(head, seats, rows, holders, seat, bytes, told)
}

// We choke the truck of a seat, or no longer: the frame's 5 bytes are written.
#[unsafe(no_mangle)]
pub extern "C" fn wardrail_yard_choke(
    head: &mut Head,
    seats: &mut [Seat],
    rows: &[u8],
    holders: &[u16],
    seat: usize,
    on: bool,
    frame: &mut [u8],
) -> u64
    ensures { (Steps (step (Call.choke seat on (length frame.old)) (yard_of head.old seats.old rows.now holders.now))
        result (yard_of head.new seats.new rows.now holders.now))
        × (frame.new ≡ sets frame.old 0 (written (Call.choke seat on (length frame.old))
        (yard_of head.old seats.old rows.now holders.now))) }
{
    yard::wardrail_yard_choke(head, seats, rows, holders, seat, on, frame)
}

// We are interested in what the truck of a seat has, or no longer: the frame's 5 bytes are written.
#[unsafe(no_mangle)]
pub extern "C" fn wardrail_yard_interest(
    head: &mut Head,
    seats: &mut [Seat],
    rows: &[u8],
    holders: &[u16],
    seat: usize,
    on: bool,
    frame: &mut [u8],
) -> u64
    ensures { (Steps (step (Call.interest seat on (length frame.old)) (yard_of head.old seats.old rows.now holders.now))
        result (yard_of head.new seats.new rows.now holders.now))
        × (frame.new ≡ sets frame.old 0 (written (Call.interest seat on (length frame.old))
        (yard_of head.old seats.old rows.now holders.now))) }
{
    yard::wardrail_yard_interest(head, seats, rows, holders, seat, on, frame)
}

// A page of the missing list: `value` becomes how many lines were written, `total` and `next` as the page says.
#[unsafe(no_mangle)]
pub extern "C" fn wardrail_yard_missing(
    head: &mut Head,
    seats: &[Seat],
    rows: &[u8],
    holders: &[u16],
    first: usize,
    page: &mut [u32],
    told: &mut Told,
) -> u64
    ensures { (Looks (step (Call.missing first (length page.old)) (yard_of head.old seats.now rows.now holders.now)).answer
        told.old result told.new)
        × (page.new ≡ sets page.old 0 (written (Call.missing first (length page.old))
        (yard_of head.old seats.now rows.now holders.now)))
        × (head.new ≡ head.old) }
{
    yard::wardrail_yard_missing(head, seats, rows, holders, first, page, told)
}

// The scarcest piece becomes `value`.
#[unsafe(no_mangle)]
pub extern "C" fn wardrail_yard_scarcest(
    head: &mut Head,
    seats: &[Seat],
    rows: &[u8],
    holders: &[u16],
    told: &mut Told,
) -> u64
    ensures { (Looks (step Call.scarcest (yard_of head.old seats.now rows.now holders.now)).answer
        told.old result told.new)
        × (head.new ≡ head.old) }
{
    yard::wardrail_yard_scarcest(head, seats, rows, holders, told)
}

// The record of a seat becomes `seen`.
#[unsafe(no_mangle)]
pub extern "C" fn wardrail_yard_look(
    head: &mut Head,
    seats: &[Seat],
    rows: &[u8],
    holders: &[u16],
    seat: usize,
    seen: &mut Seat,
) -> u64
    ensures { (Shows (step (Call.look seat) (yard_of head.old seats.now rows.now holders.now)).answer
        seen.old result seen.new)
        × (head.new ≡ head.old) }
{
    yard::wardrail_yard_look(head, seats, rows, holders, seat, seen)
}

// `value` becomes 1 where the truck of a seat has a piece, and else 0.
#[unsafe(no_mangle)]
pub extern "C" fn wardrail_yard_has(
    head: &mut Head,
    seats: &[Seat],
    rows: &[u8],
    holders: &[u16],
    seat: usize,
    piece: usize,
    told: &mut Told,
) -> u64
    ensures { (Looks (step (Call.has seat piece) (yard_of head.old seats.now rows.now holders.now)).answer
        told.old result told.new)
        × (head.new ≡ head.old) }
{
    yard::wardrail_yard_has(head, seats, rows, holders, seat, piece, told)
}

// How many trucks hold a piece becomes `value`.
#[unsafe(no_mangle)]
pub extern "C" fn wardrail_yard_count(
    head: &mut Head,
    seats: &[Seat],
    rows: &[u8],
    holders: &[u16],
    piece: usize,
    told: &mut Told,
) -> u64
    ensures { (Looks (step (Call.count piece) (yard_of head.old seats.now rows.now holders.now)).answer
        told.old result told.new)
        × (head.new ≡ head.old) }
{
    yard::wardrail_yard_count(head, seats, rows, holders, piece, told)
}

// A round: who is unchoked until the next one. `value` becomes how many trucks are.
#[unsafe(no_mangle)]
pub extern "C" fn wardrail_yard_round(
    head: &mut Head,
    seats: &mut [Seat],
    rows: &[u8],
    holders: &[u16],
    told: &mut Told,
) -> u64
    ensures { Tells (step Call.round (yard_of head.old seats.old rows.now holders.now))
        told.old result told.new (yard_of head.new seats.new rows.now holders.now) }
{
    yard::wardrail_yard_round(head, seats, rows, holders, told)
}
