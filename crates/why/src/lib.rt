// CHIP P17 and P18: since when and why a bit of SYS_STAT is up, since when a drive is off and what holds it, for C.
#![tactic(auto)]

ghost use Rattle.std.specs.Prelude.{◌≡◌, ◌<◌, ◌≤◌, ◌^◌, length};
ghost use Rattle.why.specs.Rise.{is_such, rose_on, searched_on, risen, searched, Few};
ghost use Rattle.why.specs.Why.{least_of, why_of, answered, Explained};
ghost use Rattle.why.specs.Off.{Held};

use constants::refusal::Refusal;
use why_rows::Why;
use why_walk::Standing;

// The record at which what is asked about came to be so, the last time; where the stream stood before it, and where it stands.
#[derive(Clone, Copy)]
pub struct Rose {
    pub rose: u64,
    pub stood: Standing,
    pub last: Standing,
}

// The last record before which the streak was no longer than some, and where the stream stands.
#[derive(Clone, Copy)]
pub struct Found {
    pub first: u64,
    pub place: Standing,
}

// Streams that are longer are refused by `toralinge_why`: its streaks are counted in 64 bits.
const STREAM_MOST: usize = 4294967295;

// No record, in a row for C too.
const NEVER: u64 = u64::MAX;

// Whether a bit of SYS_STAT is up; of no bit, whether a drive is off.
fn is_such(at: Standing, bit: u8, drive: u8) -> bool
    ensures { result ≡ is_such bit drive at }
{
    if bit == 0 {
        !bits::bit(at.pins, drive)
    } else {
        bits::bit(at.stat, bit)
    }
}

// One record more.
#[tactic(auto, unfolding(crate::specs::Rise::rose_on))]
fn rose_on(from: Rose, n: u64, next: Standing, bit: u8, drive: u8) -> Rose
    ensures { result ≡ rose_on bit drive n next from }
{
    if is_such(next, bit, drive) && !is_such(from.last, bit, drive) {
        Rose {
            rose: n,
            stood: from.last,
            last: next,
        }
    } else {
        Rose { last: next, ..from }
    }
}

// One record more.
#[tactic(auto, unfolding(crate::specs::Rise::searched_on))]
fn searched_on(from: Found, n: u64, next: Standing, least: u64) -> Found
    ensures { result ≡ searched_on least n next from }
{
    Found {
        first: if from.place.streak <= least {
            n
        } else {
            from.first
        },
        place: next,
    }
}

// Over the first `many` records.
fn rise(s: &[u8], many: u64, bit: u8, drive: u8) -> Rose
    requires { Few s.now bit }
    ensures { result ≡ risen s.now bit drive many }
{
    let begun = why_walk::begun();
    let mut found = Rose {
        rose: NEVER,
        stood: begun,
        last: begun,
    };
    for n in 0..many {
        let next = why_walk::advance(s, found.last, bit);
        found = rose_on(found, n, next, bit, drive);
    }
    found
}

// Over the first `many` records.
fn search(s: &[u8], many: u64, bit: u8, least: u64) -> Found
    requires { Few s.now bit }
    ensures { result ≡ searched s.now bit least many }
{
    let mut found = Found {
        first: 0,
        place: why_walk::begun(),
    };
    for n in 0..many {
        let next = why_walk::advance(s, found.place, bit);
        found = searched_on(found, n, next, least);
    }
    found
}

// How long the streak was before the first of the newest `need` verdicts, the next one among them.
fn least_of(streak: u64, need: u16) -> u64
    requires { streak < 2 ^ 63 }
    ensures { result ≡ least_of streak need }
{
    (streak + 1).saturating_sub(u64::from(need))
}

// Why a bit rose that rose at a record.
fn why_of(s: &[u8], bit: u8, found: Rose) -> Why
    requires { (Few s.now bit) × (found.stood.at ≤ length s.now) × (found.stood.streak < 2 ^ 63) × (found.rose < 18446744073709551615) }
    ensures { result ≡ why_of s.now bit found }
{
    let said = why_walk::said_by(found.stood.chip, &s[found.stood.at..], bit);
    let cause = causes::cause_of(bit, said.pin).number();
    let Some(fault) = causes::fault_of(bit) else {
        return Why {
            rose: found.rose,
            first: found.rose,
            cause,
            many: 0,
            limit: 0,
            input: 0,
            value: 0,
        };
    };
    let rule = limits::rule_of(found.stood.chip.registers.settings, fault);
    let least = least_of(found.stood.streak, rule.need);
    let place = search(s, found.rose + 1, bit, least);
    Why {
        rose: found.rose,
        first: place.first,
        cause,
        many: u32::from(rule.need),
        limit: rule.limit,
        input: said.input,
        value: said.value,
    }
}

// What a call for C answers: 0, or minus the number of the refusal.
fn answer_of(said: Result<(), Refusal>) -> i64
    ensures { result ≡ answered said }
{
    match said {
        Ok(()) => 0,
        Err(why) => -i64::from(why.number()),
    }
}

// The row of a bit, put where it fits.
fn explain(bytes: &[u8], number: u64, bit: u32, row: &mut [u8]) -> Result<(), Refusal>
    ensures { Explained bytes.now number bit row.old (answered result) row.new }
{
    if STREAM_MOST < bytes.len() {
        return Err(Refusal::TooLong);
    }
    if turn::frames::count(bytes) as u64 <= number {
        return Err(Refusal::NoRecord);
    }
    let Some(weight) = causes::known_bit(bit) else {
        return Err(Refusal::NotSo);
    };
    let found = rise(bytes, number + 1, weight, 0);
    if !bits::bit(found.last.stat, weight) {
        return Err(Refusal::NotSo);
    }
    let Some(out) = row.first_chunk_mut() else {
        return Err(Refusal::NoRoom);
    };
    *out = why_rows::why_row(why_of(bytes, weight, found));
    Ok(())
}

// The row of a drive, put where it fits.
fn hold(bytes: &[u8], number: u64, drive: u32, row: &mut [u8]) -> Result<(), Refusal>
    ensures { Held bytes.now number drive row.old (answered result) row.new }
{
    if turn::frames::count(bytes) as u64 <= number {
        return Err(Refusal::NoRecord);
    }
    let Some(pin) = causes::drive_of(drive) else {
        return Err(Refusal::NotSo);
    };
    let found = rise(bytes, number + 1, 0, pin);
    if bits::bit(found.last.pins, pin) {
        return Err(Refusal::NotSo);
    }
    let Some(out) = row.first_chunk_mut() else {
        return Err(Refusal::NoRoom);
    };
    *out = why_rows::off_row(found.rose, causes::held_by(found.last.stat, pin));
    Ok(())
}

// Since when and why a bit of SYS_STAT is up that is up after a record. Answers 0, or with nothing written -24 for more than 4,294,967,295 bytes, -27 no such
// record, -28 the bit is not up, -5 for room below 36.
#[unsafe(no_mangle)]
pub extern "C" fn toralinge_why(bytes: &[u8], number: u64, bit: u32, row: &mut [u8]) -> i64
    ensures { Explained bytes.now number bit row.old result row.new }
{
    answer_of(explain(bytes, number, bit, row))
}

// Since when a drive is off that is off after a record, and which bits of SYS_STAT hold it. Answers 0, or with nothing written -27 no such record, -28 the drive is
// on or there is no such drive, -5 for room below 12.
#[unsafe(no_mangle)]
pub extern "C" fn toralinge_off(bytes: &[u8], number: u64, drive: u32, row: &mut [u8]) -> i64
    ensures { Held bytes.now number drive row.old result row.new }
{
    answer_of(hold(bytes, number, drive, row))
}
