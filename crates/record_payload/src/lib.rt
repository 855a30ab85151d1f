// What values mean, kind by kind.
#![tactic(auto)]

ghost use Rattle.std.specs.Prelude.{◌≡◌, cond, eqb, leb, map, Ok, Err, length};
ghost use Rattle.bits.specs.Numbers.{within};
ghost use Rattle.constants.specs.declared.refusal.Refusal.TheVariants.{BadKind, BadValue};
ghost use Rattle.events.specs.Event.{count_most, sense_fits, ticks_most, soak_most};
ghost use Rattle.records.specs.Record.{load_of, level_of, in_of, ticks_of, soak_of};
ghost use Rattle.record_numbers.specs.Values.{nat_of, nat_at};
ghost use Rattle.record_payload.specs.Values.{setup_by, bare_by, counted_by, one_count_by, out_by, switch_by, sense_by, repeat_by, wires_by};

use constants::range;
use constants::refusal::Refusal;
use events::{BusEvent, Event};
use record_numbers::{BYTE_MOST, byte_of, natural, word_of};

// The ranges of records, in the width that C hands over.
const COUNT_MOST: u64 = range::COUNT_MOST as u64;

const SENSE_LEAST: i64 = range::SENSE_LEAST as i64;

const SENSE_MOST: i64 = range::SENSE_MOST as i64;

const TICKS_MOST: u64 = range::TICKS_MOST as u64;

const SOAK_MOST: u64 = range::SOAK_MOST as u64;

// One value that a byte holds; another is refused as it is told.
fn byte(values: &[i64], why: Refusal) -> Result<u8, Refusal>
    ensures { result ≡ cond (eqb (length values.now) 1) (cond (leb (nat_at values.now 0) 255) (Ok (nat_at values.now 0)) (Err why)) (Err BadKind) }
{
    match values {
        [v] => u8::try_from(natural(*v)).map_err(|_| why),
        _ => Err(Refusal::BadKind),
    }
}

// One value that two bytes hold.
fn word(values: &[i64]) -> Result<u16, Refusal>
    ensures { result ≡ cond (eqb (length values.now) 1) (cond (leb (nat_at values.now 0) 65535) (Ok (nat_at values.now 0)) (Err BadValue)) (Err BadKind) }
{
    match values {
        [v] => u16::try_from(natural(*v)).map_err(|_| Refusal::BadValue),
        _ => Err(Refusal::BadKind),
    }
}

// One value that is 0 or 1.
fn switch(values: &[i64]) -> Result<bool, Refusal>
    ensures { result ≡ cond (eqb (length values.now) 1) (cond (leb (nat_at values.now 0) 1) (Ok (eqb (nat_at values.now 0) 1)) (Err BadValue)) (Err BadKind) }
{
    match byte(values, Refusal::BadValue)? {
        0 => Ok(false),
        1 => Ok(true),
        _ => Err(Refusal::BadValue),
    }
}

// A value of SENSE.
fn value(v: i64) -> Result<i32, Refusal>
    ensures { result ≡ cond (sense_fits v) (Ok v) (Err BadValue) }
{
    if (SENSE_LEAST..=SENSE_MOST).contains(&v) {
        Ok(v as i32)
    } else {
        Err(Refusal::BadValue)
    }
}

// SETUP's values: part, CRC, address, gain code, offset and floor.
#[tactic(auto, unfolding(events::specs::Setup::checked_of))]
pub fn setup_by(values: &[i64]) -> Result<Event, Refusal>
    ensures { result ≡ setup_by values.now }
{
    match values {
        [part, crc, address, gain, offset, floor] => {
            if BYTE_MOST < natural(*offset) {
                return Err(Refusal::BadSetup);
            }
            let setup = events::setup_of(
                byte_of(natural(*part)),
                byte_of(natural(*crc)),
                byte_of(natural(*address)),
                byte_of(natural(*gain)),
                byte_of(natural(*offset)),
                word_of(natural(*floor)),
            )?;
            Ok(Event::Setup(setup))
        }
        _ => Err(Refusal::BadKind),
    }
}

// An event with no values.
pub fn bare_by(event: Event, values: &[i64]) -> Result<Event, Refusal>
    ensures { result ≡ bare_by event values.now }
{
    if values.is_empty() {
        Ok(event)
    } else {
        Err(Refusal::BadKind)
    }
}

// Whether each value is a count.
fn all_counts(values: &[i64]) -> bool
    ensures { result ≡ within count_most (map nat_of values.now) }
{
    for v in values {
        if COUNT_MOST < natural(*v) {
            return false;
        }
    }
    true
}

// An event with as many counts as are wanted.
pub fn counted_by(event: Event, wanted: u8, values: &[i64]) -> Result<Event, Refusal>
    ensures { result ≡ counted_by event wanted values.now }
{
    if values.len() != usize::from(wanted) {
        return Err(Refusal::BadKind);
    }
    if all_counts(values) {
        Ok(event)
    } else {
        Err(Refusal::BadValue)
    }
}

pub fn count_by(values: &[i64]) -> Result<Event, Refusal>
    ensures { result ≡ one_count_by values.now }
{
    Ok(Event::Count(word(values)?))
}

pub fn out_by(values: &[i64]) -> Result<Event, Refusal>
    ensures { result ≡ out_by values.now }
{
    Ok(Event::OnBus(BusEvent::Out(byte(values, Refusal::BadValue)?)))
}

pub fn load_by(values: &[i64]) -> Result<Event, Refusal>
    ensures { result ≡ switch_by load_of values.now }
{
    Ok(Event::Load(switch(values)?))
}

pub fn level_by(values: &[i64]) -> Result<Event, Refusal>
    ensures { result ≡ switch_by level_of values.now }
{
    Ok(Event::Level(switch(values)?))
}

pub fn in_by(values: &[i64]) -> Result<Event, Refusal>
    ensures { result ≡ switch_by in_of values.now }
{
    Ok(Event::OnBus(BusEvent::In(switch(values)?)))
}

pub fn sense_by(values: &[i64]) -> Result<Event, Refusal>
    ensures { result ≡ sense_by values.now }
{
    match values {
        [v] => Ok(Event::Sense(value(*v)?)),
        _ => Err(Refusal::BadKind),
    }
}

#[tactic(auto, unfolding(events::specs::Event::ticks_fit))]
pub fn ticks_by(values: &[i64]) -> Result<Event, Refusal>
    ensures { result ≡ repeat_by ticks_of ticks_most values.now }
{
    match values {
        [v, times] => {
            let v = value(*v)?;
            let n = natural(*times);
            if (1..=TICKS_MOST).contains(&n) {
                Ok(Event::Ticks(v, n as u16))
            } else {
                Err(Refusal::BadValue)
            }
        }
        _ => Err(Refusal::BadKind),
    }
}

#[tactic(auto, unfolding(events::specs::Event::ticks_fit))]
pub fn soak_by(values: &[i64]) -> Result<Event, Refusal>
    ensures { result ≡ repeat_by soak_of soak_most values.now }
{
    match values {
        [v, times] => {
            let v = value(*v)?;
            let n = natural(*times);
            if (1..=SOAK_MOST).contains(&n) {
                Ok(Event::Soak(v, n as u32))
            } else {
                Err(Refusal::BadValue)
            }
        }
        _ => Err(Refusal::BadKind),
    }
}

pub fn wires_by(values: &[i64]) -> Result<Event, Refusal>
    ensures { result ≡ wires_by values.now }
{
    Ok(Event::Wires(byte(values, Refusal::NoRow)?))
}
