// Records, read: the record that bytes begin with, or why it is refused.
#![tactic(auto)]

ghost use Rattle.std.specs.Prelude.{◌≡◌, true, ◌+◌, ◌<◌, ◌≤◌, length};
ghost use Rattle.events.specs.Event.{count_most};
ghost use Rattle.bits.specs.Numbers.{within, le16, le32, words, word_or};
ghost use Rattle.cell_counts.specs.Scan.{padded};
ghost use Rattle.records.specs.FramingLaws.{payload_number};
ghost use Rattle.records.specs.Frame.{frame_of, header_of, size_of};
ghost use Rattle.records.specs.Record.{byte_in, switch, value_of, sense_in, ticks_in, soak_in, count_in, setup_in, bare_in, counted_in, groups_at, inputs_at, event_of, payload_of, read_of, number_of, counts_of, counts_in, taken_at};

use constants::kind::{self, Kind};
use constants::refusal::Refusal;
use constants::{number, range, size};
use events::{Beside, BusEvent, Counts, Event, setup_of};

// A record with the place after it, a refusal with the place after it, or a record that is cut short.
#[derive(Clone, Copy, Debug, PartialEq, Eq)]
pub enum Read {
    Record { event: Event, next: usize },
    Refused { why: Refusal, next: usize },
    Cut,
}

// The header of a record that is whole: its kind and the place after it.
#[derive(Clone, Copy, Debug, PartialEq, Eq)]
pub struct Header {
    pub kind: u16,
    pub next: usize,
}

// What was read, and the counts that stand beside it.
#[derive(Clone, Copy, Debug, PartialEq, Eq)]
pub struct Taken {
    pub read: Read,
    pub counts: Counts,
}

fn get16(b: &[u8], at: usize) -> u16
    requires { at + 2 ≤ length b.now }
    ensures { result ≡ le16 b.now at }
{
    u16::from_le_bytes([b[at], b[at + 1]])
}

fn get32(b: &[u8], at: usize) -> u32
    requires { at + 4 ≤ length b.now }
    ensures { result ≡ le32 b.now at }
{
    u32::from_le_bytes([b[at], b[at + 1], b[at + 2], b[at + 3]])
}

// A payload of one byte.
fn byte(b: &[u8]) -> Result<u8, Refusal>
    ensures { result ≡ byte_in b.now }
{
    match b {
        [x] => Ok(*x),
        _ => Err(Refusal::BadKind),
    }
}

// A payload of one byte that is 0 or 1.
fn switch(b: &[u8]) -> Result<bool, Refusal>
    ensures { result ≡ switch b.now }
{
    match byte(b)? {
        0 => Ok(false),
        1 => Ok(true),
        _ => Err(Refusal::BadValue),
    }
}

// A value of SENSE: a number of 32 bits with its sign, within 500,000 of 0.
fn value(u: u32) -> Result<i32, Refusal>
    ensures { result ≡ value_of u }
{
    let v = u.cast_signed();
    if (range::SENSE_LEAST..=range::SENSE_MOST).contains(&v) {
        Ok(v)
    } else {
        Err(Refusal::BadValue)
    }
}

// A payload of one value, where it is a SENSE's.
fn sense_in(b: &[u8]) -> Result<Event, Refusal>
    ensures { result ≡ sense_in b.now }
{
    match b {
        [k, l, m, n] => Ok(Event::Sense(value(u32::from_le_bytes([*k, *l, *m, *n]))?)),
        _ => Err(Refusal::BadKind),
    }
}

// TICKS: a value and how often it comes, 1 to 4,096 times.
#[tactic(auto, unfolding(events::specs::Event::ticks_fit))]
fn ticks_in(b: &[u8]) -> Result<Event, Refusal>
    ensures { result ≡ ticks_in b.now }
{
    if b.len() != size::TICKS_PAYLOAD {
        return Err(Refusal::BadKind);
    }
    let v = value(get32(b, 0))?;
    let n = get16(b, 4);
    if (1..=range::TICKS_MOST).contains(&u32::from(n)) {
        Ok(Event::Ticks(v, n))
    } else {
        Err(Refusal::BadValue)
    }
}

// SOAK: the same, 1 to 16,777,216 times.
#[tactic(auto, unfolding(events::specs::Event::ticks_fit))]
fn soak_in(b: &[u8]) -> Result<Event, Refusal>
    ensures { result ≡ soak_in b.now }
{
    if b.len() != size::SOAK_PAYLOAD {
        return Err(Refusal::BadKind);
    }
    let v = value(get32(b, 0))?;
    let n = get32(b, 4);
    if (1..=range::SOAK_MOST).contains(&n) {
        Ok(Event::Soak(v, n))
    } else {
        Err(Refusal::BadValue)
    }
}

// SETUP: part, CRC, address, gain code, offset and floor.
#[tactic(auto, unfolding(events::specs::Setup::checked_of))]
fn setup_in(b: &[u8]) -> Result<Event, Refusal>
    ensures { result ≡ setup_in b.now }
{
    match b {
        [part, crc, address, gain, offset, low, high] => {
            let floor = u16::from_le_bytes([*low, *high]);
            Ok(Event::Setup(setup_of(*part, *crc, *address, *gain, *offset, floor)?))
        }
        _ => Err(Refusal::BadKind),
    }
}

// An event with no payload.
fn bare_in(event: Event, b: &[u8]) -> Result<Event, Refusal>
    ensures { result ≡ bare_in event b.now }
{
    if b.is_empty() {
        Ok(event)
    } else {
        Err(Refusal::BadKind)
    }
}

// Whether each of a payload's numbers is a count.
fn all_counts(b: &[u8]) -> bool
    ensures { result ≡ within count_most (words b.now) }
{
    for i in 0..b.len() / 2 {
        if range::COUNT_MOST < get16(b, 2 * i) {
            return false;
        }
    }
    true
}

// An event with as many counts as are wanted beside it.
fn counted_in(event: Event, wanted: u8, b: &[u8]) -> Result<Event, Refusal>
    ensures { result ≡ counted_in event wanted b.now }
{
    if b.len() != 2 * usize::from(wanted) {
        return Err(Refusal::BadKind);
    }
    if all_counts(b) {
        Ok(event)
    } else {
        Err(Refusal::BadValue)
    }
}

fn count_in(b: &[u8]) -> Result<Event, Refusal>
    ensures { result ≡ count_in b.now }
{
    match b {
        [low, high] => Ok(Event::Count(u16::from_le_bytes([*low, *high]))),
        _ => Err(Refusal::BadKind),
    }
}

// How many groups of five inputs a part has: at most three.
#[tactic(auto, unfolding(events::specs::Setup::groups))]
pub fn groups_at(part: u8) -> u8
    ensures { result ≡ groups_at part }
{
    part.min(range::PART_MOST)
}

#[tactic(auto, unfolding(events::specs::Setup::inputs, events::specs::Setup::groups))]
pub fn inputs_at(part: u8) -> u8
    ensures { result ≡ inputs_at part }
{
    range::GROUP_INPUTS * groups_at(part)
}

// The payload of a kind once a part stands.
fn event_of(kind: Kind, part: u8, b: &[u8]) -> Result<Event, Refusal>
    ensures { result ≡ event_of kind part b.now }
{
    match kind {
        Kind::Por => bare_in(Event::Por, b),
        Kind::Boot => bare_in(Event::Boot, b),
        Kind::Scan => counted_in(Event::Scan, inputs_at(part), b),
        Kind::Temp => counted_in(Event::Temp, groups_at(part), b),
        Kind::Count => count_in(b),
        Kind::Sense => sense_in(b),
        Kind::Pin => bare_in(Event::Pin, b),
        Kind::Load => Ok(Event::Load(switch(b)?)),
        Kind::Xready => bare_in(Event::Xready, b),
        Kind::Start => bare_in(Event::OnBus(BusEvent::Start), b),
        Kind::Out => Ok(Event::OnBus(BusEvent::Out(byte(b)?))),
        Kind::In => Ok(Event::OnBus(BusEvent::In(switch(b)?))),
        Kind::Stop => bare_in(Event::OnBus(BusEvent::Stop), b),
        Kind::Level => Ok(Event::Level(switch(b)?)),
        Kind::Ticks => ticks_in(b),
        Kind::Soak => soak_in(b),
        // Any number of cells: who takes the record judges it.
        Kind::Wiring => Ok(Event::Wires(byte(b)?)),
        Kind::Setup => Err(Refusal::BadKind),
    }
}

// The payload of a kind at a part, 0 where none stands yet.
#[tactic(auto, unfolding(crate::specs::Record::payload_of, crate::specs::Record::later_of))]
pub fn payload_of(kind: u16, part: u8, b: &[u8]) -> Result<Event, Refusal>
    ensures { result ≡ payload_of kind part b.now }
{
    if part != 0 {
        return event_of(Kind::try_from(kind)?, part, b);
    }
    if kind == kind::SETUP {
        setup_in(b)
    } else {
        Err(Refusal::BadKind)
    }
}

// The header that bytes begin with, where its record is whole.
#[tactic(auto, unfolding(crate::specs::Frame::header_of))]
pub fn header_of(rest: &[u8]) -> Option<Header>
    ensures { result ≡ header_of rest.now }
{
    if rest.len() < size::HEADER {
        return None;
    }
    let n = usize::from(get16(rest, 0));
    if rest.len() - size::HEADER < n {
        return None;
    }
    Some(Header {
        kind: get16(rest, 2),
        next: size::HEADER + n,
    })
}

// The record that the rest of a stream begins with, at the part that stands: 0 where none does yet.
pub fn read_rest(rest: &[u8], part: u8) -> Read
    ensures { result ≡ read_of part rest.now }
{
    let Some(Header { kind, next }) = header_of(rest) else {
        return Read::Cut;
    };
    match payload_of(kind, part, &rest[size::HEADER..next]) {
        Ok(event) => Read::Record { event, next },
        Err(why) => Read::Refused { why, next },
    }
}

// A number of 2 bytes, or 0 past the end.
#[tactic(auto, unfolding(bits::specs::Numbers::word_or))]
fn word(b: &[u8], i: usize) -> u16
    requires { i < 16 }
    ensures { result ≡ word_or b.now i }
{
    let at = 2 * i;
    if at + 2 <= b.len() { get16(b, at) } else { 0 }
}

fn fifteen(b: &[u8]) -> [u16; 15]
    ensures { result ≡ padded 15 (words b.now) }
{
    [
        word(b, 0),
        word(b, 1),
        word(b, 2),
        word(b, 3),
        word(b, 4),
        word(b, 5),
        word(b, 6),
        word(b, 7),
        word(b, 8),
        word(b, 9),
        word(b, 10),
        word(b, 11),
        word(b, 12),
        word(b, 13),
        word(b, 14),
    ]
}

#[tactic(auto, unfolding(crate::specs::Record::counts_of))]
fn counts_of(b: &[u8]) -> Counts
    ensures { result ≡ counts_of b.now }
{
    let many = if b.len() < size::PAYLOAD_MOST {
        (b.len() / 2) as u8
    } else {
        range::INPUTS_MOST
    };
    Counts {
        many,
        of: fifteen(b),
    }
}

// The counts beside an event that was read, from its payload. SCAN and TEMP alone have any.
#[tactic(auto, using(crate::proofs::NoCounts::none_made), unfolding(crate::specs::Record::counts_in))]
pub fn counts_in(event: Event, payload: &[u8]) -> Counts
    ensures { result ≡ counts_in event payload.now }
{
    match events::beside_of(event) {
        Beside::Inputs | Beside::Groups => counts_of(payload),
        Beside::Nothing => Counts::default(),
    }
}

// The record at any place of lent bytes, with the counts beside it.
pub fn take_record(s: &[u8], at: usize, part: u8) -> Taken
    ensures { result ≡ taken_at part s.now at }
{
    let counts = Counts::default();
    if s.len() < at {
        return Taken {
            read: Read::Cut,
            counts,
        };
    }
    let rest = &s[at..];
    match read_rest(rest, part) {
        Read::Record { event, next } => Taken {
            read: Read::Record {
                event,
                next: at + next,
            },
            counts: counts_in(event, &rest[size::HEADER..next]),
        },
        Read::Refused { why, next } => Taken {
            read: Read::Refused {
                why,
                next: at + next,
            },
            counts,
        },
        Read::Cut => Taken {
            read: Read::Cut,
            counts,
        },
    }
}

// The SETUP that a stream begins with, or why it begins with none.
fn first(s: &[u8]) -> Result<Event, Refusal>
    ensures { payload_number result ≡ number_of (read_of 0 s.now) }
{
    let Some(Header { kind, next }) = header_of(s) else {
        return Err(Refusal::CutShort);
    };
    if kind != kind::SETUP {
        return Err(Refusal::BadKind);
    }
    setup_in(&s[size::HEADER..next])
}

// The number of the record that a stream begins with: 0 for a good SETUP.
pub fn first_number(s: &[u8]) -> u8
    ensures { result ≡ number_of (read_of 0 s.now) }
{
    match first(s) {
        Ok(_) => number::DONE,
        Err(why) => why.number(),
    }
}

// How long the record is that bytes begin with, where it is whole.
#[tactic(auto, unfolding(crate::specs::Frame::frame_of, crate::specs::Frame::header_of))]
pub fn frame(rest: &[u8]) -> Option<usize>
    ensures { result ≡ size_of (frame_of rest.now) }
{
    Some(header_of(rest)?.next)
}
