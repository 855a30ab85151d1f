// One record fed to a kept chip.
ghost use Rattle.std.specs.Prelude.{◌≡◌, ◌≤◌, length};
ghost use Rattle.std.proofs.lemmas.List.Edits.{sets};
ghost use Rattle.constants.specs.Size.{ENTRY};
ghost use Rattle.feed.specs.Alone.{outcome_bytes, BareBy, CountedBy, RecordBy, Signal, AloneBy};

use chip_bytes_layout::{Outcome, place};
use constants::refusal::Refusal;
use constants::{kind, number, size, weight};
use events::Event;
use registers::Shown;

// The bytes of an entry.
const NUMBER: usize = 0;

const FLAG: usize = 1;

const BYTE: usize = 2;

const STAT: usize = 3;

const PINS: usize = 4;

// The entry of a record that is done.
fn put_entry(entries: &mut [u8], outcome: Outcome)
    requires { ENTRY ≤ length entries.old }
    ensures { entries.new ≡ sets entries.old 0 (outcome_bytes outcome) }
{
    let Shown {
        status,
        chg_on,
        dsg_on,
        ..
    } = outcome.shown;
    entries[NUMBER] = number::DONE;
    entries[FLAG] = u8::from(chip::flag(Ok(outcome.byte)));
    entries[BYTE] = chip::byte(Ok(outcome.byte));
    entries[STAT] = status.byte();
    entries[PINS] = bits::weigh(status.alert(), weight::PIN_ALERT)
        + bits::weigh(chg_on, weight::PIN_CHG)
        + bits::weigh(dsg_on, weight::PIN_DSG);
}

// A tick.
fn tick_by(chip: &mut [u8], payload: Result<Event, Refusal>) -> Option<Outcome>
    ensures { BareBy chip.old payload result chip.new }
{
    let Ok(Event::Sense(value)) = payload else {
        return None;
    };
    chip_bytes_done::tick::ticked(chip, value)
}

// A scan, whose counts are the payload.
fn scan_by(chip: &mut [u8], payload: Result<Event, Refusal>, b: &[u8]) -> Option<Outcome>
    ensures { CountedBy chip.old payload b.now result chip.new }
{
    let Ok(Event::Scan) = payload else {
        return None;
    };
    let counts = records::counts_in(Event::Scan, b);
    chip_bytes_done::scan::scanned(chip, counts.of)
}

// TEMP, whose counts are the payload.
fn temp_by(chip: &mut [u8], payload: Result<Event, Refusal>, b: &[u8]) -> Option<Outcome>
    ensures { CountedBy chip.old payload b.now result chip.new }
{
    let Ok(Event::Temp) = payload else {
        return None;
    };
    let counts = records::counts_in(Event::Temp, b);
    chip_bytes_done::seldom::warmed(chip, counts.of)
}

// TICKS.
fn ticks_by(chip: &mut [u8], payload: Result<Event, Refusal>) -> Option<Outcome>
    ensures { BareBy chip.old payload result chip.new }
{
    let Ok(Event::Ticks(value, repeat)) = payload else {
        return None;
    };
    chip_bytes_done::tick::repeated(chip, value, u32::from(repeat))
}

// SOAK.
fn soak_by(chip: &mut [u8], payload: Result<Event, Refusal>) -> Option<Outcome>
    ensures { BareBy chip.old payload result chip.new }
{
    let Ok(Event::Soak(value, repeat)) = payload else {
        return None;
    };
    chip_bytes_done::tick::repeated(chip, value, repeat)
}

// START, OUT, IN and STOP.
fn bus_by(chip: &mut [u8], payload: Result<Event, Refusal>) -> Option<Outcome>
    ensures { BareBy chip.old payload result chip.new }
{
    let Ok(Event::OnBus(signal)) = payload else {
        return None;
    };
    chip_bytes_bus::heard(chip, signal)
}

// BOOT, COUNT, PIN, LOAD, XREADY and the outside level.
fn seldom_by(chip: &mut [u8], payload: Result<Event, Refusal>) -> Option<Outcome>
    ensures { BareBy chip.old payload result chip.new }
{
    let Ok(event) = payload else {
        return None;
    };
    chip_bytes_done::seldom::happened(chip, event)
}

// The payload of a kind of the bus; each kind by itself, so that the compiler keeps of the reader only what it needs.
fn signal_of(kind: u16, part: u8, b: &[u8]) -> Result<Event, Refusal>
    ensures { Signal kind part b.now result }
{
    match kind {
        kind::START => records::payload_of(kind::START, part, b),
        kind::OUT => records::payload_of(kind::OUT, part, b),
        kind::IN => records::payload_of(kind::IN, part, b),
        kind::STOP => records::payload_of(kind::STOP, part, b),
        _ => Err(Refusal::BadKind),
    }
}

// The same of a kind that is seldom met.
fn seldom_of(kind: u16, part: u8, b: &[u8]) -> Result<Event, Refusal>
    ensures { Signal kind part b.now result }
{
    match kind {
        kind::BOOT => records::payload_of(kind::BOOT, part, b),
        kind::COUNT => records::payload_of(kind::COUNT, part, b),
        kind::PIN => records::payload_of(kind::PIN, part, b),
        kind::LOAD => records::payload_of(kind::LOAD, part, b),
        kind::XREADY => records::payload_of(kind::XREADY, part, b),
        kind::LEVEL => records::payload_of(kind::LEVEL, part, b),
        _ => Err(Refusal::BadKind),
    }
}

// A record by its kind and payload.
fn done_by(chip: &mut [u8], part: u8, kind: u16, b: &[u8]) -> Option<Outcome>
    ensures { RecordBy chip.old part kind b.now result chip.new }
{
    match kind {
        kind::SENSE => tick_by(chip, records::payload_of(kind::SENSE, part, b)),
        kind::SCAN => scan_by(chip, records::payload_of(kind::SCAN, part, b), b),
        kind::START | kind::OUT | kind::IN | kind::STOP => bus_by(chip, signal_of(kind, part, b)),
        kind::TEMP => temp_by(chip, records::payload_of(kind::TEMP, part, b), b),
        kind::TICKS => ticks_by(chip, records::payload_of(kind::TICKS, part, b)),
        kind::SOAK => soak_by(chip, records::payload_of(kind::SOAK, part, b)),
        _ => seldom_by(chip, seldom_of(kind, part, b)),
    }
}

// Does records that are one scan, one tick, ticks of one value, one event of the bus that does not ship, or one of those that are seldom met, on a chip in
// NORMAL; else it changes nothing.
pub fn done(chip: &mut [u8], records: &[u8], entries: &mut [u8]) -> bool
    ensures { AloneBy chip.old records.now entries.old result chip.new entries.new }
{
    if chip.len() < size::KEPT_CHIP || entries.len() < size::ENTRY {
        return false;
    }
    let Some(header) = records::header_of(records) else {
        return false;
    };
    if header.next != records.len() {
        return false;
    }
    let part = chip[place::PART];
    let Some(outcome) = done_by(chip, part, header.kind, &records[size::HEADER..header.next]) else {
        return false;
    };
    put_entry(entries, outcome);
    true
}
