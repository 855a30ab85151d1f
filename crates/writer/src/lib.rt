// Records, written: an event's record at a part, or why it is refused.
#![tactic(auto)]

ghost use Rattle.std.specs.Prelude.{◌≡◌, ◌≤◌, ◌++◌, length, take};
ghost use Rattle.constants.specs.Kind.{code_of};
ghost use Rattle.events.specs.declared.Event.TheVariants.{Setup as SetupEvent, OnBus, Wires};
ghost use Rattle.bits.specs.Numbers.{bits32, bytes32, word_bytes};
ghost use Rattle.records.specs.Kind.{SOAK};
ghost use Rattle.records.specs.Record.{setup_good, no_counts};
ghost use Rattle.events.specs.Setup.{between, standing};
ghost use Rattle.ranges.specs.Refusal.{refused_number};
ghost use Rattle.writer.specs.Write.{record_of, record_for, refusal_for, setup_bytes, wrote, Writes, Puts};
ghost use Rattle.writer.specs.CheckedLaws.{refusal_at};

use bits::bytes::{put_bytes, put_words};
use constants::kind::Kind;
use constants::refusal::Refusal;
use constants::{number, range, size};
use events::{BusEvent, Counts, Event, Role, Setup};

// Whether there is such a part.
fn part_fits(part: u8) -> bool
    ensures { result ≡ between 1 3 part }
{
    (1..=range::PART_MOST).contains(&part)
}

// Whether a SETUP's values are in range.
#[tactic(auto, using(crate::proofs::Refusals::good_is))]
fn setup_good(v: Setup) -> bool
    ensures { result ≡ setup_good v }
{
    part_fits(v.part)
        && (range::ADDRESS_LEAST..=range::ADDRESS_MOST).contains(&v.address)
        && v.gain_code <= range::GAIN_CODE_MOST
        && v.floor <= range::FLOOR_MOST
        && v.cells == 0
}

// A record: its header, and its payload.
fn write_bytes(out: &mut [u8], kind: Kind, payload: &[u8]) -> Result<usize, Refusal>
    requires { length payload.now ≤ 30 }
    ensures { Writes (record_of (code_of kind) payload.now) out.old (wrote result) out.new }
{
    let n = payload.len();
    if out.len() < size::HEADER + n {
        return Err(Refusal::NoRoom);
    }
    put_words(out, 0, &[n as u16, kind.code()]);
    put_bytes(out, size::HEADER, payload);
    Ok(size::HEADER + n)
}

// SETUP's record.
fn write_setup(out: &mut [u8], v: Setup) -> Result<usize, Refusal>
    ensures { Writes (record_of 0 (setup_bytes v)) out.old (wrote result) out.new }
{
    let crc = u8::from(v.crc);
    let [low, high] = v.floor.to_le_bytes();
    let bytes = [v.part, crc, v.address, v.gain_code, v.offset, low, high];
    write_bytes(out, Kind::Setup, &bytes)
}

// The record of an event with counts.
fn write_counts(out: &mut [u8], kind: Kind, counts: Counts) -> Result<usize, Refusal>
    requires { counts.many ≤ 15 }
    ensures { Writes (record_of (code_of kind) (word_bytes (take counts.many counts.of))) out.old (wrote result) out.new }
{
    let n = usize::from(counts.many);
    let mut bytes = [0u8; size::PAYLOAD_MOST];
    put_words(&mut bytes, 0, &counts.of[..n]);
    write_bytes(out, kind, &bytes[..2 * n])
}

// SOAK's record.
#[tactic(auto, unfolding(bits::specs::Numbers::bits32))]
fn write_soak(out: &mut [u8], v: i32, n: u32) -> Result<usize, Refusal>
    ensures { Writes (record_of SOAK (bytes32 (bits32 v) ++ bytes32 n)) out.old (wrote result) out.new }
{
    let [a, b, c, d] = v.to_le_bytes();
    let [e, f, g, h] = n.to_le_bytes();
    write_bytes(out, Kind::Soak, &[a, b, c, d, e, f, g, h])
}

// A part alone, as a setup.
fn standing_at(part: u8) -> Setup
    ensures { result ≡ standing part }
{
    Setup {
        part,
        crc: false,
        address: 0,
        gain_code: 0,
        offset: 0,
        floor: 0,
        cells: 0,
    }
}

// SETUP's own part, its counts and its values, in this order.
#[tactic(auto, unfolding(crate::specs::Write::refusal_for, crate::specs::Write::value_refusal))]
fn setup_refusal(v: Setup, counts: Counts) -> Result<(), Refusal>
    ensures { refused_number result ≡ refusal_for (SetupEvent v) counts 0 }
{
    if !part_fits(v.part) {
        return Err(Refusal::BadSetup);
    }
    if !ranges::counts_fit(0, counts) {
        return Err(Refusal::BadKind);
    }
    if !setup_good(v) {
        return Err(Refusal::BadSetup);
    }
    Ok(())
}

// The part, the counts and the row of a wiring record, in this order.
#[tactic(auto, unfolding(crate::specs::Write::refusal_for, crate::specs::Write::value_refusal))]
fn wires_refusal(cells: u8, counts: Counts, part: u8) -> Result<(), Refusal>
    ensures { refused_number result ≡ refusal_for (Wires cells) counts part }
{
    if !part_fits(part) {
        return Err(Refusal::BadSetup);
    }
    if !ranges::counts_fit(0, counts) {
        return Err(Refusal::BadKind);
    }
    if !wiring::has_row(part, cells) {
        return Err(Refusal::NoRow);
    }
    Ok(())
}

// The part, and what another event is refused with where it stands.
#[tactic(auto, unfolding(crate::specs::CheckedLaws::refusal_at))]
fn refusal_at(event: Event, counts: Counts, part: u8) -> Result<(), Refusal>
    ensures { refused_number result ≡ refusal_at event counts part }
{
    if !part_fits(part) {
        return Err(Refusal::BadSetup);
    }
    ranges::refusal(standing_at(part), event, counts)
}

// Why an event is refused at a part, where it is.
fn refusal(event: Event, counts: Counts, part: u8) -> Result<(), Refusal>
    ensures { refused_number result ≡ refusal_for event counts part }
{
    match events::role_of(event) {
        Role::Makes(setup) => setup_refusal(setup, counts),
        Role::Rewires(cells) => wires_refusal(cells, counts, part),
        Role::Happens => refusal_at(event, counts, part),
    }
}

#[tactic(auto, unfolding(crate::specs::Write::record_for))]
fn put_bus(event: BusEvent, out: &mut [u8]) -> Result<usize, Refusal>
    ensures { Writes (record_for (OnBus event) no_counts) out.old (wrote result) out.new }
{
    match event {
        BusEvent::Start => write_bytes(out, Kind::Start, &[]),
        BusEvent::Out(b) => write_bytes(out, Kind::Out, &[b]),
        BusEvent::In(refused) => write_bytes(out, Kind::In, &[u8::from(refused)]),
        BusEvent::Stop => write_bytes(out, Kind::Stop, &[]),
    }
}

// An event's record, in full.
#[tactic(auto, unfolding(crate::specs::Write::record_for, bits::specs::Numbers::bits32))]
fn put_event(event: Event, counts: Counts, out: &mut [u8]) -> Result<usize, Refusal>
    requires { counts.many ≤ 15 }
    ensures { Writes (record_for event counts) out.old (wrote result) out.new }
{
    match event {
        Event::Setup(setup) => write_setup(out, setup),
        Event::Por => write_bytes(out, Kind::Por, &[]),
        Event::Boot => write_bytes(out, Kind::Boot, &[]),
        Event::Scan => write_counts(out, Kind::Scan, counts),
        Event::Temp => write_counts(out, Kind::Temp, counts),
        Event::Count(n) => write_bytes(out, Kind::Count, &n.to_le_bytes()),
        Event::Sense(v) => write_bytes(out, Kind::Sense, &v.to_le_bytes()),
        Event::Pin => write_bytes(out, Kind::Pin, &[]),
        Event::Load(level) => write_bytes(out, Kind::Load, &[u8::from(level)]),
        Event::Xready => write_bytes(out, Kind::Xready, &[]),
        Event::OnBus(bus) => put_bus(bus, out),
        Event::Level(level) => write_bytes(out, Kind::Level, &[u8::from(level)]),
        Event::Ticks(v, n) => {
            let [a, b, c, d] = v.to_le_bytes();
            let [low, high] = n.to_le_bytes();
            write_bytes(out, Kind::Ticks, &[a, b, c, d, low, high])
        }
        Event::Soak(v, n) => write_soak(out, v, n),
        Event::Wires(cells) => write_bytes(out, Kind::Wiring, &[cells]),
    }
}

// Writes an event's record at a part, SETUP's own for SETUP. It refuses with 1 (part not 1 to 3), 2 (counts not fitting it), 1, 3 or
// 13 (a value out of range, no row for a number of cells), then 5 (no room), and writes no other byte than the record's.
pub fn write_record(
    event: Event,
    counts: Counts,
    part: u8,
    out: &mut [u8],
) -> Result<usize, Refusal>
    ensures { Puts (refusal_for event counts part) (record_for event counts) out.old (wrote result) out.new }
{
    refusal(event, counts, part)?;
    put_event(event, counts, out)
}
