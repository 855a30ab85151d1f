// The event that a kind and values mean, and the counts beside it.
#![tactic(auto)]

ghost use Rattle.std.specs.Prelude.{◌≡◌};
ghost use Rattle.constants.specs.Kind.{kind_of};
ghost use Rattle.record_event.specs.Values.{of_values, part_by, event_by, counts_at, counts_by};

use constants::kind::Kind;
use constants::range;
use constants::refusal::Refusal;
use events::{Beside, BusEvent, Counts, Event};
use record_numbers::{kind, natural};
use record_payload::{
    bare_by, count_by, counted_by, in_by, level_by, load_by, out_by, sense_by, setup_by, soak_by,
    ticks_by, wires_by,
};

// The greatest part, in the width that C hands over.
const PART_MOST: u32 = range::PART_MOST as u32;

// A kind as C hands it over.
#[tactic(auto, using(crate::proofs::Meant::wide_kind))]
fn kind_of(kind: u32) -> Result<Kind, Refusal>
    ensures { result ≡ kind_of kind }
{
    match u16::try_from(kind) {
        Ok(kind) => Kind::try_from(kind),
        Err(_) => Err(Refusal::BadKind),
    }
}

// The event of a kind other than SETUP, at a part.
fn event_of(kind: Kind, part: u8, values: &[i64]) -> Result<Event, Refusal>
    ensures { result ≡ of_values kind part values.now }
{
    match kind {
        Kind::Por => bare_by(Event::Por, values),
        Kind::Boot => bare_by(Event::Boot, values),
        Kind::Scan => counted_by(Event::Scan, records::inputs_at(part), values),
        Kind::Temp => counted_by(Event::Temp, records::groups_at(part), values),
        Kind::Count => count_by(values),
        Kind::Sense => sense_by(values),
        Kind::Pin => bare_by(Event::Pin, values),
        Kind::Load => load_by(values),
        Kind::Xready => bare_by(Event::Xready, values),
        Kind::Start => bare_by(Event::OnBus(BusEvent::Start), values),
        Kind::Out => out_by(values),
        Kind::In => in_by(values),
        Kind::Stop => bare_by(Event::OnBus(BusEvent::Stop), values),
        Kind::Level => level_by(values),
        Kind::Ticks => ticks_by(values),
        Kind::Soak => soak_by(values),
        Kind::Wiring => wires_by(values),
        Kind::Setup => Err(Refusal::BadKind),
    }
}

#[tactic(auto, unfolding(crate::specs::Values::part_by))]
pub fn part_by(part: u32) -> u8
    ensures { result ≡ part_by part }
{
    if part <= PART_MOST { part as u8 } else { 0 }
}

// The event that values mean.
#[tactic(auto, unfolding(crate::specs::Values::event_by, crate::specs::Values::later_by))]
pub fn event_by(kind: u32, part: u32, values: &[i64]) -> Result<Event, Refusal>
    ensures { result ≡ event_by kind part values.now }
{
    if kind == kind::SETUP {
        return setup_by(values);
    }
    let p = part_by(part);
    if p == 0 {
        return Err(Refusal::BadSetup);
    }
    event_of(kind_of(kind)?, p, values)
}

// Values as counts. A function of its own: inlined, the fifteen counts are kept one by one beside every event that has none.
#[inline(never)]
fn counts_at(values: &[i64]) -> Counts
    ensures { result ≡ counts_at values.now }
{
    let mut of = [0u16; 15];
    for i in 0..15 {
        if i < values.len() {
            of[i] = (natural(values[i]) % 65536) as u16;
        }
    }
    let many = (values.len() % 256) as u8;
    Counts { many, of }
}

// The counts beside an event: SCAN and TEMP alone have any.
#[tactic(auto, using(records::proofs::NoCounts::none_made), unfolding(crate::specs::Values::counts_by))]
pub fn counts_by(event: Event, values: &[i64]) -> Counts
    ensures { result ≡ counts_by event values.now }
{
    match events::beside_of(event) {
        Beside::Inputs | Beside::Groups => counts_at(values),
        Beside::Nothing => Counts::default(),
    }
}
