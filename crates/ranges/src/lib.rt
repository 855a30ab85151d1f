// The checks of an event made by hand, for the writer and the chip: counts that fit the part, and values in range.
#![tactic(auto)]

ghost use Rattle.std.specs.Prelude.{◌≡◌, take, drop};
ghost use Rattle.bits.specs.Numbers.{within};
ghost use Rattle.events.specs.Event.{count_most, sense_fits, ticks_fit, counts_wanted, counts_fit, event_of, meant_of};
ghost use Rattle.ranges.specs.Refusal.{valued, refused};

use constants::refusal::Refusal;
use constants::{range, size};
use events::{Beside, Counts, Event, Setup};

// Whether a SENSE value is in range.
pub fn sense_fits(v: i32) -> bool
    ensures { result ≡ sense_fits v }
{
    (range::SENSE_LEAST..=range::SENSE_MOST).contains(&v)
}

// Whether a tick's value is in range, and how often it is repeated, up to the most that its kind allows.
#[tactic(auto, unfolding(events::specs::Event::ticks_fit))]
pub fn ticks_fit(most: u32, value: i32, repeat: u32) -> bool
    ensures { result ≡ ticks_fit most value repeat }
{
    sense_fits(value) && 1 <= repeat && repeat <= most
}

// Whether each number is at most one.
fn all_within(of: &[u16], most: u16) -> bool
    ensures { result ≡ within most of.now }
{
    of.iter().all(|x| *x <= most)
}

// Whether each count from a place on is at most a number.
#[tactic(auto, using(std::proofs::lemmas::List::drop_min))]
pub fn within_from(of: [u16; 15], from: usize, most: u16) -> bool
    ensures { result ≡ within most (drop from of) }
{
    all_within(&of[from.min(size::INPUTS)..], most)
}

// Whether each of the first `many` counts is in range.
#[tactic(auto, using(std::proofs::lemmas::List::take_min))]
pub fn counts_in_range(of: [u16; 15], many: u8) -> bool
    ensures { result ≡ within count_most (take many of) }
{
    all_within(
        &of[..usize::from(many).min(size::INPUTS)],
        range::COUNT_MOST,
    )
}

// How many counts stand beside an event.
pub fn counts_wanted(setup: Setup, event: Event) -> u8
    ensures { result ≡ counts_wanted setup event }
{
    match events::beside_of(event) {
        Beside::Inputs => setup.inputs(),
        Beside::Groups => setup.groups(),
        Beside::Nothing => 0,
    }
}

// Whether there are as many counts as wanted, and 0 after them.
#[tactic(auto, unfolding(events::specs::Event::counts_fit))]
pub fn counts_fit(wanted: u8, counts: Counts) -> bool
    ensures { result ≡ counts_fit wanted counts }
{
    counts.many == wanted && within_from(counts.of, usize::from(wanted), 0)
}

// A value, by whether it is in range.
fn valued(good: bool) -> Result<(), Refusal>
    ensures { result ≡ valued good }
{
    good.then_some(()).ok_or(Refusal::BadValue)
}

// An event whose counts fit: SETUP and a wiring record have no place there, and a value may be out of range.
#[tactic(auto, unfolding(events::specs::Event::fits))]
fn value_refusal(setup: Setup, event: Event, of: [u16; 15]) -> Result<(), Refusal>
    ensures { result ≡ refused (event_of setup event of) }
{
    match event {
        Event::Scan => valued(counts_in_range(of, setup.inputs())),
        Event::Temp => valued(counts_in_range(of, setup.groups())),
        Event::Sense(v) => valued(sense_fits(v)),
        Event::Ticks(v, n) => valued(ticks_fit(range::TICKS_MOST, v, u32::from(n))),
        Event::Soak(v, n) => valued(ticks_fit(range::SOAK_MOST, v, n)),
        Event::Setup(_) | Event::Wires(_) => Err(Refusal::BadKind),
        _ => Ok(()),
    }
}

// Why an event is refused where a part stands: number 2 before 3.
#[tactic(auto, unfolding(events::specs::Event::meant_of))]
pub fn refusal(setup: Setup, event: Event, counts: Counts) -> Result<(), Refusal>
    ensures { result ≡ refused (meant_of setup event counts) }
{
    if !counts_fit(counts_wanted(setup, event), counts) {
        return Err(Refusal::BadKind);
    }
    value_refusal(setup, event, counts.of)
}
