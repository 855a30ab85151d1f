// CHIP P11: what the records lent so far say of the four faults, found by walking them from the first on. Nothing is kept between two
// calls. Each scan or tick says yes or no by the settings that stand when it comes; what moves these, and the mode, is any other record, which
// is done as the base engine does it, by `chip`.
#![tactic(auto)]

ghost use Rattle.std.specs.Prelude.{◌≡◌, ◌≤◌, ◌^◌, length, take};
ghost use Rattle.events.specs.Setup.{inputs};
ghost use Rattle.chip.specs.Core.{core_of, bare};
ghost use Rattle.plain_back.specs.Moved.{moved_by};
ghost use Rattle.plain_back.specs.Said.{streaks_in, said_back, back_said};
ghost use Rattle.plain_back.specs.Walk.{Small, goes_on, scan_said, ticks_said, walked_by, passed_on, TickIn};

use chip::Chip;
use constants::refusal::Refusal;
use constants::{kind, range, size};
use events::{Counts, Event, Fault, Setup};
use plain_due::Streaks;
use records::{Header, Read};

// What is carried from record to record: a chip that has its mode, the bus's line and the settings alone, and what was said so far.
#[derive(Clone, Copy)]
pub struct Walk {
    pub chip: Chip,
    pub said: Streaks,
}

// The value of a tick, and the place after it.
#[derive(Clone, Copy, Debug, PartialEq, Eq)]
pub struct Tick {
    pub value: i32,
    pub next: usize,
}

// A record passed, and the place after it.
#[derive(Clone, Copy)]
pub struct Passed {
    pub walk: Walk,
    pub next: usize,
}

// More verdicts that are all alike: a streak goes on by them, or is over.
fn go_on(verdict: bool, more: u32, streak: u64) -> u64
    requires { streak ≤ 2 ^ 40 }
    ensures { result ≡ goes_on verdict more streak }
{
    if verdict { streak + u64::from(more) } else { 0 }
}

// A SCAN, by the settings that stand when it comes; in SHIP it says nothing.
#[tactic(auto, unfolding(crate::specs::Walk::scan_said, limits::specs::Rule::rule, limits::specs::Rule::over, limits::specs::Rule::under, cell_counts::specs::Scan::looked_at))]
fn scan_said(chip: Chip, counts: [u16; 15], said: Streaks) -> Streaks
    requires { Small said }
    ensures { result ≡ scan_said chip (take (inputs chip.setup) counts) said }
{
    if !chip.normal {
        return said;
    }
    let s = chip.registers.settings;
    let looked = cell_counts::look(
        counts,
        chip.setup.inputs(),
        limits::over_line(s),
        chip.setup.floor,
        limits::under_line(s),
    );
    Streaks {
        ov: go_on(s.adc_en && looked.over, 1, said.ov),
        uv: go_on(s.adc_en && looked.under, 1, said.uv),
        ..said
    }
}

// That many ticks of one value.
#[tactic(auto, unfolding(crate::specs::Walk::ticks_said))]
fn ticks_said(chip: Chip, value: i32, more: u32, said: Streaks) -> Streaks
    requires { Small said }
    ensures { result ≡ ticks_said chip value more said }
{
    if !chip.normal {
        return said;
    }
    let s = chip.registers.settings;
    Streaks {
        scd: go_on(limits::rule_of(s, Fault::Scd).beyond(value), more, said.scd),
        ocd: go_on(limits::rule_of(s, Fault::Ocd).beyond(value), more, said.ocd),
        ..said
    }
}

// The mode, the line and the settings of a chip, and nothing else of it.
fn bared(chip: Chip) -> Chip
    ensures { result ≡ bare chip.setup (core_of chip) }
{
    let mut ship = chip::in_ship(chip.setup);
    ship.normal = chip.normal;
    ship.bus.line = chip.bus.line;
    ship.registers.settings = chip.registers.settings;
    ship
}

// Any other event moves the mode, the line and the settings, and says nothing; what was said stands in NORMAL alone: SHIP ends the spell.
#[tactic(auto, unfolding(crate::specs::Moved::moved_by))]
fn moved(walk: Walk, event: Event, counts: Counts) -> Walk
    ensures { result ≡ moved_by event counts walk }
{
    let chip = bared(walk.chip.step(event, counts).chip);
    Walk {
        chip,
        said: if chip.normal {
            walk.said
        } else {
            Streaks::default()
        },
    }
}

// A record that was read. A second SETUP is never read, and a wiring record moves none of this.
#[tactic(auto, unfolding(crate::specs::Walk::walked_by))]
fn walked(walk: Walk, event: Event, counts: Counts) -> Walk
    requires { Small walk.said }
    ensures { result ≡ walked_by event counts walk }
{
    let said = match event {
        Event::Scan => scan_said(walk.chip, counts.of, walk.said),
        Event::Sense(value) => ticks_said(walk.chip, value, 1, walk.said),
        Event::Ticks(value, n) => ticks_said(walk.chip, value, u32::from(n), walk.said),
        Event::Soak(value, n) => ticks_said(walk.chip, value, n, walk.said),
        Event::Setup(_) | Event::Wires(_) => walk.said,
        _ => return moved(walk, event, counts),
    };
    Walk { said, ..walk }
}

// The record that the rest begins with, where it is whole; a refused one says nothing.
#[tactic(auto, unfolding(crate::specs::Walk::passed_on))]
fn pass(walk: Walk, rest: &[u8]) -> Option<Passed>
    requires { Small walk.said }
    ensures { result ≡ passed_on rest.now walk }
{
    match records::read_rest(rest, walk.chip.setup.part) {
        Read::Cut => None,
        Read::Refused { next, .. } => Some(Passed { walk, next }),
        Read::Record { event, next } => {
            let counts = records::counts_in(event, &rest[size::HEADER..next]);
            Some(Passed {
                walk: walked(walk, event, counts),
                next,
            })
        }
    }
}

// The tick that the rest begins with, the record that a walk mostly meets.
fn tick_in(setup: Setup, rest: &[u8]) -> Option<Tick>
    ensures { TickIn setup.part rest.now result }
{
    let Header { kind, next } = records::header_of(rest)?;
    if kind != kind::SENSE {
        return None;
    }
    match records::payload_of(kind, setup.part, &rest[size::HEADER..next]) {
        Ok(Event::Sense(value)) => Some(Tick { value, next }),
        _ => None,
    }
}

// The first record makes the chip, and the others are passed one by one; ticks by themselves, in place.
fn walk_over(s: &[u8]) -> Streaks
    requires { length s.now ≤ 65536 }
    ensures { result ≡ streaks_in s.now }
{
    // One pattern for both was tried; the proof that any other event is refused did not close.
    let Read::Record { event, next } = records::read_rest(s, 0) else {
        return Streaks::default();
    };
    let Event::Setup(setup) = event else {
        return Streaks::default();
    };
    let mut walk = Walk {
        chip: chip::in_ship(setup),
        said: Streaks::default(),
    };
    let mut at = next;
    while at < s.len() {
        let rest = &s[at..];
        if let Some(tick) = tick_in(walk.chip.setup, rest) {
            walk.said = ticks_said(walk.chip, tick.value, 1, walk.said);
            at += tick.next;
            continue;
        }
        let Some(passed) = pass(walk, rest) else {
            return walk.said;
        };
        walk = passed.walk;
        at += passed.next;
    }
    walk.said
}

// What the records of these bytes say, at most 65,536 of them.
pub fn look(s: &[u8]) -> Result<Streaks, Refusal>
    ensures { said_back result ≡ back_said s.now }
{
    if range::STREAM_MOST < s.len() {
        return Err(Refusal::TooLong);
    }
    Ok(walk_over(s))
}
