// CHIP P17: what each record of a stream says of a bit of SYS_STAT, and where a stream stands between two of its records.
#![tactic(auto)]

ghost use Rattle.std.specs.Prelude.{◌≡◌, ◌≤◌, ◌<◌, ◌^◌, length, take};
ghost use Rattle.events.specs.Setup.{inputs};
ghost use Rattle.limits.specs.Rule.{rule, beyond};
ghost use Rattle.why_walk.specs.Says.{says_ticks, scan_says, ticks_say, event_says, says_in, streak_after};
ghost use Rattle.why_walk.specs.Standing.{begun, advanced};

use chip::Chip;
use constants::{size, weight};
use events::{Counts, Event, Fault};
use records::Read;
use why_scan::Says;

// Before a record: the chip, whether a wiring record may follow, the record's place, the streak of the bit that is asked about (how many of the newest verdicts of
// this waking spell are true, up to the first that is not), and SYS_STAT and the pins of the entry before.
#[derive(Clone, Copy)]
pub struct Standing {
    pub chip: Chip,
    pub fresh: bool,
    pub at: usize,
    pub streak: u64,
    pub stat: u8,
    pub pins: u8,
}

// What a SCAN says of OV and UV.
#[tactic(auto, unfolding(crate::specs::Says::scan_says, limits::specs::Rule::rule))]
fn scan_says(chip: Chip, counts: [u16; 15], bit: u8) -> Says
    ensures { result ≡ scan_says bit chip (take (inputs chip.setup) counts) }
{
    let s = chip.registers.settings;
    let inputs = chip.setup.inputs();
    match bit {
        weight::OV => why_scan::scan_of(
            counts,
            inputs,
            s.adc_en,
            true,
            chip.setup.floor,
            limits::over_line(s),
        ),
        weight::UV => why_scan::scan_of(
            counts,
            inputs,
            s.adc_en,
            false,
            chip.setup.floor,
            limits::under_line(s),
        ),
        _ => Says::default(),
    }
}

// What ticks of one value say of a fault.
#[tactic(auto, unfolding(bits::specs::Numbers::bits32))]
fn ticks_of(chip: Chip, fault: Fault, value: i32, many: u32) -> Says
    ensures { result ≡ says_ticks (beyond (rule fault chip.registers.settings) value) value many }
{
    Says {
        many,
        verdict: limits::rule_of(chip.registers.settings, fault).beyond(value),
        value: value.cast_unsigned(),
        ..Says::default()
    }
}

// What ticks of one value say of SCD and OCD.
#[tactic(auto, unfolding(crate::specs::Says::ticks_say))]
fn ticks_say(chip: Chip, value: i32, many: u32, bit: u8) -> Says
    ensures { result ≡ ticks_say bit chip value many }
{
    match bit {
        weight::SCD => ticks_of(chip, Fault::Scd, value, many),
        weight::OCD => ticks_of(chip, Fault::Ocd, value, many),
        _ => Says::default(),
    }
}

// What a record says that was read, by the chip that stands when it comes.
#[tactic(auto, unfolding(crate::specs::Says::event_says))]
fn event_says(chip: Chip, event: Event, counts: Counts, bit: u8) -> Says
    ensures { result ≡ event_says bit chip event counts }
{
    match event {
        Event::Scan => scan_says(chip, counts.of, bit),
        Event::Sense(value) => ticks_say(chip, value, 1, bit),
        Event::Ticks(value, n) => ticks_say(chip, value, u32::from(n), bit),
        Event::Soak(value, n) => ticks_say(chip, value, n, bit),
        Event::Pin => Says {
            pin: true,
            ..Says::default()
        },
        _ => Says::default(),
    }
}

// What the record says which the rest begins with; a refused one says nothing.
#[tactic(auto, unfolding(crate::specs::Says::says_in))]
pub fn said_by(chip: Chip, rest: &[u8], bit: u8) -> Says
    ensures { result ≡ says_in bit chip rest.now }
{
    match records::read_rest(rest, chip.setup.part) {
        Read::Record { event, next } => {
            let counts = records::counts_in(event, &rest[size::HEADER..next]);
            event_says(chip, event, counts, bit)
        }
        _ => Says::default(),
    }
}

// The streak after a record; where the chip is in SHIP after it, none.
#[tactic(auto, unfolding(crate::specs::Says::streak_after))]
fn streak_after(said: Says, normal: bool, streak: u64) -> u64
    requires { streak < 2 ^ 63 }
    ensures { result ≡ streak_after said normal streak }
{
    if !normal {
        0
    } else if said.many == 0 {
        streak
    } else if said.verdict {
        streak + u64::from(said.many)
    } else {
        0
    }
}

// Before the first record.
pub fn begun() -> Standing
    ensures { result ≡ begun }
{
    Standing {
        chip: turn::no_chip(),
        fresh: false,
        at: 0,
        streak: 0,
        stat: 0,
        pins: 0,
    }
}

// Past the record at which a stream stands; at its end it stays there.
#[tactic(auto, unfolding(crate::specs::Standing::advanced))]
pub fn advance(s: &[u8], from: Standing, bit: u8) -> Standing
    requires { (from.at ≤ length s.now) × (from.streak < 2 ^ 63) }
    ensures { result ≡ advanced s.now bit from }
{
    let rest = &s[from.at..];
    let said = said_by(from.chip, rest, bit);
    let turned = turn::turn(from.chip, from.fresh, rest);
    Standing {
        chip: turned.chip,
        fresh: turned.fresh,
        at: if turned.last {
            s.len()
        } else {
            from.at + turned.next
        },
        streak: streak_after(said, turned.chip.normal, from.streak),
        stat: turned.entry.stat,
        pins: turned.entry.pins,
    }
}
