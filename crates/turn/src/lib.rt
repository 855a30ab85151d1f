// A record on a chip, as one call: plain on purpose, where `stream` is quick; and how many records a stream has.
#![tactic(auto)]

ghost use Rattle.std.specs.Prelude.{◌≡◌, ◌||◌, ◌&&◌, not, eqb};
ghost use Rattle.chip.specs.Answer.{as_step, number_in};
ghost use Rattle.turn.specs.Turn.{none, entry_of, born_of, wires, acted, turn, turn_of};
ghost use Rattle.turn.specs.Entries.{noted};
ghost use Rattle.turn.specs.TurnedLaws.{as_turn};

use chip::{Chip, Stepped};
use constants::refusal::Refusal;
use constants::size;
use events::{Counts, Event, Role, Setup};
use records::Read;

pub mod frames;

// What a record gives.
#[derive(Clone, Copy, Debug, Default, PartialEq, Eq)]
pub struct Entry {
    pub number: u8,
    pub flag: u8,
    pub byte: u8,
    pub stat: u8,
    pub pins: u8,
}

// What a record made of a chip: the next chip, whether a wiring record may follow, the entry, the place after the record, and whether it is the last.
#[derive(Clone, Copy, Debug, PartialEq, Eq)]
pub struct Turned {
    pub chip: Chip,
    pub fresh: bool,
    pub entry: Entry,
    pub next: usize,
    pub last: bool,
}

// No chip yet: part 0.
pub fn no_chip() -> Chip
    ensures { result ≡ none }
{
    chip::in_ship(Setup {
        part: 0,
        crc: false,
        address: 0,
        gain_code: 0,
        offset: 0,
        floor: 0,
        cells: 0,
    })
}

// A wiring record, which is taken straight after SETUP alone.
pub fn rewired(chip: Chip, fresh: bool, cells: u8) -> Stepped
    ensures { as_step result ≡ wires fresh cells chip }
{
    if !fresh {
        return chip.refused(Refusal::BadKind);
    }
    match wiring::wire(chip.setup, cells) {
        Ok(setup) => born(setup),
        Err(why) => chip.refused(why),
    }
}

// The chip that SETUP, or a wiring record, makes.
pub fn born(setup: Setup) -> Stepped
    ensures { as_step result ≡ born_of setup }
{
    chip::in_ship(setup).done()
}

fn entry_of(s: Stepped) -> Entry
    ensures { result ≡ entry_of (as_step s) }
{
    Entry {
        number: chip::number(s.answer),
        flag: u8::from(chip::flag(s.answer)),
        byte: chip::byte(s.answer),
        stat: s.chip.status(),
        pins: s.chip.pins(),
    }
}

// A record that was read, done: SETUP makes the chip, a wiring record makes it anew, every other event happens to it.
fn act(chip: Chip, fresh: bool, event: Event, counts: Counts) -> Stepped
    ensures { as_step result ≡ acted fresh event counts chip }
{
    match events::role_of(event) {
        Role::Makes(setup) => born(setup),
        Role::Rewires(cells) => rewired(chip, fresh, cells),
        Role::Happens => chip.step(event, counts),
    }
}

// Whether a wiring record may follow what met this part: SETUP meets none, and what is refused changes nothing.
pub fn stays_fresh(fresh: bool, part: u8, answer: Result<Option<u8>, Refusal>) -> bool
    ensures { result ≡ (eqb part 0 || (fresh && not (eqb (number_in answer) 0))) }
{
    part == 0 || (fresh && answer.is_err())
}

// A record that was done or refused, with its entry. Inlined, since it is called from three places and each call would copy the chip twice.
#[inline(always)]
pub fn told(step: Stepped, fresh: bool, next: usize, last: bool) -> Turned
    ensures { as_turn result ≡ turn (as_step step) fresh next last }
{
    Turned {
        chip: step.chip,
        fresh,
        entry: entry_of(step),
        next,
        last,
    }
}

// The record that the rest of a stream begins with, done to the chip that stands: part 0 where none does yet. `fresh`: a wiring record is taken.
pub fn turn(chip: Chip, fresh: bool, rest: &[u8]) -> Turned
    ensures { as_turn result ≡ turn_of fresh chip rest.now }
{
    match records::read_rest(rest, chip.setup.part) {
        Read::Cut => told(chip.refused(Refusal::CutShort), fresh, 0, true),
        Read::Refused { why, next } => {
            told(chip.refused(why), fresh, next, chip.setup.part == 0)
        }
        Read::Record { event, next } => {
            let counts = records::counts_in(event, &rest[size::HEADER..next]);
            let step = act(chip, fresh, event, counts);
            told(
                step,
                stays_fresh(fresh, chip.setup.part, step.answer),
                next,
                false,
            )
        }
    }
}

// An entry put at its place in a buffer, where it fits.
pub fn put(out: &mut [u8], n: usize, e: Entry)
    ensures { out.new ≡ noted out.old n e }
{
    if n < out.len() / size::ENTRY {
        bits::bytes::put_bytes(
            out,
            size::ENTRY * n,
            &[e.number, e.flag, e.byte, e.stat, e.pins],
        );
    }
}
