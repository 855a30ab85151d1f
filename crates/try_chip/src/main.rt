// A chip stepped from Rattle, by events made by hand, most of which no record can hold: asleep, then awake. A line for each: its number, SYS_STAT and the
// pins. They are held to tests/vectors/by_hand.
#![tactic(auto)]

ghost use Rattle.std.specs.Prelude.{◌≡◌, IfOk, OnOk};
ghost use Rattle.std.specs.Io.KnownBytes.{Appends};
ghost use Rattle.chip.specs.Answer.{as_step};
ghost use Rattle.try_chip.specs.Line.{line_of};

use chip::{Chip, Stepped};
use events::{Counts, Event, Setup};
use std::io::{self, Write};

fn set_up() -> Setup {
    Setup {
        part: 1,
        crc: false,
        address: 0x08,
        gain_code: 10,
        offset: 30,
        floor: 1000,
        cells: 0,
    }
}

// So many counts, the first and the last of fifteen.
fn counts(many: u8, first: u16, last: u16) -> Counts {
    let mut of = [0u16; 15];
    of[0] = first;
    of[14] = last;
    Counts { many, of }
}

// Each refusal: 2 before 3, 3 before 4; then what is refused asleep alone.
fn step_of(k: usize) -> (Event, Counts) {
    let none = Counts::default();
    match k {
        0 => (Event::Setup(set_up()), none),
        1 => (Event::Scan, counts(4, 6144, 0)),
        2 => (Event::Scan, counts(6, 16384, 0)),
        3 => (Event::Scan, counts(5, 6144, 1)),
        4 => (Event::Temp, counts(2, 1, 0)),
        5 => (Event::Por, counts(1, 0, 0)),
        6 => (Event::Scan, counts(5, 16384, 0)),
        7 => (Event::Temp, counts(1, 16384, 0)),
        8 => (Event::Sense(500001), none),
        9 => (Event::Sense(-500001), none),
        10 => (Event::Sense(-2147483648), none),
        11 => (Event::Ticks(0, 0), counts(1, 0, 0)),
        12 => (Event::Ticks(0, 0), none),
        13 => (Event::Ticks(0, 4097), none),
        14 => (Event::Soak(0, 16777217), none),
        15 => (Event::Wires(3), none),
        16 => (Event::Scan, counts(5, 6144, 0)),
        17 => (Event::Level(true), none),
        _ => (Event::Boot, none),
    }
}

// The line of a step, and its chip.
fn show<W: Write>(out: &mut W, stepped: Stepped) -> io::Result<Chip>
    ensures text { OnOk result (Appends (W.contents out.old) (W.contents out.new) (line_of (as_step stepped))) }
    ensures chip { IfOk result (λ c. c ≡ stepped.chip) }
{
    let chip = stepped.chip;
    let number = chip::number(stepped.answer);
    let status = chip.status();
    let pins = chip.pins();
    writeln!(out, "{number} {status:02x} {pins}")?;
    Ok(chip)
}

fn main(rt: HostRuntime) -> io::Result<()> {
    let mut chip = chip::in_ship(set_up());
    for k in 0..38usize {
        let (event, counts) = step_of(k % 19);
        chip = show(&mut rt.stdout(), chip.step(event, counts))?;
    }
    Ok(())
}
