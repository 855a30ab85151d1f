// CHIP P11: a second engine, which keeps no runs, to be read beside CHIP.md. At each scan or tick that is done it looks back over the records before
// it and decides from them (CHIP J9, J10, H1 and H2): the bit of a fault is due where this record says yes, and it and those in a row before it
// that said yes are as many as the delay asks for.
//
// Its own are that decision, in plain_due, and the look back, in plain_back. It shares with the base engine how a record is read
// (records); thresholds and delays by their codes, and which count or value is beyond one (limits, cell_counts); where counts are stored, what a bit
// that rises puts off, and the outside level (registers); every record that is no scan and no tick, in the look back too (turn, chip); an entry's
// bytes (turn), and how many entries there are (stream).
#![tactic(auto)]

ghost use Rattle.std.specs.Prelude.{◌≡◌, ◌≤◌, length, take};
ghost use Rattle.events.specs.Setup.{inputs};
ghost use Rattle.chip.specs.Answer.{as_step};
ghost use Rattle.turn.specs.TurnedLaws.{as_turn};
ghost use Rattle.plain_back.specs.Said.{streaks_in};
ghost use Rattle.plain.specs.Decision.{shows, scan_done, ticks_done};
ghost use Rattle.plain.specs.Plain.{decided, plain_turn, answered, Noted, PlainPlayed};

use chip::{Chip, Stepped};
use constants::refusal::Refusal;
use constants::{range, size};
use events::{Event, Faults};
use plain_due::Streaks;
use records::Read;
use turn::Turned;

// The look back: for each fault, how many of the newest scans (ticks) before this record say yes, up to the first that does not. Each said it by the
// settings that stood at it, and none from before SHIP is among them.
fn look_back(before: &[u8]) -> Streaks
    requires { length before.now ≤ 65536 }
    ensures { result ≡ streaks_in before.now }
{
    plain_back::look(before).unwrap_or_default()
}

// What is due is shown and puts off its drive; then the outside level is looked at (CHIP J13, L2).
fn show(mut chip: Chip, risen: Faults) -> Chip
    ensures { result ≡ shows risen chip }
{
    chip.registers = chip.registers.raised(risen).pulled_by_level();
    chip
}

// A SCAN.
fn scan(mut chip: Chip, before: &[u8], counts: [u16; 15]) -> Stepped
    requires { length before.now ≤ 65536 }
    ensures { as_step result ≡ scan_done (streaks_in before.now) (take (inputs chip.setup) counts) chip }
{
    if !chip.normal {
        return chip.refused(Refusal::Asleep);
    }
    let s = chip.registers.settings;
    let looked = cell_counts::look(
        counts,
        chip.setup.inputs(),
        limits::over_line(s),
        chip.setup.floor,
        limits::under_line(s),
    );
    let risen = plain_due::due_at_scan(s, looked, look_back(before));
    chip.registers = chip.registers.scanned(looked.cells, looked.sum);
    show(chip, risen).done()
}

// A SENSE, or the ticks that a TICKS or SOAK stands for. What is due at one of them is due at the last; and since the outside level was looked at after
// the record before, once after the last is enough (CHIP L5).
#[tactic(auto, unfolding(crate::specs::Decision::ticks_done))]
fn ticks(chip: Chip, before: &[u8], value: i32, these: u32) -> Stepped
    requires { length before.now ≤ 65536 }
    ensures { as_step result ≡ ticks_done (streaks_in before.now) value these chip }
{
    if !chip.normal {
        return chip.refused(Refusal::Asleep);
    }
    let said = look_back(before);
    let risen = plain_due::due_at_ticks(chip.registers.settings, value, these, said);
    show(chip, risen).done()
}

// A scan or ticks as a turn: a wiring record may follow where it might before, and this one was refused (CHIP W1).
fn decided(fresh: bool, step: Stepped, next: usize) -> Turned
    ensures { as_turn result ≡ decided fresh (as_step step) next }
{
    turn::told(step, fresh && step.answer.is_err(), next, false)
}

// A record, with the records before it at hand: scans and ticks are decided here, all else is done as the base engine does it.
#[tactic(auto, unfolding(crate::specs::Plain::plain_turn, turn::specs::Turn::turn_of))]
fn take_turn(chip: Chip, fresh: bool, before: &[u8], rest: &[u8]) -> Turned
    requires { length before.now ≤ 65536 }
    ensures { as_turn result ≡ plain_turn before.now fresh chip rest.now }
{
    let Read::Record { event, next } = records::read_rest(rest, chip.setup.part) else {
        return turn::turn(chip, fresh, rest);
    };
    match event {
        Event::Scan => {
            let counts = records::counts_in(event, &rest[size::HEADER..next]);
            decided(fresh, scan(chip, before, counts.of), next)
        }
        Event::Sense(value) => decided(fresh, ticks(chip, before, value, 1), next),
        Event::Ticks(value, n) => decided(fresh, ticks(chip, before, value, u32::from(n)), next),
        Event::Soak(value, n) => decided(fresh, ticks(chip, before, value, n), next),
        _ => turn::turn(chip, fresh, rest),
    }
}

// The records one after the other, on a chip that never has a run. The entries are written where all of them fit.
fn run(s: &[u8], out: &mut [u8])
    requires { length s.now ≤ 65536 }
    ensures { Noted s.now out.old out.new }
{
    let mut chip = turn::no_chip();
    let mut fresh = false;
    let mut at = 0;
    let mut n = 0;
    while at < s.len() {
        let turned = take_turn(chip, fresh, &s[..at], &s[at..]);
        turn::put(out, n, turned.entry);
        if turned.last {
            return;
        }
        chip = turned.chip;
        fresh = turned.fresh;
        n += 1;
        at += turned.next;
    }
}

// Plays a whole stream into the entries, where it is not too long and they all fit: how many records there are.
fn play(bytes: &[u8], entries: &mut [u8]) -> Result<i64, Refusal>
    ensures { PlainPlayed bytes.now entries.old (answered result) entries.new }
{
    if range::STREAM_MOST < bytes.len() {
        return Err(Refusal::TooLong);
    }
    let n = turn::frames::count(bytes);
    if entries.len() / size::ENTRY < n {
        return Err(Refusal::NoRoom);
    }
    run(bytes, entries);
    Ok(n as i64)
}

// What a call for C answers: how many, or minus the number of the refusal.
fn answer_of(said: Result<i64, Refusal>) -> i64
    ensures { result ≡ answered said }
{
    match said {
        Ok(n) => n,
        Err(why) => -i64::from(why.number()),
    }
}

// Plays a whole stream as `toralinge_play` does, with no runs kept. Answers -24 for more than 65,536 bytes, then -5 where the entries do not all fit,
// with no byte written; else how many records there are.
#[unsafe(no_mangle)]
pub extern "C" fn toralinge_plain(bytes: &[u8], entries: &mut [u8]) -> i64
    ensures { PlainPlayed bytes.now entries.old result entries.new }
{
    answer_of(play(bytes, entries))
}
