// Records played on a chip, whichever stands, five bytes for each: quick, where `turn` is plain.
#![tactic(auto)]

ghost use Rattle.std.specs.Prelude.{◌≡◌, ◌+◌, ◌*◌, ◌<◌, ◌^◌, take, true, false, ◌&&◌};
ghost use Rattle.records.specs.Record.{read_of, counts_beside};
ghost use Rattle.records.specs.declared.Read.TheVariants.{Record};
ghost use Rattle.turn.specs.Turn.{acted};
ghost use Rattle.stream_run.specs.Stream.{face_of, entry_with, Ran};
ghost use Rattle.turn.specs.Entries.{noted};
ghost use Rattle.registers.specs.State.{with_outside_level};
ghost use Rattle.registers.specs.Judging.{pulled_by_level};
ghost use Rattle.chip.specs.Answer.{as_step};
ghost use Rattle.chip.specs.Chip.{numbered, with_normal, happened, happened_by};
ghost use Rattle.chip.specs.Calm.{Calmed};
ghost use Rattle.events.specs.Event.{Temp};
ghost use Rattle.events.specs.Setup.{groups};
ghost use Rattle.stream_run.specs.Often.{often, work_of, registers_moved};

use chip::{Chip, Stepped};
use constants::refusal::Refusal;
use constants::{size, weight};
use events::{BusEvent, Event, Role};
use records::Read;
use registers::Registers;
use turn::frames::{answer_of, passed};
use turn::{Entry, born, rewired, stays_fresh};

pub mod end;

pub use end::last_chip;

// What a chip shows outside: SYS_STAT and the pins.
#[derive(Clone, Copy, Debug, PartialEq, Eq)]
pub struct Face {
    pub stat: u8,
    pub pins: u8,
}

// What records leave: the chip, and whether a wiring record is still taken.
#[derive(Clone, Copy, Debug, PartialEq, Eq)]
pub struct Left {
    pub chip: Chip,
    pub fresh: bool,
}

// What an event is to the loop: what is often done in NORMAL has an arm of its own, which moves only what it has to.
#[derive(Clone, Copy, Debug, PartialEq, Eq)]
pub enum Work {
    Scans,
    Ticks(i32),
    Hears(BusEvent),
    Other,
}

// ALERT is up where SYS_STAT is not 0.
fn face_of(chip: Chip) -> Face
    ensures { result ≡ face_of chip }
{
    let stat = chip.status();
    let shown = chip.registers.shown;
    Face {
        stat,
        pins: bits::weigh(stat != 0, weight::PIN_ALERT)
            + bits::weigh(shown.chg_on, weight::PIN_CHG)
            + bits::weigh(shown.dsg_on, weight::PIN_DSG),
    }
}

fn entry_of(answer: Result<Option<u8>, Refusal>, face: Face) -> Entry
    ensures { result ≡ entry_with answer face }
{
    Entry {
        number: chip::number(answer),
        flag: u8::from(chip::flag(answer)),
        byte: chip::byte(answer),
        stat: face.stat,
        pins: face.pins,
    }
}

// Each case of the bus by itself: the compiler then goes from a record's kind straight to its arm in the loop.
fn work_of(normal: bool, event: Event) -> Work
    ensures { result ≡ work_of normal event }
{
    match event {
        Event::Scan if normal => Work::Scans,
        Event::Sense(value) if normal => Work::Ticks(value),
        Event::OnBus(BusEvent::Start) if normal => Work::Hears(BusEvent::Start),
        Event::OnBus(BusEvent::Out(byte)) if normal => Work::Hears(BusEvent::Out(byte)),
        Event::OnBus(BusEvent::In(nack)) if normal => Work::Hears(BusEvent::In(nack)),
        Event::OnBus(BusEvent::Stop) if normal => Work::Hears(BusEvent::Stop),
        _ => Work::Other,
    }
}

// What happens to a chip in SHIP, or seldom. The outside level has work after its own event alone: what else stands here lowers no bit.
fn seldom(chip: Chip, event: Event, counts: [u16; 15]) -> Stepped
    requires event_value { (chip.normal && often event) ≡ false }
    requires calmed { Calmed chip }
    ensures { as_step result ≡ happened_by event counts chip }
{
    match event {
        Event::Setup(_) | Event::Wires(_) => chip.refused(Refusal::BadKind),
        Event::Por => chip.por(),
        Event::Boot => roused(chip),
        Event::Scan | Event::Sense(_) => chip.refused(Refusal::Asleep),
        Event::Temp => heated(chip, counts),
        Event::Count(cc) => registers_moved(chip, chip.registers.coulombs(cc)),
        Event::Pin => registers_moved(chip, chip.registers.pulled()),
        Event::Load(level) => registers_moved(chip, chip.registers.loaded(level)),
        Event::Xready => registers_moved(chip, chip.registers.unready()),
        Event::OnBus(bus) => chip.doze(bus),
        Event::Level(level) => registers_moved(chip, leveled(chip.registers, level)),
        Event::Ticks(value, repeat) => chip.ticked(value, u32::from(repeat)),
        Event::Soak(value, repeat) => chip.ticked(value, repeat),
    }
}

// BOOT.
fn roused(mut chip: Chip) -> Stepped
    ensures { as_step result ≡ numbered 0 (with_normal true chip) }
{
    chip.normal = true;
    chip.done()
}

// The registers moved, in NORMAL.
fn registers_moved(mut chip: Chip, registers: Registers) -> Stepped
    ensures { as_step result ≡ registers_moved registers chip }
{
    if !chip.normal {
        return chip.refused(Refusal::Asleep);
    }
    chip.registers = registers;
    chip.done()
}

// The outside level, kept and looked at.
fn leveled(registers: Registers, level: bool) -> Registers
    ensures { result ≡ pulled_by_level (with_outside_level level registers) }
{
    registers.leveled(level).pulled_by_level()
}

// TEMP, whose counts the reader has judged.
fn heated(chip: Chip, counts: [u16; 15]) -> Stepped
    requires { Calmed chip }
    ensures { as_step result ≡ happened (Temp (take (groups chip.setup) counts)) chip }
{
    if !chip.normal {
        return chip.refused(Refusal::Asleep);
    }
    chip.warmed(counts).done()
}

// The counts beside an event that was read.
fn counted(part: u8, event: Event, rest: &[u8], next: usize) -> [u16; 15]
    requires { read_of part rest.now ≡ Record event next }
    ensures { result ≡ (counts_beside rest.now (Record event next)).of }
{
    records::counts_in(event, &rest[size::HEADER..next]).of
}

// A record that was read, done: SETUP makes the chip, a wiring record makes it anew, every other event happens to it.
fn act(chip: Chip, fresh: bool, event: Event, rest: &[u8], next: usize) -> Stepped
    requires rest_value { read_of chip.setup.part rest.now ≡ Record event next }
    requires event_value { (chip.normal && often event) ≡ false }
    requires calmed { Calmed chip }
    ensures { as_step result ≡ acted fresh event (counts_beside rest.now (Record event next)) chip }
{
    match events::role_of(event) {
        Role::Makes(setup) => born(setup),
        Role::Rewires(cells) => rewired(chip, fresh, cells),
        Role::Happens => {
            let counts = counted(chip.setup.part, event, rest, next);
            seldom(chip, event, counts)
        }
    }
}

// An entry written at its place, where it fits: byte by byte, since a copy of a slice is a call, and `turn::put` divides.
fn note(out: &mut [u8], n: usize, e: Entry)
    requires { 5 * n + 5 < 2 ^ 64 }
    ensures { out.new ≡ noted out.old n e }
{
    let at = size::ENTRY * n;
    if at + size::ENTRY <= out.len() {
        out[at] = e.number;
        out[at + 1] = e.flag;
        out[at + 2] = e.byte;
        out[at + 3] = e.stat;
        out[at + 4] = e.pins;
    }
}

// Plays records on a chip, whichever stands. `fresh`: only SETUP and refused records came since it was made, so that a wiring record is taken. Entries are written
// where they fit. The chip is changed in its place, and shown anew where that may differ.
// Two loops, because the compiler then keeps one way back for the records that are done: a refused one goes back to the outer.
pub fn run_from(mut chip: Chip, mut fresh: bool, s: &[u8], out: &mut [u8]) -> Left
    requires { Calmed chip }
    ensures { Ran fresh chip s.now out.old result out.new }
{
    let mut face = face_of(chip);
    let mut at = 0;
    let mut n = 0;
    'stream: while at < s.len() {
        while at < s.len() {
            let rest = &s[at..];
            let read = records::read_rest(rest, chip.setup.part);
            let Read::Record { event, next } = read else {
                note(out, n, entry_of(answer_of(read), face));
                n += 1;
                at += passed(read, chip.setup.part, rest.len());
                continue 'stream;
            };
            let open = fresh;
            fresh = false;
            let mut answer = Ok(None);
            match work_of(chip.normal, event) {
                Work::Scans => {
                    chip = chip.scanned(counted(chip.setup.part, event, rest, next));
                    face = face_of(chip);
                }
                Work::Ticks(value) => {
                    let judged = chip.sensed(value);
                    chip.runs = judged.runs;
                    if judged.risen.scd || judged.risen.ocd {
                        chip = chip.raised(judged.risen);
                        face = face_of(chip);
                    }
                }
                Work::Hears(signal) => {
                    let heard = chip.heard(signal);
                    chip.bus = heard.bus;
                    answer = Ok(heard.byte);
                    if let Some(write) = heard.store {
                        chip = chip.wrote(write.at, write.value);
                        face = face_of(chip);
                    }
                }
                Work::Other => {
                    let step = act(chip, open, event, rest, next);
                    fresh = stays_fresh(open, chip.setup.part, step.answer);
                    chip = step.chip;
                    answer = step.answer;
                    face = face_of(chip);
                }
            }
            note(out, n, entry_of(answer, face));
            n += 1;
            at += next;
        }
    }
    Left { chip, fresh }
}
