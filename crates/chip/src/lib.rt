// The chip by value: setup, mode, bus, registers and runs. Each event is a method that takes it and returns the next chip and its answer.
#![tactic(auto)]

ghost use Rattle.std.specs.Prelude.{◌≡◌, take};
ghost use Rattle.events.specs.Setup.{groups, inputs};
ghost use Rattle.events.specs.Event.{event_of, ticks, ticks_most, soak_most, Por, Boot, Pin, Xready, Scan, Temp, Count, Sense, Load, OnBus, Level};
ghost use Rattle.events.specs.declared.BusEvent.TheVariants.{Start, Out, In, Stop};
ghost use Rattle.constants.specs.Refusal.{number_of};
ghost use Rattle.chip.specs.Answer.{as_step, as_heard};
ghost use Rattle.chip.specs.Chip.{numbered, answered, in_ship, taken_by, watched, settled, normally, bus_asleep, happened, stepped, ticked, stepped_as, stepped_by};
ghost use Rattle.chip.specs.Parts.{moved_to, unheard, sent_on, handed_over, heard_of, wrote, landed, raised_by};
ghost use Rattle.protection.specs.Judged.{tick_judged};
ghost use Rattle.protection.specs.Repeat.{ticks_judged};
ghost use Rattle.chip.specs.RepeatLaws.{ticked_by};
ghost use Rattle.bus.specs.Bus.{wanted};

use bus::{Bus, Line, Outed, Taken, Write};
use constants::range;
use constants::refusal::Refusal;
use events::{BusEvent, Counts, Event, Faults, Setup};
use protection::{Judged, Runs};
use registers::Registers;

mod answer;
mod outward;

pub use answer::{byte, flag, number};

#[derive(Clone, Copy, Debug, PartialEq, Eq)]
pub struct Chip {
    pub setup: Setup,
    pub normal: bool,
    pub bus: Bus,
    pub registers: Registers,
    pub runs: Runs,
}

// The next chip; and a refusal, or that the event is done, with a byte for an OUT or IN.
#[derive(Clone, Copy, Debug, PartialEq, Eq)]
pub struct Stepped {
    pub chip: Chip,
    pub answer: Result<Option<u8>, Refusal>,
}

// What an event of the bus does at once: the bus after it, the byte given back, and at most one accepted store, which follows.
#[derive(Clone, Copy, Debug, PartialEq, Eq)]
pub struct Heard {
    pub bus: Bus,
    pub byte: Option<u8>,
    pub store: Option<Write>,
}

// The chip in SHIP, as it is after setup, POR and the shipping sequence. A setup is judged where it is made: `events::setup_of`.
pub fn in_ship(setup: Setup) -> Chip
    ensures { result ≡ in_ship setup }
{
    Chip {
        setup,
        normal: false,
        bus: bus::idle(),
        registers: registers::reset(),
        runs: Runs::default(),
    }
}

// START and STOP: nothing given back.
pub fn unheard(line: Line, mut bus: Bus) -> Heard
    ensures { as_heard result ≡ unheard line bus }
{
    bus.line = line;
    Heard {
        bus,
        byte: None,
        store: None,
    }
}

// OUT.
pub fn sent(out: Outed, mut bus: Bus) -> Heard
    ensures { as_heard result ≡ sent_on out bus }
{
    bus.line = out.line;
    Heard {
        bus,
        byte: Some(out.byte),
        store: out.store,
    }
}

// IN.
pub fn handed(taken: Taken) -> Heard
    ensures { as_heard result ≡ handed_over taken }
{
    Heard {
        bus: taken.bus,
        byte: Some(taken.byte),
        store: None,
    }
}

// What a step is answered.
impl Chip {
    // Refused: the chip as it is.
    pub fn refused(self, why: Refusal) -> Stepped
        ensures { as_step result ≡ numbered (number_of why) self }
    {
        Stepped {
            chip: self,
            answer: Err(why),
        }
    }

    // Done, with no bus byte.
    pub fn done(self) -> Stepped
        ensures { as_step result ≡ numbered 0 self }
    {
        Stepped {
            chip: self,
            answer: Ok(None),
        }
    }

    // An OUT or IN done.
    fn answered(self, byte: u8) -> Stepped
        ensures { as_step result ≡ answered byte self }
    {
        Stepped {
            chip: self,
            answer: Ok(Some(byte)),
        }
    }

    // The outside level is looked at.
    fn watched(mut self) -> Self
        ensures { result ≡ watched self }
    {
        self.registers = self.registers.pulled_by_level();
        self
    }

    // An event done in NORMAL: the outside level is looked at.
    fn settled(self) -> Stepped
        ensures { as_step result ≡ settled (numbered 0 self) }
    {
        self.watched().done()
    }
}

impl Chip {
    pub fn por(self) -> Stepped
        ensures { as_step result ≡ happened Por self }
    {
        in_ship(self.setup).done()
    }

    pub fn boot(mut self) -> Stepped
        ensures { as_step result ≡ happened Boot self }
    {
        self.normal = true;
        self.settled()
    }

    // In NORMAL: one look over the counts stores, sums and judges.
    pub fn scanned(mut self, counts: [u16; 15]) -> Self
        ensures { result ≡ (normally (Scan (take (inputs self.setup) counts)) self).chip }
    {
        let s = self.registers.settings;
        let over = limits::over_line(s);
        let under = limits::under_line(s);
        let looked = cell_counts::look(counts, self.setup.inputs(), over, self.setup.floor, under);
        let judged = protection::scanned(self.runs, s, looked.over, looked.under);
        let stored = self.registers.scanned(looked.cells, looked.sum);
        self.registers = stored.raised(judged.risen);
        self.runs = judged.runs;
        self
    }

    pub fn scan(self, counts: [u16; 15]) -> Stepped
        ensures { as_step result ≡ stepped (Scan (take (inputs self.setup) counts)) self }
    {
        if !ranges::counts_in_range(counts, self.setup.inputs()) {
            return self.refused(Refusal::BadValue);
        }
        if !self.normal {
            return self.refused(Refusal::Asleep);
        }
        self.scanned(counts).settled()
    }

    // In NORMAL: one tick judged.
    pub fn sensed(self, value: i32) -> Judged
        ensures { result ≡ tick_judged self.registers.settings value self.runs }
    {
        protection::sensed(self.runs, self.registers.settings, value)
    }

    // What rises is shown, and puts off its drive.
    pub fn raised(mut self, risen: Faults) -> Self
        ensures { result ≡ raised_by risen self }
    {
        self.registers = self.registers.raised(risen);
        self
    }

    // One tick.
    pub fn sense(mut self, value: i32) -> Stepped
        ensures { as_step result ≡ stepped (Sense value) self }
    {
        if !ranges::sense_fits(value) {
            return self.refused(Refusal::BadValue);
        }
        if !self.normal {
            return self.refused(Refusal::Asleep);
        }
        let judged = self.sensed(value);
        self.runs = judged.runs;
        self.raised(judged.risen).settled()
    }

    // In NORMAL: ticks of one value judged by their number, and what is due at the last of them shown.
    fn judged_by(mut self, value: i32, repeat: u32) -> Self
        ensures { result ≡ ticked_by (ticks_judged repeat self.registers.settings value self.runs) self }
    {
        let judged = protection::ticked(self.runs, self.registers.settings, value, repeat);
        self.runs = judged.runs;
        self.raised(judged.risen)
    }

    // That many ticks of one value: their number is enough, whatever it is. After the first the outside level has nothing more to raise.
    pub fn ticked(self, value: i32, repeat: u32) -> Stepped
        ensures { as_step result ≡ ticked repeat value self }
    {
        if !self.normal {
            return self.refused(Refusal::Asleep);
        }
        if repeat == 0 {
            return self.done();
        }
        let first = self.judged_by(value, 1).watched();
        first.judged_by(value, repeat - 1).done()
    }

    // 1 to 4,096 ticks of one value.
    pub fn ticks(self, value: i32, repeat: u16) -> Stepped
        ensures { as_step result ≡ stepped_as (ticks ticks_most value repeat) self }
    {
        if !ranges::ticks_fit(range::TICKS_MOST, value, u32::from(repeat)) {
            return self.refused(Refusal::BadValue);
        }
        self.ticked(value, u32::from(repeat))
    }

    // 1 to 16,777,216 ticks of one value.
    pub fn soak(self, value: i32, repeat: u32) -> Stepped
        ensures { as_step result ≡ stepped_as (ticks soak_most value repeat) self }
    {
        if !ranges::ticks_fit(range::SOAK_MOST, value, repeat) {
            return self.refused(Refusal::BadValue);
        }
        self.ticked(value, repeat)
    }

    // In NORMAL: the counts of TEMP kept.
    pub fn warmed(mut self, counts: [u16; 15]) -> Self
        ensures { result ≡ (normally (Temp (take (groups self.setup) counts)) self).chip }
    {
        let ts = cell_counts::three(counts, self.setup.groups());
        self.registers = self.registers.warmed(ts);
        self
    }

    pub fn temp(self, counts: [u16; 15]) -> Stepped
        ensures { as_step result ≡ stepped (Temp (take (groups self.setup) counts)) self }
    {
        if !ranges::counts_in_range(counts, self.setup.groups()) {
            return self.refused(Refusal::BadValue);
        }
        if !self.normal {
            return self.refused(Refusal::Asleep);
        }
        self.warmed(counts).settled()
    }

    // An event that moves the registers alone: in SHIP it is refused.
    fn moved(mut self, registers: Registers) -> Stepped
        ensures { as_step result ≡ moved_to registers self }
    {
        if !self.normal {
            return self.refused(Refusal::Asleep);
        }
        self.registers = registers;
        self.settled()
    }

    pub fn count(self, cc: u16) -> Stepped
        ensures { as_step result ≡ happened (Count cc) self }
    {
        self.moved(self.registers.coulombs(cc))
    }

    pub fn pin(self) -> Stepped
        ensures { as_step result ≡ happened Pin self }
    {
        self.moved(self.registers.pulled())
    }

    pub fn load(self, level: bool) -> Stepped
        ensures { as_step result ≡ happened (Load level) self }
    {
        self.moved(self.registers.loaded(level))
    }

    pub fn level(self, level: bool) -> Stepped
        ensures { as_step result ≡ happened (Level level) self }
    {
        self.moved(self.registers.leveled(level))
    }

    pub fn xready(self) -> Stepped
        ensures { as_step result ≡ happened Xready self }
    {
        self.moved(self.registers.unready())
    }
}

// The bus.
impl Chip {
    // In NORMAL: what an event does to the bus, before a store.
    pub fn heard(self, event: BusEvent) -> Heard
        ensures { as_heard result ≡ heard_of event self }
    {
        match event {
            BusEvent::Start => unheard(self.bus.line.start(), self.bus),
            BusEvent::Out(byte) => sent(self.bus.line.out(self.setup, byte), self.bus),
            BusEvent::In(nack) => handed(self.fetched(nack, self.bus.wants())),
            BusEvent::Stop => unheard(self.bus.line.stop(), self.bus),
        }
    }

    // In NORMAL: the accepted write of a byte at an address; it may ship.
    pub fn wrote(mut self, at: u8, value: u8) -> Self
        ensures { result ≡ wrote at value self }
    {
        if self.registers.settings.ships(at, value) {
            return in_ship(self.setup);
        }
        self.registers = self.registers.write(self.setup, at, value);
        self.watched()
    }

    fn landed(self, store: Option<Write>) -> Self
        ensures { result ≡ landed store self }
    {
        match store {
            Some(Write { at, value }) => self.wrote(at, value),
            None => self.watched(),
        }
    }

    // The bus in SHIP: idle, even after START.
    pub fn doze(self, event: BusEvent) -> Stepped
        ensures { as_step result ≡ bus_asleep event self }
    {
        match event {
            BusEvent::Start | BusEvent::Stop => self.done(),
            BusEvent::Out(_) => self.answered(bus::NOT_ACKNOWLEDGED),
            BusEvent::In(_) => self.answered(bus::NOTHING_READ),
        }
    }

    fn on_bus(mut self, event: BusEvent) -> Stepped
        ensures { as_step result ≡ happened (OnBus event) self }
    {
        if !self.normal {
            return self.doze(event);
        }
        let heard = self.heard(event);
        self.bus = heard.bus;
        Stepped {
            chip: self.landed(heard.store),
            answer: Ok(heard.byte),
        }
    }

    pub fn start(self) -> Stepped
        ensures { as_step result ≡ happened (OnBus Start) self }
    {
        self.on_bus(BusEvent::Start)
    }

    pub fn stop(self) -> Stepped
        ensures { as_step result ≡ happened (OnBus Stop) self }
    {
        self.on_bus(BusEvent::Stop)
    }

    pub fn out(self, byte: u8) -> Stepped
        ensures { as_step result ≡ happened (OnBus (Out byte)) self }
    {
        self.on_bus(BusEvent::Out(byte))
    }

    // IN; `nack`: the host does not acknowledge.
    pub fn take(self, nack: bool) -> Stepped
        ensures { as_step result ≡ happened (OnBus (In nack)) self }
    {
        self.on_bus(BusEvent::In(nack))
    }

    // What the bus gives, once it is told the registers that it asks for.
    fn fetched(self, nack: bool, want: Option<u8>) -> Taken
        requires { want ≡ wanted self.bus }
        ensures { result ≡ taken_by nack self }
    {
        match want {
            Some(at) => {
                let pair = self.registers.pair(self.setup, at);
                self.bus.take(self.setup, pair.here, pair.low, nack)
            }
            None => self.bus.take(self.setup, 0, 0, nack),
        }
    }
}

// An event of any kind, made by hand.
impl Chip {
    // With counts that fit. SETUP and a wiring record are none for a chip that stands.
    fn happen(self, event: Event, counts: [u16; 15]) -> Stepped
        ensures { as_step result ≡ stepped_as (event_of self.setup event counts) self }
    {
        match event {
            Event::Setup(_) | Event::Wires(_) => self.refused(Refusal::BadKind),
            Event::Por => self.por(),
            Event::Boot => self.boot(),
            Event::Scan => self.scan(counts),
            Event::Temp => self.temp(counts),
            Event::Count(cc) => self.count(cc),
            Event::Sense(value) => self.sense(value),
            Event::Pin => self.pin(),
            Event::Load(level) => self.load(level),
            Event::Xready => self.xready(),
            Event::OnBus(bus) => self.on_bus(bus),
            Event::Level(level) => self.level(level),
            Event::Ticks(value, repeat) => self.ticks(value, repeat),
            Event::Soak(value, repeat) => self.soak(value, repeat),
        }
    }

    // With any counts: 2, then 3, then 4 (asleep), and a refused chip stays as it was.
    pub fn step(self, event: Event, counts: Counts) -> Stepped
        ensures { as_step result ≡ stepped_by event counts self }
    {
        let wanted = ranges::counts_wanted(self.setup, event);
        if !ranges::counts_fit(wanted, counts) {
            return self.refused(Refusal::BadKind);
        }
        self.happen(event, counts.of)
    }
}
