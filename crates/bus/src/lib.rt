// The bus as a value: what START, OUT, IN and STOP do to it. It knows no register.
#![tactic(auto)]

ghost use Rattle.std.specs.Prelude.{◌≡◌};
ghost use Rattle.bus.specs.Bus.{line_of, idle_bus, grown, goes, refuses, stores, is_high, started, stopped, addressed, fed, checked, outed, after_data, after_sum, next_byte, keeps, wanted, takes, gives};

use constants::address;
use crc8::crc_byte;
use events::Setup;

// What OUT gives back, and what IN gives where nothing is read.
pub const ACKNOWLEDGED: u8 = 0;

pub const NOT_ACKNOWLEDGED: u8 = 1;

pub const NOTHING_READ: u8 = 0xFF;

#[derive(Clone, Copy, Debug, PartialEq, Eq)]
pub enum Phase {
    Idle,
    // After START: the address byte comes.
    Address,
    // The pointer comes; the CRC so far.
    Pointing(u8),
    // A data byte comes; the CRC so far.
    Writing(u8),
    // This data byte waits for its CRC, which is this.
    Checking(u8, u8),
    // A data byte is given; the CRC so far, and whether it is the kept low byte.
    Reading(u8, bool),
    // The CRC of the byte given is next.
    Summing(bool),
}

// What the host's bytes alone move.
#[derive(Clone, Copy, Debug, PartialEq, Eq)]
pub struct Line {
    pub phase: Phase,
    pub pointer: u8,
}

// What depends on what registers held: the CRC of the byte given, and the low byte of its pair.
#[derive(Clone, Copy, Debug, PartialEq, Eq)]
pub struct Owed {
    pub sum: u8,
    pub low: u8,
}

#[derive(Clone, Copy, Debug, PartialEq, Eq)]
pub struct Bus {
    pub line: Line,
    pub owed: Owed,
}

// An accepted store of a value at an address.
#[derive(Clone, Copy, Debug, PartialEq, Eq)]
pub struct Write {
    pub at: u8,
    pub value: u8,
}

// What OUT does: the line after it, the acknowledgement and the byte that says it, and at most one accepted store. With `acked` beside the
// byte the compiler hands the result over as it is: without it, a record of a write takes some 25 instructions more.
#[derive(Clone, Copy, Debug, PartialEq, Eq)]
pub struct Outed {
    pub line: Line,
    pub acked: bool,
    pub byte: u8,
    pub store: Option<Write>,
}

// What IN does: the bus after it, and the byte given.
#[derive(Clone, Copy, Debug, PartialEq, Eq)]
pub struct Taken {
    pub bus: Bus,
    pub byte: u8,
}

// The address after one: 0xFF to 0x00.
pub fn grown(at: u8) -> u8
    ensures { result ≡ grown at }
{
    at.wrapping_add(1)
}

fn goes(phase: Phase, pointer: u8) -> Outed
    ensures { result ≡ goes phase pointer }
{
    Outed {
        line: Line { phase, pointer },
        acked: true,
        byte: ACKNOWLEDGED,
        store: None,
    }
}

fn refuses(pointer: u8) -> Outed
    ensures { result ≡ refuses pointer }
{
    Outed {
        line: Line {
            phase: Phase::Idle,
            pointer,
        },
        acked: false,
        byte: NOT_ACKNOWLEDGED,
        store: None,
    }
}

fn stores(at: u8, value: u8) -> Outed
    ensures { result ≡ stores at value }
{
    Outed {
        line: Line {
            phase: Phase::Writing(0),
            pointer: grown(at),
        },
        acked: true,
        byte: ACKNOWLEDGED,
        store: Some(Write { at, value }),
    }
}

// The address byte: the chip's address, and a last bit that is 1 for a read.
fn address_byte(setup: Setup, pointer: u8, byte: u8) -> Outed
    ensures { result ≡ addressed setup pointer byte }
{
    if byte / 2 != setup.address {
        return refuses(pointer);
    }
    let crc = crc_byte(0, byte);
    if byte % 2 == 0 {
        return goes(Phase::Pointing(crc), pointer);
    }
    goes(Phase::Reading(crc, false), pointer)
}

#[tactic(auto, unfolding(crate::specs::Bus::fed))]
fn write_byte(setup: Setup, crc: u8, pointer: u8, byte: u8) -> Outed
    ensures { result ≡ fed setup crc pointer byte }
{
    if setup.crc {
        return goes(Phase::Checking(byte, crc_byte(crc, byte)), pointer);
    }
    stores(pointer, byte)
}

#[tactic(auto, unfolding(crate::specs::Bus::checked))]
fn check_byte(value: u8, crc: u8, pointer: u8, byte: u8) -> Outed
    ensures { result ≡ checked value crc pointer byte }
{
    if byte == crc {
        return stores(pointer, value);
    }
    refuses(pointer)
}

impl Line {
    pub fn start(self) -> Self
        ensures { result ≡ started self }
    {
        Line {
            phase: Phase::Address,
            ..self
        }
    }

    pub fn stop(self) -> Self
        ensures { result ≡ stopped self }
    {
        Line {
            phase: Phase::Idle,
            ..self
        }
    }

    #[tactic(auto, unfolding(crate::specs::Bus::outed))]
    pub fn out(self, setup: Setup, byte: u8) -> Outed
        ensures { result ≡ outed setup self byte }
    {
        match self.phase {
            Phase::Address => address_byte(setup, self.pointer, byte),
            Phase::Pointing(s) => goes(Phase::Writing(crc_byte(s, byte)), byte),
            Phase::Writing(s) => write_byte(setup, s, self.pointer, byte),
            Phase::Checking(v, s) => check_byte(v, s, self.pointer, byte),
            _ => refuses(self.pointer),
        }
    }
}

// The high byte of a pair: even, 0x0C to 0x32.
fn is_high(at: u8) -> bool
    ensures { result ≡ is_high at }
{
    at % 2 == 0 && (address::VC1..=address::CC).contains(&at)
}

// After a data byte given.
#[tactic(auto, unfolding(crate::specs::Bus::after_data))]
fn after_data(crc: bool, at: u8, nack: bool) -> Phase
    ensures { result ≡ after_data crc at nack }
{
    if nack {
        return Phase::Idle;
    }
    if crc {
        return Phase::Summing(is_high(at));
    }
    Phase::Reading(0, is_high(at))
}

#[tactic(auto, unfolding(crate::specs::Bus::after_sum))]
fn after_sum(kept: bool, nack: bool) -> Phase
    ensures { result ≡ after_sum kept nack }
{
    if nack {
        return Phase::Idle;
    }
    Phase::Reading(0, kept)
}

// The byte that a read gives: the kept low byte, or what the register reads.
fn next_byte(kept: bool, low: u8, here: u8) -> u8
    ensures { result ≡ next_byte kept low here }
{
    if kept {
        return low;
    }
    here
}

// What a data byte given leaves owed: its CRC and, of a pair's high byte, the low byte.
#[tactic(auto, unfolding(crate::specs::Bus::keeps))]
fn owe(owed: Owed, crc: u8, kept: bool, at: u8, here: u8, low: u8) -> Owed
    ensures { result ≡ keeps owed crc kept at here low }
{
    Owed {
        sum: crc_byte(crc, next_byte(kept, owed.low, here)),
        low: if is_high(at) { low } else { owed.low },
    }
}

impl Bus {
    // What IN asks for before it is given: the register at an address and the one after it, or none, where a byte is owed already or
    // nothing is read.
    #[tactic(auto, unfolding(crate::specs::Bus::wanted))]
    pub fn wants(self) -> Option<u8>
        ensures { result ≡ wanted self }
    {
        match self.line.phase {
            Phase::Reading(_, _) => Some(self.line.pointer),
            _ => None,
        }
    }

    // IN, where the register at the pointer reads `here` and the one after it `low`; `nack`: the host does not acknowledge.
    #[tactic(auto, unfolding(crate::specs::Bus::taken, crate::specs::Bus::owing, crate::specs::Bus::byte_given))]
    pub fn take(self, setup: Setup, here: u8, low: u8, nack: bool) -> Taken
        ensures { result ≡ takes setup here low nack self }
    {
        let at = self.line.pointer;
        match self.line.phase {
            Phase::Reading(crc, kept) => gives(
                after_data(setup.crc, at, nack),
                grown(at),
                owe(self.owed, crc, kept, at, here, low),
                next_byte(kept, self.owed.low, here),
            ),
            Phase::Summing(kept) => gives(after_sum(kept, nack), at, self.owed, self.owed.sum),
            phase => gives(phase, at, self.owed, NOTHING_READ),
        }
    }
}

fn gives(phase: Phase, pointer: u8, owed: Owed, byte: u8) -> Taken
    ensures { result ≡ gives (line_of phase pointer) owed byte }
{
    Taken {
        bus: Bus {
            line: Line { phase, pointer },
            owed,
        },
        byte,
    }
}

// The bus on entering SHIP.
pub fn idle() -> Bus
    ensures { result ≡ idle_bus }
{
    Bus {
        line: Line {
            phase: Phase::Idle,
            pointer: 0,
        },
        owed: Owed { sum: 0, low: 0 },
    }
}
