// What the chip is set up with, and what can happen to it.
#![tactic(auto)]

ghost use Rattle.std.specs.Prelude.{◌≡◌};
ghost use Rattle.constants.specs.Range.{PART_MOST, ADDRESS_LEAST, ADDRESS_MOST};
ghost use Rattle.events.specs.Event.{beside_of};
ghost use Rattle.events.specs.Role.{role_of};
ghost use Rattle.events.specs.Setup.{between, checked_of, inputs, groups};

use constants::range;
use constants::refusal::Refusal;

#[derive(Clone, Copy, Debug, PartialEq, Eq)]
pub struct Setup {
    pub part: u8,
    pub crc: bool,
    pub address: u8,
    pub gain_code: u8,
    pub offset: u8,
    pub floor: u16,
    // How many cells a wiring record gave the pack (CHIP W3); 0 where there is none.
    pub cells: u8,
}

// What the host does on the bus. IN holds whether the host does not acknowledge.
#[derive(Clone, Copy, Debug, PartialEq, Eq)]
pub enum BusEvent {
    Start,
    Out(u8),
    In(bool),
    Stop,
}

// What happens to the chip. The counts of a SCAN or TEMP stand beside it.
#[derive(Clone, Copy, Debug, PartialEq, Eq)]
pub enum Event {
    Setup(Setup),
    Por,
    Boot,
    Scan,
    Temp,
    Count(u16),
    Sense(i32),
    Pin,
    Load(bool),
    Xready,
    OnBus(BusEvent),
    // The outside level: a second protector holds ALERT up, or lets go.
    Level(bool),
    // That many ticks of one value (CHIP R8).
    Ticks(i32, u16),
    // The same with a longer repeat number.
    Soak(i32, u32),
    // The number of cells of a pack.
    Wires(u8),
}

// How many counts there are, and the counts: input 1 first, 0 from the first place that is not used.
#[derive(Clone, Copy, Debug, Default, PartialEq, Eq)]
pub struct Counts {
    pub many: u8,
    pub of: [u16; 15],
}

// Which counts stand beside an event: one for each input, one for each group of five, or none.
#[derive(Clone, Copy, Debug, PartialEq, Eq)]
pub enum Beside {
    Inputs,
    Groups,
    Nothing,
}

// What an event's record does: SETUP makes a chip, a wiring record makes it anew with that many cells, every other event happens to it.
#[derive(Clone, Copy, Debug, PartialEq, Eq)]
pub enum Role {
    Makes(Setup),
    Rewires(u8),
    Happens,
}

// The four faults that wait for a delay.
#[derive(Clone, Copy, Debug, PartialEq, Eq)]
pub enum Fault {
    Ov,
    Uv,
    Scd,
    Ocd,
}

// One of a kind for each of the four.
#[derive(Clone, Copy, Debug, Default, PartialEq, Eq)]
pub struct PerFault<T> {
    pub ov: T,
    pub uv: T,
    pub scd: T,
    pub ocd: T,
}

// An answer for each.
pub type Faults = PerFault<bool>;

// Whether there is such a part.
fn part_fits(part: u8) -> bool
    ensures { result ≡ between 1 PART_MOST part }
{
    (1..=range::PART_MOST).contains(&part)
}

// Whether a chip may have this address.
fn address_fits(address: u8) -> bool
    ensures { result ≡ between ADDRESS_LEAST ADDRESS_MOST address }
{
    (range::ADDRESS_LEAST..=range::ADDRESS_MOST).contains(&address)
}

// Six numbers as a setup, where each is in its range.
#[tactic(auto, unfolding(crate::specs::Setup::checked_of))]
pub fn setup_of(
    part: u8,
    crc: u8,
    address: u8,
    gain: u8,
    offset: u8,
    floor: u16,
) -> Result<Setup, Refusal>
    ensures { result ≡ checked_of part crc address gain offset floor }
{
    let good = part_fits(part)
        && crc <= 1
        && address_fits(address)
        && gain <= range::GAIN_CODE_MOST
        && floor <= range::FLOOR_MOST;
    if !good {
        return Err(Refusal::BadSetup);
    }
    Ok(Setup {
        part,
        crc: crc == 1,
        address,
        gain_code: gain,
        offset,
        floor,
        cells: 0,
    })
}

// Which counts stand beside an event.
pub fn beside_of(event: Event) -> Beside
    ensures { result ≡ beside_of event }
{
    match event {
        Event::Scan => Beside::Inputs,
        Event::Temp => Beside::Groups,
        _ => Beside::Nothing,
    }
}

// What an event's record does.
pub fn role_of(event: Event) -> Role
    ensures { result ≡ role_of event }
{
    match event {
        Event::Setup(setup) => Role::Makes(setup),
        Event::Wires(cells) => Role::Rewires(cells),
        _ => Role::Happens,
    }
}

impl Setup {
    // How many groups of five inputs the part has: at most three.
    #[tactic(auto, unfolding(crate::specs::Setup::groups))]
    pub fn groups(self) -> u8
        ensures { result ≡ groups self }
    {
        self.part.min(range::PART_MOST)
    }

    // How many cell inputs the part has.
    #[tactic(auto, unfolding(crate::specs::Setup::groups, crate::specs::Setup::inputs))]
    pub fn inputs(self) -> u8
        ensures { result ≡ inputs self }
    {
        range::GROUP_INPUTS * self.groups()
    }
}
