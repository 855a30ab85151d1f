// CHIP P17 and P18: what raised a bit of SYS_STAT, by its weight, and which of the four faults it stands for; which bits hold a drive off. Nothing of a stream.
#![tactic(auto)]

ghost use Rattle.std.specs.Prelude.{◌≡◌, ◌≤◌};
ghost use Rattle.causes.specs.Cause.{cause_number, cause_of, fault_of, known};
ghost use Rattle.causes.specs.Hold.{drive_of, held_bit, held_by};

use constants::weight;
use events::Fault;

// What raises a bit.
#[derive(Clone, Copy, Debug, PartialEq, Eq)]
pub enum Cause {
    Scans,
    Ticks,
    Pin,
    Level,
    Xready,
    Count,
}

impl Cause {
    // The number that stands for it in a row.
    pub fn number(self) -> u32
        ensures { result ≡ cause_number self }
    {
        match self {
            Cause::Scans => 1,
            Cause::Ticks => 2,
            Cause::Pin => 3,
            Cause::Level => 4,
            Cause::Xready => 5,
            Cause::Count => 6,
        }
    }
}

// The fault that a bit stands for, and none for a bit that no scan and no tick raises.
pub fn fault_of(bit: u8) -> Option<Fault>
    ensures { result ≡ fault_of bit }
{
    match bit {
        weight::OV => Some(Fault::Ov),
        weight::UV => Some(Fault::Uv),
        weight::SCD => Some(Fault::Scd),
        weight::OCD => Some(Fault::Ocd),
        _ => None,
    }
}

// What raised a bit: of OVRD_ALERT a PIN or the outside level.
pub fn cause_of(bit: u8, pin: bool) -> Cause
    ensures { cause_number result ≡ cause_of bit pin }
{
    match bit {
        weight::OV | weight::UV => Cause::Scans,
        weight::SCD | weight::OCD => Cause::Ticks,
        weight::XREADY => Cause::Xready,
        weight::CC_READY => Cause::Count,
        _ if pin => Cause::Pin,
        _ => Cause::Level,
    }
}

// The weight of one of the seven bits of SYS_STAT, and none for another number.
pub fn known_bit(bit: u32) -> Option<u8>
    ensures { result ≡ known bit }
{
    match u8::try_from(bit).ok()? {
        b @ (weight::OCD
        | weight::SCD
        | weight::OV
        | weight::UV
        | weight::OVRD_ALERT
        | weight::XREADY
        | weight::CC_READY) => Some(b),
        _ => None,
    }
}

fn held_bit(stat: u8, w: u8) -> u8
    ensures { (result ≡ held_bit stat w) × (result ≤ w) }
{
    bits::weigh(bits::bit(stat, w), w)
}

// The bits of SYS_STAT that hold a drive off (CHIP J13).
pub fn held_by(stat: u8, drive: u8) -> u8
    ensures { result ≡ held_by stat drive }
{
    let both = held_bit(stat, weight::OVRD_ALERT) + held_bit(stat, weight::XREADY);
    match drive {
        weight::PIN_CHG => both + held_bit(stat, weight::OV),
        _ => both
            + held_bit(stat, weight::UV)
            + held_bit(stat, weight::SCD)
            + held_bit(stat, weight::OCD),
    }
}

// The pin of a drive, and none for another number.
pub fn drive_of(drive: u32) -> Option<u8>
    ensures { result ≡ drive_of drive }
{
    match u8::try_from(drive).ok()? {
        pin @ (weight::PIN_DSG | weight::PIN_CHG) => Some(pin),
        _ => None,
    }
}
