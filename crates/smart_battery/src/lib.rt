// Smart Battery words: the replies that a charger is given to Temperature(), Voltage() and Current().
#![tactic(auto)]

ghost use Rattle.std.specs.Prelude.{◌≡◌, ◌<◌, ◌≤◌};
ghost use Rattle.constants.specs.Answer.{gives, number_said};
ghost use Rattle.values.specs.Said.{said};
ghost use Rattle.smart_battery.specs.Words.{milliohms_most, unsigned_said, signed_said, kelvins, millivolts, milliamps, asked_for, word_for};
ghost use Rattle.smart_battery.specs.Reply.{pec_of, Replied};

use constants::number;
use constants::refusal::Refusal;
use values::Microvolts;

// The Smart Battery commands that are answered.
pub const TEMPERATURE: u8 = 0x08;

pub const VOLTAGE: u8 = 0x09;

pub const CURRENT: u8 = 0x0A;

const HUNDREDTHS: i64 = 100;

// The die's count in two-hundredths of a tenth of a kelvin: a count's worth, and what stands at count 0.
const DIE_STEP: u32 = 177;

const DIE_ZERO: u32 = 1226300;

const DIE_TENTH: u32 = 200;

const MICROVOLTS_A_MILLIVOLT: u64 = 1000;

// The largest sense resistor.
const MILLIOHMS_MOST: u32 = 100;

// The address byte of a battery, written and read.
const TO_BATTERY: u8 = 0x16;

const FROM_BATTERY: u8 = 0x17;

const REPLY_SIZE: usize = 3;

// What a reply is made of: TEMP_SEL and the count of TS1, whether a cell is connected, and the coulomb counter's reading.
#[derive(Clone, Copy, Debug, PartialEq, Eq)]
pub struct Pack {
    pub normal: bool,
    pub external: bool,
    pub warmth: u16,
    pub connected: bool,
    pub cc: u16,
}

// Temperature() in tenths of a kelvin: a die value that comes to less than 0 has none.
fn temperature(count: u16) -> Result<u16, Refusal>
    ensures { said result ≡ unsigned_said (kelvins count) }
{
    let above = DIE_ZERO
        .checked_sub(DIE_STEP * u32::from(count))
        .ok_or(Refusal::NoFit)?;
    Ok((above / DIE_TENTH) as u16)
}

// Voltage() in mV.
fn voltage(total: Microvolts) -> Result<u16, Refusal>
    ensures { said result ≡ unsigned_said (millivolts total.0) }
{
    let microvolts = u64::try_from(total.0).map_err(|_| Refusal::NoFit)?;
    u16::try_from(microvolts / MICROVOLTS_A_MILLIVOLT).map_err(|_| Refusal::NoFit)
}

// Current() in mA, the word of a signed number.
fn current(cc: u16, milliohms: u32) -> Result<u16, Refusal>
    requires { (0 < milliohms) × (milliohms ≤ milliohms_most) }
    ensures { said result ≡ signed_said (milliamps cc milliohms) }
{
    let ma = values::cc_hundredths(cc) / (HUNDREDTHS * i64::from(milliohms));
    let word = i16::try_from(ma).map_err(|_| Refusal::NoFit)?;
    Ok(word.cast_unsigned())
}

// The word of a command that is known, of a pack that is awake.
fn asked(pack: Pack, total: Microvolts, command: u8, milliohms: u32) -> Result<u16, Refusal>
    requires { (0 < milliohms) × (milliohms ≤ milliohms_most) }
    ensures { said result ≡ asked_for pack total.0 command milliohms }
{
    match command {
        TEMPERATURE => {
            if pack.external {
                return Err(Refusal::External);
            }
            temperature(pack.warmth)
        }
        VOLTAGE => {
            if !pack.connected {
                return Err(Refusal::NotConnected);
            }
            voltage(total)
        }
        _ => current(pack.cc, milliohms),
    }
}

// The word of a command, or what refuses it.
pub fn word_for(pack: Pack, total: Microvolts, command: u8, milliohms: u32) -> Result<u16, Refusal>
    ensures { said result ≡ word_for pack total.0 command milliohms }
{
    if !matches!(command, TEMPERATURE | VOLTAGE | CURRENT) {
        return Err(Refusal::BadCommand);
    }
    if !(1..=MILLIOHMS_MOST).contains(&milliohms) {
        return Err(Refusal::BadValue);
    }
    if !pack.normal {
        return Err(Refusal::Asleep);
    }
    asked(pack, total, command, milliohms)
}

// The packet error code of a reply: over the address written, the command, the address read and both data bytes.
fn pec_of(command: u8, low: u8, high: u8) -> u8
    ensures { result ≡ pec_of command low high }
{
    crc8::crc_on(0, &[TO_BATTERY, command, FROM_BATTERY, low, high])
}

// The reply written, where it fits: low byte, high byte and the packet error code.
fn put_reply(out: &mut [u8], command: u8, word: u16) -> Result<(), Refusal>
    ensures { Replied (gives word) command out.old (number_said (said result)) out.new }
{
    if out.len() < REPLY_SIZE {
        return Err(Refusal::NoRoom);
    }
    let [low, high] = word.to_le_bytes();
    out[..REPLY_SIZE].copy_from_slice(&[low, high, pec_of(command, low, high)]);
    Ok(())
}

// The reply to a command, or with nothing written what refuses it.
fn replied(
    pack: Pack,
    total: Microvolts,
    command: u8,
    milliohms: u32,
    out: &mut [u8],
) -> Result<(), Refusal>
    ensures { Replied (word_for pack total.0 command milliohms) command out.old (number_said (said result)) out.new }
{
    let word = word_for(pack, total, command, milliohms)?;
    put_reply(out, command, word)
}

// The reply to a command. Answers 0, or with nothing written the number that refuses it.
pub fn reply(pack: Pack, total: Microvolts, command: u8, milliohms: u32, out: &mut [u8]) -> u8
    ensures { Replied (word_for pack total.0 command milliohms) command out.old result out.new }
{
    replied(pack, total, command, milliohms, out)
        .err()
        .map_or(number::DONE, Refusal::number)
}
