// A chip that is kept as bytes, for C: what its registers hold, its voltages, and what forecasting, workshops and chargers ask. What these two ask of the chip that a
// stream leaves stands in `left`.
#![tactic(auto)]

ghost use Rattle.std.specs.Prelude.{◌≡◌};
ghost use Rattle.chip_bytes_layout.specs.Layout.{kept_of};
ghost use Rattle.constants.specs.Answer.{gives};
ghost use Rattle.values.specs.Said.{said, said_voltage};
ghost use Rattle.values_c.specs.Convert.{Gives};
ghost use Rattle.smart_battery.specs.Reply.{Replied};
ghost use Rattle.chip_c.specs.Asks.{Bled};
ghost use Rattle.chip_c.specs.Asked.{byte_or, chip_said, register_said, voltage_of, proposal_of, word_of, ReadOf};

use chip::Chip;
use constants::number;
use constants::refusal::Refusal;
use stream::forecast::put_reading;
use values::Microvolts;

mod left;

use left::{propose, reply_to};

// The chip that bytes keep, where one stands: 26 for bytes that are no chip, 9 for no chip yet.
fn standing(bytes: &[u8]) -> Result<Chip, Refusal>
    ensures { said result ≡ chip_said (kept_of bytes.now) }
{
    let kept = chip_bytes::decode(bytes).ok_or(Refusal::NoChip)?;
    if kept.chip.setup.part == 0 {
        return Err(Refusal::CutShort);
    }
    Ok(kept.chip)
}

// What an address holds, the bus undisturbed: 3 for an address above 0xFF.
fn register_of(bytes: &[u8], address: u32) -> Result<u8, Refusal>
    ensures { said result ≡ register_said (kept_of bytes.now) address }
{
    let chip = standing(bytes)?;
    let address = u8::try_from(address).map_err(|_| Refusal::BadValue)?;
    Ok(chip.registers.read(chip.setup, address))
}

// What an address holds, the bus undisturbed. Answers 0, or with nothing written 26 for bytes that are no chip, 9 for no chip yet, 3 for an address above 0xFF.
#[unsafe(no_mangle)]
pub extern "C" fn toralinge_register(chip: &[u8], address: u32, value: &mut u8) -> u8
    ensures { Gives (register_said (kept_of chip.now) address) value.old result value.new }
{
    values::give(register_of(chip, address), value)
}

// A number of 32 bits as a byte; 0, which is no cell, where it is too large.
fn byte_or_none(n: u32) -> u8
    ensures { result ≡ byte_or n }
{
    u8::try_from(n).unwrap_or(0)
}

// The voltage of a cell of the pack.
#[tactic(auto, using(crate::proofs::Wide::cell_wide))]
fn voltage_of(bytes: &[u8], cell: u32) -> Result<Microvolts, Refusal>
    ensures { said_voltage result ≡ voltage_of (kept_of bytes.now) cell }
{
    let chip = standing(bytes)?;
    chip_voltage::voltage(chip, byte_or_none(cell))
}

// The voltage of a cell of the pack. Answers 0, or with nothing written 26, 9, 4 asleep, 6 no such cell, 10 not connected.
#[unsafe(no_mangle)]
pub extern "C" fn toralinge_voltage(chip: &[u8], cell: u32, microvolts: &mut i64) -> u8
    ensures { Gives (voltage_of (kept_of chip.now) cell) microvolts.old result microvolts.new }
{
    let answer = voltage_of(chip, cell);
    values::give(answer.map(|v: Microvolts| v.0), microvolts)
}

// A proposal of the three CELLBAL bytes. Answers 0, or with nothing written 26, 9, 3 for the margin, 4 asleep, 10 where no cell is connected, 5 for room below 3.
#[unsafe(no_mangle)]
pub extern "C" fn toralinge_bleed_of(chip: &[u8], margin: u32, cellbal: &mut [u8]) -> u8
    ensures { Bled (proposal_of (kept_of chip.now) margin) cellbal.old result cellbal.new }
{
    match standing(chip) {
        Ok(chip) => propose(chip, margin, cellbal)
            .err()
            .map_or(number::DONE, Refusal::number),
        Err(why) => why.number(),
    }
}

// The reply to a Smart Battery command: low byte, high byte and the PEC. Answers 0, or with nothing written 26, 9, 23 another command, 3 for the resistor, 4, 12, 10,
// 11, 5.
#[unsafe(no_mangle)]
pub extern "C" fn toralinge_reply_of(
    chip: &[u8],
    command: u32,
    milliohms: u32,
    reply: &mut [u8],
) -> u8
    ensures { Replied (word_of (kept_of chip.now) command milliohms) command reply.old result reply.new }
{
    match standing(chip) {
        Ok(chip) => reply_to(chip, command, milliohms, reply),
        Err(why) => why.number(),
    }
}

// Forecasting's four doubles. Answers 0, or with nothing written 26, 9, 4 asleep, 10 where no cell is connected, 5 for room below 4.
#[unsafe(no_mangle)]
pub extern "C" fn toralinge_reading_of(chip: &[u8], reading: &mut [f64]) -> u8
    ensures { ReadOf (kept_of chip.now) reading.old result reading.new }
{
    match standing(chip) {
        Ok(chip) => put_reading(chip, reading)
            .err()
            .map_or(number::DONE, Refusal::number),
        Err(why) => why.number(),
    }
}
