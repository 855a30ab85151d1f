// What leaves the chip as a voltage, with the offset added once: a cell, forecasting's reading; in `services` what workshops and chargers ask, in `row` the row of a scan.
#![tactic(auto)]

ghost use Rattle.std.specs.Prelude.{◌≡◌};
ghost use Rattle.values.specs.Said.{said_voltage};
ghost use Rattle.wiring.specs.Rows.{linked_bits};
ghost use Rattle.chip_voltage.specs.Voltage.{awake, voltage_said, Forecasts};

use chip::Chip;
use constants::refusal::Refusal;
use values::{Microvolts, RawCount, Reading};

pub mod row;
pub mod services;

// A sleeping chip refuses.
fn awake(chip: Chip) -> Result<(), Refusal>
    ensures { result ≡ awake chip }
{
    if !chip.normal {
        return Err(Refusal::Asleep);
    }
    Ok(())
}

// The voltage of a cell of the pack, 1 to as many as it has: as the part has inputs where there is no wiring record.
#[tactic(auto, unfolding(crate::specs::Voltage::voltage_said))]
pub fn voltage(chip: Chip, cell: u8) -> Result<Microvolts, Refusal>
    ensures { said_voltage result ≡ voltage_said cell chip }
{
    awake(chip)?;
    if !(1..=wiring::cells(chip.setup)).contains(&cell) {
        return Err(Refusal::NoCell);
    }
    let input = wiring::input_of(chip.setup, cell);
    let count = chip.registers.measured.cell(chip.setup, input - 1);
    if !wiring::converts(chip.setup, count) {
        return Err(Refusal::NotConnected);
    }
    Ok(values::cell_microvolts(chip.setup.gain_code, chip.setup.offset, RawCount(count)))
}

// The connected inputs, input 1 the lowest bit, by the counts in the registers.
pub fn linked(chip: Chip) -> u16
    ensures { result ≡ linked_bits chip.setup chip.registers.measured.cells }
{
    wiring::linked(chip.setup, chip.registers.measured.cells)
}

// Forecasting's reading, of the connected cells.
pub fn forecast(chip: Chip) -> Result<Reading, Refusal>
    ensures { Forecasts chip result }
{
    awake(chip)?; // Before a pack with no cell connected.
    let pack = wiring::link(chip.setup, chip.registers.measured.cells);
    if pack.many == 0 {
        return Err(Refusal::NotConnected);
    }
    Ok(values::forecast(
        chip.setup.gain_code,
        chip.setup.offset,
        pack.many,
        pack.of,
        chip.registers.measured.cc,
    ))
}
