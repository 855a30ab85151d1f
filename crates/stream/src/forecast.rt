// Forecasting's call: a stream's reading in doubles.
ghost use Rattle.std.specs.Prelude.{◌≡◌};
ghost use Rattle.stream.specs.Forecast.{Put, Read4};

use chip::Chip;
use constants::refusal::Refusal;
use constants::{number, size};
use stream_run::last_chip;

// A chip's reading put, where it fits: least, greatest and total cell µV and CC in hundredths of a µV. Nothing is written where it refuses: asleep, then no cell
// connected, then no room.
pub fn put_reading(chip: Chip, out: &mut [f64]) -> Result<(), Refusal>
    ensures { Put chip out.old result out.new }
{
    let given = chip_voltage::forecast(chip)?;
    if out.len() < size::READING {
        return Err(Refusal::NoRoom);
    }
    out[..size::READING].copy_from_slice(&[given.least, given.greatest, given.total, given.cc]);
    Ok(())
}

// Plays a whole stream and gives least, greatest and total cell µV and CC in hundredths of a µV of the chip that stands at its end.
// Answers 0, or with nothing written the first record's number where no chip stands, 4 asleep, 10 where no cell is connected, then 5 for room below 4.
#[unsafe(no_mangle)]
pub extern "C" fn toralinge_reading(stream: &[u8], reading: &mut [f64]) -> u8
    ensures { Read4 stream.now reading.old result reading.new }
{
    let chip = last_chip(stream);
    if chip.setup.part == 0 {
        return records::first_number(stream);
    }
    put_reading(chip, reading)
        .err()
        .map_or(number::DONE, Refusal::number)
}
