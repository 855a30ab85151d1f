// CHIP V1 to V8: exact conversions of what the chip counts.
#![tactic(auto)]

ghost use Rattle.std.specs.Prelude.{◌≡◌, ◌^◌, ◌+◌, ◌*◌, ◌≤◌, ◌<◌, nat_abs, pos};
ghost use Rattle.constants.specs.Answer.{number_said, value_said};
ghost use Rattle.values.specs.Values.{gain, offset_microvolts, cell_microvolts, microvolts_by, cell_said, cc_hundredths, ohms_said, die_said, full, threshold_said, over_said, under_said, up};
ghost use Rattle.values.specs.Double.{IsDouble};
ghost use Rattle.values.specs.Forecast.{IsReading};
ghost use Rattle.values.specs.Said.{gain_fits, count_fits, said, said_voltage};

use constants::range;
use constants::refusal::Refusal;

// In microvolts: the gain of code 0, a step of the offset; in hundredths of a microvolt a step of the coulomb counter.
const GAIN_LEAST: u64 = 344;

const OFFSET_STEP: i64 = 1000;

const CC_STEP: i64 = 844;

// The thermistor's divider: its gain, its pull-up, and the first count at which it is open.
const THERMISTOR_GAIN: u64 = 354;

const PULL_UP_OHMS: u64 = 10000;

const PULL_UP_MICROVOLTS: u64 = 3300000;

const THERMISTOR_END: u16 = 9323;

// The die, in half thousandths of a degree: at count 0, and what a count takes off.
const DIE_ZERO: i64 = 680000;

const DIE_STEP: i64 = 177;

// The windows of the two thresholds, in counts, and what a code adds.
const OV_WINDOW: u64 = 8192;

const OV_WINDOW_LAST: u64 = 12287;

const UV_WINDOW: u64 = 4096;

const UV_WINDOW_LAST: u64 = 8191;

const TRIP_STEP: u64 = 16;

// No gain and offset take a voltage outside these to either window.
const WANTED_LEAST: i64 = 1000000;

const WANTED_MOST: i64 = 5000000;

// Two units: what the chip counts, and what the formula makes of a count.
#[derive(Clone, Copy, Debug, PartialEq, Eq)]
pub struct RawCount(pub u16);

#[derive(Clone, Copy, Debug, PartialEq, Eq)]
pub struct Microvolts(pub i64);

// A gain code that is too large refuses.
fn gain_fits(code: u8) -> Result<(), Refusal>
    ensures { result ≡ gain_fits code }
{
    if code > range::GAIN_CODE_MOST {
        return Err(Refusal::BadSetup);
    }
    Ok(())
}

// A count, if it is one.
fn count_fits(count: RawCount) -> Result<u16, Refusal>
    ensures { result ≡ count_fits count.0 }
{
    if count.0 > range::COUNT_MOST {
        return Err(Refusal::BadValue);
    }
    Ok(count.0)
}

// What so many counts are worth at a gain code.
fn counted(code: u8, counts: u32) -> i64
    ensures { result ≡ pos (gain code * counts) }
{
    ((GAIN_LEAST + u64::from(code)) * u64::from(counts)).cast_signed()
}

// What the offset adds.
fn offset_microvolts(offset: u8) -> i64
    ensures { result ≡ offset_microvolts offset }
{
    OFFSET_STEP * i64::from(offset.cast_signed())
}

// The formula with nothing refused: no gain code and no count takes an i64 near its ends.
fn cell(code: u8, offset: u8, count: u16) -> i64
    ensures { result ≡ cell_microvolts code offset count }
{
    counted(code, u32::from(count)) + offset_microvolts(offset)
}

// The same in its unit, for a chip whose setup and counts were judged before.
pub fn cell_microvolts(code: u8, offset: u8, count: RawCount) -> Microvolts
    ensures { result.0 ≡ cell_microvolts code offset count.0 }
{
    Microvolts(cell(code, offset, count.0))
}

// The sum of a cell's microvolts over scans: a count's worth for each count of their sum, and the offset once a scan.
pub fn microvolts_by(gain_code: u8, offset: u8, scans: u32, sum: u32) -> Microvolts
    ensures { result.0 ≡ microvolts_by gain_code offset scans sum }
{
    Microvolts(counted(gain_code, sum) + i64::from(scans) * offset_microvolts(offset))
}

// A cell's voltage on bare numbers, which are judged.
pub fn cell_voltage(code: u8, offset: u8, count: RawCount) -> Result<Microvolts, Refusal>
    ensures { said_voltage result ≡ cell_said code offset count.0 }
{
    gain_fits(code)?;
    let n = count_fits(count)?;
    Ok(Microvolts(cell(code, offset, n)))
}

// The coulomb counter's reading in hundredths of a microvolt.
pub fn cc_hundredths(reading: u16) -> i64
    ensures { result ≡ cc_hundredths reading }
{
    i64::from(reading.cast_signed()) * CC_STEP
}

// A thermistor's resistance, rounded down: from 9,323 counts up there is none.
pub fn thermistor_ohms(count: RawCount) -> Result<u64, Refusal>
    ensures { said result ≡ ohms_said count.0 }
{
    if count.0 >= THERMISTOR_END {
        return Err(Refusal::OpenSensor);
    }
    let v = THERMISTOR_GAIN * u64::from(count.0);
    Ok(PULL_UP_OHMS * v / (PULL_UP_MICROVOLTS - v))
}

// The die's temperature in half thousandths of a degree C.
pub fn die_temperature(count: RawCount) -> Result<i64, Refusal>
    ensures { said result ≡ die_said count.0 }
{
    let n = count_fits(count)?;
    Ok(DIE_ZERO - DIE_STEP * i64::from(n))
}

// What forecasting gets: each double is the whole number.
#[repr(C)]
#[derive(Clone, Copy, Debug, PartialEq)]
pub struct Reading {
    pub least: f64,
    pub greatest: f64,
    pub total: f64,
    pub cc: f64,
}

// A whole number of at most 2^53 as a double: the cast loses nothing.
fn doubled(v: i64) -> f64
    requires { nat_abs v ≤ 2 ^ 53 }
    ensures { IsDouble result v }
{
    v as f64
}

// The reading of the first `many` cells.
pub fn forecast(code: u8, offset: u8, many: u8, counts: [u16; 15], cc: u16) -> Reading
    ensures { IsReading code offset many counts cc result }
{
    let mut least = cell(code, offset, counts[0]);
    let mut greatest = least;
    let mut total: i64 = 0;
    for count in &counts[..usize::from(many).min(15)] {
        let v = cell(code, offset, *count);
        least = least.min(v);
        greatest = greatest.max(v);
        total += v;
    }
    Reading {
        least: doubled(least),
        greatest: doubled(greatest),
        total: doubled(total),
        cc: doubled(cc_hundredths(cc)),
    }
}

// The count that a voltage is, rounded down, before the window is looked at.
fn full_count(code: u8, offset: u8, wanted: i64) -> u64
    requires code_bound { code < 32 }
    requires bound { (1000000 ≤ up wanted) × (up wanted ≤ 5000000) }
    ensures { pos result ≡ full code offset wanted }
{
    (wanted - offset_microvolts(offset)) as u64 / (GAIN_LEAST + u64::from(code))
}

// The threshold's code for a wanted voltage, in the window from start to last. No gain and offset take a voltage below 1,000,000 or above 5,000,000 to either window.
fn threshold(start: u64, last: u64, code: u8, offset: u8, wanted: i64) -> Result<u8, Refusal>
    requires le_start { (4096 ≤ start) × (start ≤ 8192) }
    requires last_bound { (last ≤ start + 4095) × (last ≤ 12287) }
    ensures { said result ≡ threshold_said start last code offset wanted }
{
    gain_fits(code)?;
    if !(WANTED_LEAST..=WANTED_MOST).contains(&wanted) {
        return Err(Refusal::NoCode);
    }
    let full = full_count(code, offset, wanted);
    if !(start..=last).contains(&full) {
        return Err(Refusal::NoCode);
    }
    Ok(((full - start) / TRIP_STEP) as u8)
}

// The OV_TRIP code for a wanted over-voltage.
pub fn over_voltage_code(code: u8, offset: u8, wanted: Microvolts) -> Result<u8, Refusal>
    ensures { said result ≡ over_said code offset wanted.0 }
{
    threshold(OV_WINDOW, OV_WINDOW_LAST, code, offset, wanted.0)
}

// The UV_TRIP code for a wanted under-voltage.
pub fn under_voltage_code(code: u8, offset: u8, wanted: Microvolts) -> Result<u8, Refusal>
    ensures { said result ≡ under_said code offset wanted.0 }
{
    threshold(UV_WINDOW, UV_WINDOW_LAST, code, offset, wanted.0)
}

// What is given for an answer: 0 and the value, or the number that refuses, with the value left alone.
pub fn give<T: Copy>(answer: Result<T, Refusal>, value: &mut T) -> u8
    ensures number { result ≡ number_said (said answer) }
    ensures contents { value.new ≡ value_said (said answer) value.old }
{
    match answer {
        Ok(v) => {
            *value = v;
            0
        }
        Err(why) => why.number(),
    }
}
