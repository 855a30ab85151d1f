// The conversions on bare numbers, for C: 0 or the number that refuses, with the value left alone then.
#![tactic(auto)]

ghost use Rattle.std.specs.Prelude.{◌≡◌};
ghost use Rattle.values.specs.Values.{cell_said, ohms_said, die_said, over_said, under_said, cc_hundredths};
ghost use Rattle.crc8.specs.Crc.{crc_on};
ghost use Rattle.values_c.specs.Convert.{clipped, Gives};

use values::{Microvolts, RawCount};

// A gain code, or the most that a byte can be, which is none, for every larger number.
fn code_of(n: u32) -> u8
    ensures { result ≡ clipped 255 n }
{
    u8::try_from(n).unwrap_or(255)
}

// A count, or the most that 16 bits can be, which is none, for every larger number.
fn count_of(n: u32) -> u16
    ensures { result ≡ clipped 65535 n }
{
    u16::try_from(n).unwrap_or(65535)
}

#[unsafe(no_mangle)]
pub extern "C" fn toralinge_cell_microvolts(
    gain_code: u32,
    offset: u8,
    count: u32,
    microvolts: &mut i64,
) -> u8
    ensures { Gives (cell_said gain_code offset count) microvolts.old result microvolts.new }
{
    let answer = values::cell_voltage(code_of(gain_code), offset, RawCount(count_of(count)));
    values::give(answer.map(|v: Microvolts| v.0), microvolts)
}

#[unsafe(no_mangle)]
pub extern "C" fn toralinge_thermistor_ohms(count: u32, ohms: &mut u64) -> u8
    ensures { Gives (ohms_said count) ohms.old result ohms.new }
{
    values::give(values::thermistor_ohms(RawCount(count_of(count))), ohms)
}

#[unsafe(no_mangle)]
pub extern "C" fn toralinge_die_temperature(count: u32, half_thousandths: &mut i64) -> u8
    ensures { Gives (die_said count) half_thousandths.old result half_thousandths.new }
{
    values::give(
        values::die_temperature(RawCount(count_of(count))),
        half_thousandths,
    )
}

#[unsafe(no_mangle)]
pub extern "C" fn toralinge_over_voltage_code(
    gain_code: u32,
    offset: u8,
    wanted: i64,
    code: &mut u8,
) -> u8
    ensures { Gives (over_said gain_code offset wanted) code.old result code.new }
{
    values::give(
        values::over_voltage_code(code_of(gain_code), offset, Microvolts(wanted)),
        code,
    )
}

#[unsafe(no_mangle)]
pub extern "C" fn toralinge_under_voltage_code(
    gain_code: u32,
    offset: u8,
    wanted: i64,
    code: &mut u8,
) -> u8
    ensures { Gives (under_said gain_code offset wanted) code.old result code.new }
{
    values::give(
        values::under_voltage_code(code_of(gain_code), offset, Microvolts(wanted)),
        code,
    )
}

#[unsafe(no_mangle)]
pub extern "C" fn toralinge_cc_hundredths(reading: u16) -> i64
    ensures { result ≡ cc_hundredths reading }
{
    values::cc_hundredths(reading)
}

#[unsafe(no_mangle)]
pub extern "C" fn toralinge_crc8(start: u8, bytes: &[u8]) -> u8
    ensures { result ≡ crc_on start bytes.now }
{
    crc8::crc_on(start, bytes)
}
