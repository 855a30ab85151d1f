// The calls of `values_c` as a static library, with their contracts word for word.
#![tactic(auto)]

ghost use Rattle.std.specs.Prelude.{◌≡◌};
ghost use Rattle.values.specs.Values.{cell_said, ohms_said, die_said, over_said, under_said, cc_hundredths};
ghost use Rattle.crc8.specs.Crc.{crc_on};
ghost use Rattle.values_c.specs.Convert.{Gives};

#[unsafe(no_mangle)]
pub extern "C" fn toralinge_cell_microvolts(
    gain_code: u32,
    offset: u8,
    count: u32,
    microvolts: &mut i64,
) -> u8
    ensures { Gives (cell_said gain_code offset count) microvolts.old result microvolts.new }
{
    values_c::toralinge_cell_microvolts(gain_code, offset, count, microvolts)
}

#[unsafe(no_mangle)]
pub extern "C" fn toralinge_thermistor_ohms(count: u32, ohms: &mut u64) -> u8
    ensures { Gives (ohms_said count) ohms.old result ohms.new }
{
    values_c::toralinge_thermistor_ohms(count, ohms)
}

#[unsafe(no_mangle)]
pub extern "C" fn toralinge_die_temperature(count: u32, half_thousandths: &mut i64) -> u8
    ensures { Gives (die_said count) half_thousandths.old result half_thousandths.new }
{
    values_c::toralinge_die_temperature(count, half_thousandths)
}

#[unsafe(no_mangle)]
pub extern "C" fn toralinge_over_voltage_code(
    gain_code: u32,
    offset: u8,
    wanted: i64,
    code: &mut u8,
) -> u8
    ensures { Gives (over_said gain_code offset wanted) code.old result code.new }
{
    values_c::toralinge_over_voltage_code(gain_code, offset, wanted, code)
}

#[unsafe(no_mangle)]
pub extern "C" fn toralinge_under_voltage_code(
    gain_code: u32,
    offset: u8,
    wanted: i64,
    code: &mut u8,
) -> u8
    ensures { Gives (under_said gain_code offset wanted) code.old result code.new }
{
    values_c::toralinge_under_voltage_code(gain_code, offset, wanted, code)
}

#[unsafe(no_mangle)]
pub extern "C" fn toralinge_cc_hundredths(reading: u16) -> i64
    ensures { result ≡ cc_hundredths reading }
{
    values_c::toralinge_cc_hundredths(reading)
}

#[unsafe(no_mangle)]
pub extern "C" fn toralinge_crc8(start: u8, bytes: &[u8]) -> u8
    ensures { result ≡ crc_on start bytes.now }
{
    values_c::toralinge_crc8(start, bytes)
}
