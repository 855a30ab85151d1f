// The calls of `why` as a static library, with their contracts word for word.
#![tactic(auto)]

ghost use Rattle.why.specs.Why.{Explained};
ghost use Rattle.why.specs.Off.{Held};

#[unsafe(no_mangle)]
pub extern "C" fn toralinge_why(bytes: &[u8], number: u64, bit: u32, row: &mut [u8]) -> i64
    ensures { Explained bytes.now number bit row.old result row.new }
{
    why::toralinge_why(bytes, number, bit, row)
}

#[unsafe(no_mangle)]
pub extern "C" fn toralinge_off(bytes: &[u8], number: u64, drive: u32, row: &mut [u8]) -> i64
    ensures { Held bytes.now number drive row.old result row.new }
{
    why::toralinge_off(bytes, number, drive, row)
}
