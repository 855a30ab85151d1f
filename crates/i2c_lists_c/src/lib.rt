// The call of `i2c_lists` as a static library, with its contract word for word.
#![tactic(auto)]

ghost use Rattle.i2c_lists.specs.Records.{Taken};

#[unsafe(no_mangle)]
pub extern "C" fn toralinge_list(line: &[u8], out: &mut [u8]) -> i64
    ensures { Taken line.now out.old result out.new }
{
    i2c_lists::toralinge_list(line, out)
}
