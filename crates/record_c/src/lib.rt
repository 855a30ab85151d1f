// A record from its kind and values, and back, for C.
#![tactic(auto)]

ghost use Rattle.std.specs.Prelude.{◌≡◌};
ghost use Rattle.record_values.specs.Named.{Names};
ghost use Rattle.writer.specs.Write.{wrote};
ghost use Rattle.record_c.specs.Calls.{record_said, Records, CountedFew, wrote_answer, named_said};

use constants::refusal::Refusal;
use constants::{answer, range, size};
use record_event::{counts_by, event_by, part_by};
use record_values::put_named;
use records::Read;

// The greatest part, in the width that C hands over.
const PART_MOST: u32 = range::PART_MOST as u32;

// What the writer answers, as C takes it.
fn answer_of(written: Result<usize, Refusal>) -> i64
    requires { CountedFew (wrote written) }
    ensures { result ≡ wrote_answer (wrote written) }
{
    match written {
        Ok(n) => n as i64,
        Err(refusal) => -i64::from(refusal.number()),
    }
}

// Writes the record of a kind from its values. Answers how many bytes it has; or, with nothing written, minus a number: 1 (part not 1 to 3),
// 2 (kind unknown or number of values wrong), 1, 3 or 13 (a value out of range), 5 (no room), in this order.
#[unsafe(no_mangle)]
pub extern "C" fn toralinge_record(kind: u32, part: u32, values: &[i64], out: &mut [u8]) -> i64
    ensures { Records (record_said kind part values.now) out.old result out.new }
{
    match event_by(kind, part, values) {
        Err(why) => -i64::from(why.number()),
        Ok(event) => {
            let counts = counts_by(event, values);
            answer_of(writer::write_record(event, counts, part_by(part), out))
        }
    }
}

// The record that bytes begin with, at the part that stands, 0 where none does yet: its kind and its values. Answers how many values there
// are; or, with nothing written, minus a number: 1 (part above 3), 9, 2, 1 or 3, 5 (no room for the values), in this order.
#[unsafe(no_mangle)]
pub extern "C" fn toralinge_values(
    bytes: &[u8],
    part: u32,
    kind: &mut u32,
    values: &mut [i64],
) -> i64
    ensures { Names (named_said part bytes.now) kind.old values.old result kind.new values.new }
{
    if PART_MOST < part {
        return answer::BAD_SETUP;
    }
    match records::read_rest(bytes, part as u8) {
        Read::Cut => answer::CUT,
        Read::Refused { why, .. } => -i64::from(why.number()),
        Read::Record { event, next } => {
            let counts = records::counts_in(event, &bytes[size::HEADER..next]);
            put_named(event, counts, kind, values)
        }
    }
}
