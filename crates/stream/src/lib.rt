// A whole stream played, five bytes for each record.
#![tactic(auto)]

ghost use Rattle.std.specs.Prelude.{◌≡◌};
ghost use Rattle.stream_run.specs.Stream.{Played};

use constants::{answer, size};
use stream_run::run_from;
use turn::frames::count;
use turn::no_chip;

pub mod forecast;

// Plays a whole stream. Each record gives five bytes: number, bus flag, bus byte, SYS_STAT, pins. Answers how many records there are, or -5 with no byte
// written where they do not all fit.
#[unsafe(no_mangle)]
pub extern "C" fn toralinge_play(stream: &[u8], entries: &mut [u8]) -> i64
    ensures { Played stream.now entries.old result entries.new }
{
    let n = count(stream);
    if entries.len() / size::ENTRY < n {
        return answer::NO_ROOM;
    }
    run_from(no_chip(), false, stream, entries);
    n as i64
}
