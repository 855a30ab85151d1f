// The chip that a stream leaves.
ghost use Rattle.std.specs.Prelude.{◌≡◌};
ghost use Rattle.turn.specs.Entries.{last_chip};

use crate::run_from;
use chip::Chip;
use constants::size;
use turn::no_chip;

// Plays a whole stream; where no chip stands, part 0 is given.
pub fn last_chip(stream: &[u8]) -> Chip
    ensures { result ≡ last_chip stream.now }
{
    let mut room = [0u8; size::ENTRY];
    let left = run_from(no_chip(), false, stream, &mut room[..0]);
    left.chip
}
