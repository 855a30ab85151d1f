// Records fed to a chip that the caller keeps as bytes.
#![tactic(auto)]

ghost use Rattle.std.specs.Prelude.{◌≡◌, true, ◌*◌, ◌≤◌, ltb, length};
ghost use Rattle.constants.specs.Size.{ENTRY, KEPT_CHIP};
ghost use Rattle.chip_bytes_layout.specs.Layout.{good_of};
ghost use Rattle.feed.specs.Fed.{Fed};

use constants::{answer, size};

mod alone;

// How long the longest record is that is done in the bytes. A piece that is longer is played at once; and as two calls of `played` stand here, the compiler keeps
// its loop apart from what one record takes.
const ONE_MOST: usize = size::HEADER + size::PAYLOAD_MOST;

// Whether so many bytes are too few for an entry of every record.
fn lacks(room: usize, n: usize) -> bool
    ensures { result ≡ ltb room (ENTRY * n) }
{
    room / size::ENTRY < n
}

// Records played on a chip that bytes keep: read from them, and written again.
fn played(chip: &mut [u8], records: &[u8], entries: &mut [u8]) -> i64
    requires { (KEPT_CHIP ≤ length chip.old) × (good_of chip.old ≡ true) }
    ensures { Fed chip.old records.now entries.old result chip.new entries.new }
{
    let stood = chip_bytes::chip_of(&chip[..]);
    let fresh = chip_bytes::fresh_of(&chip[..]);
    let n = turn::frames::count_from(stood.setup.part, records);
    if lacks(entries.len(), n) {
        return answer::NO_ROOM;
    }
    let left = stream_run::run_from(stood, fresh, records, entries);
    // Handed on straight from its field, the chip makes the loop 3 instructions a record longer.
    let after = left.chip;
    chip_bytes_write::encode(after, left.fresh, chip);
    n as i64
}

// Plays records on the kept chip, zeroed bytes being no chip yet. Each record gives five bytes, as toralinge_play's. Answers how many records there are, or with neither
// buffer changed -5 for a chip buffer below 96 bytes, -26 for bytes that are no chip, -5 where the entries do not all fit.
// One record of the kinds that are mostly fed by themselves is done in the bytes.
#[unsafe(no_mangle)]
pub extern "C" fn toralinge_feed(chip: &mut [u8], records: &[u8], entries: &mut [u8]) -> i64
    ensures { Fed chip.old records.now entries.old result chip.new entries.new }
{
    if chip.len() < size::KEPT_CHIP {
        return answer::NO_ROOM;
    }
    if !chip_bytes::good(&chip[..]) {
        return answer::NO_CHIP;
    }
    if records.len() <= ONE_MOST {
        if alone::done(chip, records, entries) {
            return 1;
        }
        return played(chip, records, entries);
    }
    played(chip, records, entries)
}
