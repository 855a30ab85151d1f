// The kept chip: how a chip, and whether a wiring record is still taken, stand in 96 bytes.
#![tactic(auto)]

ghost use Rattle.std.specs.Prelude.{◌≡◌};
ghost use Rattle.bits.specs.BytesLaws.{Bytes};
ghost use Rattle.chip_bytes_layout.specs.Place.{NORMAL};
ghost use Rattle.chip_bytes_layout.specs.Layout.{switch_at};
ghost use Rattle.chip_bytes_layout.specs.Did.{AwakeBy};

use chip::Chip;
use constants::size;
use registers::Shown;

pub mod place;

// Byte 0.
pub const LAYOUT: u8 = 1;

// The bytes of one chip.
pub type ChipBytes = [u8; size::KEPT_CHIP];

// A chip as it was kept, and whether a wiring record is still taken. Part 0: no chip yet.
#[derive(Clone, Copy, Debug, PartialEq, Eq)]
pub struct Kept {
    pub chip: Chip,
    pub fresh: bool,
}

// What an event that is done on a kept chip came to, where the bytes have it: the byte that the bus gives back, and what the chip then shows.
#[derive(Clone, Copy, Debug, PartialEq, Eq)]
pub struct Outcome {
    pub byte: Option<u8>,
    pub shown: Shown,
}

// Whether the chip that the bytes have is in NORMAL.
pub fn awake_at(b: &ChipBytes) -> bool
    ensures { (result ≡ switch_at b.now NORMAL) × Bytes b.now }
{
    b[place::NORMAL] == 1
}

// Whether there is room for a chip, and the one that stands there is in NORMAL.
pub fn awake(bytes: &[u8]) -> bool
    ensures { AwakeBy bytes.now result }
{
    let Some(b) = bytes.first_chunk() else {
        return false;
    };
    awake_at(b)
}
