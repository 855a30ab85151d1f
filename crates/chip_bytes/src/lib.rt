// The kept chip: whether bytes are one, and the chip that they have.
#![tactic(auto)]

ghost use Rattle.std.specs.Prelude.{◌≡◌, ◌&&◌, true, drop, eqb, leb, take};
ghost use Rattle.std.specs.List.{fold, list_all};
ghost use Rattle.bits.specs.Numbers.{within};
ghost use Rattle.chip_bytes_layout.specs.Place.{FRESH, SWITCHES, SWITCHED, REST1, RESTS};
ghost use Rattle.chip_bytes_layout.specs.Layout.{phase_good, listed, chip_at, formed, setup_stands, level_stands, fresh_stands, could_stand, switch_at, good_at, chip_in, good_of, chip_of, fresh_of, kept_of, kept_seen, none};

use chip::Chip;
use chip_bytes_layout::{ChipBytes, Kept, LAYOUT, place};
use chip_bytes_read::{chip_at, setup_at, status_at};
use constants::{range, size};
use events::Setup;

// No chip yet: part 0.
fn no_chip() -> Chip
    ensures { result ≡ none }
{
    chip::in_ship(Setup {
        part: 0,
        crc: false,
        address: 0,
        gain_code: 0,
        offset: 0,
        floor: 0,
        cells: 0,
    })
}

#[tactic(auto, unfolding(chip_bytes_layout::specs::Layout::phase_good))]
fn phase_good(tag: u8, x: u8, y: u8) -> bool
    ensures { result ≡ phase_good tag x y }
{
    match tag {
        0 | 1 => x == 0 && y == 0,
        2 | 3 => y == 0,
        4 => true,
        5 => y <= 1,
        6 => x <= 1 && y == 0,
        _ => false,
    }
}

// Whether each switch is 0 or 1: they stand side by side, from CRC to the first byte that has no field.
fn switches_good(b: &ChipBytes) -> bool
    ensures { result ≡ fold (λ good s. good && leb s 1) true (take SWITCHED (drop SWITCHES b.now)) }
{
    b[place::CRC..place::REST1]
        .iter()
        .fold(true, |good, s| good & (*s <= 1))
}

// Whether what has no field is 0.
fn rest_zero(b: &ChipBytes) -> bool
    ensures { result ≡ within 0 (listed b.now REST1 RESTS) }
{
    b[place::REST1..place::WORDS] == [0; place::RESTS]
}

// Whether bytes have the form of a chip.
#[tactic(auto, using(crate::proofs::Tests::switches_are), unfolding(chip_bytes_layout::specs::Layout::formed))]
fn formed(b: &ChipBytes) -> bool
    ensures { result ≡ formed b.now }
{
    b[place::VERSION] == LAYOUT
        && switches_good(b)
        && phase_good(b[place::PHASE], b[place::FIRST], b[place::SECOND])
        && rest_zero(b)
}

// Whether a setup is in range, with a row of its part or none.
#[tactic(auto, unfolding(chip_bytes_layout::specs::Layout::setup_stands))]
fn setup_stands(v: Setup) -> bool
    ensures { result ≡ setup_stands v }
{
    (1..=range::PART_MOST).contains(&v.part)
        && (range::ADDRESS_LEAST..=range::ADDRESS_MOST).contains(&v.address)
        && v.gain_code <= range::GAIN_CODE_MOST
        && v.floor <= range::FLOOR_MOST
        && (v.cells == 0 || wiring::has_row(v.part, v.cells))
}

// Whether the outside level is 1 only with a bit of SYS_STAT up. Both levels and wiring records are seldom: most chips need one test here.
#[tactic(auto, unfolding(chip_bytes_layout::specs::Layout::chip_at))]
fn level_stands(b: &ChipBytes) -> bool
    ensures { result ≡ level_stands (chip_at b.now) }
{
    b[place::OUTSIDE_LEVEL] != 1 || status_at(b).alert()
}

// Whether a wiring record is still taken only in SHIP, with no cells named.
#[tactic(auto, unfolding(chip_bytes_layout::specs::Layout::chip_at))]
fn fresh_stands(b: &ChipBytes) -> bool
    ensures { result ≡ fresh_stands (chip_at b.now) (switch_at b.now FRESH) }
{
    b[place::FRESH] != 1 || (b[place::NORMAL] != 1 && b[place::CELLS] == 0)
}

// Whether the chip that bytes have could stand. In this order the compiler keeps the loop of `feed` as it is by itself.
#[tactic(auto, unfolding(chip_bytes_layout::specs::Layout::could_stand, chip_bytes_layout::specs::Layout::chip_at))]
fn could_stand(b: &ChipBytes) -> bool
    ensures { result ≡ could_stand (chip_at b.now) (switch_at b.now FRESH) }
{
    level_stands(b) && fresh_stands(b) && setup_stands(setup_at(b))
}

// Whether every byte is 0.
fn all_zero(b: &ChipBytes) -> bool
    ensures { result ≡ list_all (λ x. eqb x 0) b.now }
{
    b.iter().all(|x| *x == 0)
}

// Whether bytes keep a chip, or none yet.
#[tactic(auto, using(crate::proofs::Tests::zeros_are), unfolding(chip_bytes_layout::specs::Layout::good_at))]
fn good_at(b: &ChipBytes) -> bool
    ensures { result ≡ good_at b.now }
{
    all_zero(b) || (formed(b) && could_stand(b))
}

// The chip that bytes have, none for part 0.
#[tactic(auto, unfolding(chip_bytes_layout::specs::Layout::chip_in))]
fn chip_in(b: &ChipBytes) -> Chip
    ensures { result ≡ chip_in b.now }
{
    if b[place::PART] == 0 {
        return no_chip();
    }
    chip_at(b)
}

// Whether the first 96 bytes keep a chip, or none yet.
pub fn good(bytes: &[u8]) -> bool
    ensures { result ≡ good_of bytes.now }
{
    let Some(b) = bytes.first_chunk() else {
        return false;
    };
    good_at(b)
}

// The chip that the first 96 bytes have, where they are good.
pub fn chip_of(bytes: &[u8]) -> Chip
    ensures { result ≡ chip_of bytes.now }
{
    let Some(b) = bytes.first_chunk() else {
        return no_chip();
    };
    chip_in(b)
}

// Whether a wiring record is still taken, where they are good.
pub fn fresh_of(bytes: &[u8]) -> bool
    ensures { result ≡ fresh_of bytes.now }
{
    let Some(b) = bytes.first_chunk::<{ size::KEPT_CHIP }>() else {
        return false;
    };
    b[place::FRESH] == 1
}

// The chip that the first 96 bytes are, where they are good.
pub fn decode(bytes: &[u8]) -> Option<Kept>
    ensures { kept_seen result ≡ kept_of bytes.now }
{
    if !good(bytes) {
        return None;
    }
    Some(Kept {
        chip: chip_of(bytes),
        fresh: fresh_of(bytes),
    })
}
