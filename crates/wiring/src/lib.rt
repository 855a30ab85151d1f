// CHIP W1 to W8: which inputs the cells of a pack are wired to, and which are connected.
#![tactic(auto)]

ghost use Rattle.std.specs.Prelude.{◌≡◌, cond, ◌≤◌};
ghost use Rattle.wiring.specs.Rows.{has_row, bits, wired_bits, wired_with, wired_inputs, pack_cells, input_of, linked_inputs, linked_bits, converts};
ghost use Rattle.wiring.specs.Linked.{above_floor};
ghost use Rattle.wiring.specs.Kept.{kept, counts_of, picked};

use constants::part;
use constants::refusal::Refusal;
use events::{Counts, Setup};

// The inputs that have a cell, by the number of cells: input 1 is the lowest bit. No two parts have a number in common.
const WIRED: [u16; 16] = [
    0, 0, 0, 0x0013, 0x0017, 0x001F, 0x0273, 0x0277, 0x02F7, 0x02FF, 0x03FF, 0x4EF7, 0x5EF7,
    0x5EFF, 0x5FFF, 0x7FFF,
];

// The fewest cells that the parts of 5, 10 and 15 inputs may have.
const FEWEST_OF_5: u8 = 3;

const FEWEST_OF_10: u8 = 6;

const FEWEST_OF_15: u8 = 11;

// Whether a part has a row for a number of cells.
#[tactic(auto, using(crate::proofs::Table::row_5, crate::proofs::Table::row_10, crate::proofs::Table::row_15, crate::proofs::Table::row_none))]
pub fn has_row(part: u8, cells: u8) -> bool
    ensures { result ≡ has_row part cells }
{
    match part {
        part::MS9920T => (FEWEST_OF_5..=5).contains(&cells),
        part::MS9930T => (FEWEST_OF_10..=10).contains(&cells),
        part::MS9940T => (FEWEST_OF_15..=15).contains(&cells),
        _ => false,
    }
}

// The setup with a wiring record's number of cells.
#[tactic(auto, unfolding(crate::specs::Rows::wired_with))]
pub fn wire(setup: Setup, cells: u8) -> Result<Setup, Refusal>
    ensures { result ≡ wired_with setup cells }
{
    if !has_row(setup.part, cells) {
        return Err(Refusal::NoRow);
    }
    Ok(Setup { cells, ..setup })
}

// The inputs that have a cell, input 1 the lowest bit: all of the part's where there is no wiring record.
pub fn wired(setup: Setup) -> u16
    ensures { result ≡ wired_bits setup }
{
    WIRED[usize::from(cells(setup))]
}

// How many cells the pack has: as many as the part has inputs where there is no wiring record.
pub fn cells(setup: Setup) -> u8
    ensures { result ≡ pack_cells setup }
{
    if has_row(setup.part, setup.cells) {
        return setup.cells;
    }
    setup.inputs()
}

// Of fifteen numbers those whose bit is set, in their order.
fn packed(mask: u16, of: [u16; 15]) -> Counts
    ensures { result ≡ counts_of (kept mask of) }
{
    let mut rest = mask;
    let mut out = [0; 15];
    let mut many = 0;
    for x in of {
        if rest % 2 == 1 {
            out[many] = x;
            many += 1;
        }
        rest /= 2;
    }
    Counts {
        many: many as u8,
        of: out,
    }
}

// Of what each input holds what the cells of the pack hold, cell 1's first.
pub fn pack(setup: Setup, cells: [u16; 15]) -> Counts
    ensures { result ≡ counts_of (picked cells (wired_inputs setup)) }
{
    packed(wired(setup), cells)
}

// The input of a cell of the pack, or 0 where it has no such cell: its clause and `Rows.input_of` say 0, and callers ask for cells alone.
pub fn input_of(setup: Setup, cell: u8) -> u8
    ensures { result ≡ input_of setup cell }
{
    let inputs = pack(setup, [1, 2, 3, 4, 5, 6, 7, 8, 9, 10, 11, 12, 13, 14, 15]);
    if cell < 1 || inputs.many < cell {
        return 0;
    }
    inputs.of[usize::from(cell - 1)] as u8
}

// The first inputs whose counts are not below the floor, input 1 the lowest bit.
fn above(floor: u16, cells: [u16; 15], inputs: u8) -> u16
    requires { inputs ≤ 15 }
    ensures { result ≡ bits (above_floor floor cells) 1 inputs }
{
    // Counted down: each turn puts its bit below those of the inputs after it.
    let mut mask = 0;
    let mut i = usize::from(inputs);
    while 0 < i {
        i -= 1;
        mask = u16::from(floor <= cells[i]) + 2 * mask;
    }
    mask
}

// The connected inputs (CHIP W7), of what each input holds, input 1 the lowest bit.
pub fn linked(setup: Setup, cells: [u16; 15]) -> u16
    ensures { result ≡ linked_bits setup cells }
{
    if has_row(setup.part, setup.cells) {
        return wired(setup);
    }
    above(setup.floor, cells, setup.inputs())
}

// What the connected inputs hold, the lowest first.
pub fn link(setup: Setup, cells: [u16; 15]) -> Counts
    ensures { result ≡ counts_of (picked cells (linked_inputs setup cells)) }
{
    packed(linked(setup, cells), cells)
}

// Whether a cell of the pack converts at a count: a wired one always does.
#[tactic(auto, unfolding(crate::specs::Rows::converts))]
pub fn converts(setup: Setup, count: u16) -> bool
    ensures { result ≡ converts setup count }
{
    has_row(setup.part, setup.cells) || setup.floor <= count
}
