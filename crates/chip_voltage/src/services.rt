// What workshops and chargers ask of a chip: which cells to bleed, and the Smart Battery words.
ghost use Rattle.std.specs.Prelude.{◌≡◌};
ghost use Rattle.values.specs.Said.{said};
ghost use Rattle.smart_battery.specs.Words.{word_for};
ghost use Rattle.smart_battery.specs.Reply.{Replied};
ghost use Rattle.chip_voltage.specs.Care.{proposal_said, pack_of, linked_total};

use bleed::Choice;
use chip::Chip;
use constants::range;
use constants::refusal::Refusal;
use smart_battery::Pack;
use values::Microvolts;

// A margin is a difference of counts.
const MARGIN_MOST: u32 = range::COUNT_MOST as u32;

// Which cells to bleed, by the counts now in the cell registers and a margin.
#[tactic(auto, unfolding(crate::specs::Care::proposal_said))]
pub fn bleeding(chip: Chip, margin: u32) -> Result<Choice, Refusal>
    ensures { said result ≡ proposal_said margin chip }
{
    if !(1..=MARGIN_MOST).contains(&margin) {
        return Err(Refusal::BadValue);
    }
    crate::awake(chip)?;
    let linked = crate::linked(chip);
    if linked == 0 {
        return Err(Refusal::NotConnected);
    }
    Ok(bleed::propose(chip.registers.measured.cells, linked, margin as u16))
}

// What a reply is made of, but for the total.
fn pack_of(chip: Chip) -> Pack
    ensures { result ≡ pack_of chip }
{
    Pack {
        normal: chip.normal,
        external: chip.registers.settings.temp_sel,
        warmth: chip.registers.measured.ts[0],
        connected: crate::linked(chip) != 0,
        cc: chip.registers.measured.cc,
    }
}

// The total of the connected cells.
fn total(chip: Chip) -> Microvolts
    ensures { result.0 ≡ linked_total chip }
{
    let held = wiring::link(chip.setup, chip.registers.measured.cells);
    let looked = cell_counts::look(held.of, held.many, 0, 0, 0);
    values::microvolts_by(
        chip.setup.gain_code,
        chip.setup.offset,
        u32::from(held.many),
        looked.sum,
    )
}

// The reply to a Smart Battery command, with the sense resistor in milliohms: low byte, high byte and the PEC. Answers 0, or with nothing written the number that refuses it.
pub fn reply(chip: Chip, command: u8, milliohms: u32, out: &mut [u8]) -> u8
    ensures { Replied (word_for (pack_of chip) (linked_total chip) command milliohms) command out.old result out.new }
{
    smart_battery::reply(pack_of(chip), total(chip), command, milliohms, out)
}
