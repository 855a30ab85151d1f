// What workshops and chargers ask of the chip that a stream leaves.
ghost use Rattle.constants.specs.Answer.{gives, number_said};
ghost use Rattle.values.specs.Said.{said};
ghost use Rattle.smart_battery.specs.Words.{word_for};
ghost use Rattle.smart_battery.specs.Reply.{Replied};
ghost use Rattle.chip_voltage.specs.Care.{proposal_said, pack_of, linked_total};
ghost use Rattle.chip_c.specs.Asks.{proposal_at, word_at, Bled};

use bleed::Choice;
use chip::Chip;
use constants::number;
use constants::refusal::Refusal;

// A proposal is three bytes.
const PROPOSAL_SIZE: usize = 3;

// A proposal written, where it fits.
fn put_choice(out: &mut [u8], choice: Choice) -> Result<(), Refusal>
    ensures { Bled (gives choice) out.old (number_said (said result)) out.new }
{
    if out.len() < PROPOSAL_SIZE {
        return Err(Refusal::NoRoom);
    }
    out[..PROPOSAL_SIZE].copy_from_slice(&[choice.one, choice.two, choice.three]);
    Ok(())
}

// What a chip is proposed, written.
pub fn propose(chip: Chip, margin: u32, out: &mut [u8]) -> Result<(), Refusal>
    ensures { Bled (proposal_said margin chip) out.old (number_said (said result)) out.new }
{
    let choice = chip_voltage::services::bleeding(chip, margin)?;
    put_choice(out, choice)
}

// A chip's reply to a command, which is another one where no byte holds it.
#[tactic(auto, unfolding(smart_battery::specs::Words::word_for))]
pub fn reply_to(chip: Chip, command: u32, milliohms: u32, out: &mut [u8]) -> u8
    ensures { Replied (word_for (pack_of chip) (linked_total chip) command milliohms) command out.old result out.new }
{
    let Ok(command) = u8::try_from(command) else {
        return number::BAD_COMMAND;
    };
    chip_voltage::services::reply(chip, command, milliohms, out)
}

// Plays a whole stream and proposes the three CELLBAL bytes for the chip that stands at its end.
// Answers 0, or with nothing written the first record's number where no chip stands, 3 for the margin, 4 asleep, 10 where no cell is connected, 5 for room below 3.
#[tactic(auto, unfolding(turn::specs::AskedLaws::standing_said))]
#[unsafe(no_mangle)]
pub extern "C" fn toralinge_bleed(stream: &[u8], margin: u32, cellbal: &mut [u8]) -> u8
    ensures { Bled (proposal_at stream.now margin) cellbal.old result cellbal.new }
{
    let chip = stream_run::last_chip(stream);
    if chip.setup.part == 0 {
        return records::first_number(stream);
    }
    propose(chip, margin, cellbal)
        .err()
        .map_or(number::DONE, Refusal::number)
}

// Plays a whole stream and replies to a Smart Battery command for the chip that stands at its end: low byte, high byte and the PEC.
// Answers 0, or with nothing written the first record's number where no chip stands, 23 another command, 3 for the resistor, 4, 12, 10, 11, 5.
#[tactic(auto, unfolding(turn::specs::AskedLaws::standing_said))]
#[unsafe(no_mangle)]
pub extern "C" fn toralinge_reply(
    stream: &[u8],
    command: u32,
    milliohms: u32,
    reply: &mut [u8],
) -> u8
    ensures { Replied (word_at stream.now command milliohms) command reply.old result reply.new }
{
    let chip = stream_run::last_chip(stream);
    if chip.setup.part == 0 {
        return records::first_number(stream);
    }
    reply_to(chip, command, milliohms, reply)
}
