// The lines that `play` prints, written into a lent buffer where all of them fit.
ghost use Rattle.std.specs.Prelude.{◌≡◌, ◌≤◌, length};
ghost use Rattle.turn.specs.Entries.{entries};
ghost use Rattle.play_line.specs.Put.{Puts, Written};
ghost use Rattle.play.specs.Text.{lines_from, text_of, most_input, most_text};

use constants::{answer, range};

// A line for each record of an input, put as it is played.
fn put_lines(out: &mut [u8], input: &[u8]) -> usize
    requires { length input.now ≤ most_input }
    ensures { Puts most_text (lines_from 0 input.now (entries input.now)) 0 out.old result out.new }
{
    let mut chip = turn::no_chip();
    let mut fresh = false;
    let mut place = 0;
    let mut at = 0;
    let mut i = 0;
    while place < input.len() {
        let rest = &input[place..];
        let turned = turn::turn(chip, fresh, rest);
        at = play_line::put_line(out, at as u32, i, rest, turned.entry);
        if turned.last {
            return at;
        }
        chip = turned.chip;
        fresh = turned.fresh;
        place += turned.next;
        i += 1;
    }
    at
}

// The lines of an input, where they fit. To learn how many bytes they have, they are put into no room first.
fn write_lines(out: &mut [u8], input: &[u8]) -> i64
    requires { length input.now ≤ most_input }
    ensures { Written (lines_from 0 input.now (entries input.now)) out.old result out.new }
{
    let mut room = [0u8; 1];
    let length = put_lines(&mut room[..0], input);
    if out.len() < length {
        return answer::NO_ROOM;
    }
    put_lines(out, input) as i64
}

// All that `play` prints for an input. Answers how many bytes it has, or -5 with no byte written where it does not fit.
pub fn text(input: &[u8], out: &mut [u8]) -> i64
    ensures { Written (text_of input.now) out.old result out.new }
{
    if range::STREAM_MOST < input.len() {
        return play_line::write_too_long(out);
    }
    write_lines(out, input)
}
