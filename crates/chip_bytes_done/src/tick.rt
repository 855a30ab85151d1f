// A tick, and ticks of one value, done in the bytes of a kept chip.
ghost use Rattle.std.specs.Prelude.{◌≡◌};
ghost use Rattle.events.specs.Event.{Sense};
ghost use Rattle.chip.specs.Chip.{ticked};
ghost use Rattle.chip_bytes_layout.specs.Layout.{chip_of};
ghost use Rattle.chip_bytes_layout.specs.Did.{CameBy, DidBy};
ghost use Rattle.chip_bytes_done.specs.Tick.{runs_in, raised_in, PutBy};

use bits::bytes::put_words;
use chip_bytes_layout::{ChipBytes, Outcome, awake_at, place};
use chip_bytes_read::{runs_at, settings_at, shown_at};
use protection::{Judged, Runs};
use registers::Shown;

// The runs of short circuit and over-current, and no wiring record any more.
fn put_runs(out: &mut ChipBytes, runs: Runs)
    ensures { out.new ≡ runs_in runs out.old }
{
    out[place::FRESH] = 0;
    put_words(out, place::SCD_LOW, &[runs.scd, runs.ocd]);
}

// A tick: in NORMAL, where it raises nothing, its runs are all that it moves.
pub fn ticked(bytes: &mut [u8], value: i32) -> Option<Outcome>
    ensures { DidBy bytes.old (Sense value) result bytes.new }
{
    let b = bytes.first_chunk_mut()?;
    if !awake_at(b) {
        return None;
    }
    let judged = protection::sensed(runs_at(b), settings_at(b), value);
    if judged.risen.scd || judged.risen.ocd {
        return Some(Outcome {
            byte: None,
            shown: put_judged(b, judged),
        });
    }
    let shown = shown_at(b);
    put_runs(b, judged.runs);
    Some(Outcome { byte: None, shown })
}

// What ticks can raise, and the drive that this puts off.
fn put_raised(out: &mut ChipBytes, shown: Shown)
    ensures { out.new ≡ raised_in shown out.old }
{
    out[place::SCD] = u8::from(shown.status.scd);
    out[place::OCD] = u8::from(shown.status.ocd);
    out[place::DSG_ON] = u8::from(shown.dsg_on);
}

// What was judged of ticks put in its place: the runs, and what rises, as the chip then shows it.
fn put_judged(out: &mut ChipBytes, judged: Judged) -> Shown
    ensures { PutBy judged out.old result out.new }
{
    let shown = shown_at(out).raised(judged.risen);
    put_runs(out, judged.runs);
    put_raised(out, shown);
    shown
}

// That many ticks of one value, by their number: in NORMAL, their runs and what is due at the last of them are all that they move.
pub fn repeated(bytes: &mut [u8], value: i32, repeat: u32) -> Option<Outcome>
    ensures { CameBy bytes.old (ticked repeat value (chip_of bytes.old)) result bytes.new }
{
    let b = bytes.first_chunk_mut()?;
    if !awake_at(b) {
        return None;
    }
    let judged = protection::ticked(runs_at(b), settings_at(b), value, repeat);
    Some(Outcome {
        byte: None,
        shown: put_judged(b, judged),
    })
}
