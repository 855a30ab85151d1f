// A scan done in the bytes of a kept chip.
ghost use Rattle.std.specs.Prelude.{◌≡◌, take};
ghost use Rattle.events.specs.Setup.{inputs};
ghost use Rattle.events.specs.Event.{Scan};
ghost use Rattle.events.specs.declared.Fault.TheVariants.{Ov, Uv};
ghost use Rattle.cell_counts.specs.Scan.{looked_at};
ghost use Rattle.limits.specs.Rule.{rule};
ghost use Rattle.registers.specs.Judging.{bat_of};
ghost use Rattle.chip_bytes_layout.specs.Layout.{chip_at, chip_of};
ghost use Rattle.chip_bytes_layout.specs.Did.{DidBy};
ghost use Rattle.chip_bytes_done.specs.Swept.{measured_in, swept_in, SweptBy};

use bits::bytes::put_words;
use cell_counts::Looked;
use chip_bytes_layout::{ChipBytes, Outcome, awake_at, place};
use chip_bytes_read::{runs_at, settings_at, setup_at, shown_at};
use chip_bytes_write::put_shown;
use events::Setup;
use protection::Runs;
use registers::Shown;
use settings::Settings;

// What a scan leaves: the counts and their sum, the runs, and what is shown.
#[derive(Clone, Copy, Debug, PartialEq, Eq)]
pub struct Swept {
    pub cells: [u16; 15],
    pub sum: u32,
    pub runs: Runs,
    pub shown: Shown,
}

// The counts by the limits that are set. A function of its own: inlined, it clears the places of the part's inputs by a call of memset.
#[inline(never)]
fn looked_at(setup: Setup, s: Settings, counts: [u16; 15]) -> Looked
    ensures { result ≡ looked_at (rule Ov s).limit setup.floor (rule Uv s).limit (take (inputs setup) counts) }
{
    let over = limits::over_line(s);
    let under = limits::under_line(s);
    cell_counts::look(counts, setup.inputs(), over, setup.floor, under)
}

fn sweep(b: &ChipBytes, counts: [u16; 15]) -> Swept
    ensures { SweptBy (chip_at b.now) counts result }
{
    let s = settings_at(b);
    let looked = looked_at(setup_at(b), s, counts);
    let judged = protection::scanned(runs_at(b), s, looked.over, looked.under);
    let cells = looked.cells;
    Swept {
        cells,
        sum: looked.sum,
        runs: judged.runs,
        shown: shown_at(b).raised(judged.risen),
    }
}

// BAT, by the sum of the counts.
fn bat_of(sum: u32) -> u16
    ensures { result ≡ bat_of sum }
{
    (sum / 4 % 65536) as u16
}

// What is measured, where it is kept.
fn put_measured(out: &mut ChipBytes, kept: bool, cells: [u16; 15], sum: u32)
    ensures { out.new ≡ measured_in kept cells sum out.old }
{
    if kept {
        put_words(out, place::BAT_LOW, &[bat_of(sum)]);
        put_words(out, place::VC1_LOW, &cells);
    }
}

// The runs of both, what is measured and what is shown, and no wiring record any more.
fn put_swept(out: &mut ChipBytes, swept: Swept)
    ensures { out.new ≡ swept_in swept out.old }
{
    let kept = out[place::ADC_EN] == 1;
    put_words(out, place::OV_LOW, &[swept.runs.ov, swept.runs.uv]);
    put_measured(out, kept, swept.cells, swept.sum);
    out[place::FRESH] = 0;
    put_shown(out, swept.shown);
}

// A scan, whose counts are in range.
pub fn scanned(bytes: &mut [u8], counts: [u16; 15]) -> Option<Outcome>
    ensures { DidBy bytes.old (Scan (take (inputs (chip_of bytes.old).setup) counts)) result bytes.new }
{
    let b = bytes.first_chunk_mut()?;
    if !awake_at(b) {
        return None;
    }
    let swept = sweep(b, counts);
    put_swept(b, swept);
    Some(Outcome {
        byte: None,
        shown: swept.shown,
    })
}
