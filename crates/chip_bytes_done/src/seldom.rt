// The events that are seldom met and move registers alone, done in the bytes of a kept chip: BOOT, TEMP, COUNT, PIN, LOAD, XREADY and the outside level.
ghost use Rattle.std.specs.Prelude.{◌≡◌, ◌&&◌, not, take};
ghost use Rattle.events.specs.declared.Event.TheVariants.{Pin, Count, Level};
ghost use Rattle.events.specs.Setup.{groups};
ghost use Rattle.events.specs.Event.{Temp};
ghost use Rattle.registers.specs.State.{alert};
ghost use Rattle.chip_bytes_layout.specs.Place.{ADC_EN};
ghost use Rattle.chip_bytes_layout.specs.Layout.{switch_at, status_at, chip_of};
ghost use Rattle.chip_bytes_layout.specs.Did.{DidBy};
ghost use Rattle.chip_bytes_done.specs.Seldom.{readied_in, warmed_in, Moved, MovedBy, SeldomBy};

use bits::bytes::put_words;
use chip_bytes_layout::{ChipBytes, Outcome, awake_at, place};
use chip_bytes_read::{setup_at, shown_at, status_at};
use events::Event;

// The low bytes of the counter and of the first thermistor.
const CC_LOW: usize = place::WORDS + 2 * place::CC;

const TS1_LOW: usize = place::WORDS + 2 * place::TS1;

// PIN: where SYS_STAT is 0 OVRD_ALERT rises, and puts off both drives.
fn put_pin(out: &mut ChipBytes)
    ensures { Moved Pin out.old out.new }
{
    if !status_at(out).alert() {
        out[place::OVRD_ALERT] = 1;
        out[place::DSG_ON] = 0;
        out[place::CHG_ON] = 0;
    }
}

// XREADY, which puts off both drives and CELLBAL.
fn put_xready(out: &mut ChipBytes)
    ensures { out.new ≡ readied_in out.old }
{
    out[place::XREADY] = 1;
    out[place::DSG_ON] = 0;
    out[place::CHG_ON] = 0;
    out[place::CELLBAL1] = 0;
    out[place::CELLBAL2] = 0;
    out[place::CELLBAL3] = 0;
}

// COUNT, where CC_EN or CC_ONESHOT is up.
fn put_count(out: &mut ChipBytes, cc: u16)
    ensures { Moved (Count cc) out.old out.new }
{
    if out[place::CC_EN] == 1 || out[place::CC_ONESHOT] == 1 {
        put_words(out, CC_LOW, &[cc]);
        out[place::CC_READY] = 1;
        out[place::CC_ONESHOT] = 0;
    }
}

// Whether the outside level would raise OVRD_ALERT.
fn raises(b: &ChipBytes, level: bool) -> bool
    ensures { result ≡ (level && not (alert (status_at b.now))) }
{
    level && !status_at(b).alert()
}

// The outside level, but where it would raise OVRD_ALERT.
fn put_level(out: &mut ChipBytes, level: bool) -> bool
    ensures { MovedBy (Level level) out.old result out.new }
{
    if raises(out, level) {
        return false;
    }
    out[place::OUTSIDE_LEVEL] = u8::from(level);
    true
}

// An event; false, and nothing is changed, where it is none of these.
fn put_event(out: &mut ChipBytes, event: Event) -> bool
    ensures { MovedBy event out.old result out.new }
{
    match event {
        Event::Boot => {}
        Event::Pin => put_pin(out),
        Event::Xready => put_xready(out),
        Event::Count(cc) => put_count(out, cc),
        Event::Load(level) => out[place::LOAD_LEVEL] = u8::from(level),
        Event::Level(level) => return put_level(out, level),
        _ => return false,
    }
    true
}

// An event of these: in NORMAL, its registers are all that it moves.
pub fn happened(bytes: &mut [u8], event: Event) -> Option<Outcome>
    ensures { SeldomBy bytes.old event result bytes.new }
{
    let b = bytes.first_chunk_mut()?;
    if !awake_at(b) {
        return None;
    }
    if !put_event(b, event) {
        return None;
    }
    b[place::FRESH] = 0;
    Some(Outcome {
        byte: None,
        shown: shown_at(b),
    })
}

// The counts of TEMP, where they are kept.
fn put_temp(out: &mut ChipBytes, ts: [u16; 3])
    ensures { out.new ≡ warmed_in (switch_at out.old ADC_EN) ts out.old }
{
    if out[place::ADC_EN] == 1 {
        put_words(out, TS1_LOW, &ts);
    }
}

// TEMP, whose counts are in range.
pub fn warmed(bytes: &mut [u8], counts: [u16; 15]) -> Option<Outcome>
    ensures { DidBy bytes.old (Temp (take (groups (chip_of bytes.old).setup) counts)) result bytes.new }
{
    let b = bytes.first_chunk_mut()?;
    if !awake_at(b) {
        return None;
    }
    let ts = cell_counts::three(counts, setup_at(b).groups());
    put_temp(b, ts);
    b[place::FRESH] = 0;
    Some(Outcome {
        byte: None,
        shown: shown_at(b),
    })
}
