// The bytes of a chip.
#![tactic(auto)]

ghost use Rattle.std.specs.Prelude.{◌≡◌};
ghost use Rattle.chip_bytes_layout.specs.Layout.{tag_of, first_of, second_of, plain_of, switches_of, words_of, shown_put, chip_bytes, kept_in};

use bits::bytes::{put_bytes, put_words};
use bus::{Bus, Phase};
use chip::Chip;
use chip_bytes_layout::{ChipBytes, LAYOUT, place};
use registers::Shown;

pub fn tag_of(phase: Phase) -> u8
    ensures { result ≡ tag_of phase }
{
    match phase {
        Phase::Idle => 0,
        Phase::Address => 1,
        Phase::Pointing(_) => 2,
        Phase::Writing(_) => 3,
        Phase::Checking(_, _) => 4,
        Phase::Reading(_, _) => 5,
        Phase::Summing(_) => 6,
    }
}

pub fn first_of(phase: Phase) -> u8
    ensures { result ≡ first_of phase }
{
    match phase {
        Phase::Pointing(sum) => sum,
        Phase::Writing(sum) => sum,
        Phase::Checking(byte, _) => byte,
        Phase::Reading(sum, _) => sum,
        Phase::Summing(kept) => u8::from(kept),
        _ => 0,
    }
}

pub fn second_of(phase: Phase) -> u8
    ensures { result ≡ second_of phase }
{
    match phase {
        Phase::Checking(_, sum) => sum,
        Phase::Reading(_, kept) => u8::from(kept),
        _ => 0,
    }
}

// The version, and what is a byte.
#[tactic(auto, unfolding(chip_bytes_layout::specs::Layout::plain_of))]
fn plain_of(chip: Chip) -> [u8; 21]
    ensures { result ≡ plain_of chip }
{
    let Bus { line, owed } = chip.bus;
    let s = chip.registers.settings;
    let cellbal = chip.registers.cellbal;
    [
        LAYOUT,
        chip.setup.part,
        chip.setup.address,
        chip.setup.gain_code,
        chip.setup.offset,
        chip.setup.cells,
        line.pointer,
        owed.sum,
        owed.low,
        tag_of(line.phase),
        first_of(line.phase),
        second_of(line.phase),
        s.protect1,
        s.protect2,
        s.protect3,
        s.ov_trip,
        s.uv_trip,
        s.cc_cfg,
        cellbal.cellbal1,
        cellbal.cellbal2,
        cellbal.cellbal3,
    ]
}

// What is 0 or 1.
fn switches_of(chip: Chip, fresh: bool) -> [u8; 20]
    ensures { result ≡ switches_of chip fresh }
{
    let s = chip.registers.settings;
    let shown = chip.registers.shown;
    let t = shown.status;
    [
        u8::from(chip.setup.crc),
        u8::from(chip.normal),
        u8::from(fresh),
        u8::from(s.adc_en),
        u8::from(s.temp_sel),
        u8::from(s.shut_b),
        u8::from(s.delay_dis),
        u8::from(s.cc_en),
        u8::from(t.cc_ready),
        u8::from(t.xready),
        u8::from(t.ovrd_alert),
        u8::from(t.uv),
        u8::from(t.ov),
        u8::from(t.scd),
        u8::from(t.ocd),
        u8::from(shown.cc_oneshot),
        u8::from(shown.dsg_on),
        u8::from(shown.chg_on),
        u8::from(chip.registers.load_level),
        u8::from(chip.registers.outside_level),
    ]
}

// What is two bytes.
#[tactic(auto, unfolding(chip_bytes_layout::specs::Layout::words_of))]
fn words_of(chip: Chip) -> [u16; 25]
    ensures { result ≡ words_of chip }
{
    let runs = chip.runs;
    let measured = chip.registers.measured;
    [
        chip.setup.floor,
        runs.ov,
        runs.uv,
        runs.scd,
        runs.ocd,
        measured.bat,
        measured.cc,
        measured.ts[0],
        measured.ts[1],
        measured.ts[2],
        measured.cells[0],
        measured.cells[1],
        measured.cells[2],
        measured.cells[3],
        measured.cells[4],
        measured.cells[5],
        measured.cells[6],
        measured.cells[7],
        measured.cells[8],
        measured.cells[9],
        measured.cells[10],
        measured.cells[11],
        measured.cells[12],
        measured.cells[13],
        measured.cells[14],
    ]
}

// What is shown.
pub fn put_shown(out: &mut ChipBytes, shown: Shown)
    ensures { out.new ≡ shown_put shown out.old }
{
    let t = shown.status;
    out[place::CC_READY] = u8::from(t.cc_ready);
    out[place::XREADY] = u8::from(t.xready);
    out[place::OVRD_ALERT] = u8::from(t.ovrd_alert);
    out[place::UV] = u8::from(t.uv);
    out[place::OV] = u8::from(t.ov);
    out[place::SCD] = u8::from(t.scd);
    out[place::OCD] = u8::from(t.ocd);
    out[place::CC_ONESHOT] = u8::from(shown.cc_oneshot);
    out[place::DSG_ON] = u8::from(shown.dsg_on);
    out[place::CHG_ON] = u8::from(shown.chg_on);
}

// A chip that stands, in full.
fn put_chip(chip: Chip, fresh: bool, out: &mut ChipBytes)
    ensures { out.new ≡ chip_bytes chip fresh }
{
    put_bytes(out, place::VERSION, &plain_of(chip));
    put_bytes(out, place::CRC, &switches_of(chip, fresh));
    put_bytes(out, place::REST1, &[0; place::RESTS]);
    put_words(out, place::WORDS, &words_of(chip));
}

// The chip as its bytes, where they have room; no chip yet is all zero.
pub fn encode(chip: Chip, fresh: bool, out: &mut [u8])
    ensures { out.new ≡ kept_in chip fresh out.old }
{
    let Some(b) = out.first_chunk_mut() else {
        return;
    };
    if chip.setup.part == 0 {
        b.fill(0);
    } else {
        put_chip(chip, fresh, b);
    }
}
