// The parts of a chip from its bytes.
#![tactic(auto)]

ghost use Rattle.std.specs.Prelude.{◌≡◌, ◌<◌};
ghost use Rattle.chip_bytes_layout.specs.Place.{NUMBERS};
ghost use Rattle.chip_bytes_layout.specs.Layout.{phase_of, word_in, setup_at, bus_at, settings_at, status_at, shown_at, cellbal_at, measured_at, runs_at, registers_at, chip_at};

use bus::{Bus, Line, Owed, Phase};
use chip::Chip;
use chip_bytes_layout::{ChipBytes, place};
use events::Setup;
use protection::Runs;
use registers::{Cellbal, Measured, Registers, Shown, Status};
use settings::Settings;

#[tactic(auto, unfolding(chip_bytes_layout::specs::Layout::phase_of))]
fn phase_of(tag: u8, x: u8, y: u8) -> Phase
    ensures { result ≡ phase_of tag x y }
{
    match tag {
        0 => Phase::Idle,
        1 => Phase::Address,
        2 => Phase::Pointing(x),
        3 => Phase::Writing(x),
        4 => Phase::Checking(x, y),
        5 => Phase::Reading(x, y == 1),
        _ => Phase::Summing(x == 1),
    }
}

// The i-th number of two bytes.
#[tactic(auto, using(chip_bytes_layout::specs::ListedLaws::word_is))]
pub fn word(b: &ChipBytes, i: usize) -> u16
    requires { i < NUMBERS }
    ensures { result ≡ word_in b.now i }
{
    u16::from_le_bytes([b[place::WORDS + 2 * i], b[place::WORDS_HIGH + 2 * i]])
}

pub fn setup_at(b: &ChipBytes) -> Setup
    ensures { result ≡ setup_at b.now }
{
    Setup {
        part: b[place::PART],
        crc: b[place::CRC] == 1,
        address: b[place::ADDRESS],
        gain_code: b[place::GAIN_CODE],
        offset: b[place::OFFSET],
        floor: word(b, place::FLOOR),
        cells: b[place::CELLS],
    }
}

pub fn bus_at(b: &ChipBytes) -> Bus
    ensures { result ≡ bus_at b.now }
{
    Bus {
        line: Line {
            phase: phase_of(b[place::PHASE], b[place::FIRST], b[place::SECOND]),
            pointer: b[place::POINTER],
        },
        owed: Owed {
            sum: b[place::SUM],
            low: b[place::LOW],
        },
    }
}

pub fn settings_at(b: &ChipBytes) -> Settings
    ensures { result ≡ settings_at b.now }
{
    Settings {
        adc_en: b[place::ADC_EN] == 1,
        temp_sel: b[place::TEMP_SEL] == 1,
        shut_b: b[place::SHUT_B] == 1,
        delay_dis: b[place::DELAY_DIS] == 1,
        cc_en: b[place::CC_EN] == 1,
        protect1: b[place::PROTECT1],
        protect2: b[place::PROTECT2],
        protect3: b[place::PROTECT3],
        ov_trip: b[place::OV_TRIP],
        uv_trip: b[place::UV_TRIP],
        cc_cfg: b[place::CC_CFG],
    }
}

pub fn status_at(b: &ChipBytes) -> Status
    ensures { result ≡ status_at b.now }
{
    Status {
        cc_ready: b[place::CC_READY] == 1,
        xready: b[place::XREADY] == 1,
        ovrd_alert: b[place::OVRD_ALERT] == 1,
        uv: b[place::UV] == 1,
        ov: b[place::OV] == 1,
        scd: b[place::SCD] == 1,
        ocd: b[place::OCD] == 1,
    }
}

pub fn shown_at(b: &ChipBytes) -> Shown
    ensures { result ≡ shown_at b.now }
{
    Shown {
        status: status_at(b),
        cc_oneshot: b[place::CC_ONESHOT] == 1,
        dsg_on: b[place::DSG_ON] == 1,
        chg_on: b[place::CHG_ON] == 1,
    }
}

pub fn cellbal_at(b: &ChipBytes) -> Cellbal
    ensures { result ≡ cellbal_at b.now }
{
    Cellbal {
        cellbal1: b[place::CELLBAL1],
        cellbal2: b[place::CELLBAL2],
        cellbal3: b[place::CELLBAL3],
    }
}

pub fn measured_at(b: &ChipBytes) -> Measured
    ensures { result ≡ measured_at b.now }
{
    Measured {
        cells: [
            word(b, place::VC1),
            word(b, place::VC2),
            word(b, place::VC3),
            word(b, place::VC4),
            word(b, place::VC5),
            word(b, place::VC6),
            word(b, place::VC7),
            word(b, place::VC8),
            word(b, place::VC9),
            word(b, place::VC10),
            word(b, place::VC11),
            word(b, place::VC12),
            word(b, place::VC13),
            word(b, place::VC14),
            word(b, place::VC15),
        ],
        bat: word(b, place::BAT),
        ts: [
            word(b, place::TS1),
            word(b, place::TS2),
            word(b, place::TS3),
        ],
        cc: word(b, place::CC),
    }
}

pub fn runs_at(b: &ChipBytes) -> Runs
    ensures { result ≡ runs_at b.now }
{
    Runs {
        ov: word(b, place::OV_RUN),
        uv: word(b, place::UV_RUN),
        scd: word(b, place::SCD_RUN),
        ocd: word(b, place::OCD_RUN),
    }
}

fn registers_at(b: &ChipBytes) -> Registers
    ensures { result ≡ registers_at b.now }
{
    Registers {
        settings: settings_at(b),
        shown: shown_at(b),
        cellbal: cellbal_at(b),
        measured: measured_at(b),
        load_level: b[place::LOAD_LEVEL] == 1,
        outside_level: b[place::OUTSIDE_LEVEL] == 1,
    }
}

#[tactic(auto, unfolding(chip_bytes_layout::specs::Layout::chip_at))]
pub fn chip_at(b: &ChipBytes) -> Chip
    ensures { result ≡ chip_at b.now }
{
    Chip {
        setup: setup_at(b),
        normal: b[place::NORMAL] == 1,
        bus: bus_at(b),
        registers: registers_at(b),
        runs: runs_at(b),
    }
}
