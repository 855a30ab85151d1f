// What an address reads, in the bytes of a kept chip: the one byte or word that stands there is looked at, and no other.
ghost use Rattle.std.specs.Prelude.{◌≡◌, ◌≤◌, ◌<◌};
ghost use Rattle.registers.specs.Read.{control_byte, cell_at, ts_at, word_at, pair_at};
ghost use Rattle.chip_bytes_layout.specs.Layout.{measured_at, registers_at};

use chip_bytes_layout::{ChipBytes, place};
use chip_bytes_read::{cellbal_at, settings_at, shown_at, status_at, word};
use constants::address;
use events::Setup;
use registers::Pair;
use registers::read::{ctrl1, ctrl2, fixed_byte, half_of};

#[tactic(auto, unfolding(registers::specs::Read::control_byte))]
fn control_at(b: &ChipBytes, setup: Setup, a: u8) -> u8
    ensures { result ≡ control_byte setup (registers_at b.now) a }
{
    match a {
        address::SYS_STAT => status_at(b).byte(),
        address::SYS_CTRL1 => ctrl1(
            b[place::LOAD_LEVEL] == 1 && b[place::CHG_ON] != 1,
            settings_at(b),
        ),
        address::SYS_CTRL2 => ctrl2(shown_at(b), settings_at(b)),
        _ if a < address::SYS_CTRL1 => cellbal_at(b).byte(setup, a),
        _ => settings_at(b).byte(a),
    }
}

// The count of the input after `at` others.
fn cell_at(b: &ChipBytes, setup: Setup, at: u8) -> u16
    requires { at < 15 }
    ensures { result ≡ cell_at setup (measured_at b.now) at }
{
    if at < setup.inputs() {
        return word(b, place::VC1 + usize::from(at));
    }
    0
}

fn thermistor_at(b: &ChipBytes, setup: Setup, at: u8) -> u16
    requires { at < 3 }
    ensures { result ≡ ts_at setup (measured_at b.now) at }
{
    if at < setup.groups() {
        return word(b, place::TS1 + usize::from(at));
    }
    0
}

// The word that stands at `a` and its neighbour.
#[tactic(auto, unfolding(registers::specs::Read::word_at))]
fn word_at(b: &ChipBytes, setup: Setup, a: u8) -> u16
    requires { 12 ≤ a }
    ensures { result ≡ word_at setup (measured_at b.now) a }
{
    if a < address::BAT {
        return cell_at(b, setup, (a - address::VC1) / 2);
    }
    if a < address::TS1 {
        return word(b, place::BAT);
    }
    if a < address::CC {
        return thermistor_at(b, setup, (a - address::TS1) / 2);
    }
    word(b, place::CC)
}

// What IN is told of any address.
#[tactic(auto, unfolding(registers::specs::Read::read_at, registers::specs::Read::pair_at))]
pub fn pair_at(b: &ChipBytes, setup: Setup, a: u8) -> Pair
    ensures { result ≡ pair_at setup (registers_at b.now) a }
{
    if a < address::VC1 {
        return Pair {
            here: control_at(b, setup, a),
            low: 0,
        };
    }
    if a < address::AFTER_CC {
        let word = word_at(b, setup, a);
        return Pair {
            here: half_of(a, word),
            low: half_of(1, word),
        };
    }
    Pair {
        here: fixed_byte(setup, a),
        low: 0,
    }
}
