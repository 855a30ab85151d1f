// What an address reads.
ghost use Rattle.std.specs.Prelude.{◌≡◌, ◌≤◌, ◌<◌};
ghost use Rattle.registers.specs.Read.{status_byte, cellbal_byte, ctrl1_of, ctrl2_of, control_byte, half, cell_at, ts_at, word_at, fixed_byte, read_at, pair_at};

use crate::{Cellbal, Measured, Pair, Registers, Shown, Status};
use constants::{address, weight};
use events::Setup;
use settings::Settings;

impl Status {
    pub fn byte(self) -> u8
        ensures { result ≡ status_byte self }
    {
        bits::weigh(self.cc_ready, weight::CC_READY)
            + bits::weigh(self.xready, weight::XREADY)
            + bits::weigh(self.ovrd_alert, weight::OVRD_ALERT)
            + bits::weigh(self.uv, weight::UV)
            + bits::weigh(self.ov, weight::OV)
            + bits::weigh(self.scd, weight::SCD)
            + bits::weigh(self.ocd, weight::OCD)
    }
}

impl Cellbal {
    #[tactic(auto, unfolding(crate::specs::Read::cellbal_byte))]
    pub fn byte(self, setup: Setup, a: u8) -> u8
        ensures { result ≡ cellbal_byte setup self a }
    {
        // The address of each is the number of its group.
        if setup.groups() < a {
            return 0;
        }
        match a {
            address::CELLBAL1 => self.cellbal1 % 32,
            address::CELLBAL2 => self.cellbal2 % 32,
            address::CELLBAL3 => self.cellbal3 % 32,
            _ => 0,
        }
    }
}

// The high byte of a word at an even address, the low byte at an odd one.
#[tactic(auto, unfolding(crate::specs::Read::half))]
pub fn half_of(a: u8, word: u16) -> u8
    ensures { result ≡ half a word }
{
    let [low, high] = word.to_le_bytes();
    if a % 2 == 0 { high } else { low }
}

impl Measured {
    // The count of the input after `at` others.
    #[tactic(auto, using(events::specs::FewLaws::few_inputs))]
    pub fn cell(self, setup: Setup, at: u8) -> u16
        ensures { result ≡ cell_at setup self at }
    {
        if at < setup.inputs() {
            return self.cells[usize::from(at)];
        }
        0
    }

    fn thermistor(self, setup: Setup, at: u8) -> u16
        requires { at < 3 }
        ensures { result ≡ ts_at setup self at }
    {
        if at < setup.groups() {
            return self.ts[usize::from(at)];
        }
        0
    }

    // The word that stands at `a` and its neighbour.
    #[tactic(auto, unfolding(crate::specs::Read::word_at))]
    fn word(self, setup: Setup, a: u8) -> u16
        requires { 12 ≤ a }
        ensures { result ≡ word_at setup self a }
    {
        if a < address::BAT {
            return self.cell(setup, (a - address::VC1) / 2);
        }
        if a < address::TS1 {
            return self.bat;
        }
        if a < address::CC {
            return self.thermistor(setup, (a - address::TS1) / 2);
        }
        self.cc
    }
}

// What is from the setup.
#[tactic(auto, unfolding(crate::specs::Read::fixed_byte))]
pub fn fixed_byte(setup: Setup, a: u8) -> u8
    ensures { result ≡ fixed_byte setup a }
{
    match a {
        address::ADCGAIN1 => setup.gain_code / 8 % 4 * 4,
        address::ADCOFFSET => setup.offset,
        address::ADCGAIN2 => setup.gain_code % 8 * 32,
        _ => 0,
    }
}

// SYS_CTRL1; `load`: a load is seen.
pub fn ctrl1(load: bool, s: Settings) -> u8
    ensures { result ≡ ctrl1_of load s }
{
    bits::weigh(load, weight::LOAD_PRESENT)
        + bits::weigh(s.adc_en, weight::ADC_EN)
        + bits::weigh(s.temp_sel, weight::TEMP_SEL)
        + bits::weigh(s.shut_b, weight::SHUT_B)
}

// SYS_CTRL2.
pub fn ctrl2(shown: Shown, s: Settings) -> u8
    ensures { result ≡ ctrl2_of shown s }
{
    bits::weigh(s.delay_dis, weight::DELAY_DIS)
        + bits::weigh(s.cc_en, weight::CC_EN)
        + bits::weigh(shown.cc_oneshot, weight::CC_ONESHOT)
        + bits::weigh(shown.dsg_on, weight::DSG_ON)
        + bits::weigh(shown.chg_on, weight::CHG_ON)
}

impl Registers {
    #[tactic(auto, unfolding(crate::specs::Read::control_byte))]
    fn control_byte(self, setup: Setup, a: u8) -> u8
        ensures { result ≡ control_byte setup self a }
    {
        match a {
            address::SYS_STAT => self.shown.status.byte(),
            address::SYS_CTRL1 => ctrl1(self.load_level && !self.shown.chg_on, self.settings),
            address::SYS_CTRL2 => ctrl2(self.shown, self.settings),
            _ if a < address::SYS_CTRL1 => self.cellbal.byte(setup, a),
            _ => self.settings.byte(a),
        }
    }

    // What IN is told of any address.
    #[tactic(auto, unfolding(crate::specs::Read::read_at, crate::specs::Read::pair_at))]
    pub fn pair(self, setup: Setup, a: u8) -> Pair
        ensures { result ≡ pair_at setup self a }
    {
        if a < address::VC1 {
            return Pair {
                here: self.control_byte(setup, a),
                low: 0,
            };
        }
        if a < address::AFTER_CC {
            let word = self.measured.word(setup, a);
            return Pair {
                here: half_of(a, word),
                low: (word % 256) as u8,
            };
        }
        Pair {
            here: fixed_byte(setup, a),
            low: 0,
        }
    }

    // What the host reads at any address.
    #[tactic(auto, unfolding(crate::specs::Read::pair_at))]
    pub fn read(self, setup: Setup, a: u8) -> u8
        ensures { result ≡ read_at setup self a }
    {
        self.pair(setup, a).here
    }
}
