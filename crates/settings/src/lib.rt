// The settings as a value: what accepted writes alone move.
#![tactic(auto)]

ghost use Rattle.std.specs.Prelude.{◌≡◌};
ghost use Rattle.settings.specs.State.{reset_settings};
ghost use Rattle.settings.specs.Write.{ships, control_with, protect1_of, protect2_of, protect3_of, cc_cfg_of, settings_with};
ghost use Rattle.settings.specs.Read.{settings_byte};

use constants::{address, weight};

// What the registers hold on entering SHIP that is not 0, beside ADC_EN.
const OV_TRIP_RESET: u8 = 0xAC;

const UV_TRIP_RESET: u8 = 0x97;

const CC_CFG_RESET: u8 = 0x17;

#[derive(Clone, Copy, Debug, PartialEq, Eq)]
pub struct Settings {
    // ADC_EN, TEMP_SEL and whether the pair (0,1) is held.
    pub adc_en: bool,
    pub temp_sel: bool,
    pub shut_b: bool,
    // DELAY_DIS and CC_EN.
    pub delay_dis: bool,
    pub cc_en: bool,
    pub protect1: u8,
    pub protect2: u8,
    pub protect3: u8,
    // OV_TRIP, UV_TRIP and CC_CFG.
    pub ov_trip: u8,
    pub uv_trip: u8,
    pub cc_cfg: u8,
}

// The bits that 0x06, 0x07, 0x08 and 0x0B have: the others are neither kept nor read.
fn protect1_of(v: u8) -> u8
    ensures { result ≡ protect1_of v }
{
    v / 128 * 128 + v % 32
}

fn protect2_of(v: u8) -> u8
    ensures { result ≡ protect2_of v }
{
    v % 128
}

fn protect3_of(v: u8) -> u8
    ensures { result ≡ protect3_of v }
{
    v / 16 * 16
}

fn cc_cfg_of(v: u8) -> u8
    ensures { result ≡ cc_cfg_of v }
{
    v % 64
}

// The settings on entering SHIP.
pub fn reset() -> Settings
    ensures { result ≡ reset_settings }
{
    Settings {
        adc_en: true,
        temp_sel: false,
        shut_b: false,
        delay_dis: false,
        cc_en: false,
        protect1: 0,
        protect2: 0,
        protect3: 0,
        ov_trip: OV_TRIP_RESET,
        uv_trip: UV_TRIP_RESET,
        cc_cfg: CC_CFG_RESET,
    }
}

impl Settings {
    // Whether the accepted write of `v` at `a` ends the shipping sequence.
    pub fn ships(self, a: u8, v: u8) -> bool
        ensures { result ≡ ships a v self }
    {
        a == address::SYS_CTRL1
            && self.shut_b
            && bits::bit(v, weight::SHUT_A)
            && !bits::bit(v, weight::SHUT_B)
    }

    // A write of SYS_CTRL1.
    fn control(self, v: u8) -> Self
        ensures { result ≡ control_with v self }
    {
        Settings {
            adc_en: bits::bit(v, weight::ADC_EN),
            temp_sel: bits::bit(v, weight::TEMP_SEL),
            shut_b: !self.shut_b && !bits::bit(v, weight::SHUT_A) && bits::bit(v, weight::SHUT_B),
            ..self
        }
    }

    #[tactic(auto, unfolding(crate::specs::Write::settings_with))]
    pub fn write(self, a: u8, v: u8) -> Self
        ensures { result ≡ settings_with a v self }
    {
        match a {
            address::SYS_CTRL1 => self.control(v),
            address::SYS_CTRL2 => Settings {
                delay_dis: bits::bit(v, weight::DELAY_DIS),
                cc_en: bits::bit(v, weight::CC_EN),
                ..self
            },
            address::PROTECT1 => Settings {
                protect1: protect1_of(v),
                ..self
            },
            address::PROTECT2 => Settings {
                protect2: protect2_of(v),
                ..self
            },
            address::PROTECT3 => Settings {
                protect3: protect3_of(v),
                ..self
            },
            address::OV_TRIP => Settings { ov_trip: v, ..self },
            address::UV_TRIP => Settings { uv_trip: v, ..self },
            address::CC_CFG => Settings {
                cc_cfg: cc_cfg_of(v),
                ..self
            },
            _ => self,
        }
    }

    // The byte of a register that is settings alone, 0x06 to 0x0B.
    #[tactic(auto, unfolding(crate::specs::Read::settings_byte))]
    pub fn byte(self, a: u8) -> u8
        ensures { result ≡ settings_byte self a }
    {
        match a {
            address::PROTECT1 => protect1_of(self.protect1),
            address::PROTECT2 => protect2_of(self.protect2),
            address::PROTECT3 => protect3_of(self.protect3),
            address::OV_TRIP => self.ov_trip,
            address::UV_TRIP => self.uv_trip,
            address::CC_CFG => cc_cfg_of(self.cc_cfg),
            _ => 0,
        }
    }
}
