// The registers as a value: what an address reads, what an accepted write does, and what events leave.
#![tactic(auto)]

ghost use Rattle.std.specs.Prelude.{◌≡◌, ◌&&◌, not};
ghost use Rattle.bits.specs.Bit.{bit};
ghost use Rattle.events.specs.Fault.{among};
ghost use Rattle.registers.specs.State.{with_status, with_shown, with_load_level, with_outside_level, alert, reset};
ghost use Rattle.registers.specs.Write.{status_of, without, holds_dsg, holds_chg, driven, shown_with, cellbal_with, written};
ghost use Rattle.registers.specs.Fault.{raised, overridden, readied, counting};
ghost use Rattle.registers.specs.Judging.{scan_kept, temp_kept, pulled_at, coulombs, pulled, pulled_by_level, unready};

use constants::{address, weight};
use events::{Faults, Setup};
use settings::Settings;

pub mod read;

// SYS_STAT, named from bit 7 down.
#[derive(Clone, Copy, Debug, Default, PartialEq, Eq)]
pub struct Status {
    pub cc_ready: bool,
    pub xready: bool,
    pub ovrd_alert: bool,
    pub uv: bool,
    pub ov: bool,
    pub scd: bool,
    pub ocd: bool,
}

// What faults move too: SYS_STAT, CC_ONESHOT, DSG_ON and CHG_ON.
#[derive(Clone, Copy, Debug, Default, PartialEq, Eq)]
pub struct Shown {
    pub status: Status,
    pub cc_oneshot: bool,
    pub dsg_on: bool,
    pub chg_on: bool,
}

#[derive(Clone, Copy, Debug, Default, PartialEq, Eq)]
pub struct Cellbal {
    pub cellbal1: u8,
    pub cellbal2: u8,
    pub cellbal3: u8,
}

#[derive(Clone, Copy, Debug, Default, PartialEq, Eq)]
pub struct Measured {
    pub cells: [u16; 15],
    pub bat: u16,
    pub ts: [u16; 3],
    pub cc: u16,
}

#[derive(Clone, Copy, Debug, PartialEq, Eq)]
pub struct Registers {
    pub settings: Settings,
    pub shown: Shown,
    pub cellbal: Cellbal,
    pub measured: Measured,
    pub load_level: bool,
    // The outside level.
    pub outside_level: bool,
}

// The byte at an address, and the low byte of the word that stands there.
#[derive(Clone, Copy, Debug, PartialEq, Eq)]
pub struct Pair {
    pub here: u8,
    pub low: u8,
}

// A bit of SYS_STAT after a write: a one clears it.
fn bit_left(up: bool, v: u8, weight: u8) -> bool
    ensures { result ≡ (up && not (bit v weight)) }
{
    up && !bits::bit(v, weight)
}

impl Status {
    // ALERT.
    pub fn alert(self) -> bool
        ensures { result ≡ alert self }
    {
        self.cc_ready
            || self.xready
            || self.ovrd_alert
            || self.uv
            || self.ov
            || self.scd
            || self.ocd
    }

    // What keeps DSG_ON, and CHG_ON, off.
    fn holds_dsg(self) -> bool
        ensures { result ≡ holds_dsg self }
    {
        self.uv || self.ocd || self.scd || self.ovrd_alert || self.xready
    }

    fn holds_chg(self) -> bool
        ensures { result ≡ holds_chg self }
    {
        self.ov || self.ovrd_alert || self.xready
    }

    // What a write of SYS_STAT leaves.
    pub fn less(self, v: u8) -> Self
        ensures { result ≡ without (status_of v) self }
    {
        Status {
            cc_ready: bit_left(self.cc_ready, v, weight::CC_READY),
            xready: bit_left(self.xready, v, weight::XREADY),
            ovrd_alert: bit_left(self.ovrd_alert, v, weight::OVRD_ALERT),
            uv: bit_left(self.uv, v, weight::UV),
            ov: bit_left(self.ov, v, weight::OV),
            scd: bit_left(self.scd, v, weight::SCD),
            ocd: bit_left(self.ocd, v, weight::OCD),
        }
    }
}

impl Shown {
    fn cleared(self, v: u8) -> Self
        ensures { result ≡ with_status (without (status_of v) self.status) self }
    {
        Shown {
            status: self.status.less(v),
            ..self
        }
    }

    fn driven(self, v: u8) -> Self
        ensures { result ≡ driven v self }
    {
        Shown {
            status: self.status,
            cc_oneshot: bits::bit(v, weight::CC_ONESHOT)
                && !bits::bit(v, weight::CC_EN)
                && !self.status.cc_ready,
            dsg_on: bits::bit(v, weight::DSG_ON) && !self.status.holds_dsg(),
            chg_on: bits::bit(v, weight::CHG_ON) && !self.status.holds_chg(),
        }
    }

    #[tactic(auto, unfolding(crate::specs::Write::shown_with))]
    pub fn write(self, a: u8, v: u8) -> Self
        ensures { result ≡ shown_with a v self }
    {
        match a {
            address::SYS_STAT => self.cleared(v),
            address::SYS_CTRL2 => self.driven(v),
            _ => self,
        }
    }

    // Each fault that rises puts off its drive.
    pub fn raised(self, rise: Faults) -> Self
        ensures { result ≡ raised (among rise) self }
    {
        Shown {
            status: Status {
                uv: rise.uv || self.status.uv,
                ov: rise.ov || self.status.ov,
                scd: rise.scd || self.status.scd,
                ocd: rise.ocd || self.status.ocd,
                ..self.status
            },
            dsg_on: !(rise.uv || rise.scd || rise.ocd) && self.dsg_on,
            chg_on: !rise.ov && self.chg_on,
            ..self
        }
    }

    fn overridden(mut self) -> Self
        ensures { result ≡ overridden self }
    {
        self.status.ovrd_alert = true;
        self.dsg_on = false;
        self.chg_on = false;
        self
    }

    // ALERT pulled up from outside, or not: OVRD_ALERT rises only with SYS_STAT 0.
    fn pressed(self, level: bool) -> Self
        ensures { result ≡ pulled_at level self }
    {
        if !level || self.status.alert() {
            return self;
        }
        self.overridden()
    }

    fn readied(mut self) -> Self
        ensures { result ≡ readied self }
    {
        self.status.xready = true;
        self.dsg_on = false;
        self.chg_on = false;
        self
    }

    fn counting(mut self) -> Self
        ensures { result ≡ counting self }
    {
        self.status.cc_ready = true;
        self.cc_oneshot = false;
        self
    }
}

impl Cellbal {
    #[tactic(auto, unfolding(crate::specs::Write::cellbal_with))]
    pub fn write(mut self, setup: Setup, a: u8, v: u8) -> Self
        ensures { result ≡ cellbal_with setup a v self }
    {
        // The address of each is the number of its group.
        if setup.groups() < a {
            return self;
        }
        match a {
            address::CELLBAL1 => self.cellbal1 = v % 32,
            address::CELLBAL2 => self.cellbal2 = v % 32,
            address::CELLBAL3 => self.cellbal3 = v % 32,
            _ => {}
        }
        self
    }
}

// The registers on entering SHIP.
pub fn reset() -> Registers
    ensures { result ≡ reset }
{
    Registers {
        settings: settings::reset(),
        shown: Shown::default(),
        cellbal: Cellbal::default(),
        measured: Measured::default(),
        load_level: false,
        outside_level: false,
    }
}

impl Registers {
    // The accepted write of `v` at `a`; whether it ships, the settings say before.
    pub fn write(mut self, setup: Setup, a: u8, v: u8) -> Self
        ensures { result ≡ written setup a v self }
    {
        self.settings = self.settings.write(a, v);
        self.cellbal = self.cellbal.write(setup, a, v);
        self.shown = self.shown.write(a, v);
        self
    }

    pub fn raised(mut self, rise: Faults) -> Self
        ensures { result ≡ with_shown (raised (among rise) self.shown) self }
    {
        self.shown = self.shown.raised(rise);
        self
    }

    // SCAN: the counts in their places, and their sum.
    pub fn scanned(mut self, cells: [u16; 15], sum: u32) -> Self
        ensures { result ≡ scan_kept cells sum self }
    {
        if self.settings.adc_en {
            self.measured.cells = cells;
            self.measured.bat = (sum / 4 % 65536) as u16;
        }
        self
    }

    // TEMP: the counts in their places.
    pub fn warmed(mut self, ts: [u16; 3]) -> Self
        ensures { result ≡ temp_kept ts self }
    {
        if self.settings.adc_en {
            self.measured.ts = ts;
        }
        self
    }

    // COUNT.
    pub fn coulombs(mut self, cc: u16) -> Self
        ensures { result ≡ coulombs cc self }
    {
        if self.settings.cc_en || self.shown.cc_oneshot {
            self.measured.cc = cc;
            self.shown = self.shown.counting();
        }
        self
    }

    // PIN.
    pub fn pulled(mut self) -> Self
        ensures { result ≡ pulled self }
    {
        self.shown = self.shown.pressed(true);
        self
    }

    // XREADY.
    pub fn unready(mut self) -> Self
        ensures { result ≡ unready self }
    {
        self.shown = self.shown.readied();
        self.cellbal = Cellbal::default();
        self
    }

    // LOAD.
    pub fn loaded(mut self, load: bool) -> Self
        ensures { result ≡ with_load_level load self }
    {
        self.load_level = load;
        self
    }

    // The outside level.
    pub fn leveled(mut self, outside: bool) -> Self
        ensures { result ≡ with_outside_level outside self }
    {
        self.outside_level = outside;
        self
    }

    // What the outside level does after an event.
    pub fn pulled_by_level(mut self) -> Self
        ensures { result ≡ pulled_by_level self }
    {
        self.shown = self.shown.pressed(self.outside_level);
        self
    }
}
