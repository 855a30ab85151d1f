// The accepted write of a register done in the bytes of a kept chip: what it moves is read and written, and nothing else.
ghost use Rattle.std.specs.Prelude.{◌≡◌, ◌≤◌};
ghost use Rattle.constants.specs.Address.{SYS_STAT, SYS_CTRL1, SYS_CTRL2};
ghost use Rattle.chip_bytes_bus.specs.Store.{stat_in, control_in, drives_in, Wrote, WroteBy};

use chip_bytes_layout::{ChipBytes, place};
use chip_bytes_read::{settings_at, setup_at, shown_at, status_at};
use constants::address;
use registers::{Shown, Status};
use settings::Settings;

// SYS_STAT: ones clear ..
fn put_status(out: &mut ChipBytes, t: Status)
    ensures { out.new ≡ stat_in t out.old }
{
    out[place::CC_READY] = u8::from(t.cc_ready);
    out[place::XREADY] = u8::from(t.xready);
    out[place::OVRD_ALERT] = u8::from(t.ovrd_alert);
    out[place::UV] = u8::from(t.uv);
    out[place::OV] = u8::from(t.ov);
    out[place::SCD] = u8::from(t.scd);
    out[place::OCD] = u8::from(t.ocd);
}

// .. but where the outside level would then raise OVRD_ALERT.
fn put_stat(out: &mut ChipBytes, v: u8) -> bool
    ensures { WroteBy SYS_STAT v out.old result out.new }
{
    let t = status_at(out).less(v);
    if out[place::OUTSIDE_LEVEL] == 1 && !t.alert() {
        return false;
    }
    put_status(out, t);
    true
}

// SYS_CTRL1, where it does not ship.
fn put_control(out: &mut ChipBytes, s: Settings)
    ensures { out.new ≡ control_in s out.old }
{
    out[place::ADC_EN] = u8::from(s.adc_en);
    out[place::TEMP_SEL] = u8::from(s.temp_sel);
    out[place::SHUT_B] = u8::from(s.shut_b);
}

fn put_ctrl1(out: &mut ChipBytes, v: u8) -> bool
    ensures { WroteBy SYS_CTRL1 v out.old result out.new }
{
    let s = settings_at(out);
    if s.ships(address::SYS_CTRL1, v) {
        return false;
    }
    put_control(out, s.write(address::SYS_CTRL1, v));
    true
}

// SYS_CTRL2: DELAY_DIS and CC_EN, and CC_ONESHOT and the drives, which faults hold off.
fn put_driven(out: &mut ChipBytes, s: Settings, shown: Shown)
    ensures { out.new ≡ drives_in s shown out.old }
{
    out[place::DELAY_DIS] = u8::from(s.delay_dis);
    out[place::CC_EN] = u8::from(s.cc_en);
    out[place::CC_ONESHOT] = u8::from(shown.cc_oneshot);
    out[place::DSG_ON] = u8::from(shown.dsg_on);
    out[place::CHG_ON] = u8::from(shown.chg_on);
}

fn put_ctrl2(out: &mut ChipBytes, v: u8)
    ensures { Wrote SYS_CTRL2 v out.old out.new }
{
    let s = settings_at(out).write(address::SYS_CTRL2, v);
    let shown = shown_at(out).write(address::SYS_CTRL2, v);
    put_driven(out, s, shown);
}

// CELLBAL1 to CELLBAL3, of a group that the part has.
fn put_cellbal(out: &mut ChipBytes, a: u8, v: u8)
    requires { (1 ≤ a) × (a ≤ 3) }
    ensures { Wrote a v out.old out.new }
{
    if a <= setup_at(out).groups() {
        out[place::CELLBAL1 + usize::from(a - address::CELLBAL1)] = v % 32;
    }
}

// The registers that are settings alone, 0x06 to 0x0B; nothing stands above them that a write moves.
fn put_setting(out: &mut ChipBytes, a: u8, v: u8)
    requires { 6 ≤ a }
    ensures { Wrote a v out.old out.new }
{
    match a {
        address::PROTECT1 => out[place::PROTECT1] = v / 128 * 128 + v % 32,
        address::PROTECT2 => out[place::PROTECT2] = v % 128,
        address::PROTECT3 => out[place::PROTECT3] = v / 16 * 16,
        address::OV_TRIP => out[place::OV_TRIP] = v,
        address::UV_TRIP => out[place::UV_TRIP] = v,
        address::CC_CFG => out[place::CC_CFG] = v % 64,
        _ => {}
    }
}

// The accepted write of `v` at `a`; false, and nothing is changed, where it ships, and where the outside level then raises OVRD_ALERT.
pub fn put(out: &mut ChipBytes, a: u8, v: u8) -> bool
    ensures { WroteBy a v out.old result out.new }
{
    match a {
        address::SYS_STAT => return put_stat(out, v),
        address::SYS_CTRL1 => return put_ctrl1(out, v),
        address::SYS_CTRL2 => put_ctrl2(out, v),
        _ if a < address::SYS_CTRL1 => put_cellbal(out, a, v),
        _ => put_setting(out, a, v),
    }
    true
}
