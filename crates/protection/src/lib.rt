// The four runs, and what rises.
#![tactic(auto)]

ghost use Rattle.std.specs.Prelude.{◌≡◌, replicate};
ghost use Rattle.protection.specs.Streak.{bump, bumps};
ghost use Rattle.protection.specs.Judged.{scan_judged, tick_judged};
ghost use Rattle.protection.specs.Repeat.{ticks_judged};

use constants::range;
use events::{Fault, Faults, PerFault};
use limits::rule_of;
use settings::Settings;

// How many scans or ticks in a row were over or under; each stops at its longest delay.
pub type Runs = PerFault<u16>;

// The next runs, and the faults that rise.
#[derive(Clone, Copy, Debug, PartialEq, Eq)]
pub struct Judged {
    pub runs: Runs,
    pub risen: Faults,
}

// A run after one more verdict: one longer, up to the longest delay, or ended.
fn bumped(longest: u16, verdict: bool, run: u16) -> u16
    ensures { result ≡ bump longest verdict run }
{
    if verdict {
        run.saturating_add(1).min(longest)
    } else {
        0
    }
}

// A run after more verdicts that are all alike.
#[tactic(auto, using(crate::specs::Repeat::alike_more))]
fn bumped_by(longest: u16, verdict: bool, run: u16, more: u32) -> u16
    ensures { result ≡ bumps longest (replicate more verdict) run }
{
    if more == 0 {
        return run;
    }
    if !verdict {
        return 0;
    }
    (u64::from(run) + u64::from(more)).min(u64::from(longest)) as u16
}

// SCAN: whether some count was above the line, and some between the floor and its line.
#[tactic(auto, unfolding(crate::specs::Judged::scan_judged, limits::specs::Rule::rule))]
pub fn scanned(runs: Runs, s: Settings, above: bool, between: bool) -> Judged
    ensures { result ≡ scan_judged s above between runs }
{
    let over = rule_of(s, Fault::Ov);
    let under = rule_of(s, Fault::Uv);
    let ov = bumped(range::OV_LONGEST, over.on && above, runs.ov);
    let uv = bumped(range::UV_LONGEST, under.on && between, runs.uv);
    Judged {
        runs: Runs { ov, uv, ..runs },
        risen: Faults {
            ov: over.need <= ov,
            uv: under.need <= uv,
            ..Faults::default()
        },
    }
}

// SENSE: one tick of any value.
#[tactic(auto, unfolding(crate::specs::Judged::tick_judged))]
pub fn sensed(runs: Runs, s: Settings, value: i32) -> Judged
    ensures { result ≡ tick_judged s value runs }
{
    let short = rule_of(s, Fault::Scd);
    let over = rule_of(s, Fault::Ocd);
    let scd = bumped(range::SCD_LONGEST, short.beyond(value), runs.scd);
    let ocd = bumped(range::OCD_LONGEST, over.beyond(value), runs.ocd);
    Judged {
        runs: Runs { scd, ocd, ..runs },
        risen: Faults {
            scd: short.need <= scd,
            ocd: over.need <= ocd,
            ..Faults::default()
        },
    }
}

// Ticks of any value, one after the other: their number is enough, none is counted by itself.
#[tactic(auto, using(crate::specs::Repeat::ticks_alike_lem))]
pub fn ticked(runs: Runs, s: Settings, value: i32, repeat: u32) -> Judged
    ensures { result ≡ ticks_judged repeat s value runs }
{
    let short = rule_of(s, Fault::Scd);
    let over = rule_of(s, Fault::Ocd);
    let scd = bumped_by(range::SCD_LONGEST, short.beyond(value), runs.scd, repeat);
    let ocd = bumped_by(range::OCD_LONGEST, over.beyond(value), runs.ocd, repeat);
    let some = 0 < repeat;
    Judged {
        runs: Runs { scd, ocd, ..runs },
        risen: Faults {
            scd: some && short.need <= scd,
            ocd: some && over.need <= ocd,
            ..Faults::default()
        },
    }
}
