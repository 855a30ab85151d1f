// CHIP P11: the decision of the plain engine. It keeps no runs: the bit of a fault is due where a scan or ticks say yes, and they and those in a row
// before them that said yes are as many as the delay asks for (CHIP J9, J10, H1 and H2).
#![tactic(auto)]

ghost use Rattle.std.specs.Prelude.{◌≡◌};
ghost use Rattle.plain_due.specs.Decision.{due, scan_due, ticks_due};

use cell_counts::Looked;
use events::{Fault, Faults, PerFault};
use settings::Settings;

// For each fault, how many of the newest verdicts of this waking spell are true, up to the first that is not.
pub type Streaks = PerFault<u64>;

// The decision: these scans or ticks say yes, and they alone, or with those in a row before them, are as many as the delay asks for.
fn due(says_yes: bool, these: u32, in_a_row_before: u64, asked_for: u16) -> bool
    ensures { result ≡ due says_yes these in_a_row_before asked_for }
{
    says_yes && u64::from(asked_for) <= in_a_row_before.saturating_add(u64::from(these))
}

// A scan says yes to OV where it is stored and some count is over, to UV where it is stored and some count is under (CHIP J1 to J4).
#[tactic(auto, unfolding(limits::specs::Rule::rule, crate::specs::Decision::scan_due))]
pub fn due_at_scan(s: Settings, looked: Looked, in_a_row: Streaks) -> Faults
    ensures { result ≡ scan_due s looked.over looked.under in_a_row }
{
    let ov = limits::rule_of(s, Fault::Ov);
    let uv = limits::rule_of(s, Fault::Uv);
    Faults {
        ov: due(ov.on && looked.over, 1, in_a_row.ov, ov.need),
        uv: due(uv.on && looked.under, 1, in_a_row.uv, uv.need),
        ..Faults::default()
    }
}

// Ticks of one value say yes to SCD, and to OCD, where minus the value is above the threshold set (CHIP J5); each of them counts (CHIP R8).
#[tactic(auto, unfolding(crate::specs::Decision::ticks_due))]
pub fn due_at_ticks(s: Settings, value: i32, these: u32, in_a_row: Streaks) -> Faults
    ensures { result ≡ ticks_due s value these in_a_row }
{
    let scd = limits::rule_of(s, Fault::Scd);
    let ocd = limits::rule_of(s, Fault::Ocd);
    Faults {
        scd: due(scd.beyond(value), these, in_a_row.scd, scd.need),
        ocd: due(ocd.beyond(value), these, in_a_row.ocd, ocd.need),
        ..Faults::default()
    }
}
