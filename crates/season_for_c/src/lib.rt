// The calls of `season_c` as a static library, with their contracts word for word.
#![tactic(auto)]

ghost use Rattle.season_bytes_layout.specs.Layout.{kept_of};
ghost use Rattle.chip_bytes_layout.specs.Layout.{kept_of as chip_of};
ghost use Rattle.season_rows.specs.Rows.{said_report};
ghost use Rattle.season_rows.specs.Rows.{Tallied};
ghost use Rattle.season_c.specs.Calls.{join_said, Joins, grow_said, Grows};

#[unsafe(no_mangle)]
pub extern "C" fn toralinge_join(first: &[u8], second: &[u8], whole: &mut [u8]) -> u8
    ensures { Joins (join_said (kept_of first.now) (kept_of second.now)) whole.old result whole.new }
{
    season_c::toralinge_join(first, second, whole)
}

#[unsafe(no_mangle)]
pub extern "C" fn toralinge_rows(report: &[u8], rows: &mut [i64]) -> i64
    ensures { Tallied (said_report (kept_of report.now)) rows.old result rows.new }
{
    season_c::toralinge_rows(report, rows)
}

#[unsafe(no_mangle)]
pub extern "C" fn toralinge_grow(report: &mut [u8], chip: &[u8], records: &[u8]) -> i64
    ensures { Grows (grow_said (kept_of report.old) (chip_of chip.now) records.now) report.old result report.new }
{
    season_c::toralinge_grow(report, chip, records)
}
