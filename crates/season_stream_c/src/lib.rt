// The call of `season_stream` as a static library, with its contract word for word.
#![tactic(auto)]

ghost use Rattle.season_rows.specs.Rows.{Tallied};
ghost use Rattle.season_stream.specs.Scans.{season_said};

#[unsafe(no_mangle)]
pub extern "C" fn toralinge_season(stream: &[u8], rows: &mut [i64]) -> i64
    ensures { Tallied (season_said stream.now) rows.old result rows.new }
{
    season_stream::toralinge_season(stream, rows)
}
