// The calls of `stream` as a static library, with their contracts word for word.
#![tactic(auto)]

ghost use Rattle.stream_run.specs.Stream.{Played};
ghost use Rattle.stream.specs.Forecast.{Read4};

#[unsafe(no_mangle)]
pub extern "C" fn toralinge_play(stream: &[u8], entries: &mut [u8]) -> i64
    ensures { Played stream.now entries.old result entries.new }
{
    stream::toralinge_play(stream, entries)
}

#[unsafe(no_mangle)]
pub extern "C" fn toralinge_reading(stream: &[u8], reading: &mut [f64]) -> u8
    ensures { Read4 stream.now reading.old result reading.new }
{
    stream::forecast::toralinge_reading(stream, reading)
}
