// The call of `feed` as a static library, with its contract word for word.
#![tactic(auto)]

ghost use Rattle.feed.specs.Fed.{Fed};

#[unsafe(no_mangle)]
pub extern "C" fn toralinge_feed(chip: &mut [u8], records: &[u8], entries: &mut [u8]) -> i64
    ensures { Fed chip.old records.now entries.old result chip.new entries.new }
{
    feed::toralinge_feed(chip, records, entries)
}
