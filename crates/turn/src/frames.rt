// How many records a stream has, and how far one leads that is not done.
ghost use Rattle.std.specs.Prelude.{◌≡◌, length};
ghost use Rattle.turn.specs.Frames.{frames, frames_of, frames_from};
ghost use Rattle.turn.specs.Passed.{answer_of, passed};

use constants::refusal::Refusal;
use records::Read;

// What a record that is not done is answered: why.
pub fn answer_of(read: Read) -> Result<Option<u8>, Refusal>
    ensures { result ≡ answer_of read }
{
    match read {
        Read::Record { .. } => Ok(None),
        Read::Refused { why, .. } => Err(why),
        Read::Cut => Err(Refusal::CutShort),
    }
}

// How far a record leads that is not done: past it, or through all that is left where the stream ends with it.
pub fn passed(read: Read, part: u8, left: usize) -> usize
    ensures { result ≡ passed part left read }
{
    match read {
        Read::Record { next, .. } => next,
        Read::Refused { next, .. } => { if part == 0 { left } else { next } }
        Read::Cut => left,
    }
}

// How many records bytes have, one that is cut short counted too.
fn frames_in(s: &[u8]) -> usize
    ensures { result ≡ frames (length s.now) s.now }
{
    let mut rest = s;
    let mut n = 0;
    while !rest.is_empty() {
        n += 1;
        let Some(size) = records::frame(rest) else {
            return n;
        };
        rest = &rest[size..];
    }
    n
}

// How many entries a stream has, by its framing and its first record alone.
pub fn count(s: &[u8]) -> usize
    ensures { result ≡ frames_of s.now }
{
    if s.is_empty() {
        return 0;
    }
    if records::first_number(s) != 0 {
        return 1;
    }
    frames_in(s)
}

// .. at the part that stands: 0 where none does yet.
pub fn count_from(part: u8, s: &[u8]) -> usize
    ensures { result ≡ frames_from part s.now }
{
    if part == 0 {
        return count(s);
    }
    frames_in(s)
}
