// The number that an answer gives back, and the flag and byte of an OUT or IN that is done.
ghost use Rattle.std.specs.Prelude.{◌≡◌};
ghost use Rattle.chip.specs.Answer.{number_in, flag_in, byte_in};

use constants::number;
use constants::refusal::Refusal;

// 0 for what is done.
pub fn number(answer: Result<Option<u8>, Refusal>) -> u8
    ensures { result ≡ number_in answer }
{
    match answer {
        Ok(_) => number::DONE,
        Err(why) => why.number(),
    }
}

// Whether there is a byte.
pub fn flag(answer: Result<Option<u8>, Refusal>) -> bool
    ensures { result ≡ flag_in answer }
{
    match answer {
        Ok(byte) => byte.is_some(),
        Err(_) => false,
    }
}

// The byte, or 0.
pub fn byte(answer: Result<Option<u8>, Refusal>) -> u8
    ensures { result ≡ byte_in answer }
{
    match answer {
        Ok(byte) => byte.unwrap_or(0),
        Err(_) => 0,
    }
}
