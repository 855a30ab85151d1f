// Values as C hands them over: a value as a number from 0 up, and what a byte, or two, hold of it.
#![tactic(auto)]

pub mod kind;

ghost use Rattle.std.specs.Prelude.{◌≡◌};
ghost use Rattle.record_numbers.specs.Values.{nat_of, byte_of, word_of};

// A value below 0 as a number: beyond every range.
const BEYOND: u64 = 9223372036854775808;

// The most that a byte holds, and a number of two bytes.
pub const BYTE_MOST: u64 = 255;

pub const WORD_MOST: u64 = 65535;

// A value as a number from 0 up: one below 0 is beyond every range.
pub fn natural(v: i64) -> u64
    ensures { result ≡ nat_of v }
{
    if v < 0 {
        return BEYOND;
    }
    v as u64
}

pub fn byte_of(n: u64) -> u8
    ensures { result ≡ byte_of n }
{
    if n <= BYTE_MOST { n as u8 } else { 255 }
}

pub fn word_of(n: u64) -> u16
    ensures { result ≡ word_of n }
{
    if n <= WORD_MOST { n as u16 } else { 65535 }
}
