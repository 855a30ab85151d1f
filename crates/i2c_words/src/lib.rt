// The words of a command list: a message to write or to read, or a byte.
#![tactic(auto)]

ghost use Rattle.std.specs.Prelude.{◌≡◌, ◌<◌};
ghost use Rattle.i2c_words.specs.Reader.{below, counted, hex_of, digit_of, value_of, one_of, two_of, message_for, message_of, word_of};

// What a word says: a message with how many bytes it has and its address, or a byte. Every other word is unknown.
#[derive(Clone, Copy, Debug, PartialEq, Eq)]
pub enum Word {
    Write(u8, u8),
    Read(u8, u8),
    Byte(u8),
    Unknown,
}

// What the glyph of a hex digit from ten on has above its value, of A to F and of a to f.
const UPPER: u8 = 55;

const LOWER: u8 = 87;

// How many bytes a message has at most.
const BYTES_MOST: u8 = 64;

// The value of a hex digit of either case. Inlined, as `value` is: both are called from three places, for every word twice.
#[inline(always)]
#[tactic(auto, unfolding(crate::specs::Reader::hex_of))]
fn hex_digit(c: u8) -> Option<u8>
    ensures { result ≡ below 16 (hex_of c) }
{
    match c {
        b'0'..=b'9' => Some(c - b'0'),
        b'A'..=b'F' => Some(c - UPPER),
        b'a'..=b'f' => Some(c - LOWER),
        _ => None,
    }
}

// The value of a decimal digit.
#[tactic(auto, unfolding(crate::specs::Reader::digit_of))]
fn digit(c: u8) -> Option<u8>
    ensures { result ≡ below 10 (digit_of c) }
{
    match c {
        b'0'..=b'9' => Some(c - b'0'),
        _ => None,
    }
}

// The value of 0x and one or two hex digits.
#[inline(always)]
#[tactic(auto, unfolding(crate::specs::Reader::value_of, crate::specs::Reader::digits_of, crate::specs::Reader::pair_of))]
fn value(w: &[u8]) -> Option<u8>
    ensures { result ≡ below 256 (value_of w.now) }
{
    match w {
        [b'0', b'x', low] => hex_digit(*low),
        [b'0', b'x', high, low] => Some(16 * hex_digit(*high)? + hex_digit(*low)?),
        _ => None,
    }
}

// The number of one decimal digit from 1 on.
#[tactic(auto, unfolding(crate::specs::Reader::one_of))]
fn one(c: u8) -> Option<u8>
    ensures { result ≡ counted (one_of c) }
{
    match c {
        b'1'..=b'9' => Some(c - b'0'),
        _ => None,
    }
}

// The number of two decimal digits of which the first is not 0.
#[tactic(auto, unfolding(crate::specs::Reader::joined_of, crate::specs::Reader::one_of, crate::specs::Reader::digit_of))]
fn two(c: u8, d: u8) -> Option<u8>
    ensures { result ≡ counted (two_of c d) }
{
    Some(10 * one(c)? + digit(d)?)
}

// A message by its letter, how many bytes it has and its address.
#[tactic(auto, unfolding(crate::specs::Reader::message_for))]
fn message(letter: u8, count: u8, address: u8) -> Word
    requires { 0 < count }
    ensures { result ≡ message_for letter count address }
{
    if BYTES_MOST < count {
        return Word::Unknown;
    }
    match letter {
        b'w' => Word::Write(count, address),
        b'r' => Word::Read(count, address),
        _ => Word::Unknown,
    }
}

// The message that a word begins, by where its @ stands.
#[tactic(auto, unfolding(crate::specs::Reader::message_of, crate::specs::Reader::message_for))]
fn message_of(w: &[u8]) -> Word
    ensures { result ≡ message_of w.now }
{
    if w.len() < 4 {
        return Word::Unknown;
    }
    if w[2] == b'@' {
        let Some(count) = one(w[1]) else {
            return Word::Unknown;
        };
        let Some(address) = value(&w[3..]) else {
            return Word::Unknown;
        };
        return message(w[0], count, address);
    }
    if w[3] == b'@' {
        let Some(count) = two(w[1], w[2]) else {
            return Word::Unknown;
        };
        let Some(address) = value(&w[4..]) else {
            return Word::Unknown;
        };
        return message(w[0], count, address);
    }
    Word::Unknown
}

// What a word says: a byte, or else the message that it begins.
#[tactic(auto, unfolding(crate::specs::Reader::word_by))]
pub fn word_of(w: &[u8]) -> Word
    ensures { result ≡ word_of w.now }
{
    match value(w) {
        Some(byte) => Word::Byte(byte),
        None => message_of(w),
    }
}
