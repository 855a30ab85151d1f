// CRC-8 with x^8 + x^2 + x + 1: start 0, high bit first, nothing inverted.
#![tactic(auto)]

ghost use Rattle.std.specs.Prelude.{◌≡◌, ◌<◌};
ghost use Rattle.crc8.specs.Crc.{by_seven, turns, byte_on, crc_on};

// A polynomial times x^2 + x + 1.
fn by_seven(x: u16) -> u16
    requires { x < 256 }
    ensures { result ≡ by_seven x }
{
    x ^ x * 2 ^ x * 4
}

// The remainder times x^8. Since x^8 is x^2 + x + 1 here, that is the remainder times x^2 + x + 1, and again for what passes x^7.
fn crc_turns(c: u8) -> u8
    ensures { result ≡ turns c }
{
    let product = by_seven(u16::from(c));
    let over = by_seven(product / 256 % 4);
    ((product % 256 ^ over) % 256) as u8
}

// One byte taken into a running CRC.
#[tactic(auto, unfolding(crate::specs::Crc::byte_on))]
pub fn crc_byte(c: u8, b: u8) -> u8
    ensures { result ≡ byte_on c b }
{
    crc_turns(c ^ b)
}

// The bytes of s taken into a running CRC: from 0, the CRC of s.
pub fn crc_on(c: u8, s: &[u8]) -> u8
    ensures { result ≡ crc_on c s.now }
{
    s.iter().fold(c, |x, b| crc_byte(x, *b))
}
