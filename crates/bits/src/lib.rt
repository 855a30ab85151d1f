// A bit of a byte by its weight, and what a bit adds to its byte; in `bytes` numbers as bytes.
#![tactic(auto)]

ghost use Rattle.std.specs.Prelude.{◌≡◌, ◌≤◌};
ghost use Rattle.bits.specs.Bit.{bit, weighed};

pub mod bytes;

// The bit of weight 1, 2, 4, .. of a byte; no byte has a bit of weight 0.
pub fn bit(v: u8, w: u8) -> bool
    ensures { result ≡ bit v w }
{
    w != 0 && v / w % 2 == 1
}

// What a bit of weight `w` adds to its byte.
pub fn weigh(up: bool, w: u8) -> u8
    ensures { (result ≡ weighed up w) × (result ≤ w) }
{
    if up { w } else { 0 }
}
