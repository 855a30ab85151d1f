// Numbers as bytes, the low byte first, and bytes put at a place.
ghost use Rattle.std.specs.Prelude.{◌≡◌, ◌+◌, ◌*◌, ◌≤◌, length};
ghost use Rattle.std.proofs.lemmas.List.Edits.{sets};
ghost use Rattle.bits.specs.Numbers.{bits32, word_bytes};

// The 32 bits of a number with its sign.
#[tactic(auto, unfolding(crate::specs::Numbers::bits32))]
pub fn bits_of(v: i32) -> u32
    ensures { result ≡ bits32 v }
{
    v.cast_unsigned()
}

// Bytes put at a place.
pub fn put_bytes(out: &mut [u8], at: usize, from: &[u8])
    requires { at + length from.now ≤ length out.old }
    ensures { out.new ≡ sets out.old at from.now }
{
    out[at..at + from.len()].copy_from_slice(from);
}

// Numbers of two bytes put at a place.
pub fn put_words(out: &mut [u8], at: usize, of: &[u16])
    requires { at + 2 * length of.now ≤ length out.old }
    ensures { out.new ≡ sets out.old at (word_bytes of.now) }
{
    for (i, w) in of.iter().enumerate() {
        let [low, high] = w.to_le_bytes();
        out[at + 2 * i] = low;
        out[at + 2 * i + 1] = high;
    }
}
