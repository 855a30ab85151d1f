// CHIP P17 and P18: the rows that say why a bit is up and since when a drive is off, in bytes.
#![tactic(auto)]

ghost use Rattle.std.specs.Prelude.{◌≡◌};
ghost use Rattle.bits.specs.Numbers.{word_bytes};
ghost use Rattle.why_rows.specs.Row.{why_words, off_words};

// Why a bit rose: the record, that of the first of the verdicts that made it due, the cause, how many verdicts, and the limit, input and count or value (32 bits) of
// the last of them.
#[derive(Clone, Copy, Debug, Default, PartialEq, Eq)]
pub struct Why {
    pub rose: u64,
    pub first: u64,
    pub cause: u32,
    pub many: u32,
    pub limit: u32,
    pub input: u32,
    pub value: u32,
}

// A row, the low bytes of each number first.
pub fn why_row(why: Why) -> [u8; 36]
    ensures { result ≡ word_bytes (why_words why) }
{
    let mut row = [0; 36];
    row[..8].copy_from_slice(&why.rose.to_le_bytes());
    row[8..16].copy_from_slice(&why.first.to_le_bytes());
    row[16..20].copy_from_slice(&why.cause.to_le_bytes());
    row[20..24].copy_from_slice(&why.many.to_le_bytes());
    row[24..28].copy_from_slice(&why.limit.to_le_bytes());
    row[28..32].copy_from_slice(&why.input.to_le_bytes());
    row[32..].copy_from_slice(&why.value.to_le_bytes());
    row
}

pub fn off_row(since: u64, held: u8) -> [u8; 12]
    ensures { result ≡ word_bytes (off_words since held) }
{
    let mut row = [0; 12];
    row[..8].copy_from_slice(&since.to_le_bytes());
    row[8] = held;
    row
}
