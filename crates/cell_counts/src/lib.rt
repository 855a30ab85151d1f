// One look over the counts of a scan.
#![tactic(auto)]

ghost use Rattle.std.specs.Prelude.{◌≡◌, ◌&&◌, leb, ltb, take, get_or, ◌<◌};
ghost use Rattle.cell_counts.specs.Scan.{looked_at, padded, ts_places};

// What the counts are: the places for all inputs, their sum, and both verdicts.
#[derive(Clone, Copy, Debug, Default, PartialEq, Eq)]
pub struct Looked {
    pub cells: [u16; 15],
    pub sum: u32,
    pub over: bool,
    pub under: bool,
}

// Whether a count is under: not below the floor, and below the line. With `&&` the loop of `look` branches at each count and is slower.
fn is_under(x: u16, floor: u16, least: u16) -> bool
    ensures { result ≡ (leb floor x && ltb x least) }
{
    (floor <= x) & (x < least)
}

// The first `inputs` counts: stored, summed and judged in one loop.
pub fn look(counts: [u16; 15], inputs: u8, most: u16, floor: u16, least: u16) -> Looked
    ensures { result ≡ looked_at most floor least (take inputs counts) }
{
    let mut cells = [0; 15];
    let mut sum = 0;
    let mut over = false;
    let mut under = false;
    for i in 0..usize::from(inputs).min(15) {
        let x = counts[i];
        cells[i] = x;
        sum += u32::from(x);
        over |= most < x;
        under |= is_under(x, floor, least);
    }
    Looked {
        cells,
        sum,
        over,
        under,
    }
}

// The count at a place, where it is one of the first `many`.
fn place(counts: [u16; 15], many: u8, at: usize) -> u16
    requires { at < 15 }
    ensures { result ≡ get_or (take many counts) at 0 }
{
    if at < usize::from(many) {
        counts[at]
    } else {
        0
    }
}

// The first `many` counts as the places of the thermistors.
pub fn three(counts: [u16; 15], many: u8) -> [u16; 3]
    ensures { result ≡ padded ts_places (take many counts) }
{
    [
        place(counts, many, 0),
        place(counts, many, 1),
        place(counts, many, 2),
    ]
}
