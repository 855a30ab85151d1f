// Which cells to bleed: the CELLBAL bytes with the largest total excess over the lowest cell, no two neighbours of a group together.
#![tactic(auto)]

ghost use Rattle.std.specs.Prelude.{◌≡◌, ◌+◌, ◌≤◌, ◌<◌};
ghost use Rattle.bits.specs.Bit.{bit, weighed};
ghost use Rattle.bleed.specs.Excess.{linked_at, lower_at, lowest, excess_at, excesses_over, proposed};
ghost use Rattle.bleed.specs.Choice.{excess_in, may_in, better_in, best_in, chosen};

// Where the second and the third group of five inputs begin, and how many inputs a part can have; the bytes that a group's choice can be.
const SECOND_GROUP: usize = 5;

const THIRD_GROUP: usize = 10;

const INPUTS: usize = 15;

const CHOICES: u8 = 32;

// The three CELLBAL bytes: bit 0 of the first is input 1.
#[derive(Clone, Copy, Debug, Default, PartialEq, Eq)]
pub struct Choice {
    pub one: u8,
    pub two: u8,
    pub three: u8,
}

// The bit of weight `w`.
fn on(byte: u8, w: u8) -> bool
    requires { 0 < w }
    ensures { result ≡ bit byte w }
{
    byte / w % 2 == 1
}

// What an input adds, where the byte names it.
fn adds(byte: u8, w: u8, excess: u16) -> u32
    requires { 0 < w }
    ensures { (result ≡ weighed (bit byte w) excess) × (result < 65536) }
{
    if on(byte, w) { u32::from(excess) } else { 0 }
}

// The excess of the inputs of a group that a byte names.
#[tactic(auto, unfolding(crate::specs::Choice::excess_in))]
fn excess_in(group: [u16; 5], byte: u8) -> u32
    ensures { result ≡ excess_in group 0 byte }
{
    let [a, b, c, d, e] = group;
    adds(byte, 1, a) + adds(byte, 2, b) + adds(byte, 4, c) + adds(byte, 8, d) + adds(byte, 16, e)
}

// Whether a byte names only inputs that may be bled, and no two neighbours.
#[tactic(auto, unfolding(crate::specs::Choice::may_in))]
fn may_in(group: [u16; 5], byte: u8) -> bool
    ensures { result ≡ may_in group 0 byte }
{
    let [a, b, c, d, e] = [
        on(byte, 1),
        on(byte, 2),
        on(byte, 4),
        on(byte, 8),
        on(byte, 16),
    ];
    let near = a && b || b && c || c && d || d && e;
    let low = a && group[0] == 0
        || b && group[1] == 0
        || c && group[2] == 0
        || d && group[3] == 0
        || e && group[4] == 0;
    byte < CHOICES && !near && !low
}

// The best byte of a group: of those that are allowed the first that has the most.
#[tactic(auto, unfolding(crate::specs::Choice::better_in))]
fn best_of(group: [u16; 5]) -> u8
    ensures { result ≡ best_in group 0 }
{
    let mut best = 0;
    for byte in 0..CHOICES {
        if may_in(group, byte) && excess_in(group, best) < excess_in(group, byte) {
            best = byte;
        }
    }
    best
}

// The best byte of the five inputs from a place on.
#[tactic(auto, using(crate::proofs::Excess::same_group))]
fn best_in(excess: [u16; 15], from: usize) -> u8
    requires { from ≤ 10 }
    ensures { result ≡ best_in excess from }
{
    best_of([
        excess[from],
        excess[from + 1],
        excess[from + 2],
        excess[from + 3],
        excess[from + 4],
    ])
}

// The best choice, by each input's excess: 0 where it may not be bled.
#[tactic(auto, unfolding(crate::specs::Choice::chosen))]
fn choose(excess: [u16; 15]) -> Choice
    ensures { result ≡ chosen excess }
{
    Choice {
        one: best_in(excess, 0),
        two: best_in(excess, SECOND_GROUP),
        three: best_in(excess, THIRD_GROUP),
    }
}

// Whether an input, counted from 0, is connected.
#[tactic(auto, using(crate::proofs::Excess::weight_is), unfolding(crate::specs::Excess::linked_at))]
fn linked_at(linked: u16, i: usize) -> bool
    requires { i < 15 }
    ensures { result ≡ linked_at linked i }
{
    (linked >> i) % 2 == 1
}

// The lowest connected cell.
#[tactic(auto, unfolding(crate::specs::Excess::lower_at, crate::specs::Excess::lowest))]
fn lowest(cells: [u16; 15], linked: u16) -> u16
    ensures { result ≡ lowest cells linked }
{
    let mut low = u16::MAX;
    for (i, count) in cells.iter().enumerate() {
        if linked_at(linked, i) && *count < low {
            low = *count;
        }
    }
    low
}

// How far a cell that may be bled stands above the lowest, else 0.
#[tactic(auto, unfolding(crate::specs::Excess::excess_at))]
fn excess_at(cells: [u16; 15], linked: u16, low: u16, margin: u16, i: usize) -> u16
    requires { i < 15 }
    ensures { result ≡ excess_at cells linked low margin i }
{
    let count = cells[i];
    if linked_at(linked, i) && u32::from(low) + u32::from(margin) <= u32::from(count) {
        count - low
    } else {
        0
    }
}

#[tactic(auto, using(crate::proofs::Excess::all_excesses))]
fn excesses_over(cells: [u16; 15], linked: u16, low: u16, margin: u16) -> [u16; 15]
    ensures { result ≡ excesses_over cells linked low margin }
{
    let mut over = [0; 15];
    for i in 0..INPUTS {
        over[i] = excess_at(cells, linked, low, margin, i);
    }
    over
}

// The best choice of the cells that are connected and at least the margin above the lowest of these. Bit 0 of `linked` is input 1.
pub fn propose(cells: [u16; 15], linked: u16, margin: u16) -> Choice
    ensures { result ≡ proposed cells linked margin }
{
    let low = lowest(cells, linked);
    choose(excesses_over(cells, linked, low, margin))
}
