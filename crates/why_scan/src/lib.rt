// CHIP P17: what a record says of a bit of SYS_STAT, and of a scan the verdict, the lowest input outside and its count.
#![tactic(auto)]

ghost use Rattle.std.specs.Prelude.{◌≡◌, ◌<◌, ◌^◌, Bool, ℕ, take};
ghost use Rattle.why_scan.specs.Scan.{is_outside, says_scan};

// What a record says of a bit: how many verdicts, all alike (0: it does not judge the bit), the verdict, the lowest input outside (0: none, or a tick), its count or the
// 32 bits of the tick's value, and whether it is a PIN.
#[derive(Clone, Copy, Debug, Default, PartialEq, Eq)]
pub struct Says {
    pub many: u32,
    pub verdict: bool,
    pub input: u32,
    pub value: u32,
    pub pin: bool,
}

// A scan: one verdict, of the first `inputs` counts, where they are measured: whether some count is outside, and the lowest that is.
fn scan_by<F: Fn(u16) -> bool>(counts: &[u16; 15], inputs: u8, on: bool, outside: F) -> Says
    requires { F.IsAlwaysCallable outside }
    ensures { (such : ℕ → Bool) → ((x : ℕ) (t : Bool) → x < 2 ^ 16 → F.post outside x t → t ≡ such x) → result ≡ says_scan on such (take inputs counts.now) }
{
    let measured = &counts[..usize::from(inputs.min(15))];
    match measured.iter().position(|x| outside(*x)) {
        Some(at) => Says {
            many: 1,
            verdict: on,
            input: at as u32 + 1,
            value: u32::from(measured[at]),
            pin: false,
        },
        None => Says {
            many: 1,
            ..Says::default()
        },
    }
}

// A scan: one verdict, of the cells above the line or between the floor and the line, where they are measured.
pub fn scan_of(counts: [u16; 15], inputs: u8, on: bool, over: bool, floor: u16, line: u16) -> Says
    ensures { result ≡ says_scan on (is_outside over floor line) (take inputs counts) }
{
    if over {
        scan_by(&counts, inputs, on, |x| line < x)
    } else {
        scan_by(&counts, inputs, on, |x| (floor..line).contains(&x))
    }
}
