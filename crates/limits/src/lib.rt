// Limits and delays by register code, and the verdict of a tick.
#![tactic(auto)]

ghost use Rattle.std.specs.Prelude.{◌≡◌, ◌<◌};
ghost use Rattle.events.specs.declared.Fault.TheVariants.{Ov, Uv, Scd, Ocd};
ghost use Rattle.limits.specs.Rule.{limit_of, delay_of, measured_by, ocd_ticks, rule, beyond};
ghost use Rattle.limits.specs.Sag.{sag};

use constants::weight;
use events::Fault;
use settings::Settings;

// In µV: RSNS 0 then 1, code 0 first.
const SCD_LOW: [u32; 8] = [18500, 29000, 39000, 49000, 59000, 69500, 79500, 91000];

const SCD_HIGH: [u32; 8] = [37000, 59000, 78500, 98000, 119000, 139000, 159000, 181500];

const OCD_LOW: [u32; 16] = [
    9500, 11500, 14500, 17500, 19500, 22500, 25000, 28000, 31500, 33000, 36500, 40500, 42000,
    44500, 46000, 48000,
];

const OCD_HIGH: [u32; 16] = [
    18500, 22500, 28500, 34500, 38500, 44500, 49500, 56500, 62500, 65000, 72500, 80500, 83500,
    88500, 90500, 94000,
];

// In counts: the lines of OV_TRIP and UV_TRIP at code 0, and what a code adds.
const OV_START: u16 = 8200;

const UV_START: u16 = 4096;

const TRIP_STEP: u16 = 16;

// The over-current ticks of codes 0 and 1.
const OCD_TICKS_FIRST: u16 = 256;

const OCD_TICKS_SECOND: u16 = 640;

// With DELAY_DIS every delay is this long.
const NO_DELAY: u16 = 1;

// In scans, then in ticks.
const OV_SCANS: [u16; 4] = [4, 8, 16, 32];

const UV_SCANS: [u16; 4] = [4, 16, 32, 64];

const SCD_TICKS: [u16; 4] = [3, 4, 7, 13];

// The rule of a fault as the settings have it: whether it is measured, its limit in counts or µV, and the scans or ticks that it takes.
#[derive(Clone, Copy, Debug, PartialEq, Eq)]
pub struct Rule {
    pub on: bool,
    pub limit: u32,
    pub need: u16,
}

// A count above this is over. As wide as a count: the scan's loop compares the two.
pub fn over_line(s: Settings) -> u16
    ensures { result ≡ limit_of Ov s }
{
    OV_START + TRIP_STEP * u16::from(s.ov_trip)
}

// A count below this, and not below the floor, is under.
pub fn under_line(s: Settings) -> u16
    ensures { result ≡ limit_of Uv s }
{
    UV_START + TRIP_STEP * u16::from(s.uv_trip)
}

fn scd_limit(s: Settings) -> u32
    ensures { result ≡ limit_of Scd s }
{
    let code = usize::from(s.protect1 % 8);
    if bits::bit(s.protect1, weight::RSNS) {
        SCD_HIGH[code]
    } else {
        SCD_LOW[code]
    }
}

fn ocd_limit(s: Settings) -> u32
    ensures { result ≡ limit_of Ocd s }
{
    let code = usize::from(s.protect2 % 16);
    if bits::bit(s.protect1, weight::RSNS) {
        OCD_HIGH[code]
    } else {
        OCD_LOW[code]
    }
}

// The over-current ticks of a code: 256, then 640 doubled with each code more. No table: the pack tester has no room for one.
fn ticks_at(code: u8) -> u16
    requires { code < 8 }
    ensures { result ≡ ocd_ticks code }
{
    if code == 0 {
        return OCD_TICKS_FIRST;
    }
    OCD_TICKS_SECOND << (code - 1)
}

fn limit_of(s: Settings, fault: Fault) -> u32
    ensures { result ≡ limit_of fault s }
{
    match fault {
        Fault::Ov => u32::from(over_line(s)),
        Fault::Uv => u32::from(under_line(s)),
        Fault::Scd => scd_limit(s),
        Fault::Ocd => ocd_limit(s),
    }
}

fn delay_of(s: Settings, fault: Fault) -> u16
    ensures { result ≡ delay_of fault s }
{
    match fault {
        Fault::Ov => OV_SCANS[usize::from(s.protect3 / 16 % 4)],
        Fault::Uv => UV_SCANS[usize::from(s.protect3 / 64 % 4)],
        Fault::Scd => SCD_TICKS[usize::from(s.protect1 / 8 % 4)],
        Fault::Ocd => ticks_at(s.protect2 / 16 % 8),
    }
}

fn measured(s: Settings, fault: Fault) -> bool
    ensures { result ≡ measured_by fault s }
{
    match fault {
        Fault::Ov | Fault::Uv => s.adc_en,
        _ => true,
    }
}

#[tactic(auto, unfolding(crate::specs::Rule::rule))]
pub fn rule_of(s: Settings, fault: Fault) -> Rule
    ensures { result ≡ rule fault s }
{
    Rule {
        on: measured(s, fault),
        limit: limit_of(s, fault),
        need: if s.delay_dis {
            NO_DELAY
        } else {
            delay_of(s, fault)
        },
    }
}

// How far a tick's value lies below 0; the least i32 too.
fn sag_of(value: i32) -> u32
    ensures { result ≡ sag value }
{
    if value < 0 { value.unsigned_abs() } else { 0 }
}

impl Rule {
    // Whether a tick's value is beyond the limit.
    #[tactic(auto, using(crate::specs::Sag::exceeds), unfolding(crate::specs::Rule::beyond))]
    pub fn beyond(self, value: i32) -> bool
        ensures { result ≡ beyond self value }
    {
        self.on && self.limit < sag_of(value)
    }
}
