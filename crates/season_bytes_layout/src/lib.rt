// Where what stands in the 309 bytes of a season's report, and numbers of four bytes in halves.
#![tactic(auto)]

ghost use Rattle.std.specs.Prelude.{◌≡◌};
ghost use Rattle.season_bytes_layout.specs.Layout.{lows_of, highs_of};

// How many bytes a report has, of these its head and each column.
pub const REPORT_SIZE: usize = 309;

pub const HEAD: usize = 9;

pub const COLUMN: usize = 30;

pub type ReportBytes = [u8; REPORT_SIZE];

// The layout's version.
pub const VERSION: u8 = 1;

// Every column has a number for each of as many inputs as a part can have.
pub const INPUTS: usize = 15;

// What the low half of a long number comes to at most, and one.
pub const HALF: u32 = 65536;

// The low halves, and the high ones, of long numbers.
pub fn lows_of(of: [u32; 15]) -> [u16; 15]
    ensures { result ≡ lows_of of }
{
    let mut low = [0; INPUTS];
    for (i, x) in of.iter().enumerate() {
        low[i] = (x % HALF) as u16;
    }
    low
}

pub fn highs_of(of: [u32; 15]) -> [u16; 15]
    ensures { result ≡ highs_of of }
{
    let mut high = [0; INPUTS];
    for (i, x) in of.iter().enumerate() {
        high[i] = (x / HALF) as u16;
    }
    high
}
