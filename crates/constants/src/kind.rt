// The kinds of records, hexadecimal.
ghost use Rattle.std.specs.Prelude.{◌≡◌};
ghost use Rattle.constants.specs.Kind.{code_of, kind_of};

use crate::refusal::Refusal;

pub const SETUP: u16 = 0x0000;

pub const POR: u16 = 0x0001;

pub const BOOT: u16 = 0x0002;

pub const SCAN: u16 = 0x0003;

pub const TEMP: u16 = 0x0004;

pub const COUNT: u16 = 0x0005;

pub const SENSE: u16 = 0x0006;

pub const PIN: u16 = 0x0007;

pub const LOAD: u16 = 0x0008;

pub const XREADY: u16 = 0x0009;

pub const START: u16 = 0x0010;

pub const OUT: u16 = 0x0011;

pub const IN: u16 = 0x0012;

pub const STOP: u16 = 0x0013;

pub const TICKS: u16 = 0x0014;

pub const LEVEL: u16 = 0x0015;

pub const WIRING: u16 = 0x0016;

pub const SOAK: u16 = 0x0017;

// What a record tells of.
#[derive(Clone, Copy, Debug, PartialEq, Eq)]
pub enum Kind {
    Setup,
    Por,
    Boot,
    Scan,
    Temp,
    Count,
    Sense,
    Pin,
    Load,
    Xready,
    Start,
    Out,
    In,
    Stop,
    Ticks,
    Level,
    Wiring,
    Soak,
}

impl Kind {
    // The number that stands for it in a record.
    pub fn code(self) -> u16
        ensures { result ≡ code_of self }
    {
        match self {
            Kind::Setup => SETUP,
            Kind::Por => POR,
            Kind::Boot => BOOT,
            Kind::Scan => SCAN,
            Kind::Temp => TEMP,
            Kind::Count => COUNT,
            Kind::Sense => SENSE,
            Kind::Pin => PIN,
            Kind::Load => LOAD,
            Kind::Xready => XREADY,
            Kind::Start => START,
            Kind::Out => OUT,
            Kind::In => IN,
            Kind::Stop => STOP,
            Kind::Ticks => TICKS,
            Kind::Level => LEVEL,
            Kind::Wiring => WIRING,
            Kind::Soak => SOAK,
        }
    }
}

impl TryFrom<u16> for Kind {
    type Error = Refusal;

    ghost try_from_gives = { λ code result. result ≡ kind_of code };

    fn try_from(code: u16) -> Result<Self, Refusal> {
        match code {
            SETUP => Ok(Kind::Setup),
            POR => Ok(Kind::Por),
            BOOT => Ok(Kind::Boot),
            SCAN => Ok(Kind::Scan),
            TEMP => Ok(Kind::Temp),
            COUNT => Ok(Kind::Count),
            SENSE => Ok(Kind::Sense),
            PIN => Ok(Kind::Pin),
            LOAD => Ok(Kind::Load),
            XREADY => Ok(Kind::Xready),
            START => Ok(Kind::Start),
            OUT => Ok(Kind::Out),
            IN => Ok(Kind::In),
            STOP => Ok(Kind::Stop),
            TICKS => Ok(Kind::Ticks),
            LEVEL => Ok(Kind::Level),
            WIRING => Ok(Kind::Wiring),
            SOAK => Ok(Kind::Soak),
            _ => Err(Refusal::BadKind),
        }
    }
}
