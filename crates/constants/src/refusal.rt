// Why a record or a call is refused.
ghost use Rattle.std.specs.Prelude.{◌≡◌};
ghost use Rattle.constants.specs.Refusal.{number_of};

use crate::number;

// Each refusal has a number of its own, which is given back for it.
#[derive(Clone, Copy, Debug, PartialEq, Eq)]
pub enum Refusal {
    BadSetup,
    BadKind,
    BadValue,
    Asleep,
    NoRoom,
    NoCell,
    OpenSensor,
    NoCode,
    CutShort,
    NotConnected,
    NoFit,
    External,
    NoRow,
    NoList,
    BadAddress,
    SeasonFull,
    BadCommand,
    TooLong,
    OtherChip,
    NoChip,
    NoRecord,
    NotSo,
}

impl Refusal {
    // The number that is given back.
    pub fn number(self) -> u8
        ensures { result ≡ number_of self }
    {
        match self {
            Refusal::BadSetup => number::BAD_SETUP,
            Refusal::BadKind => number::BAD_KIND,
            Refusal::BadValue => number::BAD_VALUE,
            Refusal::Asleep => number::ASLEEP,
            Refusal::NoRoom => number::NO_ROOM,
            Refusal::NoCell => number::NO_CELL,
            Refusal::OpenSensor => number::OPEN_SENSOR,
            Refusal::NoCode => number::NO_CODE,
            Refusal::CutShort => number::CUT,
            Refusal::NotConnected => number::NOT_CONNECTED,
            Refusal::NoFit => number::NO_FIT,
            Refusal::External => number::EXTERNAL,
            Refusal::NoRow => number::NO_ROW,
            Refusal::NoList => number::NO_LIST,
            Refusal::BadAddress => number::BAD_ADDRESS,
            Refusal::SeasonFull => number::SEASON_FULL,
            Refusal::BadCommand => number::BAD_COMMAND,
            Refusal::TooLong => number::TOO_LONG,
            Refusal::OtherChip => number::OTHER_CHIP,
            Refusal::NoChip => number::NO_CHIP,
            Refusal::NoRecord => number::NO_RECORD,
            Refusal::NotSo => number::NOT_SO,
        }
    }
}
