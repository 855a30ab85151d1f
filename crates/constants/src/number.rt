// The numbers given back: why a record or a call is refused.
pub const DONE: u8 = 0;

pub const BAD_SETUP: u8 = 1;

pub const BAD_KIND: u8 = 2;

pub const BAD_VALUE: u8 = 3;

pub const ASLEEP: u8 = 4;

pub const NO_ROOM: u8 = 5;

pub const NO_CELL: u8 = 6;

pub const OPEN_SENSOR: u8 = 7;

pub const NO_CODE: u8 = 8;

pub const CUT: u8 = 9;

pub const NOT_CONNECTED: u8 = 10;

pub const NO_FIT: u8 = 11;

pub const EXTERNAL: u8 = 12;

pub const NO_ROW: u8 = 13;

pub const NO_LIST: u8 = 20;

pub const BAD_ADDRESS: u8 = 21;

pub const SEASON_FULL: u8 = 22;

pub const BAD_COMMAND: u8 = 23;

pub const TOO_LONG: u8 = 24;

pub const OTHER_CHIP: u8 = 25;

pub const NO_CHIP: u8 = 26;

pub const NO_RECORD: u8 = 27;

pub const NOT_SO: u8 = 28;
