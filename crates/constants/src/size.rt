// How many bytes, or numbers, things have: a record's header, its payload by kind, the inputs of the largest part, the entry of a record, a kept chip; a row of a season, of a scan, of why a bit is up and of since when
// a drive is off; a reading.
pub const HEADER: usize = 4;

pub const SETUP_PAYLOAD: usize = 7;

pub const COUNT_PAYLOAD: usize = 2;

pub const SENSE_PAYLOAD: usize = 4;

pub const TICKS_PAYLOAD: usize = 6;

pub const SOAK_PAYLOAD: usize = 8;

pub const PAYLOAD_MOST: usize = 30;

pub const INPUTS: usize = 15;

pub const ENTRY: usize = 5;

pub const KEPT_CHIP: usize = 96;

pub const SEASON_ROW: usize = 9;

pub const SCAN_ROW: usize = 17;

pub const WHY_ROW: usize = 36;

pub const OFF_ROW: usize = 12;

pub const READING: usize = 4;
