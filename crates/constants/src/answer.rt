// What a call that answers how many there are gives where it refuses: minus the number.
pub const BAD_SETUP: i64 = -1;

pub const NO_ROOM: i64 = -5;

pub const CUT: i64 = -9;

pub const TOO_LONG: i64 = -24;

pub const NO_CHIP: i64 = -26;

pub const NO_RECORD: i64 = -27;

pub const NOT_SO: i64 = -28;
