// The places in the bytes of a kept chip: what is a byte, from byte 0 on.
pub const VERSION: usize = 0;

pub const PART: usize = 1;

pub const ADDRESS: usize = 2;

pub const GAIN_CODE: usize = 3;

pub const OFFSET: usize = 4;

pub const CELLS: usize = 5;

pub const POINTER: usize = 6;

pub const SUM: usize = 7;

pub const LOW: usize = 8;

pub const PHASE: usize = 9;

pub const FIRST: usize = 10;

pub const SECOND: usize = 11;

pub const PROTECT1: usize = 12;

pub const PROTECT2: usize = 13;

pub const PROTECT3: usize = 14;

pub const OV_TRIP: usize = 15;

pub const UV_TRIP: usize = 16;

pub const CC_CFG: usize = 17;

pub const CELLBAL1: usize = 18;

pub const CELLBAL2: usize = 19;

pub const CELLBAL3: usize = 20;

// What is 0 or 1.
pub const CRC: usize = 21;

pub const NORMAL: usize = 22;

pub const FRESH: usize = 23;

pub const ADC_EN: usize = 24;

pub const TEMP_SEL: usize = 25;

pub const SHUT_B: usize = 26;

pub const DELAY_DIS: usize = 27;

pub const CC_EN: usize = 28;

pub const CC_READY: usize = 29;

pub const XREADY: usize = 30;

pub const OVRD_ALERT: usize = 31;

pub const UV: usize = 32;

pub const OV: usize = 33;

pub const SCD: usize = 34;

pub const OCD: usize = 35;

pub const CC_ONESHOT: usize = 36;

pub const DSG_ON: usize = 37;

pub const CHG_ON: usize = 38;

pub const LOAD_LEVEL: usize = 39;

pub const OUTSIDE_LEVEL: usize = 40;

// What has no field, and how many bytes that are.
pub const REST1: usize = 41;

pub const REST2: usize = 42;

pub const REST3: usize = 43;

pub const REST4: usize = 44;

pub const REST5: usize = 45;

pub const RESTS: usize = 5;

// The low and the high byte of the first number of two bytes, how many numbers there are, and which is which.
pub const WORDS: usize = 46;

pub const WORDS_HIGH: usize = 47;

pub const NUMBERS: usize = 25;

pub const FLOOR: usize = 0;

pub const OV_RUN: usize = 1;

pub const UV_RUN: usize = 2;

pub const SCD_RUN: usize = 3;

pub const OCD_RUN: usize = 4;

pub const BAT: usize = 5;

pub const CC: usize = 6;

pub const TS1: usize = 7;

pub const TS2: usize = 8;

pub const TS3: usize = 9;

pub const VC1: usize = 10;

pub const VC2: usize = 11;

pub const VC3: usize = 12;

pub const VC4: usize = 13;

pub const VC5: usize = 14;

pub const VC6: usize = 15;

pub const VC7: usize = 16;

pub const VC8: usize = 17;

pub const VC9: usize = 18;

pub const VC10: usize = 19;

pub const VC11: usize = 20;

pub const VC12: usize = 21;

pub const VC13: usize = 22;

pub const VC14: usize = 23;

pub const VC15: usize = 24;

// The low and the high bytes of the numbers that events move.
pub const OV_LOW: usize = 48;

pub const SCD_LOW: usize = 52;

pub const SCD_HIGH: usize = 53;

pub const OCD_LOW: usize = 54;

pub const OCD_HIGH: usize = 55;

pub const BAT_LOW: usize = 56;

pub const VC1_LOW: usize = 66;
