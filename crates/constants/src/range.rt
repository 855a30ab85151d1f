// The least and the most that values may be, and the longest delays in scans and ticks.
pub const PART_MOST: u8 = 3;

pub const GROUP_INPUTS: u8 = 5;

pub const INPUTS_MOST: u8 = 15;

pub const ADDRESS_LEAST: u8 = 0x08;

pub const ADDRESS_MOST: u8 = 0x77;

pub const GAIN_CODE_MOST: u8 = 31;

pub const FLOOR_MOST: u16 = 4095;

pub const COUNT_MOST: u16 = 16383;

pub const SENSE_LEAST: i32 = -500000;

pub const SENSE_MOST: i32 = 500000;

pub const TICKS_MOST: u32 = 4096;

pub const SOAK_MOST: u32 = 16777216;

pub const SCANS_MOST: u32 = 65535;

pub const STREAM_MOST: usize = 65536;

pub const OV_LONGEST: u16 = 32;

pub const UV_LONGEST: u16 = 64;

pub const SCD_LONGEST: u16 = 13;

pub const OCD_LONGEST: u16 = 40960;
