// The addresses of the registers, as the makers name them; of a word the address of its high byte.
pub const SYS_STAT: u8 = 0x00;

pub const CELLBAL1: u8 = 0x01;

pub const CELLBAL2: u8 = 0x02;

pub const CELLBAL3: u8 = 0x03;

pub const SYS_CTRL1: u8 = 0x04;

pub const SYS_CTRL2: u8 = 0x05;

pub const PROTECT1: u8 = 0x06;

pub const PROTECT2: u8 = 0x07;

pub const PROTECT3: u8 = 0x08;

pub const OV_TRIP: u8 = 0x09;

pub const UV_TRIP: u8 = 0x0A;

pub const CC_CFG: u8 = 0x0B;

pub const VC1: u8 = 0x0C;

pub const BAT: u8 = 0x2A;

pub const TS1: u8 = 0x2C;

pub const CC: u8 = 0x32;

pub const AFTER_CC: u8 = 0x34;

pub const ADCGAIN1: u8 = 0x50;

pub const ADCOFFSET: u8 = 0x51;

pub const ADCGAIN2: u8 = 0x59;
