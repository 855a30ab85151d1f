// What each named bit weighs in its register: SYS_STAT, SYS_CTRL1, SYS_CTRL2, PROTECT1, and the pins of an entry.
pub const CC_READY: u8 = 128;

pub const XREADY: u8 = 32;

pub const OVRD_ALERT: u8 = 16;

pub const UV: u8 = 8;

pub const OV: u8 = 4;

pub const SCD: u8 = 2;

pub const OCD: u8 = 1;

pub const LOAD_PRESENT: u8 = 128;

pub const ADC_EN: u8 = 16;

pub const TEMP_SEL: u8 = 8;

pub const SHUT_A: u8 = 2;

pub const SHUT_B: u8 = 1;

pub const DELAY_DIS: u8 = 128;

pub const CC_EN: u8 = 64;

pub const CC_ONESHOT: u8 = 32;

pub const DSG_ON: u8 = 2;

pub const CHG_ON: u8 = 1;

pub const RSNS: u8 = 128;

pub const PIN_ALERT: u8 = 4;

pub const PIN_CHG: u8 = 2;

pub const PIN_DSG: u8 = 1;
