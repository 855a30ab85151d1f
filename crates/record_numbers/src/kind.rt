// The kinds of records, in the width that C hands over.
pub const SETUP: u32 = constants::kind::SETUP as u32;

pub const POR: u32 = constants::kind::POR as u32;

pub const BOOT: u32 = constants::kind::BOOT as u32;

pub const SCAN: u32 = constants::kind::SCAN as u32;

pub const TEMP: u32 = constants::kind::TEMP as u32;

pub const COUNT: u32 = constants::kind::COUNT as u32;

pub const SENSE: u32 = constants::kind::SENSE as u32;

pub const PIN: u32 = constants::kind::PIN as u32;

pub const LOAD: u32 = constants::kind::LOAD as u32;

pub const XREADY: u32 = constants::kind::XREADY as u32;

pub const START: u32 = constants::kind::START as u32;

pub const OUT: u32 = constants::kind::OUT as u32;

pub const IN: u32 = constants::kind::IN as u32;

pub const STOP: u32 = constants::kind::STOP as u32;

pub const TICKS: u32 = constants::kind::TICKS as u32;

pub const LEVEL: u32 = constants::kind::LEVEL as u32;

pub const WIRING: u32 = constants::kind::WIRING as u32;

pub const SOAK: u32 = constants::kind::SOAK as u32;
