// The parts, as SETUP names them: 5, 10 and 15 cell inputs.
pub const MS9920T: u8 = 1;

pub const MS9930T: u8 = 2;

pub const MS9940T: u8 = 3;
