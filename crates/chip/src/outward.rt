// What leaves the chip by its pins: SYS_STAT, ALERT and the drives.
ghost use Rattle.std.specs.Prelude.{◌≡◌};
ghost use Rattle.registers.specs.Read.{status_byte};
ghost use Rattle.chip.specs.Outward.{pins_of};

use crate::Chip;
use constants::weight;

impl Chip {
    // SYS_STAT.
    pub fn status(self) -> u8
        ensures { result ≡ status_byte self.registers.shown.status }
    {
        self.registers.shown.status.byte()
    }

    // ALERT 4, CHG 2, DSG 1.
    pub fn pins(self) -> u8
        ensures { result ≡ pins_of self }
    {
        let shown = self.registers.shown;
        bits::weigh(shown.status.alert(), weight::PIN_ALERT)
            + bits::weigh(shown.chg_on, weight::PIN_CHG)
            + bits::weigh(shown.dsg_on, weight::PIN_DSG)
    }
}
