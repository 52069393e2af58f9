// The values of a record that is well formed: those that the rules count with are in range.
ghost use Rattle.std.specs.Prelude.{◌≡◌};
ghost use Rattle.table.specs.Table.{backup_value, rate, low, high};
ghost use Rattle.table.specs.Laws.{Ranges};

use crate::{BACKUP_VALUE, COUNT, HIGH, LOW, RATE};

#[derive(Clone, Copy)]
pub struct Params {
    pub values: [u16; COUNT],
    pub ghost ranges: { Ranges values },
}

impl Params {
    pub fn rate(self) -> u8
        ensures { result ≡ rate self.values }
    {
        let values = self.values;
        values[RATE] as u8
    }

    pub fn low(self) -> u8
        ensures { result ≡ low self.values }
    {
        let values = self.values;
        values[LOW] as u8
    }

    pub fn high(self) -> u8
        ensures { result ≡ high self.values }
    {
        let values = self.values;
        values[HIGH] as u8
    }

    // In percent.
    pub fn backup_value(self) -> u8
        ensures { result ≡ backup_value self.values }
    {
        let values = self.values;
        values[BACKUP_VALUE] as u8
    }
}
