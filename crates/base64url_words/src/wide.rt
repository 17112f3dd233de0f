// The table for long texts: with each value also six bits up, two characters take no shift. It is made of the other table.
ghost use Rattle.std.specs.Prelude.{◌≡◌};
ghost use Rattle.base64url_rules.proofs.Tables.{signed};
ghost use Rattle.base64url_words.specs.Words.{raised, wide};

use crate::values::Values;
use crate::words::Table;

// The value of every character, and then every value six bits up.
#[derive(Clone, Copy)]
pub struct Wide {
    pub entries: [i32; 512],
    pub ghost right: { entries ≡ wide },
}

impl Wide {
    // Rules out values shifted by fewer bits, and a half left at zeros.
    pub fn new(values: &Values) -> Self {
        let mut entries = [0i32; 512];
        for i in 0..256 {
            let value = values.signed(i as u8);
            entries[i] = value;
            entries[256 + i] = value << 6;
        }
        Wide { entries }
    }

    fn low(&self, c: u8) -> i32
        ensures { result ≡ signed c }
    {
        self.entries[usize::from(c)]
    }

    fn up(&self, c: u8) -> i32
        ensures { result ≡ raised c }
    {
        self.entries[256 + usize::from(c)]
    }
}

impl Table for Wide {
    fn word(&self, a: u8, b: u8, c: u8, d: u8) -> i32 {
        (self.up(a) | self.low(b)) << 12 | self.up(c) | self.low(d)
    }
}
