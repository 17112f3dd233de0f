// Four characters as one number: six bits of each, the first the highest. Where a character is outside the alphabet, the number is below 0.
ghost use Rattle.std.specs.Prelude.{◌≡◌};
ghost use Rattle.base64url_words.specs.Words.{bits, word, both};

use crate::values::Values;

// A table that four characters are looked up in. Rules out a character at another's place, and a word that is not below 0 where one is outside the alphabet.
pub trait Table {
    fn word(&self, a: u8, b: u8, c: u8, d: u8) -> i32
        ensures { bits result ≡ word a b c d };
}

impl Table for Values {
    fn word(&self, a: u8, b: u8, c: u8, d: u8) -> i32 {
        self.signed(a) << 18 | self.signed(b) << 12 | self.signed(c) << 6 | self.signed(d)
    }
}

// Two numbers, if neither is below 0. One test of the sign serves both.
pub(crate) fn both(x: i32, y: i32) -> Option<(u32, u32)>
    ensures { result ≡ both x y }
{
    if (x | y) < 0 {
        None
    } else {
        Some((x as u32, y as u32))
    }
}
