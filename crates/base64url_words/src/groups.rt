// One group of four characters to its bytes, and two groups to theirs.
ghost use Rattle.std.specs.Prelude.{◌≡◌, [], ◌∷◌};
ghost use Rattle.base64url_words.specs.Words.{bytes3, grouped};

use crate::values::Values;
use crate::words::{Table, both};

// The three bytes of a number below 2 ^ 24, the highest first.
fn bytes3(n: u32) -> [u8; 3]
    ensures { result ≡ bytes3 n }
{
    let [_, x, y, z] = n.to_be_bytes();
    [x, y, z]
}

// The bytes of a group, if its characters are all of the alphabet. Rules out a byte that begins at another bit, and bytes for a character outside it.
pub fn group(values: &Values, a: u8, b: u8, c: u8, d: u8) -> Option<[u8; 3]>
    ensures { result ≡ grouped (a ∷ b ∷ c ∷ d ∷ []) }
{
    let (word, _) = both(values.word(a, b, c, d), 0)?;
    Some(bytes3(word))
}

// The bytes of two groups. Rules out a second group that nothing tests, and the bytes of the first given twice.
pub fn two_groups<T: Table>(table: &T, text: &[u8; 8]) -> Option<[u8; 6]>
    ensures { result ≡ grouped text.now }
{
    let [a, b, c, d, e, f, g, h] = *text;
    let (first, second) = both(table.word(a, b, c, d), table.word(e, f, g, h))?;
    let [p, q, r] = bytes3(first);
    let [u, v, w] = bytes3(second);
    Some([p, q, r, u, v, w])
}
