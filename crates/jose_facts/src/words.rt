// The words that are looked for in a text. Each is lent as a copy: a word that is lent itself would be data of the archive.
ghost use Rattle.std.specs.Prelude.{◌≡◌, ◌<◌, length};
ghost use Rattle.json_string.specs.Strings.{text_is};
ghost use Rattle.json_members.specs.Slots.{taken_at};

use json_members::{Entry, Value, taken};
use json_string::text_is;

// The names of the known members.
pub(crate) const ALG: [u8; 3] = *b"alg";

pub(crate) const KID: [u8; 3] = *b"kid";

pub(crate) const TYP: [u8; 3] = *b"typ";

pub(crate) const CTY: [u8; 3] = *b"cty";

pub(crate) const CRIT: [u8; 4] = *b"crit";

pub(crate) const FMT: [u8; 3] = *b"fmt";

// The one algorithm.
pub(crate) const HS256: [u8; 5] = *b"HS256";

// Whether the string at `start` is the word.
pub(crate) fn is_word<const N: usize>(text: &[u8], start: usize, word: [u8; N]) -> bool
    ensures { result ≡ text_is text.now start word.entry }
{
    text_is(text, start, &word)
}

// The slot of a name, after the member m at p.
pub(crate) fn noted<const N: usize>(
    text: &[u8],
    p: usize,
    m: Entry,
    name: [u8; N],
    slot: Option<Value>,
) -> Option<Value>
    requires { p < length text.now }
    ensures { result ≡ taken_at text.now p m name.entry slot }
{
    taken(text, p, m, &name, slot)
}
