// What is known of an object's members, in slots: one for each name that is looked for.
ghost use Rattle.std.specs.Prelude.{◌≡◌, ◌<◌, length};
ghost use Rattle.json_members.specs.Slots.{taken_at};

use crate::places::Value;
use crate::steps::Entry;
use json_string::text_is;

// The slot of the name `word`, after the member m at p: the first member with this name stands.
// Rules out the last member with a name for the first, and a name that only begins with the word.
pub fn taken(text: &[u8], p: usize, m: Entry, word: &[u8], slot: Option<Value>) -> Option<Value>
    requires { p < length text.now }
    ensures { result ≡ taken_at text.now p m word.now slot }
{
    if slot.is_none() && text_is(text, p + 1, word) {
        return Some(m.value);
    }
    slot
}
