// The known members of an object, found in one walk over its members.
ghost use Rattle.std.specs.Prelude.{◌<◌, length};
ghost use Rattle.json_members.specs.Slots.{Within, Noted, KnownFrom};
ghost use Rattle.jose_facts.specs.Known.{name, slot};

use crate::words::{ALG, CRIT, CTY, FMT, KID, TYP, noted};
use json_members::{Entry, Value, entry_at};

// A field for each name: what they say has five types, so that an array of slots would want a name at every use again.
#[derive(Clone, Copy)]
pub struct Known {
    pub alg: Option<Value>,
    pub kid: Option<Value>,
    pub typ: Option<Value>,
    pub cty: Option<Value>,
    pub crit: Option<Value>,
    pub fmt: Option<Value>,
}

// Of no members.
pub(crate) const NONE_KNOWN: Known = Known {
    alg: None,
    kid: None,
    typ: None,
    cty: None,
    crit: None,
    fmt: None,
};

impl Known {
    // The slots after the member m at p.
    fn note(self, text: &[u8], p: usize, m: Entry) -> Known
        requires { p < length text.now }
        ensures { Noted name slot text.now p m self result }
    {
        Known {
            alg: noted(text, p, m, ALG, self.alg),
            kid: noted(text, p, m, KID, self.kid),
            typ: noted(text, p, m, TYP, self.typ),
            cty: noted(text, p, m, CTY, self.cty),
            crit: noted(text, p, m, CRIT, self.crit),
            fmt: noted(text, p, m, FMT, self.fmt),
        }
    }
}

// The known ones of the members that begin at `from`, if there are any; `depth` is the depth left for their values.
// Rules out the members of the top object for those of an object within it, and the last member with a name for the first.
pub fn known_from(text: &[u8], from: Option<usize>, depth: usize) -> Known
    requires { Within text.now from }
    ensures { KnownFrom name slot text.now from depth result }
{
    let mut known = NONE_KNOWN;
    let mut at = from;
    while let Some(p) = at {
        let Some(m) = entry_at(text, p, depth) else {
            return known; // no member is read
        };
        known = known.note(text, p, m);
        at = m.next;
    }
    known
}
