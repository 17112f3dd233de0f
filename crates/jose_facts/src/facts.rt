// The facts together.
ghost use Rattle.std.specs.Prelude.{◌<◌};
ghost use Rattle.keytable_rules.specs.Table.{keys};
ghost use Rattle.jose_facts.specs.Known.{SomeShown, FactsAre};

use crate::critical::crit_of;
use crate::members::Known;
use crate::says::{alg_of, fmt_of, kid_of, text_of};
use jose_rules::Facts;
use keytable::KeyTable;

// What the known members of an object say, with the keys of the table; `depth` is the depth left for their values.
// Rules out a `kid` that is looked up as it is written, and the kind of one member told of another.
pub fn facts_of(text: &[u8], known: Known, depth: usize, table: KeyTable) -> Facts
    requires { (0 < depth) × SomeShown text.now depth known }
    ensures { FactsAre text.now depth known (keys table.entry.bytes.now) result }
{
    Facts {
        alg: alg_of(text, known.alg),
        kid: kid_of(text, known.kid, table),
        typ: text_of(known.typ),
        cty: text_of(known.cty),
        crit: crit_of(text, known.crit, depth),
        fmt: fmt_of(text, known.fmt),
    }
}
