// The facts of two headers together: those of the first stand, and those of the second where the first says nothing.
ghost use Rattle.std.specs.Prelude.{◌≡◌};
ghost use Rattle.jose_rules.specs.Facts.{merged};

use crate::asked::said_or;
use jose_rules::Facts;

// The facts of both. Rules out the second header's `alg` for the first's, and a member of the second that is lost.
#[tactic(auto, unfolding(jose_rules::specs::Facts::merged))]
pub fn merge(first: Facts, second: Facts) -> Facts
    ensures { result ≡ merged first second }
{
    Facts {
        alg: said_or(first.alg, second.alg),
        kid: said_or(first.kid, second.kid),
        typ: said_or(first.typ, second.typ),
        cty: said_or(first.cty, second.cty),
        crit: said_or(first.crit, second.crit),
        fmt: said_or(first.fmt, second.fmt),
    }
}
