// Whether a text is one JSON object within a depth, and whether an object in it has a name twice.
#![tactic(auto)]

mod marks; // marks.rt: what a text has of objects
mod names; // names.rt: names that stand twice in one object

ghost use Rattle.std.specs.Prelude.{◌≡◌};
ghost use Rattle.common.specs.First.{first};
ghost use Rattle.answers.specs.Numbers.{answer};
ghost use Rattle.json_rules.specs.Tests.{grammar_tests};

use crate::names::twice_from;
use answers::Refusal;
use json_reader::text;

// What a text of any length answers: `NotDerived` if the grammar doesn't derive it within the depth; `NameTwice` if an object in it has a name twice.
// Rules out `NameTwice` for a text that breaks off after two equal names, and two names let through that are equal after their escapes are resolved.
pub fn check_text(s: &[u8], depth: usize) -> Result<(), Refusal>
    ensures { answer result ≡ first (grammar_tests depth s.now) }
{
    if !text(s, depth) {
        return Err(Refusal::NotDerived);
    }
    if twice_from(s, 0) {
        return Err(Refusal::NameTwice);
    }
    Ok(())
}
