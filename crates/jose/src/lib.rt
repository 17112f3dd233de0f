// The rules on a header's known members: from a header's bytes and a key table to the key, the format and the raw texts that the header
// decides, or the refusal (RFC 7515 section 4 with the house rules; answers 2, 5 and 7 to 14).
#![tactic(auto)]

ghost use Rattle.std.specs.Prelude.{◌≡◌, ◌-◌, IfOk};
ghost use Rattle.answers.specs.Numbers.{answer};
ghost use Rattle.common.specs.First.{first};
ghost use Rattle.json_rules.specs.Rules.{deepest};
ghost use Rattle.json_rules.specs.Tests.{grammar_tests};
ghost use Rattle.json_members.specs.Slots.{ShowsAll};
ghost use Rattle.jose_facts.specs.Known.{name, slot};
ghost use Rattle.jose_rules.specs.HeaderTests.{located};
ghost use Rattle.jose_rules.specs.Rules.{terms_of};
ghost use Rattle.jose_rules.specs.Decision.{decided, decision_with, decision};
ghost use Rattle.jose.specs.Deciding.{raw_of};

use answers::Refusal;
use jose_facts::{Known, facts_of, known_from};
use jose_judging::judge;
use jose_rules::{Choice, Facts, Part, Said};
use json_check::check_text;
use json_members::{Value, size, top_members};
use json_rules::{DEEPEST, LONGEST};
use keytable::KeyTable;

// The depth that is left for the values of the top object's members.
const INSIDE: usize = DEEPEST - 1;

// What a header of no members says.
const NO_FACTS: Facts = Facts {
    alg: Said::Absent,
    kid: Said::Absent,
    typ: Said::Absent,
    cty: Said::Absent,
    crit: Said::Absent,
    fmt: Said::Absent,
};

// What the header decides with the keys of the table. Rules out that a bad table is answered as a bad header, and that a header
// without `kid` finds a key.
pub fn decide(header: &[u8], table: &[u8]) -> Result<Choice, Refusal>
    ensures { decided result ≡ decision header.now table.now }
{
    let Some(table) = KeyTable::new(table) else {
        return Err(Refusal::BadTable);
    };
    if LONGEST < header.len() {
        return Err(Refusal::HeaderTooLong);
    }
    decide_with(header, table)
}

// Rules 7 to 14, of a header of any length. Rules out that `alg` chooses though the key's bit is 0, that a header with a name twice is
// let through, that an unknown name in `crit` is ignored, and that a `fmt` that `crit` doesn't list chooses the format.
pub fn decide_with(header: &[u8], table: KeyTable) -> Result<Choice, Refusal>
    ensures { decided result ≡ decision_with header.now (terms_of table.entry.bytes.now) }
{
    let known = known_of(header)?;
    let facts = facts_of(header, known, INSIDE, table);
    let taken = judge(facts, NO_FACTS, table)?;
    Ok(Choice {
        key_index: taken.key_index,
        kid_present: taken.kid_present,
        format: taken.format,
        typ: raw(known.typ),
        cty: raw(known.cty),
    })
}

// Rules 7 and 8: the known members of a header in order.
fn known_of(header: &[u8]) -> Result<Known, Refusal>
    ensures refused { answer result ≡ first (grammar_tests deepest header.now) }
    ensures shown { IfOk result (λ m. ShowsAll name slot header.now (deepest - 1) m (located header.now)) }
{
    check_text(header, DEEPEST)?;
    Ok(known_from(header, top_members(header), INSIDE))
}

// The raw text of a member: its start and its length, 0 and 0 where there is no such member.
fn raw(slot: Option<Value>) -> Part
    ensures { result ≡ raw_of slot }
{
    match slot {
        Some(value) => Part {
            start: value.place.start,
            length: size(value.place),
        },
        None => Part {
            start: 0,
            length: 0,
        },
    }
}
