// Rules 9 to 14 by the facts: `facts` of all the members, `unprotected` of those of an unprotected header.
ghost use Rattle.std.specs.Prelude.{◌≡◌, false};
ghost use Rattle.std.proofs.Math.Option.{some};
ghost use Rattle.common.specs.First.{first};
ghost use Rattle.answers.specs.Numbers.{answer};
ghost use Rattle.keytable_rules.specs.Table.{keys};
ghost use Rattle.jose_rules.specs.Verdict.{judged};
ghost use Rattle.jose_rules.specs.Facts.{missing_or_wrong, critical_broken, lists_badly, is_wrong, index_of, chosen_key, format_by, known_tests, verdict};
ghost use Rattle.jose_judging.specs.Judging.{KeyWithin, key_verdict, small_of};

use crate::asked::{is_missing, is_there, is_wrong};
use answers::Refusal;
use jose_rules::{Algorithm, Facts, Listed, Said, Taken};
use keytable::KeyTable;

// The first of rules 9 to 14 that refuses, or what is taken. Rules out that `alg` chooses though the key's bit is 0, that a missing `kid`
// falls back to a key, that a `fmt` that `crit` doesn't list chooses the format, and that a `crit` in the unprotected header is let
// through.
pub fn judge(facts: Facts, unprotected: Facts, table: KeyTable) -> Result<Taken, Refusal>
    requires { KeyWithin facts (keys table.bytes.now) }
    ensures { judged result ≡ verdict facts unprotected (keys table.entry.bytes.now) }
{
    check_known(facts, unprotected)?;
    judge_key(facts, table)
}

// Rules 9 to 11.
fn check_known(facts: Facts, unprotected: Facts) -> Result<(), Refusal>
    ensures { answer result ≡ first (known_tests facts unprotected) }
{
    if missing_or_wrong(facts) {
        return Err(Refusal::WrongKind);
    }
    if critical_broken(facts, unprotected) {
        return Err(Refusal::Critical);
    }
    if matches!(facts.alg, Said::Is(Algorithm::Other)) {
        return Err(Refusal::WrongAlg);
    }
    Ok(())
}

// Rule 9.
#[tactic(auto, unfolding(jose_rules::specs::Facts::missing_or_wrong))]
fn missing_or_wrong(facts: Facts) -> bool
    ensures { result ≡ missing_or_wrong facts }
{
    is_missing(facts.alg)
        || is_wrong(facts.kid)
        || is_wrong(facts.typ)
        || is_wrong(facts.cty)
        || is_wrong(facts.crit)
        || is_wrong(facts.fmt)
}

// Rule 10.
#[tactic(auto, unfolding(jose_rules::specs::Facts::critical_broken))]
fn critical_broken(facts: Facts, unprotected: Facts) -> bool
    ensures { result ≡ critical_broken facts unprotected }
{
    lists_badly(facts.crit, is_there(facts.fmt)) || is_there(unprotected.crit)
}

// Whether `crit` lists badly, or what it lists isn't what is there.
fn lists_badly(crit: Said<Listed>, there: bool) -> bool
    ensures { result ≡ lists_badly crit there }
{
    match crit {
        Said::Is(listed) => listed.bad || listed.fmt != there,
        Said::Absent | Said::Wrong => there,
    }
}

// Rules 12 to 14, where `fmt` is absent or a number.
fn judge_key(facts: Facts, table: KeyTable) -> Result<Taken, Refusal>
    requires { KeyWithin facts (keys table.bytes.now) × (is_wrong facts.fmt ≡ false) }
    ensures { judged result ≡ key_verdict facts (keys table.entry.bytes.now) }
{
    let Some(key_index) = key_of(facts.kid) else {
        return Err(Refusal::NoKey);
    };
    let key = table.key(key_index);
    let hs256 = key.allows_hs256();
    if !hs256 {
        return Err(Refusal::AlgNotAllowed);
    }
    let Some(format) = small_format(facts.fmt) else {
        return Err(Refusal::FormatNotAllowed);
    };
    if !key.allows_format(format) {
        return Err(Refusal::FormatNotAllowed);
    }
    Ok(Taken {
        key_index,
        kid_present: is_there(facts.kid),
        format,
    })
}

// The key: the one that `kid` names. A missing `kid` names none.
fn key_of(kid: Said<Option<usize>>) -> Option<usize>
    ensures { index_of result ≡ chosen_key kid }
{
    match kid {
        Said::Is(named) => named,
        Said::Absent | Said::Wrong => None,
    }
}

// The format, which is 1 where there is no `fmt`; none where it isn't from 1 to 8.
#[tactic(auto, unfolding(crate::specs::Judging::small_of))]
fn small_format(fmt: Said<i64>) -> Option<u8>
    ensures { result ≡ small_of (format_by fmt) }
{
    match fmt {
        Said::Absent => Some(1),
        Said::Wrong => None,
        Said::Is(number) => small(number),
    }
}

// A number from 1 to 8, as a format.
#[tactic(auto, unfolding(crate::specs::Judging::small_of))]
fn small(number: i64) -> Option<u8>
    ensures { result ≡ small_of (some number) }
{
    match u8::try_from(number) {
        Ok(format @ 1..=8) => Some(format),
        _ => None,
    }
}
