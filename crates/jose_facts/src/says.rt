// What each known member but `crit` says.
ghost use Rattle.std.specs.Prelude.{◌≡◌};
ghost use Rattle.keytable_rules.specs.Table.{keys};
ghost use Rattle.jose_rules.specs.Facts.{alg_fact, kid_fact, fmt_fact};
ghost use Rattle.jose_facts.specs.Says.{ShownSomewhere, FactIs, TextFactIs, StringAt, KeyNamed};

use crate::kinds::differ;
use crate::words::{HS256, is_word};
use decimal::parse;
use jose_rules::{Algorithm, Said};
use json_members::{Kind, Value, size};
use json_string::resolve;
use keytable::KeyTable;

pub(crate) fn alg_of(text: &[u8], slot: Option<Value>) -> Said<Algorithm>
    ensures { FactIs text.now slot alg_fact result }
{
    let Some(value) = slot else {
        return Said::Absent;
    };
    if differ(value.kind, Kind::String) {
        return Said::Wrong;
    }
    if is_word(text, value.place.start, HS256) {
        Said::Is(Algorithm::HS256)
    } else {
        Said::Is(Algorithm::Other)
    }
}

pub(crate) fn kid_of(text: &[u8], slot: Option<Value>, table: KeyTable) -> Said<Option<usize>>
    requires { ShownSomewhere text.now slot }
    ensures { FactIs text.now slot (kid_fact (keys table.entry.bytes.now)) result }
{
    let Some(value) = slot else {
        return Said::Absent;
    };
    if differ(value.kind, Kind::String) {
        return Said::Wrong;
    }
    Said::Is(named_key(text, value.place.start, table))
}

// The key whose id is the UTF-8 of the string at `start`. An id has at most 64 bytes.
fn named_key(text: &[u8], start: usize, table: KeyTable) -> Option<usize>
    requires { StringAt text.now start }
    ensures { KeyNamed text.now start (keys table.entry.bytes.now) result }
{
    let mut id = [0; 64];
    let Some(n) = resolve(text, start, &mut id) else {
        return None; // the string is longer
    };
    table.find(&id[..n])
}

// `typ` and `cty`.
pub(crate) fn text_of(slot: Option<Value>) -> Said<()>
    ensures { TextFactIs slot result }
{
    let Some(value) = slot else {
        return Said::Absent;
    };
    if differ(value.kind, Kind::String) {
        return Said::Wrong;
    }
    Said::Is(())
}

pub(crate) fn fmt_of(text: &[u8], slot: Option<Value>) -> Said<i64>
    requires { ShownSomewhere text.now slot }
    ensures { FactIs text.now slot fmt_fact result }
{
    let Some(value) = slot else {
        return Said::Absent;
    };
    if differ(value.kind, Kind::Number) {
        return Said::Wrong;
    }
    let start = value.place.start;
    match parse(&text[start..start + size(value.place)]) {
        Some(number) => Said::Is(number),
        None => Said::Wrong,
    }
}
