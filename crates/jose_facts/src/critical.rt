// The names that `crit` lists.
ghost use Rattle.std.specs.Prelude.{◌≡◌, ◌<◌, length};
ghost use Rattle.jose_facts.specs.Says.{ShownAt, CritFactIs, NamesAt, listed_after};

use crate::kinds::differ;
use crate::words::{FMT, is_word};
use jose_rules::{Listed, Said};
use json_members::{Kind, Value, first_element, item_at};

// What `crit` says; `depth` is the depth left for its value.
pub(crate) fn crit_of(text: &[u8], slot: Option<Value>, depth: usize) -> Said<Listed>
    requires { (0 < depth) × ShownAt text.now depth slot }
    ensures { CritFactIs text.now depth slot result }
{
    let Some(value) = slot else {
        return Said::Absent;
    };
    if differ(value.kind, Kind::Array) {
        return Said::Wrong;
    }
    match first_element(text, value.place.start) {
        Some(from) => names_from(text, from, depth - 1),
        None => Said::Is(Listed {
            bad: true,
            fmt: false,
        }),
    }
}

// The elements from `from` on, one after the other.
fn names_from(text: &[u8], from: usize, depth: usize) -> Said<Listed>
    requires { from < length text.now }
    ensures { NamesAt text.now from depth result }
{
    let mut listed = Listed {
        bad: false,
        fmt: false,
    };
    let mut p = from;
    loop {
        let Some(item) = item_at(text, p, depth) else {
            return Said::Wrong; // no element is read
        };
        if differ(item.value.kind, Kind::String) {
            return Said::Wrong;
        }
        listed = after(listed, is_word(text, item.value.place.start, FMT));
        let Some(next) = item.next else {
            return Said::Is(listed);
        };
        p = next;
    }
}

// The names after one more, which is `fmt` or may not be listed.
fn after(listed: Listed, fmt: bool) -> Listed
    ensures { result ≡ listed_after listed fmt }
{
    Listed {
        bad: listed.bad || listed.fmt || !fmt,
        fmt: listed.fmt || fmt,
    }
}
