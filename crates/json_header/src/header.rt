// What a header answers, and its members.
ghost use Rattle.std.specs.Prelude.{◌≡◌, ◌<◌, length};
ghost use Rattle.answers.specs.Numbers.{answer};
ghost use Rattle.json_rules.specs.Answers.{shown_by};
ghost use Rattle.json_rules.specs.Tests.{checked, member_of};
ghost use Rattle.json_rules.specs.Shown.{found, shown};
ghost use Rattle.json_header.specs.Picks.{Picks};

use answers::Refusal;
use json_check::check_text;
use json_grammar_rules::Kind;
use json_members::{entry_at, top_members};
use json_rules::{DEEPEST, LONGEST, Member, Place};

// What a header answers: `HeaderTooLong`; else what its text answers within the greatest depth.
// Rules out `NotDerived` for a header that is too long, and one let through that is a byte too long.
pub fn check(header: &[u8]) -> Result<(), Refusal>
    ensures { answer result ≡ checked header.now }
{
    if LONGEST < header.len() {
        return Err(Refusal::HeaderTooLong);
    }
    check_text(header, DEEPEST)
}

// A member by the kind of its value.
fn by_kind(kind: Kind, name: Place, value: Place) -> Member
    ensures { found result ≡ shown_by kind name value }
{
    match kind {
        Kind::String => Member::String(name, value),
        Kind::Number => Member::Number(name, value),
        Kind::True => Member::True(name, value),
        Kind::False => Member::False(name, value),
        Kind::Null => Member::Null(name, value),
        Kind::Array => Member::Array(name, value),
        Kind::Object => Member::Object(name, value),
    }
}

// Member k of those from `from` on.
fn nth_member(s: &[u8], from: usize, depth: usize, k: usize) -> Result<Member, Refusal>
    requires { from < length s.now }
    ensures { Picks s.now from depth k (shown result) }
{
    let mut p = from;
    for _ in 0..k {
        let passed = entry_at(s, p, depth).ok_or(Refusal::NoSuchMember)?;
        p = passed.next.ok_or(Refusal::NoSuchMember)?;
    }
    let m = entry_at(s, p, depth).ok_or(Refusal::NoSuchMember)?;
    Ok(by_kind(m.value.kind, m.name, m.value.place))
}

// Member k of the top object, from 0; `NoSuchMember` past the last; what `check` answers if the header isn't read.
// Rules out the first member for every k, and the first at k = 0 with `NoSuchMember` for every other k.
pub fn member(header: &[u8], k: usize) -> Result<Member, Refusal>
    ensures { shown result ≡ member_of header.now k }
{
    check(header)?;
    let first = top_members(header).ok_or(Refusal::NoSuchMember)?;
    nth_member(header, first, DEEPEST - 1, k)
}
