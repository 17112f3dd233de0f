// A member's answer as a number and five words.
ghost use Rattle.std.specs.Prelude.{◌≡◌, [], ◌∷◌};
ghost use Rattle.json_rules.specs.Answers.{number_of};
ghost use Rattle.json_rules.specs.Shown.{found, shown};
ghost use Rattle.jws_words.specs.Words.{member_words};

use answers::{DONE, Refusal};
use json_rules::{Member, Place};

#[derive(Clone, Copy)]
pub struct Answer {
    pub number: u8,
    pub words: [u64; 5],
}

// A member that is found: its kind's number, and its two places.
fn found(kind: u64, name: Place, value: Place) -> Answer
    ensures { (result.number ≡ 0) × (result.words ≡ kind ∷ name.start ∷ name.end ∷ value.start ∷ value.end ∷ []) }
{
    Answer {
        number: DONE,
        words: [
            kind,
            name.start as u64,
            name.end as u64,
            value.start as u64,
            value.end as u64,
        ],
    }
}

// A member by its kind.
fn shown(member: Member) -> Answer
    ensures { (result.number ≡ number_of (found member)) × (result.words ≡ member_words (found member)) }
{
    match member {
        Member::String(name, value) => found(1, name, value),
        Member::Number(name, value) => found(2, name, value),
        Member::True(name, value) => found(3, name, value),
        Member::False(name, value) => found(4, name, value),
        Member::Null(name, value) => found(5, name, value),
        Member::Array(name, value) => found(6, name, value),
        Member::Object(name, value) => found(7, name, value),
    }
}

// A member's answer as a number and five words, zeros where no member is shown.
// Rules out the places of the name and of the value exchanged, and a kind's number one off.
pub fn answer_of(m: Result<Member, Refusal>) -> Answer
    ensures { (result.number ≡ number_of (shown m)) × (result.words ≡ member_words (shown m)) }
{
    match m {
        Ok(member) => shown(member),
        Err(refusal) => Answer {
            number: refusal.into(),
            words: [0; 5],
        },
    }
}
