// Kinds and places of values.
ghost use Rattle.std.specs.Prelude.{◌≡◌, ◌+◌, ◌-◌, ◌<◌};
ghost use Rattle.json_grammar_rules.specs.Places.{margin};
ghost use Rattle.json_grammar_rules.specs.Reader.{value_lead};
ghost use Rattle.json_reader.specs.Reads.{kind_by};
ghost use Rattle.json_rules.specs.Answers.{place, size_of};

use json_grammar_rules::Kind;
use json_rules::Place;

// A value: its kind, and its place, of a string between its quotation marks.
#[derive(Clone, Copy, Debug, PartialEq, Eq)]
pub struct Value {
    pub kind: Kind,
    pub place: Place,
}

// How many bytes a place has. Rules out one more for the byte past its end, and a difference that wraps where the end lies before the
// start.
pub fn size(place: Place) -> usize
    ensures { result ≡ size_of place }
{
    place.end.saturating_sub(place.start)
}

// The kind of a value that begins with the byte b.
pub(crate) fn kind_by(b: u8) -> Kind
    ensures { result ≡ kind_by (value_lead b) }
{
    match b {
        0x22 => Kind::String,
        0x5B => Kind::Array,
        0x7B => Kind::Object,
        0x74 => Kind::True,
        0x66 => Kind::False,
        0x6E => Kind::Null,
        _ => Kind::Number,
    }
}

// The place of a value that begins with the byte b and stands from f to e: a string is taken between its quotation marks.
pub(crate) fn place_by(b: u8, f: usize, e: usize) -> Place
    requires { f < e }
    ensures { result ≡ place (f + margin (kind_by (value_lead b))) (e - margin (kind_by (value_lead b))) }
{
    if b == 0x22 {
        return Place {
            start: f + 1,
            end: e - 1,
        };
    }
    Place { start: f, end: e }
}
