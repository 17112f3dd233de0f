// What a text has of objects, one by one: where they open and close, and their names. One pass over the bytes.
ghost use Rattle.std.specs.Prelude.{◌≡◌, ◌≤◌, length, drop};
ghost use Rattle.json_grammar_rules.specs.Reader.{ws};
ghost use Rattle.json_grammar_rules.specs.Scan.{colon_next};
ghost use Rattle.json_check.specs.Marks.{MarkAt};

use json_string::string_end;
use json_tokens::skip_ws;

// A mark, and the place after it: a brace, or a name by the place of its first character.
#[derive(Clone, Copy, Debug, PartialEq, Eq)]
pub enum Mark {
    Opens(usize),
    Closes(usize),
    Name(usize, usize),
}

// Whether a colon comes next, past white space.
fn colon_next(s: &[u8], from: usize) -> bool
    ensures { result ≡ colon_next (ws (drop from s.now)) }
{
    let at = skip_ws(s, from);
    at < s.len() && s[at] == 0x3A
}

// The first mark from `from` on, if there is one: a brace outside strings, or a string that a colon follows.
// Rules out a brace in a string taken for an object, and a value taken for a name.
pub(crate) fn next_mark(s: &[u8], from: usize) -> Option<Mark>
    requires { from ≤ length s.now }
    ensures { MarkAt s.now from result }
{
    let mut at = from;
    while at < s.len() {
        let b = s[at];
        if b == 0x22 {
            let e = string_end(s, at + 1)?;
            if colon_next(s, e) {
                return Some(Mark::Name(at + 1, e));
            }
            at = e;
        } else {
            if b == 0x7B {
                return Some(Mark::Opens(at + 1));
            }
            if b == 0x7D {
                return Some(Mark::Closes(at + 1));
            }
            at += 1;
        }
    }
    None
}
