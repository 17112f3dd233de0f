// Names that stand twice in one object. Names are compared pair by pair, after their escapes are resolved; the first equal pair ends the search.
// The loops over pairs, left by a label, are a form that docs/DECISIONS.md fixes.
// Each pass over the text keeps the places of 64 names at most, so that each byte is read a bounded number of times, however deep it stands.
ghost use Rattle.std.specs.Prelude.{◌≡◌, ◌+◌, ◌-◌, ◌≤◌, ◌<◌, length, set};
ghost use Rattle.json_check.specs.Stacks.{marked, base_around};
ghost use Rattle.json_check.specs.Twice.{Holds, Meets, Searched, TwiceFrom};

use crate::marks::{Mark, next_mark};
use json_string::{fingerprint, same_by_fingerprint};

// What a pass found: two equal names; none in all of the text; or none that is equal to one that it kept, and the place where it had no more
// room, from which a next pass goes on.
#[derive(Clone, Copy, Debug, PartialEq, Eq)]
pub enum Search {
    Twice,
    Once,
    Unfinished(usize),
}

// What is kept of a name: the place of its first character, and its fingerprint, by which names that differ are told apart.
#[derive(Clone, Copy)]
struct Kept {
    place: usize,
    print: u64,
}

// The names of the objects that are open: those of the innermost one stand from `base` to `count`, and below them, as a place, the `base` of
// the object around it.
#[derive(Drop)]
struct Stack {
    kept: [Kept; 64],
    base: usize,
    count: usize,
    ghost size: { length kept ≡ 64 },
}

impl Stack {
    fn new() -> Self
        ensures { (result.base ≡ 0) × (result.count ≡ 0) }
    {
        Stack {
            kept: [Kept { place: 0, print: 0 }; 64],
            base: 0,
            count: 0,
        }
    }

    // One more name of the innermost object.
    fn keep(&mut self, name: Kept)
        requires { self.old.count < 64 }
        ensures { (self.new.kept ≡ set self.old.kept self.old.count name)
            × (self.new.base ≡ self.old.base)
            × (self.new.count ≡ self.old.count + 1) }
    {
        self.kept[self.count] = name;
        self.count += 1;
    }

    // An object opens.
    fn open(&mut self)
        requires { self.old.count < 64 }
        ensures { (self.new.kept ≡ marked self.old.kept self.old.count self.old.base)
            × (self.new.base ≡ self.old.count + 1)
            × (self.new.count ≡ self.old.count + 1) }
    {
        self.kept[self.count].place = self.base;
        self.count += 1;
        self.base = self.count;
    }

    // The innermost object closes, and its names go.
    fn close(&mut self)
        requires { self.old.base ≤ 64 }
        ensures { (self.new.kept ≡ self.old.kept)
            × (self.new.base ≡ base_around self.old.kept self.old.base)
            × (self.new.count ≡ self.old.base - 1) }
    {
        if self.base == 0 {
            self.count = 0;
        } else {
            self.count = self.base - 1;
            self.base = self.kept[self.count].place;
        }
    }
}

// Compares each name from `from` on with those before it in its object, and keeps it, while there is room.
fn pass(s: &[u8], from: usize) -> Search
    requires { from ≤ length s.now }
    ensures { Searched s.now from result }
{
    let mut names = Stack::new();
    let mut at = from;
    'pairs: loop {
        if names.count == 64 {
            if meets(s, &mut names, at) {
                return Search::Twice;
            }
            return Search::Unfinished(at);
        }
        match next_mark(s, at) {
            Some(Mark::Name(place, next)) => {
                let print = fingerprint(s, place);
                for i in names.base..names.count {
                    let name = names.kept[i];
                    if same_by_fingerprint(s, place, s, name.place, print, name.print) {
                        break 'pairs;
                    }
                }
                names.keep(Kept { place, print });
                at = next;
            }
            Some(Mark::Opens(next)) => {
                names.open();
                at = next;
            }
            Some(Mark::Closes(next)) => {
                names.close();
                at = next;
            }
            None => {
                return Search::Once;
            }
        }
    }
    Search::Twice
}

// Whether a name from `from` on is equal to one that was kept of its object; no more are kept.
// A walk of its own beside `pass`: here a name isn't kept, and an object that opens is counted and not marked, so one walk for both would ask at each mark which of the two it is.
fn meets(s: &[u8], names: &mut Stack, from: usize) -> bool
    requires { (from ≤ length s.now) × (names.old.count ≤ 64) × Holds s.now names.old.kept names.old.base names.old.count }
    ensures { Meets s.now names.old.kept names.old.base names.old.count from result }
{
    let mut inner: usize = 0; // objects that have opened since, and are open
    let mut at = from;
    'pairs: loop {
        match next_mark(s, at) {
            Some(Mark::Name(place, next)) => {
                if inner == 0 {
                    let print = fingerprint(s, place);
                    for i in names.base..names.count {
                        let name = names.kept[i];
                        if same_by_fingerprint(s, place, s, name.place, print, name.print) {
                            break 'pairs;
                        }
                    }
                }
                at = next;
            }
            Some(Mark::Opens(next)) => {
                inner += 1;
                at = next;
            }
            Some(Mark::Closes(next)) => {
                if inner > 0 {
                    inner -= 1;
                } else {
                    names.close();
                }
                at = next;
            }
            None => {
                return false;
            }
        }
    }
    true
}

// Whether some object has a name twice, from `from` on.
// Rules out names compared as they are written, a pair of members far apart that is passed over, and a search of the top object alone.
pub(crate) fn twice_from(s: &[u8], from: usize) -> bool
    requires { from ≤ length s.now }
    ensures { TwiceFrom s.now from result }
{
    // Two calls: with one the compiler puts the pass, with its arrays, into `check_text`, from which the readers run.
    let mut found = pass(s, from);
    loop {
        match found {
            Search::Twice => {
                return true;
            }
            Search::Once => {
                return false;
            }
            Search::Unfinished(next) => {
                found = pass(s, next);
            }
        }
    }
}
