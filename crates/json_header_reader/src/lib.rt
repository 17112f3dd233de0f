// A reader that holds a header and the number of a member, over the member reader on bytes and number; and the members counted by it.
#![tactic(auto)]

ghost use Rattle.std.specs.Prelude.{◌≡◌};
ghost use Rattle.json_rules.specs.Shown.{shown};
ghost use Rattle.json_rules.specs.Tests.{member_of};
ghost use Rattle.json_header_reader.specs.Following.{following_of};
ghost use Rattle.json_header_reader.specs.Counting.{counted, count_of};

use answers::Refusal;
use json_header::Member;

#[derive(Clone, Copy)]
pub struct HeaderReader<'a> {
    pub header: &'a [u8],
    pub at: usize,
}

impl<'a> HeaderReader<'a> {
    // A reader at the first member.
    // Rules out a reader that begins at the second member, and one that holds another header.
    pub fn new(header: &'a [u8]) -> HeaderReader<'a>
        ensures { (result.header ≡ header.entry) × (result.at ≡ 0) }
    {
        HeaderReader { header, at: 0 }
    }

    // The member that the reader is at; 16 past the last; 5, 7 or 8 if the header isn't read.
    // Rules out the first member wherever the reader is, and 16 for a reader that is at a member.
    pub fn member(self) -> Result<Member, Refusal>
        ensures { shown result ≡ member_of self.entry.header.now self.entry.at }
    {
        json_header::member(self.header, self.at)
    }

    // The reader moves to the next member; at the greatest number it stays.
    // Rules out a reader that is left as it was, and one that goes back to the second member.
    pub fn next(&mut self)
        ensures { (self.new.header ≡ self.old.header) × (self.new.at ≡ following_of self.old.at) }
    {
        self.at = self.at.saturating_add(1);
    }
}

// How many members a header's top object has, or why the header is refused: a reader goes from the first member until there is no other.
// Rules out no member for a header that has some, and a number of members for one that is refused.
pub fn count(header: &[u8]) -> Result<usize, Refusal>
    ensures { counted result ≡ count_of header.now }
{
    let mut reader = HeaderReader::new(header);
    loop {
        if let Err(refusal) = reader.member() {
            if refusal == Refusal::NoSuchMember {
                return Ok(reader.at); // past the last
            }
            return Err(refusal);
        }
        reader.next();
    }
}
