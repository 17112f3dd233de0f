// The member reader: its answer as a number and five words.
ghost use Rattle.std.specs.Prelude.{◌≡◌};
ghost use Rattle.json_rules.specs.Answers.{number_of};
ghost use Rattle.json_rules.specs.Tests.{member_of};
ghost use Rattle.jws_words.specs.Words.{member_words};

use jws_words::answer_of;

// Member k, from 0, of the header's top object: 0 and its words, or the refusal's number and five zeros.
// Rules out the places of the name and of the value exchanged, and words that a refusal leaves as they were.
#[unsafe(no_mangle)]
pub extern "C" fn jws_member(header: &[u8], k: usize, member: &mut [u64; 5]) -> u8
    ensures number { result ≡ number_of (member_of header.now k) }
    ensures words { member.new ≡ member_words (member_of header.now k) }
{
    let answer = answer_of(json_header::member(header, k));
    let words = answer.words;
    *member = words;
    answer.number
}
