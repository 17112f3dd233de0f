// The payload of an accepted token, as a part of the buffer that verifying filled.
#![tactic(auto)]

ghost use Rattle.std.specs.Prelude.{◌≡◌};
ghost use Rattle.jws_rules.specs.Outcomes.{part_length, payload};

use jws_rules::Record;

// The payload as a part of the buffer; an empty part if the record's length doesn't fit.
// Rules out the header's length in its place, and a part that begins at another byte than the buffer's first.
pub fn payload(details: Record, buffer: &[u8]) -> &[u8]
    ensures { result.now ≡ payload details buffer.now }
{
    &buffer[..part_length(details.payload_length, buffer.len())]
}

// How long that part is, by the record's length and the buffer's.
// Rules out a payload that fills the buffer refused, and the buffer's length for a payload that doesn't fit.
#[tactic(auto, unfolding(jws_rules::specs::Outcomes::part_length))]
pub fn part_length(asked: usize, room: usize) -> usize
    ensures { result ≡ part_length asked room }
{
    // 0 and no `Option`: the call from C promises an empty part
    if asked <= room { asked } else { 0 }
}
