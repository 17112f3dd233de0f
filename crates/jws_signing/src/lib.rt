// Compact tokens (RFC 7515 section 7.1) with HS256: signing.
#![tactic(auto)]

mod making; // making.rt: a token in a lent buffer

ghost use Rattle.std.specs.Prelude.{◌≡◌};
ghost use Rattle.jws_rules.specs.Calls.{sign_call};
ghost use Rattle.jws_rules.specs.Outcomes.{handed};
ghost use Rattle.jws_rules.specs.Results.{sign_result};
ghost use Rattle.jws_rules.specs.Tests.{signed};

use answers::Refusal;

// Makes the token of a header and a payload, under the key of the table that the header chooses, and answers its length. Past the token the buffer is
// cleared: whole on a refusal. Rules out a signer that refuses everything, a MAC over less than header and payload, and a
// buffer left as it was on a refusal.
pub fn sign(header: &[u8], payload: &[u8], table: &[u8], token: &mut [u8]) -> Result<usize, Refusal>
    ensures { handed (sign_result result) token.new ≡ signed (sign_call header.now payload.now table.now token.old) }
{
    let made = making::make(header, payload, table, token);
    let n = made.unwrap_or(0);
    common::zero(&mut token[n..]);
    made
}
