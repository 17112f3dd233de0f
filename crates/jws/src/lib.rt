// Compact tokens (RFC 7515 section 7.1) with HS256: verifying.
#![tactic(auto)]

mod judging; // judging.rt: the rules of verifying, phase by phase

ghost use Rattle.std.specs.Prelude.{◌≡◌};
ghost use Rattle.jws_rules.specs.Calls.{verify_call};
ghost use Rattle.jws_rules.specs.Outcomes.{given};
ghost use Rattle.jws_rules.specs.Results.{verify_result};
ghost use Rattle.jws_rules.specs.Tests.{verified};

use answers::Refusal;
pub use jws_rules::Record;

// The lengths of header and payload; 0 and 0 after a refusal.
fn lengths(verified: Result<Record, Refusal>) -> (usize, usize)
    ensures { let d = (verify_result verified).details in result ≡ (d.header_length, d.payload_length) }
{
    match verified {
        Ok(record) => (record.header_length, record.payload_length),
        Err(_) => (0, 0),
    }
}

// Verifies a token, and answers what it holds. Past what the record speaks of each buffer is cleared: whole on a refusal.
// Rules out a token accepted on the first bytes of its signature, and a refusal that leaves a byte of the header behind.
pub fn verify(
    token: &[u8],
    table: &[u8],
    header: &mut [u8],
    payload: &mut [u8],
) -> Result<Record, Refusal>
    ensures { given (verify_result result) header.new payload.new ≡ verified (verify_call token.now table.now header.old payload.old) }
{
    let verified = judging::judge(token, table, header, payload);
    let (n, m) = lengths(verified);
    common::zero(&mut header[n..]);
    common::zero(&mut payload[m..]);
    verified
}
