// The rules of verifying, phase by phase: 1 to 3, 4 to 6, 7 to 14, 15. An accepted token's header and payload are left at the fronts of
// the buffers; the caller clears them past the record's lengths.
ghost use Rattle.std.specs.Prelude.{◌≡◌, ◌<◌, length};
ghost use Rattle.answers.specs.Numbers.{answer};
ghost use Rattle.common.specs.First.{first};
ghost use Rattle.keytable_rules.specs.Table.{keys};
ghost use Rattle.jose_rules.specs.Decision.{decision_with};
ghost use Rattle.jose_rules.specs.Rules.{terms_of};
ghost use Rattle.jws_rules.specs.Calls.{verify_call};
ghost use Rattle.jws_rules.specs.Results.{verify_result};
ghost use Rattle.jws_rules.specs.Tests.{from_segments, verify_tests};
ghost use Rattle.jws_segments.specs.SplitLaws.{Places};
ghost use Rattle.jws.specs.Judging.{tests_of, concluded, decided_as, JudgedBy};

use answers::Refusal;
use jose::decide_with;
use jose_rules::Choice;
use json_rules::LONGEST;
use jws_rules::{Record, TOKEN_MOST};
use jws_segments::{Opened, is_mac, open_segments, split};
use keytable::KeyTable;

// Rule 15: the signature is the MAC of the JWS Signing Input under the chosen key's secret.
fn conclude(
    opened: Opened,
    choice: Choice,
    input: &[u8],
    table: KeyTable<'_>,
) -> Result<Record, Refusal>
    requires { choice.key_index < length (keys table.bytes.now) }
    ensures { verify_result result ≡ concluded opened choice input.now table.entry.bytes.now }
{
    let mac = hmac::hmac_sha256(table.key(choice.key_index).secret(), input);
    if is_mac(opened.signature, &mac) {
        return Ok(Record {
            header_length: opened.header_length,
            payload_length: opened.payload_length,
            choice,
        });
    }
    Err(Refusal::SignatureDiffers)
}

// Rules 7 to 15, of a decoded header.
fn judge_header(
    opened: Opened,
    header: &[u8],
    input: &[u8],
    table: KeyTable<'_>,
) -> Result<Record, Refusal>
    ensures { verify_result result ≡ decided_as (decision_with header.now (terms_of table.entry.bytes.now)) opened input.now table.entry.bytes.now }
{
    let choice = decide_with(header, table)?;
    conclude(opened, choice, input, table)
}

// Rules 5 and 6, of what was opened, by the rooms of the buffers for header and payload.
fn lengths_fit(opened: Opened, header_room: usize, payload_room: usize) -> Result<(), Refusal>
    ensures { answer result ≡ first (tests_of opened header_room payload_room) }
{
    if LONGEST < opened.header_length {
        return Err(Refusal::HeaderTooLong);
    }
    if header_room < opened.header_length || payload_room < opened.payload_length {
        return Err(Refusal::BufferTooShort);
    }
    Ok(())
}

// Rules 4 to 15, of a token whose periods stand at a and b.
fn judge_segments(
    token: &[u8],
    a: usize,
    b: usize,
    table: KeyTable<'_>,
    header: &mut [u8],
    payload: &mut [u8],
) -> Result<Record, Refusal>
    requires { Places token.now a b }
    ensures { JudgedBy from_segments (verify_call token.now table.entry.bytes.now header.old payload.old) header.new payload.new (verify_result result) }
{
    let segments = open_segments(
        &token[..a],
        &token[a + 1..b],
        &token[b + 1..],
        header,
        payload,
    );
    let Some(opened) = segments.strict() else {
        return Err(Refusal::NotBase64url);
    };
    lengths_fit(opened, header.len(), payload.len())?;
    judge_header(opened, &header[..opened.header_length], &token[..b], table)
}

// Rules 1 to 15: the first that refuses, or acceptance.
pub(crate) fn judge(
    token: &[u8],
    table: &[u8],
    header: &mut [u8],
    payload: &mut [u8],
) -> Result<Record, Refusal>
    ensures { JudgedBy verify_tests (verify_call token.now table.now header.old payload.old) header.new payload.new (verify_result result) }
{
    if TOKEN_MOST < token.len() {
        return Err(Refusal::TokenTooLong);
    }
    let Some(table) = KeyTable::new(table) else {
        return Err(Refusal::BadTable);
    };
    let Some((a, b)) = split(token) else {
        return Err(Refusal::NotTwoPeriods);
    };
    judge_segments(token, a, b, table, header, payload)
}
