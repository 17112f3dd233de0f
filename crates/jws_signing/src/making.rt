// Making a token: the rules on its length, and its three segments in the lent buffer.
ghost use Rattle.std.specs.Prelude.{◌≡◌, ◌+◌, ◌≤◌, length, take};
ghost use Rattle.base64url_rules.specs.Base64url.{encode};
ghost use Rattle.common.specs.Buffer.{laid, Front};
ghost use Rattle.json_rules.specs.Rules.{longest};
ghost use Rattle.jws_rules.specs.Calls.{sign_call};
ghost use Rattle.jws_rules.specs.Segments.{◌dot◌};
ghost use Rattle.jws_rules.specs.Token.{token_of, finished_length};
ghost use Rattle.jws_rules.specs.Tests.{signed};
ghost use Rattle.jws_rules.specs.Results.{sign_result};
ghost use Rattle.jws_signing.specs.Written.{Written, finished};

use answers::Refusal;
use base64url_encoding::{Alphabet, encode_with, encoded_len};
use jws_rules::TOKEN_MOST;
use keytable::KeyTable;

// What a token has beside the segments of its header and payload: that of the MAC's 32 bytes, and two periods.
const REST: usize = 45;

// A further segment: a period at `at`, and then the text of the bytes. The answer is the place after it.
fn segment(alphabet: &Alphabet, bytes: &[u8], token: &mut [u8], at: usize) -> usize
    requires { at + 1 + length (encode bytes.now) ≤ length token.old }
    ensures { Front (take at token.old dot encode bytes.now) token.old result token.new }
{
    token[at] = b'.';
    encode_with(alphabet, bytes, &mut token[at + 1..]);
    at + 1 + encoded_len(bytes)
}

// What the MAC is taken of, at the buffer's front (the JWS Signing Input, RFC 7515 section 2). The answer is its length.
fn signing_input(alphabet: &Alphabet, header: &[u8], payload: &[u8], token: &mut [u8]) -> usize
    requires { length (encode header.now) + 1 + length (encode payload.now) ≤ length token.old }
    ensures { Front (encode header.now dot encode payload.now) token.old result token.new }
{
    encode_with(alphabet, header, token);
    segment(alphabet, payload, token, encoded_len(header))
}

// Writes the token at the front of a buffer that has room for it. Each byte is written once, and the MAC is taken of what stands there.
fn compose(secret: &[u8], header: &[u8], payload: &[u8], token: &mut [u8])
    requires { finished_length header.now payload.now ≤ length token.old }
    ensures { token.new ≡ laid (token_of secret.now header.now payload.now) token.old }
{
    let alphabet = Alphabet::new();
    let n = signing_input(&alphabet, header, payload, token);
    let mac = hmac::hmac_sha256(secret, &token[0..n]);
    segment(&alphabet, &mac, token, n);
}

// The rules on the finished length, and then the token; its length is the answer. A payload that is itself too long is answered before any sum.
fn finish(secret: &[u8], header: &[u8], payload: &[u8], token: &mut [u8]) -> Result<usize, Refusal>
    requires { length header.now ≤ longest }
    ensures { Written (finished secret.now header.now payload.now (length token.old)) token.old (sign_result result) token.new }
{
    if TOKEN_MOST < payload.len() {
        return Err(Refusal::TokenTooLong);
    }
    let n = encoded_len(header) + encoded_len(payload) + REST;
    if TOKEN_MOST < n {
        return Err(Refusal::TokenTooLong);
    }
    if token.len() < n {
        return Err(Refusal::BufferTooShort);
    }
    compose(secret, header, payload, token);
    Ok(n)
}

// Decides, and writes the token at the buffer's front.
pub(crate) fn make(
    header: &[u8],
    payload: &[u8],
    table: &[u8],
    token: &mut [u8],
) -> Result<usize, Refusal>
    ensures { Written (signed (sign_call header.now payload.now table.now token.old)) token.old (sign_result result) token.new }
{
    let choice = jose::decide(header, table)?;
    let table = KeyTable { bytes: table };
    finish(table.key(choice.key_index).secret(), header, payload, token)
}
