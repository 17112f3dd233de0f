// Verifying, the payload and signing: answers as numbers, a record as nine words, a payload's and a token's length as a word.
ghost use Rattle.std.specs.Prelude.{◌≡◌};
ghost use Rattle.jws_rules.specs.Calls.{verify_call, sign_call};
ghost use Rattle.jws_rules.specs.Tests.{verified, signed};
ghost use Rattle.jws_words.specs.Words.{verify_gives, verify_words, payload_word, sign_gives, sign_words};

use jws_words::words_of;

// Verifies a token: 0, its record and its two parts, or the refusal's number with all that is lent for writing zeroed.
// Rules out the key's index and the payload's length exchanged, and words that a refusal leaves as they were.
#[unsafe(no_mangle)]
pub extern "C" fn jws_verify(
    token: &[u8],
    table: &[u8],
    header: &mut [u8],
    payload: &mut [u8],
    words: &mut [u64; 9],
) -> u8
    ensures { verify_gives result words.new header.new payload.new ≡ verify_words (verified (verify_call token.now table.now header.old payload.old)) }
{
    let verified = jws::verify(token, table, header, payload);
    *words = words_of(verified);
    answers::number(verified)
}

// How many bytes of a payload buffer of so many are the payload, by a record's words; 0 if they don't fit.
// Rules out another word's length, and the buffer's length for a payload that doesn't fit.
#[unsafe(no_mangle)]
pub extern "C" fn jws_payload(words: &[u64; 9], room: usize) -> u64
    ensures { result ≡ payload_word words.now room }
{
    jws_words::payload_word(words, room)
}

// Signs a header and a payload: 0, the token and its length, or the refusal's number with all that is lent for writing zeroed.
// Rules out a length that isn't written, and header and payload exchanged.
#[unsafe(no_mangle)]
pub extern "C" fn jws_sign(
    header: &[u8],
    payload: &[u8],
    table: &[u8],
    token: &mut [u8],
    size: &mut u64,
) -> u8
    ensures { sign_gives result size.new token.new ≡ sign_words (signed (sign_call header.now payload.now table.now token.old)) }
{
    let signed = jws_signing::sign(header, payload, table, token);
    *size = signed.unwrap_or(0) as u64;
    answers::number(signed)
}
