// The codecs, exported for the tests and benchmarks in rust/. No part of the library's own boundary.
#![tactic(auto)]

ghost use Rattle.std.specs.Prelude.{◌≡◌};
ghost use Rattle.base64url_rules.specs.Outcome.{decoding, encoding};
ghost use Rattle.base64url_decoding.specs.Answers.{decoded};
ghost use Rattle.base64url_encoding.specs.Answers.{encoded};
ghost use Rattle.sha2_rules.specs.Hash.{SHA256};
ghost use Rattle.hmac.specs.Hmac.{HMACSHA256};
ghost use Rattle.codec_ffi.specs.Words.{decoded_words, encoded_words, call, decode_call, encode_call};

use base64url_decoding::{DecodeError, decode};
use base64url_encoding::encode;

fn decoded_words(answer: Result<usize, DecodeError>) -> [u64; 2]
    ensures { result ≡ decoded_words (decoded answer) }
{
    match answer {
        Ok(n) => [0, n as u64],
        Err(DecodeError::Fault(place)) => [1, place as u64],
        Err(DecodeError::Short) => [2, 0],
    }
}

fn encoded_words(answer: Option<usize>) -> [u64; 2]
    ensures { result ≡ encoded_words (encoded answer) }
{
    match answer {
        Some(n) => [0, n as u64],
        None => [2, 0],
    }
}

// Decodes a text. The answer: 0 and how many bytes were written, 1 and the place of the fault, 2 and 0 for a buffer that is too short.
// Rules out a fault without its place, and a buffer that is too short answered as no bytes written.
#[unsafe(no_mangle)]
pub extern "C" fn codec_decode(text: &[u8], out: &mut [u8], answer: &mut [u64; 2])
    ensures { call answer.new out.new ≡ decode_call (decoding text.now out.old) }
{
    *answer = decoded_words(decode(text, out));
}

// Encodes bytes. The answer: 0 and how many characters were written, 2 and 0 for a buffer that is too short.
// Rules out the two words in each other's place, and a buffer that is too short answered as no characters written.
#[unsafe(no_mangle)]
pub extern "C" fn codec_encode(bytes: &[u8], out: &mut [u8], answer: &mut [u64; 2])
    ensures { call answer.new out.new ≡ encode_call (encoding bytes.now out.old) }
{
    *answer = encoded_words(encode(bytes, out));
}

// Rules out the digest of no bytes, and a MAC in its place.
#[unsafe(no_mangle)]
pub extern "C" fn codec_sha256(message: &[u8], digest: &mut [u8; 32])
    ensures { digest.new ≡ SHA256 message.now }
{
    *digest = sha256::sha256(message);
}

// Rules out the key and the message in each other's place, and the key for the message.
#[unsafe(no_mangle)]
pub extern "C" fn codec_hmac(key: &[u8], message: &[u8], mac: &mut [u8; 32])
    ensures { mac.new ≡ HMACSHA256 key.now message.now }
{
    *mac = hmac::hmac_sha256(key, message);
}
