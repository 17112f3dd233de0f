// Decoding a text into a buffer that has room for its bytes.
ghost use Rattle.std.specs.Prelude.{◌≡◌, ◌<◌, ◌≤◌, ◌%◌, length};
ghost use Rattle.base64url_rules.specs.Base64url.{decoded_length};
ghost use Rattle.base64url_decoding.specs.Writing.{Decodes};

use base64url_words::{Table, Values, Wide, group, two_groups};

// From this length on a text is decoded by the table for long texts. On x86-64 that pays from some 800 characters on. On small processors it gains
// nothing and takes some thousand instructions to make, so that it is left to texts that nodes seldom get.
const LONG: usize = 4096;

// Decodes pairs of groups, eight characters each.
fn decode_pairs<T: Table>(table: &T, text: &[u8], out: &mut [u8]) -> bool
    requires { (length text.now % 8 ≡ 0) × (decoded_length (length text.now) ≤ length out.old) }
    ensures { Decodes text.now out.old result out.new }
{
    let (pairs, _) = text.as_chunks::<8>();
    for (i, pair) in pairs.iter().enumerate() {
        let Some(bytes) = two_groups(table, pair) else {
            return false;
        };
        // One by one: a loop over six bytes would stay one on small processors.
        let to = i * 6;
        out[to] = bytes[0];
        out[to + 1] = bytes[1];
        out[to + 2] = bytes[2];
        out[to + 3] = bytes[3];
        out[to + 4] = bytes[4];
        out[to + 5] = bytes[5];
    }
    true
}

// Decodes a rest of at most three characters. It is filled up with A, whose value is 0: the unused bits are then the byte after
// the last one.
fn decode_rest(values: &Values, text: &[u8], out: &mut [u8]) -> bool
    requires { (length text.now < 4) × (decoded_length (length text.now) ≤ length out.old) }
    ensures { Decodes text.now out.old result out.new }
{
    match *text {
        [] => true,
        [_] => false,
        [a, b] => {
            let Some(bytes) = group(values, a, b, b'A', b'A') else {
                return false;
            };
            out[0] = bytes[0];
            bytes[1] == 0
        }
        [a, b, c, ..] => {
            let Some(bytes) = group(values, a, b, c, b'A') else {
                return false;
            };
            out[0] = bytes[0];
            out[1] = bytes[1];
            bytes[2] == 0
        }
    }
}

// Decodes what pairs leave: at most seven characters, a group and a rest.
fn decode_last(values: &Values, text: &[u8], out: &mut [u8]) -> bool
    requires { (length text.now < 8) × (decoded_length (length text.now) ≤ length out.old) }
    ensures { Decodes text.now out.old result out.new }
{
    let [a, b, c, d, rest @ ..] = text else {
        return decode_rest(values, text, out);
    };
    let Some(bytes) = group(values, *a, *b, *c, *d) else {
        return false;
    };
    out[0] = bytes[0];
    out[1] = bytes[1];
    out[2] = bytes[2];
    decode_rest(values, rest, &mut out[3..])
}

// Decodes pairs by the table that pays.
fn decode_front(values: &Values, text: &[u8], out: &mut [u8]) -> bool
    requires { (length text.now % 8 ≡ 0) × (decoded_length (length text.now) ≤ length out.old) }
    ensures { Decodes text.now out.old result out.new }
{
    if text.len() < LONG {
        decode_pairs(values, text, out)
    } else {
        decode_pairs(&Wide::new(values), text, out)
    }
}

// Whether the text is strict; if so, its bytes are at the front of the buffer. The pairs, and then what they leave.
pub(crate) fn decode_into(values: &Values, text: &[u8], out: &mut [u8]) -> bool
    requires { decoded_length (length text.now) ≤ length out.old }
    ensures { Decodes text.now out.old result out.new }
{
    let n = text.len() / 8;
    decode_front(values, &text[..n * 8], out)
        && decode_last(values, &text[n * 8..], &mut out[n * 6..])
}
