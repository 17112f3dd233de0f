// Encoding bytes into a buffer that has room for their text.
ghost use Rattle.std.specs.Prelude.{◌≡◌, [], ◌∷◌, ◌<◌, ◌≤◌, ◌%◌, length};
ghost use Rattle.base64url_rules.specs.Base64url.{encode, encoded_length};
ghost use Rattle.common.specs.Buffer.{laid};

use crate::characters::Alphabet;

// The four characters of three bytes.
fn encode_group(alphabet: &Alphabet, x: u8, y: u8, z: u8) -> [u8; 4]
    ensures { result ≡ encode (x ∷ y ∷ z ∷ []) }
{
    [
        alphabet.character(x / 4),
        alphabet.character(x % 4 * 16 + y / 16),
        alphabet.character(y % 16 * 4 + z / 64),
        alphabet.character(z % 64),
    ]
}

// Encodes whole groups of three bytes.
fn encode_groups(alphabet: &Alphabet, bytes: &[u8], out: &mut [u8])
    requires { (length bytes.now % 3 ≡ 0) × (encoded_length (length bytes.now) ≤ length out.old) }
    ensures { out.new ≡ laid (encode bytes.now) out.old }
{
    let (groups, _) = bytes.as_chunks::<3>();
    for (i, [x, y, z]) in groups.iter().enumerate() {
        let [a, b, c, d] = encode_group(alphabet, *x, *y, *z);
        // One by one: copied as an array, the four are put together first, a tenth more instructions for long texts.
        let to = i * 4;
        out[to] = a;
        out[to + 1] = b;
        out[to + 2] = c;
        out[to + 3] = d;
    }
}

// Encodes a rest of at most two bytes: filled up with 0 bytes, it has the same characters, and more.
fn encode_rest(alphabet: &Alphabet, bytes: &[u8], out: &mut [u8])
    requires { (length bytes.now < 3) × (encoded_length (length bytes.now) ≤ length out.old) }
    ensures { out.new ≡ laid (encode bytes.now) out.old }
{
    match *bytes {
        [] => {}
        [x] => {
            let [a, b, _, _] = encode_group(alphabet, x, 0, 0);
            out[0] = a;
            out[1] = b;
        }
        [x, y, ..] => {
            let [a, b, c, _] = encode_group(alphabet, x, y, 0);
            out[0] = a;
            out[1] = b;
            out[2] = c;
        }
    }
}

pub(crate) fn encode_into(alphabet: &Alphabet, bytes: &[u8], out: &mut [u8])
    requires { encoded_length (length bytes.now) ≤ length out.old }
    ensures { out.new ≡ laid (encode bytes.now) out.old }
{
    let n = bytes.len() / 3;
    encode_groups(alphabet, &bytes[..n * 3], out);
    encode_rest(alphabet, &bytes[n * 3..], &mut out[n * 4..]);
}
