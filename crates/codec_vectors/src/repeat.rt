// The hash of one byte many times over, part by part: a part is whole blocks, so that no message buffer is needed.
ghost use Rattle.std.specs.Prelude.{◌≤◌};

use crate::text;
use sha256::Hasher;

fn sha256(count: usize, x: u8) -> [u8; 32]
    requires { count ≤ 1000000 }
{
    let part = [x; 6400];
    let mut hasher = Hasher::new();
    for _ in 0..count / 6400 {
        hasher.absorb(&part);
    }
    let done = count / 6400 * 6400;
    hasher.finish(done, &part[..count - done])
}

// .. with the count and the byte as a line writes them.
pub fn written(count: &[u8], x: &[u8]) -> [u8; 32] {
    let mut byte = [0u8; 1];
    text::unhex(x, &mut byte);
    let n = text::decimal(count);
    sha256(n, byte[0])
}
