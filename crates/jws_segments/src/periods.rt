// Where the two periods of a token stand.
ghost use Rattle.std.specs.Prelude.{◌≡◌, ◌<◌, length, nat_eq, position, IfSome};
ghost use Rattle.jws_segments.specs.Split.{first_period, split_of, with_period};

// By `for` and places: an iterator's `position` and `fold` hand on a byte and a pointer, which processors with shorter pointers would load from other
// places than the module has them.

// How many bytes are looked at together.
const BLOCK: usize = 32;

// Whether a period stands in s. Every byte is looked at, so that a machine that can compares many of them at once.
fn has_period(s: &[u8]) -> bool
    ensures { result ≡ with_period s.now }
{
    let mut found = false;
    for i in 0..s.len() {
        found |= s[i] == b'.';
    }
    found
}

// The first block with a period.
fn block_with_period(blocks: &[[u8; BLOCK]]) -> Option<usize>
    ensures { result ≡ position with_period blocks.now }
{
    for i in 0..blocks.len() {
        if has_period(&blocks[i]) {
            return Some(i);
        }
    }
    None
}

// The first period, byte by byte.
fn period(s: &[u8]) -> Option<usize>
    ensures { result ≡ position (λ b. nat_eq b 46) s.now }
{
    for i in 0..s.len() {
        if s[i] == b'.' {
            return Some(i);
        }
    }
    None
}

// Where the first period stands. Blocks without one are passed over whole.
fn first_period(s: &[u8]) -> Option<usize>
    ensures place { result ≡ first_period s.now }
    ensures within { IfSome result (λ n. n < length s.now) }
{
    let (blocks, _) = s.as_chunks::<BLOCK>();
    let passed = block_with_period(blocks).unwrap_or(blocks.len()) * BLOCK;
    Some(passed + period(&s[passed..])?)
}

// The places of the two periods, if there are exactly two. Rules out a third period let through, and the second one placed a byte early.
pub fn split(token: &[u8]) -> Option<(usize, usize)>
    ensures { result ≡ split_of token.now }
{
    let first = first_period(token)?;
    let rest = &token[first + 1..];
    let second = first_period(rest)?;
    if first_period(&rest[second + 1..]).is_some() {
        return None;
    }
    Some((first, first + 1 + second))
}
