// Words, hexadecimal and decimal numbers of a line.
ghost use Rattle.std.specs.Prelude.{◌≡◌, ◌<◌, ◌≤◌, ◌+◌, ◌%◌, length};

use std::io;

// The bytes before the first space, and those after it.
pub fn word(s: &[u8]) -> (&[u8], &[u8]) {
    match s.iter().position(|byte| *byte == b' ') {
        Some(end) => (&s[..end], &s[end + 1..]),
        None => (s, &s[s.len()..]),
    }
}

// The value of a hexadecimal digit; of another byte what a digit of its bits would have.
fn nibble(c: u8) -> u8
    ensures bound { result < 16 }
    ensures digit { c ≤ 57 → result ≡ c % 16 }
    ensures letter { 57 < c → result ≡ (c % 16 + 9) % 16 }
{
    match c {
        ..=b'9' => c % 16,
        _ => (c % 16 + 9) % 16,
    }
}

// The bytes that s writes in hexadecimal, as many as out holds.
pub fn unhex(s: &[u8], out: &mut [u8]) -> usize
    ensures { result ≤ length out.new }
{
    let (pairs, _) = s.as_chunks::<2>();
    let n = pairs.len().min(out.len());
    for (i, [high, low]) in pairs[..n].iter().enumerate() {
        out[i] = nibble(*high) * 16 + nibble(*low);
    }
    n
}

// The number that s writes in decimal, at most a million.
pub fn decimal(s: &[u8]) -> usize
    ensures { result ≤ 1000000 }
{
    let mut n: usize = 0;
    for c in s {
        n = (n * 10 + usize::from(*c % 16)).min(1000000);
    }
    n
}

// Writes bytes in hexadecimal, and a hyphen for none.
pub fn put_hex(rt: &impl Print, s: &[u8]) -> io::Result<()> {
    if s.is_empty() {
        rt.write_all(b"-")?;
    }
    for byte in s {
        print!(rt; "{byte:02x}")?;
    }
    Ok(())
}

// Writes text, and a hyphen for none.
pub fn put_text(rt: &impl Print, s: &[u8]) -> io::Result<()> {
    rt.write_all(if s.is_empty() { b"-" } else { s })
}
