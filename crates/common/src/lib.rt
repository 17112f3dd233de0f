// What several crates need of byte slices: clearing, copying, and numbers in bytes.
#![tactic(auto)]

ghost use Rattle.std.specs.Prelude.{◌≡◌, ◌+◌, ◌≤◌, ◌<◌, length, replicate};
ghost use Rattle.std.proofs.Math.Seq.{paste};
ghost use Rattle.common.specs.BigEndian.{number2, number4};
ghost use Rattle.common.specs.LittleEndian.{word8};

// Sets every byte to 0. Rules out the first byte left as it was, and another byte than 0.
pub fn zero(b: &mut [u8])
    ensures { b.new ≡ replicate (length b.old) 0 }
{
    b.fill(0);
}

// Copies src into dst from at on. Rules out one byte copied over and over, and the first byte left out.
// No `copy_from_slice`: it compares addresses as numbers, which differ in width between processors.
pub fn copy_at(dst: &mut [u8], at: usize, src: &[u8])
    requires { at + length src.now ≤ length dst.old }
    ensures { dst.new ≡ paste dst.old at src.now (length src.now) }
{
    for (i, byte) in src.iter().enumerate() {
        dst[at + i] = *byte;
    }
}

// A byte as a wider number. Rules out one number for every byte, and half the byte.
pub fn wide(x: u8) -> u32
    ensures { (result ≡ x) × (result < 256) }
{
    u32::from(x)
}

// The number in the two bytes at i, the highest first. Rules out the high byte counted half, and the low byte read twice.
pub fn number2_at(b: &[u8], i: usize) -> u32
    requires { i + 1 < length b.now }
    ensures { (result ≡ number2 b.now i) × (result < 65536) }
{
    u32::from(u16::from_be_bytes([b[i], b[i + 1]]))
}

// The number in the four bytes at i, the highest first. Rules out the two high bytes counted half, and the last byte read twice.
pub fn number4_at(b: &[u8], i: usize) -> u32
    requires { i + 3 < length b.now }
    ensures { result ≡ number4 b.now i }
{
    u32::from_be_bytes([b[i], b[i + 1], b[i + 2], b[i + 3]])
}

// The word in the eight bytes at i, the lowest first: one load, to compare eight bytes at once.
// Rules out the low four bytes read twice, and the high four laid over the low ones.
pub fn word8_at(b: &[u8], i: usize) -> u64
    requires { i + 7 < length b.now }
    ensures { result ≡ word8 b.now i }
{
    u64::from_le_bytes([
        b[i],
        b[i + 1],
        b[i + 2],
        b[i + 3],
        b[i + 4],
        b[i + 5],
        b[i + 6],
        b[i + 7],
    ])
}
