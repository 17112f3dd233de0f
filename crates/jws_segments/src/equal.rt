// Whether a signature is a MAC.
ghost use Rattle.std.specs.Prelude.{◌≡◌, ◌↔◌};
ghost use Rattle.jws_segments.specs.Opening.{is_mac};

// The bits in which two MACs differ, all together. Every byte is looked at, also after one that differs: the time says nothing of where the first difference
// stands. No `zip`: of an iterator within another nodes/module.py can't tell the two apart.
fn differences(a: &[u8; 32], b: &[u8; 32]) -> u8
    ensures { (result ≡ 0) ↔ (a.now ≡ b.now) }
{
    let mut all: u8 = 0;
    for i in 0..32 {
        all |= a[i] ^ b[i];
    }
    all
}

// Whether a signature is this MAC, all 32 bytes of it. Rules out a signature of fewer bytes compared as far as it goes, and a last byte
// that isn't compared.
pub fn is_mac(signature: Option<[u8; 32]>, mac: &[u8; 32]) -> bool
    ensures { result ≡ is_mac signature mac.now }
{
    match signature {
        Some(bytes) => differences(&bytes, mac) == 0,
        None => false,
    }
}
