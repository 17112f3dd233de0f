// Maj and the big sigmas with fewer operations.
ghost use Rattle.std.specs.Prelude.{◌≡◌, ◌<◌};
ghost use Rattle.sha2_rules.specs.Words.{Maj, three_rotations};
ghost use Rattle.sha2_rules.specs.Parameters.{Sigma0, Sigma1};

// Maj, by which of x and y, and of y and z, differ: the next round, whose y and z are these x and y, has the second of them already.
// Rules out x where not both pairs differ.
pub fn maj_in_pairs(x: u32, y: u32, z: u32) -> u32
    ensures { result ≡ Maj 32 x y z }
{
    ((x ^ y) & (y ^ z)) ^ y
}

// The form of the big sigmas, each rotation on top of the one before it.
fn nested_rotations(x: u32, a: u32, b: u32, c: u32) -> u32
    requires { (0 < a) × (a < b) × (b < c) × (c < 32) }
    ensures { result ≡ three_rotations 32 a b c x }
{
    ((x.rotate_right(c - b) ^ x).rotate_right(b - a) ^ x).rotate_right(a)
}

// Rules out the bits of another rotation.
pub fn nested_sigma0(x: u32) -> u32
    ensures { result ≡ Sigma0 x }
{
    nested_rotations(x, 2, 13, 22)
}

// Rules out the bits of another rotation.
pub fn nested_sigma1(x: u32) -> u32
    ensures { result ≡ Sigma1 x }
{
    nested_rotations(x, 6, 11, 25)
}
