// The last blocks of a message (FIPS 180-4, section 5.1.1).
ghost use Rattle.std.specs.Prelude.{◌≡◌, ◌%◌, ◌++◌, length, take};
ghost use Rattle.sha2_rules.specs.Parameters.{sha_256};
ghost use Rattle.sha2_rules.specs.Hash.{padding};

// The last one or two blocks of a message of total bytes: its last bytes, and the padding. They end at end; zeros follow.
// The length in bits is taken modulo 2 ^ 64.
pub(crate) fn last_blocks(rest: &[u8], total: usize, end: usize) -> [u8; 128]
    requires { (length rest.now ≡ total % 64) × (end ≡ length (rest.now ++ padding sha_256 total)) }
    ensures { take end result ≡ rest.now ++ padding sha_256 total }
{
    let mut blocks = [0; 128];
    common::copy_at(&mut blocks, 0, rest);
    blocks[rest.len()] = 128;
    let bits = (total as u64) << 3;
    common::copy_at(&mut blocks, end - 8, &bits.to_be_bytes());
    blocks
}
