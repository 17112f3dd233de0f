// HMAC-SHA256 (RFC 2104 and RFC 7518, section 3.2).
#![tactic(auto)]

ghost use Rattle.std.specs.Prelude.{◌≡◌, ℕ, ◌++◌, map};
ghost use Rattle.std.specs.Int.Bits.{bit_xor};
ghost use Rattle.sha2_rules.specs.Hash.{SHA256};
ghost use Rattle.hmac.specs.Hmac.{key_block, HMACSHA256};

use sha256::Hasher;

// The key, hashed if it is longer than a block, and then zeros to a block.
fn key_block(key: &[u8]) -> [u8; 64]
    ensures { result ≡ key_block SHA256 64 key.now }
{
    let mut block = [0u8; 64];
    if 64 < key.len() {
        common::copy_at(&mut block, 0, &sha256::sha256(key));
        return block;
    }
    common::copy_at(&mut block, 0, key);
    block
}

// Each byte of a block with the byte pad in exclusive or.
fn xor_pad(block: [u8; 64], pad: u8) -> [u8; 64]
    ensures { result ≡ map (λ (x : ℕ). bit_xor x pad) block }
{
    let mut padded = block;
    for byte in padded.iter_mut() {
        *byte ^= pad;
    }
    padded
}

// The hash of one block and then m.
fn hash_with_block(hasher: &mut Hasher, block: &[u8; 64], m: &[u8]) -> [u8; 32]
    ensures { result ≡ SHA256 (block.now ++ m.now) }
{
    hasher.restart();
    hasher.absorb_blocks(block);
    hasher.finish(64, m)
}

// The HMAC-SHA256 of m under the key, for every length of both.
// Rules out the same pad for both hashes, and a key of 65 bytes that is cut instead of hashed.
#[tactic(auto, unfolding(crate::specs::Hmac::hmac))]
pub fn hmac_sha256(key: &[u8], m: &[u8]) -> [u8; 32]
    ensures { result ≡ HMACSHA256 key.now m.now }
{
    let mut hasher = Hasher::new();
    let block = key_block(key);
    let inner = hash_with_block(&mut hasher, &xor_pad(block, 0x36), m);
    hash_with_block(&mut hasher, &xor_pad(block, 0x5c), &inner)
}
