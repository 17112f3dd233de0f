// The rounds over one of eight schedules, and the compression of eight blocks.
ghost use Rattle.std.specs.Prelude.{◌≡◌, ℕ, ◌+◌, ◌*◌, ◌<◌, List, slice_index};
ghost use Rattle.sha2_rules.specs.Parameters.{K as RoundConstants, sha_256};
ghost use Rattle.sha2_rules.specs.Compression.{round as Round, rounds, schedule, compressed};
ghost use Rattle.sha2_rules.specs.Hash.{hash_value};
ghost use Rattle.sha2_rules.specs.Woven.{Woven, block_of};

use crate::schedules::Schedules;
use sha256_compression::{Constants, RoundSums, added, round};
use sha256_words::{big_sigma0, big_sigma1, ch, maj};

// The sums with the shortest chains of operations: quickest where nothing but the rounds is left to do. What e decides is added last, since e is
// known last.
struct ShortChains;

impl RoundSums for ShortChains {
    fn t1(v: [u32; 8], k: u32, w: u32) -> u32 {
        let [_, _, _, _, e, f, g, h] = v;
        h.wrapping_add(k.wrapping_add(w))
            .wrapping_add(ch(e, f, g))
            .wrapping_add(big_sigma1(e))
    }

    fn t2(v: [u32; 8]) -> u32 {
        let [a, b, c, _, _, _, _, _] = v;
        big_sigma0(a).wrapping_add(maj(a, b, c))
    }
}

// Round t of block l.
fn round_at(
    v: [u32; 8],
    constants: &Constants,
    schedules: &Schedules,
    t: usize,
    l: usize,
) -> [u32; 8]
    requires { (t < 64) × (l < 8) }
    ensures { result ≡ Round sha_256 v (slice_index RoundConstants t) (slice_index schedules.now.words (t * 8 + l)) }
{
    round::<ShortChains>(v, constants.at(t), schedules.word(t, l))
}

// All rounds of block l, two in a turn of the loop as in `sha256_compression`; a loop of its own, since there later words are made on the way.
fn all_rounds(value: [u32; 8], constants: &Constants, schedules: &Schedules, l: usize) -> [u32; 8]
    requires { l < 8 }
    ensures { (b : List ℕ) → Woven sha_256 b schedules.now.words 512
        → result ≡ rounds sha_256 value (schedule sha_256 (block_of sha_256 b l) 64) 64 }
{
    let mut v = value;
    for turn in 0..32 {
        let t = 2 * turn;
        let once = round_at(v, constants, schedules, t, l);
        let twice = round_at(once, constants, schedules, t + 1, l);
        v = twice;
    }
    v
}

// The hash value after block l.
#[tactic(auto, unfolding(sha2_rules::specs::Compression::compressed))]
fn compress_one(value: [u32; 8], constants: &Constants, schedules: &Schedules, l: usize) -> [u32; 8]
    requires { l < 8 }
    ensures { (b : List ℕ) → Woven sha_256 b schedules.now.words 512 → result ≡ compressed sha_256 value (block_of sha_256 b l) }
{
    let v = all_rounds(value, constants, schedules, l);
    added(v, value)
}

// The hash value after the eight blocks of a run. Their schedules are made in a place that a caller lends for many runs.
// Rules out the first block in the place of each, and a last block left out.
pub fn compress_eight(
    value: [u32; 8],
    constants: &Constants,
    schedules: &mut Schedules,
    run: &[u8; 512],
) -> [u32; 8]
    ensures words { Woven sha_256 run.now schedules.new.words 512 }
    ensures value { result ≡ hash_value sha_256 value run.now 8 }
{
    schedules.make(run);
    let mut v = value;
    for l in 0..8 {
        let next = compress_one(v, constants, schedules, l);
        v = next;
    }
    v
}
