// Runs of eight blocks, 512 bytes each.
ghost use Rattle.std.specs.Prelude.{◌≡◌, ◌/◌, ◌%◌, ◌≤◌, length};
ghost use Rattle.sha2_rules.specs.Parameters.{sha_256};
ghost use Rattle.sha2_rules.specs.Hash.{hash_value};

use crate::Hasher;
use sha256_runs::{Schedules, compress_eight};

const RUN: usize = 512;

// Whether runs pay: where the compiler has wide instructions for them. Nothing is promised of the answer, since what is computed is the same
// with either; for a processor without such instructions `nodes/build.py` gives the other.
fn runs_pay() -> bool {
    true
}

// How many bytes at the front of a message of n are taken by runs.
pub(crate) fn in_runs(n: usize) -> usize
    ensures { (result ≤ n) × (result % 512 ≡ 0) }
{
    if runs_pay() { n / RUN * RUN } else { 0 }
}

impl Hasher {
    // The hash value after the runs of m. One function with `absorb_blocks`, over a closure that compresses a part, would be longer than both.
    pub(crate) fn absorb_runs(&mut self, m: &[u8])
        requires { length m.now % 512 ≡ 0 }
        ensures { self.new.value ≡ hash_value sha_256 self.old.value m.now (length m.now / 64) }
    {
        let mut schedules = Schedules::new();
        let (runs, _) = m.as_chunks::<512>();
        for run in runs {
            let next = compress_eight(self.value, &self.constants, &mut schedules, run);
            self.value = next;
        }
    }
}
