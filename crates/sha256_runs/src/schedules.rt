// The schedules of eight blocks.
ghost use Rattle.std.specs.Prelude.{◌≡◌, ℕ, ◌+◌, ◌*◌, ◌<◌, ◌≤◌, List, length, slice_index};
ghost use Rattle.sha2_rules.specs.Parameters.{sha_256};
ghost use Rattle.sha2_rules.specs.Woven.{Woven, later_woven};

// The words of the schedules side by side: word t of block l stands at place 8 t + l.
#[derive(Drop)]
pub struct Schedules {
    pub words: [u32; 512],
    pub ghost size: { length words ≡ 512 },
}

impl Schedules {
    // Room for them. Nothing is promised of its words.
    pub fn new() -> Self {
        Schedules { words: [0; 512] }
    }

    // Word t of block l.
    pub(crate) fn word(&self, t: usize, l: usize) -> u32
        requires { (t < 64) × (l < 8) }
        ensures { result ≡ slice_index self.now.words (t * 8 + l) }
    {
        self.words[t * 8 + l]
    }

    // Word t of each block, as it stands in the block.
    fn row(&mut self, run: &[u8; 512], t: usize)
        requires { t < 16 }
        ensures { Woven sha_256 run.now self.old.words (t * 8) → Woven sha_256 run.now self.new.words (t * 8 + 8) }
    {
        for l in 0..8 {
            self.words[t * 8 + l] = common::number4_at(run, l * 64 + t * 4);
        }
    }

    // The sixteen words of each block.
    fn first_words(&mut self, run: &[u8; 512])
        ensures { Woven sha_256 run.now self.new.words 128 }
    {
        for t in 0..16 {
            self.row(run, t);
        }
    }

    // A later word of one of the schedules, of the words before it.
    fn later_word(&self, i: usize) -> u32
        requires { (128 ≤ i) × (i < 512) }
        ensures { result ≡ later_woven sha_256 self.now.words i }
    {
        sha256_words::later_word(
            self.words[i - 16],
            self.words[i - 56],
            self.words[i - 120],
            self.words[i - 128],
        )
    }

    // The later words. One flat loop: no word that it makes depends on the fifteen before it.
    fn later_words(&mut self)
        ensures { (b : List ℕ) → Woven sha_256 b self.old.words 128 → Woven sha_256 b self.new.words 512 }
    {
        for i in 128..512 {
            self.words[i] = self.later_word(i);
        }
    }

    // The schedules of the eight blocks of a run.
    pub(crate) fn make(&mut self, run: &[u8; 512])
        ensures { Woven sha_256 run.now self.new.words 512 }
    {
        self.first_words(run);
        self.later_words();
    }
}
