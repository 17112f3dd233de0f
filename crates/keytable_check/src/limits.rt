// The limits of the key table.
ghost use Rattle.std.specs.Prelude.{◌≡◌, ◌&&◌, leb};

// From how many bytes on, and up to how many.
#[derive(Clone, Copy)]
pub(crate) struct Sizes {
    pub(crate) least: usize,
    pub(crate) most: usize,
}

impl Sizes {
    pub(crate) fn hold(self, size: usize) -> bool
        ensures { result ≡ (leb self.least size && leb size self.most) }
    {
        self.least <= size && size <= self.most
    }
}

pub(crate) const TABLE: Sizes = Sizes {
    least: 8,
    most: 8192,
};

pub(crate) const KEYS_MOST: usize = 32;

pub(crate) const ID: Sizes = Sizes { least: 1, most: 64 };

pub(crate) const SECRET: Sizes = Sizes {
    least: 32,
    most: 128,
};

// Bit 0 alone may be set.
pub(crate) const ALGORITHMS_END: u8 = 2;
