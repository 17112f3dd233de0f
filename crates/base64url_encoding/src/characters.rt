// The alphabet. A constant array is copied wherever it is named, so it is copied once, into an `Alphabet`, and lent from then on.
ghost use Rattle.std.specs.Prelude.{◌≡◌, ◌<◌};
ghost use Rattle.base64url_rules.specs.Alphabet.{character};
ghost use Rattle.base64url_rules.proofs.Tables.{characters};

const CHARACTERS: [u8; 64] = *b"ABCDEFGHIJKLMNOPQRSTUVWXYZabcdefghijklmnopqrstuvwxyz0123456789-_";

// The character of every value.
#[derive(Clone, Copy)]
pub struct Alphabet {
    pub entries: [u8; 64],
    pub ghost right: { entries ≡ characters },
}

impl Alphabet {
    // Rules out the alphabet of plain base64, and one with its digits first.
    pub fn new() -> Self {
        Alphabet {
            entries: CHARACTERS,
        }
    }

    // The character of a value.
    pub(crate) fn character(&self, value: u8) -> u8
        requires { value < 64 }
        ensures { result ≡ character value }
    {
        self.entries[usize::from(value)]
    }
}
