// The table of values. A constant array is copied wherever it is named, so it is copied once, into a `Values`, and lent from then on.
ghost use Rattle.base64url_rules.specs.Alphabet.{value};
ghost use Rattle.base64url_rules.proofs.Tables.{signed, values};
ghost use Rattle.std.specs.Prelude.{◌≡◌};

// Outside the alphabet -1 and -2 stand in turn: a run of one number would be written in pieces that overlap, and take longer than rows of
// sixteen.
const VALUES: [i8; 256] = [
    // 0 to 15
    -1, -2, -1, -2, -1, -2, -1, -2, -1, -2, -1, -2, -1, -2, -1, -2,
    // 16 to 31
    -1, -2, -1, -2, -1, -2, -1, -2, -1, -2, -1, -2, -1, -2, -1, -2,
    // 32 to 47
    -1, -2, -1, -2, -1, -2, -1, -2, -1, -2, -1, -2, // +
    -1, 62, // -
    -1, -2, // /
    // 48 to 63
    52, // 0
    53, // 1
    54, // 2
    55, // 3
    56, // 4
    57, // 5
    58, // 6
    59, // 7
    60, // 8
    61, // 9
    -1, -2, -1, -2, // =
    -1, -2,
    // 64 to 79
    -1, 0, // A
    1, // B
    2, // C
    3, // D
    4, // E
    5, // F
    6, // G
    7, // H
    8, // I
    9, // J
    10, // K
    11, // L
    12, // M
    13, // N
    14, // O
    // 80 to 95
    15, // P
    16, // Q
    17, // R
    18, // S
    19, // T
    20, // U
    21, // V
    22, // W
    23, // X
    24, // Y
    25, // Z
    -2, -1, -2, -1, 63, // _
    // 96 to 111
    -1, 26, // a
    27, // b
    28, // c
    29, // d
    30, // e
    31, // f
    32, // g
    33, // h
    34, // i
    35, // j
    36, // k
    37, // l
    38, // m
    39, // n
    40, // o
    // 112 to 127
    41, // p
    42, // q
    43, // r
    44, // s
    45, // t
    46, // u
    47, // v
    48, // w
    49, // x
    50, // y
    51, // z
    -2, -1, -2, -1, -2,
    // 128 to 143
    -1, -2, -1, -2, -1, -2, -1, -2, -1, -2, -1, -2, -1, -2, -1, -2,
    // 144 to 159
    -1, -2, -1, -2, -1, -2, -1, -2, -1, -2, -1, -2, -1, -2, -1, -2,
    // 160 to 175
    -1, -2, -1, -2, -1, -2, -1, -2, -1, -2, -1, -2, -1, -2, -1, -2,
    // 176 to 191
    -1, -2, -1, -2, -1, -2, -1, -2, -1, -2, -1, -2, -1, -2, -1, -2,
    // 192 to 207
    -1, -2, -1, -2, -1, -2, -1, -2, -1, -2, -1, -2, -1, -2, -1, -2,
    // 208 to 223
    -1, -2, -1, -2, -1, -2, -1, -2, -1, -2, -1, -2, -1, -2, -1, -2,
    // 224 to 239
    -1, -2, -1, -2, -1, -2, -1, -2, -1, -2, -1, -2, -1, -2, -1, -2,
    // 240 to 255
    -1, -2, -1, -2, -1, -2, -1, -2, -1, -2, -1, -2, -1, -2, -1, -2,
];

// The value of every character, and a number below 0 outside the alphabet.
#[derive(Clone, Copy)]
pub struct Values {
    pub entries: [i8; 256],
    pub ghost right: { entries ≡ values },
}

impl Values {
    // Rules out a table that lets = in, and one that has the values of + and / for those of - and _.
    pub fn new() -> Self {
        Values { entries: VALUES }
    }

    // The value of a character, and a number below 0 outside the alphabet: shifted to any place of a word, it leaves the word below 0.
    pub(crate) fn signed(&self, c: u8) -> i32
        ensures { result ≡ signed c }
    {
        i32::from(self.entries[usize::from(c)])
    }

    // The value of a character, 64 outside the alphabet. Rules out that it is 63 there, as that of _, and the value of its neighbour.
    pub fn value(&self, c: u8) -> u8
        ensures { result ≡ value c }
    {
        u8::try_from(self.signed(c)).unwrap_or(64)
    }
}
