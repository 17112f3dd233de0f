// Why a call is refused, in the order of the numbers.
#[derive(Clone, Copy, Debug, PartialEq, Eq)]
pub enum Refusal {
    // The token has more than 32,768 bytes.
    TokenTooLong = 1,
    // The table is bad.
    BadTable = 2,
    // There are fewer than two periods, or more.
    NotTwoPeriods = 3,
    // One of the three segments isn't strict.
    NotBase64url = 4,
    // The header has more than 4,096 bytes.
    HeaderTooLong = 5,
    // A buffer can't hold what belongs in it.
    BufferTooShort = 6,
    // The header isn't JSON by the grammar, or goes deeper than 16.
    NotDerived = 7,
    // An object in the header has a name twice.
    NameTwice = 8,
    // `alg` is missing, or a member with a meaning isn't what it must be.
    WrongKind = 9,
    // `crit` breaks its rules, or `fmt` stands there and isn't listed.
    Critical = 10,
    // `alg` is another algorithm.
    WrongAlg = 11,
    // `kid` is missing, or no key has this id.
    NoKey = 12,
    // The key doesn't allow HS256.
    AlgNotAllowed = 13,
    // The key doesn't allow the format, or there is no such format.
    FormatNotAllowed = 14,
    // The signature is another one.
    SignatureDiffers = 15,
    // The header has no member k.
    NoSuchMember = 16,
}
