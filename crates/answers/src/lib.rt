// The answers of every call, numbered as in docs/SPECIFICATION.md; include/jws.h has a constant for each.
#![tactic(auto)]

mod refusal; // refusal.rt: why a call is refused

ghost use Rattle.std.specs.Prelude.{◌≡◌, [], ◌∷◌};
ghost use Rattle.answers.specs.Numbers.{number, answer};

pub use refusal::Refusal;

// Done.
pub const DONE: u8 = 0;

// A refusal by its number. Rules out two refusals of one number.
impl From<Refusal> for u8 {
    ghost from_gives = { λ r n. n ≡ number r };

    fn from(refusal: Refusal) -> u8 {
        refusal as u8
    }
}

// The number of an answer. Rules out 0 for a refusal, and another number than 0 for what is done.
pub fn number<T: Copy>(outcome: Result<T, Refusal>) -> u8
    ensures { result ≡ answer outcome }
{
    match outcome {
        Ok(_) => DONE,
        Err(refusal) => refusal.into(),
    }
}

// All of them, by their numbers. Rules out two names exchanged, and one number for two answers.
pub fn all() -> [u8; 17]
    ensures { result ≡ 0 ∷ 1 ∷ 2 ∷ 3 ∷ 4 ∷ 5 ∷ 6 ∷ 7 ∷ 8 ∷ 9 ∷ 10 ∷ 11 ∷ 12 ∷ 13 ∷ 14 ∷ 15 ∷ 16 ∷ [] }
{
    [
        DONE,
        Refusal::TokenTooLong.into(),
        Refusal::BadTable.into(),
        Refusal::NotTwoPeriods.into(),
        Refusal::NotBase64url.into(),
        Refusal::HeaderTooLong.into(),
        Refusal::BufferTooShort.into(),
        Refusal::NotDerived.into(),
        Refusal::NameTwice.into(),
        Refusal::WrongKind.into(),
        Refusal::Critical.into(),
        Refusal::WrongAlg.into(),
        Refusal::NoKey.into(),
        Refusal::AlgNotAllowed.into(),
        Refusal::FormatNotAllowed.into(),
        Refusal::SignatureDiffers.into(),
        Refusal::NoSuchMember.into(),
    ]
}
