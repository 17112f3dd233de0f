// What is asked of what a header says of a member, whatever it says.
ghost use Rattle.std.specs.Prelude.{◌≡◌};
ghost use Rattle.jose_rules.specs.Facts.{said_or, is_missing, is_wrong, is_there};

use jose_rules::Said;

// What the one says, or the other where the one is absent. Rules out the other's for the one's, and the other's lost.
pub fn said_or<T: Copy>(one: Said<T>, other: Said<T>) -> Said<T>
    ensures { result ≡ said_or one other }
{
    match one {
        Said::Absent => other,
        Said::Wrong | Said::Is(_) => one,
    }
}

// Whether it says nothing. Rules out that a wrong kind says something, and that an absent member does.
pub fn is_missing<T: Copy>(said: Said<T>) -> bool
    ensures { result ≡ is_missing said }
{
    !matches!(said, Said::Is(_))
}

// Whether the member is of the wrong kind. Rules out that an absent one is, and that one of the right kind is.
pub fn is_wrong<T: Copy>(said: Said<T>) -> bool
    ensures { result ≡ is_wrong said }
{
    matches!(said, Said::Wrong)
}

// Whether there is such a member. Rules out that one of the wrong kind isn't there, and that an absent one is.
pub fn is_there<T: Copy>(said: Said<T>) -> bool
    ensures { result ≡ is_there said }
{
    !matches!(said, Said::Absent)
}
