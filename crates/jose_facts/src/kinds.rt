// Two kinds compared.
ghost use Rattle.std.specs.Prelude.{◌≡◌, true, false};

use json_grammar_rules::Kind;

// Whether two kinds differ. Both are given by value: one that is compared where it is written is lent, and would be data of the archive.
pub(crate) fn differ(a: Kind, b: Kind) -> bool
    ensures apart { result ≡ true → a ≡ b → ⊥ }
    ensures alike { result ≡ false → a ≡ b }
{
    a != b
}
