// Bytes of one class.
ghost use Rattle.std.specs.Prelude.{◌≡◌, ◌<◌, ℕ, Bool};
ghost use Rattle.json_tokens.specs.Tokens.{skip_to};

// The place of the first byte from `from` on that isn't of the class, or the length; `from` where it is past the end.
pub(crate) fn skip<F: Fn(u8) -> bool>(s: &[u8], from: usize, class: F) -> usize
    requires { F.IsAlwaysCallable class }
    ensures { (p : ℕ → Bool) → ((b : ℕ) (r : Bool) → b < 256 → F.post class b r → r ≡ p b) → result ≡ skip_to p s.now from }
{
    let mut at = from;
    while at < s.len() && class(s[at]) {
        at += 1;
    }
    at
}
