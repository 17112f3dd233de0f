// The words true, false and null (RFC 8259 section 3).
ghost use Rattle.std.specs.Prelude.{◌≡◌};
ghost use Rattle.json_tokens.specs.Tokens.{word_end};

// The place after the bytes of `word`, which must stand at `from`.
// Rules out a word that is cut short, and one with another letter in it.
pub fn word_end(s: &[u8], from: usize, word: &[u8]) -> Option<usize>
    ensures { result ≡ word_end word.now s.now from }
{
    for i in 0..word.len() {
        let at = from + i;
        if at >= s.len() {
            return None; // cut short
        }
        if s[at] != word[i] {
            return None;
        }
    }
    Some(from + word.len())
}
