// A slice of bytes, cut at a byte.
ghost use Rattle.std.specs.Prelude.{◌≡◌, [], ◌∷◌, ◌+◌, length, MatchOption};
ghost use Rattle.text.specs.bytes.Bytes.{split_on};

// What stands before the first `b` and what follows it, where there is one.
pub fn split_once(s: &[u8], b: u8) -> Option<(&[u8], &[u8])>
    ensures { MatchOption result (split_on b s.now ≡ s.now ∷ []) (λ p. (split_on b s.now ≡ p.0.now ∷ split_on b p.1.now) × (length s.now ≡ length p.0.now + length p.1.now + 1)) }
{
    let at = s.iter().position(|x| *x == b)?;
    Some((&s[..at], &s[at + 1..]))
}
