//! Walking a text character by character.
ghost use Rattle.std.specs.Prelude.{◌≡◌, ◌+◌, [], ◌∷◌, length, MatchOption};
ghost use Rattle.std.specs.Char.{len_utf8};
ghost use Rattle.std.specs.Str.{chars};

/// The first character of a text, and the text after it.
pub fn first_char(text: &str) -> Option<(char, &str)>
    ensures chars { MatchOption result (chars text.now ≡ [])
        (λ first. chars text.now ≡ first.0 ∷ chars first.1.now) }
    ensures bytes { MatchOption result (length text.now ≡ 0)
        (λ first. length text.now ≡ len_utf8 first.0 + length first.1.now) }
{
    let mut chars = text.chars();
    let c = chars.next()?;
    Some((c, chars.as_str()))
}
