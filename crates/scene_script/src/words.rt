//! The words of a line.
ghost use Rattle.std.specs.Prelude.{◌≡◌, ◌≢◌, ◌==◌, [], ◌∷◌, Some, IfNone, IfSome, is_some, position};
ghost use Rattle.std.specs.Prelude.{slice_get};
ghost use Rattle.std.specs.List.{slice_split, before_first, after_first, list_any};
ghost use Rattle.std.specs.Option.{option_map_or};
ghost use Rattle.run_defs.specs.Language.{words_of, trimmed, is_space, is_comment};

/// The first word of these bytes, and what follows it. A word ends before a space, and one that begins with a
/// quote before the spaces at the end of the bytes.
#[tactic(auto, using(crate::proofs::WordLemmas::quoted_word))]
pub(crate) fn next_word(bytes: &[u8]) -> Option<(&[u8], &[u8])>
    ensures none { IfNone result (words_of bytes.now ≡ []) }
    ensures word { IfSome result (λ t. words_of bytes.now ≡ t.0.now ∷ words_of t.1.now) }
{
    let from = from_first_word(bytes);
    match from {
        [] => None,
        [b'"', ..] => Some((trimmed(from), b"")),
        _ => Some(at_space(from)),
    }
}

/// What stands before the first space, and what follows it.
#[tactic(auto, using(crate::proofs::WordLemmas::nothing_after))]
fn at_space(bytes: &[u8]) -> (&[u8], &[u8])
    ensures before { result.0.now ≡ before_first is_space bytes.now }
    ensures behind { result.1.now ≡ after_first is_space bytes.now }
{
    match cut(bytes, b' ') {
        (word, None) => (word, b""),
        (word, Some(rest)) => (word, rest),
    }
}

/// The bytes without the spaces at their end.
#[tactic(auto, using(crate::proofs::WordLemmas::trims))]
fn trimmed(bytes: &[u8]) -> &[u8]
    ensures { result.now ≡ trimmed bytes.now }
{
    let mut rest = bytes;
    while let [others @ .., b' '] = rest {
        rest = others;
    }
    rest
}

/// What stands before the first such byte, and what stands behind it, if there is one.
#[tactic(auto, using(crate::proofs::WordLemmas::cuts))]
pub(crate) fn cut(bytes: &[u8], at: u8) -> (&[u8], Option<&[u8]>)
    ensures before { result.0.now ≡ before_first (λ b. b == at) bytes.now }
    ensures behind { IfSome result.1 (λ rest. rest.now ≡ after_first (λ b. b == at) bytes.now) }
    ensures found { is_some result.1 ≡ list_any (λ b. b == at) bytes.now }
    ensures pieces { slice_split (λ b. b == at) bytes.now
        ≡ result.0.now ∷ option_map_or (λ rest. slice_split (λ b. b == at) rest.now) result.1 [] }
{
    match position(bytes, at) {
        None => (bytes, None),
        Some(end) => (&bytes[..end], Some(&bytes[end + 1..])),
    }
}

/// Where the first such byte stands.
fn position(bytes: &[u8], at: u8) -> Option<usize>
    ensures { result ≡ position (λ b. b == at) bytes.now }
{
    bytes.iter().position(|b| *b == at)
}

/// The bytes from the first that is no space.
pub(crate) fn from_first_word(bytes: &[u8]) -> &[u8]
    ensures words { words_of result.now ≡ words_of bytes.now }
    ensures comment { is_comment result.now ≡ is_comment bytes.now }
    ensures first { slice_get result.now 0 ≢ Some 32 }
{
    let mut rest = bytes;
    while let [b' ', others @ ..] = rest {
        rest = others;
    }
    rest
}
