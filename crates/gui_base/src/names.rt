//! Tables of names, each name with what it means.
ghost use Rattle.std.specs.Prelude.{◌≡◌};
ghost use Rattle.gui_base.specs.Names.{named, slice};

/// What a word means according to a table, if it is one of the names there.
#[tactic(auto, unfolding(crate::specs::Names::named))]
pub fn named<T: Copy>(names: &[(&'static str, T)], word: &[u8]) -> Option<T>
    ensures { result ≡ named (slice {A = T} names.now) word.now }
{
    let mut rest = names;
    while let [(name, meaning), others @ ..] = rest {
        if word == name.as_bytes() {
            return Some(*meaning);
        }
        rest = others;
    }
    None
}
