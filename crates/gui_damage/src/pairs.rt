//! Pairs of areas that are to be joined.
ghost use Rattle.std.specs.Prelude.{◌≡◌, ◌<◌, length, true, false, MatchOption, AllPairs};
ghost use Rattle.std.specs.List.{list_all};
ghost use Rattle.gui_base.specs.Area.{is_within};
ghost use Rattle.gui_base.specs.Corners.{rect_of};
ghost use Rattle.gui_damage.specs.Damage.{rects_of};
ghost use Rattle.gui_damage.specs.Joining.{can_join, IsPair, HasNoPartner};

use gui_base::{Area, Round};

/// The places of two listed areas that are to be joined, the earlier one first.
pub(crate) fn pair_to_join<R: Round>(round: &R, areas: &[Area]) -> Option<(usize, usize)>
    requires { list_all (is_within (R.rules round.now).panel) (rects_of areas.now) ≡ true }
    ensures { MatchOption result
        (AllPairs (λ a b. can_join (R.rules round.now).round a b ≡ false) (rects_of areas.now))
        (λ pair. IsPair (R.rules round.now).round (rects_of areas.now) pair.0 pair.1) }
{
    for i in 0..areas.len() {
        if let Some(j) = partner_of(round, areas, i) {
            return Some((i, j));
        }
    }
    None
}

/// The place of a later area with which this one is to be joined.
fn partner_of<R: Round>(round: &R, areas: &[Area], i: usize) -> Option<usize>
    requires index { i < length areas.now }
    requires each { list_all (is_within (R.rules round.now).panel) (rects_of areas.now) ≡ true }
    ensures { MatchOption result
        (HasNoPartner (R.rules round.now).round (rects_of areas.now) i)
        (λ j. IsPair (R.rules round.now).round (rects_of areas.now) i j) }
{
    for j in i + 1..areas.len() {
        if can_join(round, areas[i], areas[j]) {
            return Some(j);
        }
    }
    None
}

/// Whether two areas have a pixel in common, and the rounding of their join has fewer pixels than both
/// together.
fn can_join<R: Round>(round: &R, a: Area, b: Area) -> bool
    requires first { is_within (R.rules round.now).panel (rect_of a) ≡ true }
    requires second { is_within (R.rules round.now).panel (rect_of b) ≡ true }
    ensures { result ≡ can_join (R.rules round.now).round (rect_of a) (rect_of b) }
{
    !a.meet(b).is_empty() && round.round(a.join(b)).size() < a.size() + b.size()
}
