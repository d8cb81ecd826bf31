//! What a list has after a slice was added again.
ghost use Rattle.std.specs.Prelude.{◌≡◌, true};
ghost use Rattle.gui_base.specs.Area.{is_within};
ghost use Rattle.gui_base.specs.Corners.{rect_of};
ghost use Rattle.gui_base.specs.Gridded.{rules_of};
ghost use Rattle.gui_base.specs.Rounding.{IsRound};
ghost use Rattle.gui_damage.specs.Adding.{added};
ghost use Rattle.gui_damage.specs.Gridded.{listed_in};
ghost use Rattle.gui_damage.specs.Pending.{IsPending};

use gui_base::{Area, Grid};
use gui_damage::Damage;

/// Lists an area of the panel that consists of whole blocks, which is its own rounding.
pub(crate) fn add(damage: &mut Damage<Grid>, area: Area)
    requires inside { is_within (rules_of damage.old.round).panel (rect_of area) ≡ true }
    requires blocks { IsRound (rules_of damage.old.round) (rect_of area) }
    ensures round { damage.new.round ≡ damage.old.round }
    ensures list { listed_in damage.new ≡ added (listed_in damage.old) (rect_of area) }
    ensures sound { IsPending (listed_in damage.old) }
{
    damage.add(area);
}
