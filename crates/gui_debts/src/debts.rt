//! What objects owe.
ghost use Rattle.std.specs.Prelude.{◌≡◌, option_map};
ghost use Rattle.std.specs.Option.{option_copied};
ghost use Rattle.debt_defs.specs.Debt.{is_named};
ghost use Rattle.gui_base.specs.Corners.{rect_of};
ghost use Rattle.gui_damage.specs.Gridded.{added_all_in};
ghost use Rattle.gui_widgets.specs.Looks.{items_of};
ghost use Rattle.gui_concerns.specs.Handles.{number_of};
ghost use Rattle.debt_defs.specs.Debt.{listed};
ghost use Rattle.debt_defs.specs.Same.{same_by, same_item};
ghost use Rattle.gui_debts.specs.Owed.{sight_of, is_touched, owed};

use crate::same::{same_items, same_visible};
use crate::seen::{Seen, items_known};
use arrayvec::ArrayVec;
use gui_base::{Area, Grid, Handle};
use gui_damage::Damage;
use gui_widgets::Item;

/// Where an object is seen, if it is known and something is seen of it.
fn visible_of(seen: Option<&Seen>) -> Option<Area>
    ensures { option_map rect_of result ≡ (sight_of (option_copied seen.entry)).visible }
{
    match seen {
        Some(seen) => seen.visible,
        None => None,
    }
}

/// What an object paints that is known.
fn items_of(seen: Option<&Seen>) -> ArrayVec<Item, 6>
    ensures { items_of result.items ≡ (sight_of (option_copied seen.entry)).items }
{
    match seen {
        Some(seen) => items_known(seen.paints.as_ref()),
        None => ArrayVec::new(),
    }
}

/// Whether an object paints the same by itself.
fn paints_same(old: Option<&Seen>, new: Option<&Seen>) -> bool
    ensures { result ≡ same_by same_item (sight_of (option_copied old.entry)).items
        (sight_of (option_copied new.entry)).items }
{
    let was = items_of(old);
    let is = items_of(new);
    same_items(was.as_slice(), is.as_slice())
}

/// The bars of an object that is known.
fn bars_of(seen: Option<&Seen>) -> ArrayVec<Item, 2>
    ensures { items_of result.items ≡ (sight_of (option_copied seen.entry)).bars }
{
    match seen {
        Some(seen) => seen.bars().items(),
        None => ArrayVec::new(),
    }
}

/// Whether an object shows the same bars.
fn shows_same_bars(old: Option<&Seen>, new: Option<&Seen>) -> bool
    ensures { result ≡ same_by same_item (sight_of (option_copied old.entry)).bars
        (sight_of (option_copied new.entry)).bars }
{
    let was = bars_of(old);
    let is = bars_of(new);
    same_items(was.as_slice(), is.as_slice())
}

/// Whether a change touches an object.
fn is_touched(named: bool, old: Option<&Seen>, new: Option<&Seen>) -> bool
    ensures { result
        ≡ is_touched named (sight_of (option_copied old.entry)) (sight_of (option_copied new.entry)) }
{
    named
        || (!same_visible(visible_of(old), visible_of(new))
            || (!paints_same(old, new) || !shows_same_bars(old, new)))
}

/// Lists an area, if there is one.
fn list(damage: &mut Damage<Grid>, area: Option<Area>)
    ensures { damage.new ≡ added_all_in damage.old (listed (option_map rect_of area)) }
{
    if let Some(area) = area {
        damage.add(area);
    }
}

/// Lists what an object owes.
pub fn owe(damage: &mut Damage<Grid>, named: bool, old: Option<&Seen>, new: Option<&Seen>)
    ensures { damage.new ≡ added_all_in damage.old
        (owed named (sight_of (option_copied old.entry)) (sight_of (option_copied new.entry))) }
{
    if !is_touched(named, old, new) {
        return;
    }
    let was = visible_of(old);
    let is = visible_of(new);
    list(damage, was);
    if !same_visible(was, is) {
        list(damage, is);
    }
}

/// Whether it is the object that a change names.
pub fn is_named(named: Option<Handle>, h: Handle) -> bool
    ensures { result ≡ is_named (option_map number_of named) h.0 }
{
    match named {
        Some(n) => n == h,
        None => false,
    }
}
