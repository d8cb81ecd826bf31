//! Entries by handle.
ghost use Rattle.std.specs.Prelude.{◌≡◌, ◌≤◌, Some, true, false, is_some, slice_set};
ghost use Rattle.gui_pool.specs.Table.{value_at};
ghost use Rattle.gui_boxes.specs.Slots.{slot_of};
ghost use Rattle.gui_boxes.specs.Scrolls.{scrolled_of};
ghost use Rattle.gui_boxes.specs.Standing.{standing_of};
ghost use Rattle.gui_boxes.specs.Tables.{told, standing_in, IsEntry, IsListed, listing_of};
ghost use Rattle.gui_boxes.specs.Touched.{is_touched, standing_at, Touches};
ghost use Rattle.gui_boxes.specs.Layouts.{ButTouchedSlots, ButTouchedWidths};
ghost use Rattle.layout_defs.specs.Solving.{nowhere};
ghost use Rattle.gui_base.specs.Forest.{leaf};

use crate::entry::Entry;
use crate::layout_box::LayoutBox;
use crate::position::{CORNER, Position};
use crate::reach::{NOT_SCROLLED, Scrolled};
use crate::size::Size;
use crate::standing::{NOT_STANDING, Standing};
use gui_base::Handle;
use gui_pool::Table;

/// The entry of an object that has one.
#[inline]
pub fn entry_of(entries: &Table<Entry>, h: Handle) -> &Entry
    requires { IsListed (listing_of entries.now) h.0 }
    ensures entry { Some result.now ≡ value_at entries.now h.0 }
    ensures told { IsEntry (told entries.now) h.0 result.now }
{
    let Some(found) = entries.get(h.0 as u32) else {
        unreachable!()
    };
    found
}

/// Whether an object has an entry.
pub fn has_entry(entries: &Table<Entry>, h: Handle) -> bool
    ensures { result ≡ is_some (value_at entries.now h.0) }
{
    entries.get(h.0 as u32).is_some()
}

/// An entry with this box, of which nothing is found.
pub fn new_entry(wanted: LayoutBox) -> Entry
    ensures wanted { result.wanted ≡ wanted }
    ensures rests { result.touched ≡ false }
{
    let none = Size { pixels: 0 };
    Entry {
        wanted,
        natural_width: none,
        width: none,
        natural_height: none,
        position: CORNER,
        scrolled: NOT_SCROLLED,
        touched: false,
        reported: NOT_STANDING,
    }
}

/// Gives another box to an object that has an entry.
pub fn set_wanted(entries: &mut Table<Entry>, h: Handle, wanted: LayoutBox)
    requires { IsListed (listing_of entries.old) h.0 }
    ensures set { told entries.new ≡ record (told entries.old) {
      boxes = slice_set (told entries.old).boxes h.0 (Some wanted);
    } }
    ensures listed { listing_of entries.new ≡ listing_of entries.old }
{
    let mut changed = *entry_of(entries, h);
    changed.wanted = wanted;
    let _ = entries.replace(h.0 as u32, changed);
}

/// Whether an object that has an entry is touched.
#[inline]
pub fn is_touched(entries: &Table<Entry>, h: Handle) -> bool
    requires { IsListed (listing_of entries.now) h.0 }
    ensures { result ≡ is_touched (told entries.now) h.0 }
{
    entry_of(entries, h).touched
}

/// Touches an object that has an entry.
pub fn touch(entries: &mut Table<Entry>, h: Handle)
    requires { IsListed (listing_of entries.old) h.0 }
    ensures set { told entries.new ≡ record (told entries.old) {
      touched = slice_set (told entries.old).touched h.0 true;
    } }
    ensures listed { listing_of entries.new ≡ listing_of entries.old }
{
    let known = entry_of(entries, h);
    if known.touched {
        return;
    }
    let mut changed = *known;
    changed.touched = true;
    let _ = entries.replace(h.0 as u32, changed);
}

/// Lets go of an object that has an entry: it is touched no more, and counts as told as it stands.
pub fn let_rest(entries: &mut Table<Entry>, h: Handle)
    requires { IsListed (listing_of entries.old) h.0 }
    ensures set { told entries.new ≡ record (told entries.old) {
      touched = slice_set (told entries.old).touched h.0 false;
      reported = slice_set (told entries.old).reported h.0 (standing_at (told entries.old) h.0);
    } }
    ensures listed { listing_of entries.new ≡ listing_of entries.old }
{
    let mut changed = *entry_of(entries, h);
    changed.touched = false;
    changed.reported = Standing {
        width: changed.width,
        position: changed.position,
        scrolled: changed.scrolled,
    };
    let _ = entries.replace(h.0 as u32, changed);
}

/// Gives another natural width to an object that has an entry. Nothing is written where it is the same: most
/// sizes stay.
#[inline]
pub fn set_natural_width(entries: &mut Table<Entry>, h: Handle, pixels: u16)
    requires listed { IsListed (listing_of entries.old) h.0 }
    requires small { pixels ≤ 8191 }
    ensures set { told entries.new ≡ record (told entries.old) {
      natural_widths = slice_set (told entries.old).natural_widths h.0 pixels;
    } }
    ensures listed { listing_of entries.new ≡ listing_of entries.old }
{
    let known = entry_of(entries, h);
    if known.natural_width.pixels == pixels {
        return;
    }
    let mut changed = *known;
    changed.natural_width = Size { pixels };
    let _ = entries.replace(h.0 as u32, changed);
}

/// Gives another width to an object that has an entry. Nothing is written where it is the same.
#[inline]
pub fn set_width(entries: &mut Table<Entry>, h: Handle, pixels: u16)
    requires listed { IsListed (listing_of entries.old) h.0 }
    requires small { pixels ≤ 8191 }
    ensures set { told entries.new ≡ record (told entries.old) {
      widths = slice_set (told entries.old).widths h.0 pixels;
    } }
    ensures listed { listing_of entries.new ≡ listing_of entries.old }
{
    let known = entry_of(entries, h);
    if known.width.pixels == pixels {
        return;
    }
    let mut changed = *known;
    changed.width = Size { pixels };
    let _ = entries.replace(h.0 as u32, changed);
}

/// Gives a width to an object that has an entry, and touches it where that is another.
#[inline]
pub fn give_width(entries: &mut Table<Entry>, h: Handle, pixels: u16)
    requires listed { IsListed (listing_of entries.old) h.0 }
    requires small { pixels ≤ 8191 }
    ensures widths { (told entries.new).widths ≡ slice_set (told entries.old).widths h.0 pixels }
    ensures touches { Touches 0 (is_touched (told entries.old)) (is_touched (told entries.new))
        (told entries.old).widths (told entries.new).widths (leaf h.0) }
    ensures rest { ButTouchedWidths (told entries.old) (told entries.new) }
    ensures listed { listing_of entries.new ≡ listing_of entries.old }
{
    if entry_of(entries, h).width.pixels == pixels {
        return;
    }
    touch(entries, h);
    set_width(entries, h, pixels);
}

/// Gives another natural height to an object that has an entry. Nothing is written where it is the same.
#[inline]
pub fn set_natural_height(entries: &mut Table<Entry>, h: Handle, pixels: u16)
    requires listed { IsListed (listing_of entries.old) h.0 }
    requires small { pixels ≤ 8191 }
    ensures set { told entries.new ≡ record (told entries.old) {
      natural_heights = slice_set (told entries.old).natural_heights h.0 pixels;
    } }
    ensures listed { listing_of entries.new ≡ listing_of entries.old }
{
    let known = entry_of(entries, h);
    if known.natural_height.pixels == pixels {
        return;
    }
    let mut changed = *known;
    changed.natural_height = Size { pixels };
    let _ = entries.replace(h.0 as u32, changed);
}

/// Whether both are the same place.
fn is_same(position: &Position, other: &Position) -> bool
    ensures same { result ≡ true → slot_of position.now ≡ slot_of other.now }
    ensures other { slot_of position.now ≡ slot_of other.now → result ≡ true }
{
    position.x == other.x && position.y == other.y && position.height == other.height
}

/// Gives another place to an object that has an entry. Nothing is written where it is the same: most places
/// stay.
#[inline]
pub fn set_position(entries: &mut Table<Entry>, h: Handle, position: Position)
    requires { IsListed (listing_of entries.old) h.0 }
    ensures set { told entries.new ≡ record (told entries.old) {
      slots = slice_set (told entries.old).slots h.0 (slot_of position);
    } }
    ensures listed { listing_of entries.new ≡ listing_of entries.old }
{
    let known = entry_of(entries, h);
    if is_same(&known.position, &position) {
        return;
    }
    let mut changed = *known;
    changed.position = position;
    let _ = entries.replace(h.0 as u32, changed);
}

/// Gives a place to an object that has an entry, and touches it where that is another.
#[inline]
pub fn give_position(entries: &mut Table<Entry>, h: Handle, position: Position)
    requires { IsListed (listing_of entries.old) h.0 }
    ensures slots { (told entries.new).slots ≡ slice_set (told entries.old).slots h.0 (slot_of position) }
    ensures touches { Touches nowhere (is_touched (told entries.old)) (is_touched (told entries.new))
        (told entries.old).slots (told entries.new).slots (leaf h.0) }
    ensures rest { ButTouchedSlots (told entries.old) (told entries.new) }
    ensures listed { listing_of entries.new ≡ listing_of entries.old }
{
    if is_same(&entry_of(entries, h).position, &position) {
        return;
    }
    touch(entries, h);
    set_position(entries, h, position);
}

/// Whether both are the same.
fn is_same_scrolled(scrolled: &Scrolled, other: &Scrolled) -> bool
    ensures same { result ≡ true → scrolled_of scrolled.now ≡ scrolled_of other.now }
    ensures other { scrolled_of scrolled.now ≡ scrolled_of other.now → result ≡ true }
{
    (scrolled.reach.across == other.reach.across && scrolled.reach.down == other.reach.down)
        && (scrolled.offset.across == other.offset.across
            && scrolled.offset.down == other.offset.down)
}

/// Tells of an object that has an entry how far its children reach and are moved. Nothing is written where it
/// is the same: most have none.
#[inline]
pub fn set_scrolled(entries: &mut Table<Entry>, h: Handle, scrolled: Scrolled)
    requires { IsListed (listing_of entries.old) h.0 }
    ensures set { told entries.new ≡ record (told entries.old) {
      scrolls = slice_set (told entries.old).scrolls h.0 (scrolled_of scrolled);
    } }
    ensures listed { listing_of entries.new ≡ listing_of entries.old }
{
    let known = entry_of(entries, h);
    if is_same_scrolled(&known.scrolled, &scrolled) {
        return;
    }
    let mut changed = *known;
    changed.scrolled = scrolled;
    let _ = entries.replace(h.0 as u32, changed);
}

/// Whether an object stands, and moves its children, as it was told last.
pub(crate) fn is_told(known: &Entry) -> bool
    ensures same { result ≡ true → standing_of known.now.reported ≡ standing_in known.now }
    ensures other { standing_of known.now.reported ≡ standing_in known.now → result ≡ true }
{
    let last = &known.reported;
    last.width.pixels == known.width.pixels
        && (is_same(&last.position, &known.position)
            && is_same_scrolled(&last.scrolled, &known.scrolled))
}
