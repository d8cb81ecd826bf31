//! Natural heights.
ghost use Rattle.std.specs.Prelude.{◌≡◌, ◌≤◌, ◌<◌, ◌+◌, true, length, map};
ghost use Rattle.std.specs.Prelude.{slice_index};
ghost use Rattle.gui_base.specs.Forest.{has, size, tree_at};
ghost use Rattle.layout_defs.specs.declared.Course.TheVariants.{Across};
ghost use Rattle.layout_defs.specs.Flex.{spanned, thickness, tracks};
ghost use Rattle.layout_defs.specs.Boxes.{course_of, inner, is_reversed, wraps};
ghost use Rattle.layout_defs.specs.Solving.{tall_box, taking_part, in_order, kids_height};
ghost use Rattle.layout_defs.specs.Solving.{natural_height};
ghost use Rattle.layout_defs.specs.Tables.{KeepsOthers};
ghost use Rattle.gui_flex.specs.Items.{items_of};
ghost use Rattle.gui_boxes.specs.Kids.{tall_kids, told_trees};
ghost use Rattle.gui_boxes.specs.Views.{axis_of, box_of, box_at};
ghost use Rattle.gui_boxes.specs.Totals.{total_of, run_down, down_kid, sum_of};
ghost use Rattle.gui_boxes.specs.Settled.{EachKids, NaturalHeightFits};
ghost use Rattle.gui_boxes.specs.Layouts.{ButNaturalHeights};
ghost use Rattle.gui_boxes.specs.Tables.{told, listing_of, AreListed, IsEntry};
ghost use Rattle.gui_boxes.specs.Touched.{is_touched, IfTouched, IsClosed, KeepsCalm};

use crate::along::inner;
use crate::boxes::{course_of, is_reversed, wraps};
use crate::entry::Entry;
use crate::items::{fill_items, turn};
use crate::measuring::{natural_size, no_kids, run_down, with_gaps, with_kid};
use crate::sizing::Sizing;
use crate::tables::{entry_of, is_touched, set_natural_height};
use crate::total::Total;
use gui_base::Handle;
use gui_base::words::Flow;
use gui_flex::{FlexItem, measure};
use gui_pool::Table;
use gui_tree::Tree;
use layout_defs::Course;

/// How high the tracks of items are together, with the gaps between them.
fn tracks_height(items: &mut [FlexItem], flow: Flow, room: u16, gap: u16, track_gap: u16) -> u32
    requires few { length items.old ≤ 4000 }
    requires gap { gap ≤ 1000 }
    requires track_gap { track_gap ≤ 1000 }
    ensures value { result ≡ spanned track_gap (map thickness
        (tracks (wraps flow) room gap (in_order (is_reversed flow) (items_of items.old)))) }
    ensures small { result ≤ 500000000 }
{
    turn(items, is_reversed(flow));
    let (count, sizes) = measure(items, wraps(flow), u32::from(room), u32::from(gap));
    sizes + u32::from(track_gap) * count.saturating_sub(1)
}

/// How high the children of an object are together that stand in a row. It is not inlined, so that other
/// objects pay nothing for it.
#[inline(never)]
fn row_height(
    tree: &Tree,
    entries: &Table<Entry>,
    items: &mut [FlexItem],
    h: Handle,
    own: &Entry,
) -> u32
    requires few { size tree.now.forest ≤ 4000 }
    requires enough { size tree.now.forest ≤ length items.old }
    requires listed { AreListed (listing_of entries.now) (tree_at tree.now.forest h.0) }
    ensures value { result ≡ kids_height Across (box_of h.0 own.now.wanted)
        (inner (axis_of own.now.wanted.across) own.now.width.pixels)
        (taking_part tall_box (tall_kids (told entries.now) tree.now.forest h.0)) }
    ensures small { result ≤ 500000000 }
{
    let count = fill_items(tree, entries, items, h, Sizing::Naturals);
    let room = inner(&own.wanted.across, own.width.pixels);
    tracks_height(
        &mut items[..count],
        own.wanted.flow,
        room,
        own.wanted.across.gap,
        own.wanted.down.gap,
    )
}

/// How high the children of an object are together, which are together so high where they stand in no row.
fn kids_height(
    tree: &Tree,
    entries: &Table<Entry>,
    items: &mut [FlexItem],
    h: Handle,
    own: &Entry,
    total: Total,
) -> u32
    requires few { size tree.now.forest ≤ 4000 }
    requires enough { size tree.now.forest ≤ length items.old }
    requires total { total_of total ≡ sum_of down_kid (run_down (course_of own.now.wanted.flow))
        (tall_kids (told entries.now) tree.now.forest h.0) }
    requires listed { AreListed (listing_of entries.now) (tree_at tree.now.forest h.0) }
    ensures value { result ≡ kids_height (course_of own.now.wanted.flow) (box_of h.0 own.now.wanted)
        (inner (axis_of own.now.wanted.across) own.now.width.pixels)
        (taking_part tall_box (tall_kids (told entries.now) tree.now.forest h.0)) }
    ensures small { result ≤ 500000000 }
{
    if total.count == 0 {
        return 0;
    }
    let course = course_of(own.wanted.flow);
    match course {
        Course::Across => row_height(tree, entries, items, h, own),
        _ => with_gaps(total, run_down(course), own.wanted.down.gap),
    }
}

/// The natural height of an object with this entry whose children are together so high where they stand in no
/// row.
fn natural_height(
    tree: &Tree,
    entries: &Table<Entry>,
    items: &mut [FlexItem],
    h: Handle,
    own: &Entry,
    total: Total,
) -> u16
    requires few { size tree.now.forest ≤ 4000 }
    requires enough { size tree.now.forest ≤ length items.old }
    requires own { IsEntry (told entries.now) h.0 own.now }
    requires total { total_of total ≡ sum_of down_kid (run_down (course_of own.now.wanted.flow))
        (tall_kids (told entries.now) tree.now.forest h.0) }
    requires listed { AreListed (listing_of entries.now) (tree_at tree.now.forest h.0) }
    ensures value { result ≡ natural_height (box_at (told entries.now).boxes h.0)
        (slice_index (told entries.now).widths h.0) (tall_kids (told entries.now) tree.now.forest h.0) }
    ensures small { result ≤ 8191 }
{
    let kids = kids_height(tree, entries, items, h, own, total);
    natural_size(&own.wanted.down, own.wanted.own_height.max(kids))
}

/// Finds the natural heights of the touched objects in the tree of an object, children first.
pub fn find_natural_heights(
    tree: &Tree,
    entries: &mut Table<Entry>,
    items: &mut [FlexItem],
    h: Handle,
)
    requires listed { AreListed (listing_of entries.old) (tree_at tree.now.forest h.0) }
    requires few { size tree.now.forest ≤ 4000 }
    requires there { has tree.now.forest h.0 ≡ true }
    requires enough { size tree.now.forest ≤ length items.old }
    requires closed { IsClosed (is_touched (told entries.old)) (tree_at tree.now.forest h.0) }
    ensures found { EachKids (IfTouched (is_touched (told entries.old)) NaturalHeightFits)
        (told_trees (told entries.new) (tree_at tree.now.forest h.0)) }
    ensures calm { KeepsCalm 0 (is_touched (told entries.old)) (told entries.old).natural_heights
        (told entries.new).natural_heights }
    ensures others { KeepsOthers 0 (told entries.old).natural_heights (told entries.new).natural_heights
        (tree_at tree.now.forest h.0) }
    ensures rest { ButNaturalHeights (told entries.old) (told entries.new) }
    ensures listed { listing_of entries.new ≡ listing_of entries.old }
{
    if !is_touched(entries, h) {
        return;
    }
    let run = run_down(course_of(entry_of(entries, h).wanted.flow));
    let mut total = no_kids();
    for child in tree.children(h) {
        find_natural_heights(tree, entries, items, child);
        let kid = entry_of(entries, child);
        total = with_kid(
            total,
            run,
            &kid.wanted,
            &kid.wanted.down,
            kid.natural_height.pixels,
        );
    }
    let own = entry_of(entries, h);
    let natural = natural_height(tree, entries, items, h, own, total);
    set_natural_height(entries, h, natural);
}
