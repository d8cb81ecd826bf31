//! Natural widths.
ghost use Rattle.std.specs.Prelude.{◌≡◌, ◌≤◌, ℕ, true, List};
ghost use Rattle.gui_base.specs.Forest.{has, size, tree_at};
ghost use Rattle.layout_defs.specs.Boxes.{course_of};
ghost use Rattle.layout_defs.specs.Solving.{Wide, natural_width};
ghost use Rattle.layout_defs.specs.Tables.{KeepsOthers};
ghost use Rattle.gui_boxes.specs.Kids.{told_trees};
ghost use Rattle.gui_boxes.specs.Views.{box_of};
ghost use Rattle.gui_boxes.specs.Totals.{total_of, run_across, across_kid, sum_of};
ghost use Rattle.gui_boxes.specs.Settled.{EachKids, NaturalWidthFits};
ghost use Rattle.gui_boxes.specs.Layouts.{ButNaturalWidths};
ghost use Rattle.gui_boxes.specs.Tables.{told, listing_of, AreListed};
ghost use Rattle.gui_boxes.specs.Touched.{is_touched, IfTouched, IsClosed, KeepsCalm};

use crate::boxes::course_of;
use crate::entry::Entry;
use crate::layout_box::LayoutBox;
use crate::measuring::{natural_size, no_kids, run_across, with_gaps, with_kid};
use crate::tables::{entry_of, is_touched, set_natural_width};
use crate::total::Total;
use gui_base::Handle;
use gui_pool::Table;
use gui_tree::Tree;

/// The natural width of an object whose children are together so wide.
fn natural_width(own: &LayoutBox, total: Total) -> u16
    ensures value { (h : ℕ) (kids : List Wide)
        → total_of total ≡ sum_of across_kid (run_across (course_of own.now.flow)) kids
        → result ≡ natural_width (box_of h own.now) kids }
    ensures small { result ≤ 8191 }
{
    let kids = with_gaps(total, run_across(course_of(own.flow)), own.across.gap);
    natural_size(&own.across, own.own_width.max(kids))
}

/// Finds the natural widths of the touched objects in the tree of an object, children first.
pub fn find_natural_widths(tree: &Tree, entries: &mut Table<Entry>, h: Handle)
    requires listed { AreListed (listing_of entries.old) (tree_at tree.now.forest h.0) }
    requires few { size tree.now.forest ≤ 4000 }
    requires there { has tree.now.forest h.0 ≡ true }
    requires closed { IsClosed (is_touched (told entries.old)) (tree_at tree.now.forest h.0) }
    ensures found { EachKids (IfTouched (is_touched (told entries.old)) NaturalWidthFits)
        (told_trees (told entries.new) (tree_at tree.now.forest h.0)) }
    ensures calm { KeepsCalm 0 (is_touched (told entries.old)) (told entries.old).natural_widths
        (told entries.new).natural_widths }
    ensures others { KeepsOthers 0 (told entries.old).natural_widths (told entries.new).natural_widths
        (tree_at tree.now.forest h.0) }
    ensures rest { ButNaturalWidths (told entries.old) (told entries.new) }
    ensures listed { listing_of entries.new ≡ listing_of entries.old }
{
    if !is_touched(entries, h) {
        return;
    }
    let run = run_across(course_of(entry_of(entries, h).wanted.flow));
    let mut total = no_kids();
    for child in tree.children(h) {
        find_natural_widths(tree, entries, child);
        let kid = entry_of(entries, child);
        total = with_kid(
            total,
            run,
            &kid.wanted,
            &kid.wanted.across,
            kid.natural_width.pixels,
        );
    }
    let own = entry_of(entries, h);
    let natural = natural_width(&own.wanted, total);
    set_natural_width(entries, h, natural);
}
