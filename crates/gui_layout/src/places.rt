//! The places of the objects of a store.
ghost use Rattle.std.specs.Prelude.{◌≡◌, ◌≤◌, ◌+ℤ◌, ◌-ℤ◌, pos, ℕ, Bool, [], ◌∷◌, true, false, None, Some, IfOk};
ghost use Rattle.std.specs.Prelude.{IfSome, MatchOption, eqb, is_some, option_map};
ghost use Rattle.std.specs.Prelude.{◌<◌, ◌+◌, ◌⊎◌, length, vec_len, vec_capacity};
ghost use Rattle.std.specs.Option.{option_to_list};
ghost use Rattle.gui_base.specs.Area.{area_at, is_empty, width_of};
ghost use Rattle.gui_base.specs.Bounded.{bounds_of};
ghost use Rattle.gui_base.specs.Corners.{rect_of};
ghost use Rattle.gui_base.specs.Forest.{StandsOnce, children_of, has, parent_of, preorder, tree_at};
ghost use Rattle.gui_base.specs.declared.intervals.TheConstants.{HANDLE};
ghost use Rattle.gui_tree.specs.Handles.{numbers};
ghost use Rattle.layout_defs.specs.Solving.{room_of};
ghost use Rattle.layout_defs.specs.Reach.{IsNear, IsPlaced as IsPlaceNumber};
ghost use Rattle.scene_defs.specs.Items.{bar_look, bars};
ghost use Rattle.gui_base.specs.declared.props.Prop.{Prop as Property};
ghost use Rattle.gui_base.specs.declared.words.Part.TheVariants.{Scrollbar};
ghost use Rattle.widget_defs.specs.Looks.{value_in};
ghost use Rattle.scene_defs.specs.Scene.{Scene, handles_of, is_there, object_at, value};
ghost use Rattle.gui_widgets.specs.Looks.{IsLook, items_of, widget_of};
ghost use Rattle.gui_store.specs.Views.{scene_of};
ghost use Rattle.gui_layout.specs.Painted.{PaintsLike, ShowsBarsIn};
ghost use Rattle.scene_defs.specs.Place.{offset, place, reach};
ghost use Rattle.gui_boxes.specs.Scrolls.{span_from};
ghost use Rattle.scene_defs.specs.Visible.{some_area, met, visible};
ghost use Rattle.gui_boxes.specs.Frames.{FrameIsNearby, IsFrameOf, Encloses};
ghost use Rattle.gui_boxes.specs.declared.frame.Frame.TheVariants.{Content};
ghost use Rattle.gui_boxes.specs.Settled.{known_at, tall_of, IsSteady};
ghost use Rattle.gui_boxes.specs.Slots.{room_in};
ghost use Rattle.gui_boxes.specs.Views.{box_at};
ghost use Rattle.gui_boxes.specs.Reaches.{IsPlaced};
ghost use Rattle.gui_layout.specs.Renewed.{AreRenewed, IsRenewed, KeepsRenewed};
ghost use Rattle.gui_layout.specs.Marked.{is_any_root, marked_trees};
ghost use Rattle.gui_layout.specs.Scrolled.{IsScrolledIn};
ghost use Rattle.gui_boxes.specs.Pending.{is_any, is_first, is_marked_in, is_partly, is_pending};
ghost use Rattle.gui_pool.specs.Table.{value_at};
ghost use Rattle.gui_boxes.specs.Telling.{Tells};
ghost use Rattle.gui_boxes.specs.Touched.{is_touched};
ghost use Rattle.gui_layout.specs.Calm.{ButTouchedBoxes, IsClosedUp, IsReady, MovesTouched, StandsOver};
ghost use Rattle.gui_layout.specs.Scenes.{HoldsBoxes, scene_box, shown_panel};
ghost use Rattle.gui_boxes.specs.Listing.{AddsValue, AreProper, HasThese, KeepsThose, SameValue, times};
ghost use Rattle.gui_boxes.specs.Tables.{AreListed, IsListed, listing_of, touched_or};

use crate::all::solve_trees;
use crate::around::{renew_all_there, renew_around};
use crate::keeping::{keeps, only};
use crate::lone::lone_child;
use crate::looks::{look_in, paint_look_in};
use crate::objects::box_in;
use crate::raising::{raise_marks, rests};
use crate::renewal::{renew_all, renew_marked};
use crate::telling::{tell_marked, tell_trees};
use crate::touching::{rest_all, touch_all, touch_marked};
use crate::tree::solve_tree;
use arrayvec::ArrayVec;
use gui_base::intervals::HANDLE;
use gui_base::{Area, Flag, Handle, Limits, NoMemory};
use gui_boxes::boxes::empty_box;
use gui_boxes::entry::Entry;
use gui_boxes::frame::Frame;
use gui_boxes::gone::{have_left, take_each, take_gone};
use gui_boxes::inside::Inside;
use gui_boxes::items::new_item;
use gui_boxes::listing::{add_any, are_same, clear, fill, list_trees, put};
use gui_boxes::mark::Mark;
use gui_boxes::marks::{Marks, clear_marks};
use gui_boxes::pending::{finish_touched, is_pending};
use gui_boxes::position::Position;
use gui_boxes::positions::inside_of;
use gui_boxes::size::Size;
use gui_boxes::steady::{is_nearby, is_steady};
use gui_boxes::tables::{entry_of, has_entry, new_entry};
use gui_flex::FlexItem;
use gui_pool::Table;
use gui_store::{SYSTEM_LAYER, Store, TOP_LAYER};
use gui_tree::Tree;
use gui_widgets::{Item, Look, bars};
use std::alloc::Global;
use std::mem;

/// Where no more are marked, the entries of those that are gone are taken out one by one, and else by one walk over all.
const FEW: usize = 8;

/// One more than the greatest handle.
const HANDLES: u32 = HANDLE.high as u32 + 1;

/// The places of the objects of a store that was opened with the same limits.
///
/// Natural sizes and places under one root depend on that root's tree alone.
pub struct Places {
    entries: Table<Entry>,
    // The objects that have entries.
    listed: Vec<Handle>,
    // Room to list those of a store. Once places are settled, those that moved.
    found: Vec<Handle>,
    // Room for the children of one object that take part in its flow.
    items: Vec<FlexItem>,
    limits: Limits,
    ghost kept: { HasThese limits.objects entries listed.items },
    ghost list_room: { limits.objects ≤ vec_capacity listed },
    ghost found_room: { limits.objects ≤ vec_capacity found },
    ghost items_room: { limits.objects ≤ vec_len items },
}

impl Drop for Places {
    /// Lets go of every field in one call, which keeps the proofs of its owners short.
    fn drop(self) {
        let Places {
            entries: _,
            listed: _,
            found: _,
            items: _,
            limits: _,
        } = self;
    }
}

/// A table with room for the entries of so many objects.
fn open_table<T>(alloc: Global, objects: u32) -> Result<Table<T>, NoMemory>
    ensures { IfOk result (λ table. HasThese objects table []) }
{
    match Table::open(alloc, HANDLES, objects) {
        Ok(table) => Ok(table),
        Err(_) => Err(NoMemory),
    }
}

/// An empty list with room for so many.
fn open_list<T>(alloc: Global, count: u32) -> Result<Vec<T>, NoMemory>
    ensures empty { IfOk result (λ list. list.items ≡ []) }
    ensures room { IfOk result (λ list. count ≤ vec_capacity list) }
{
    match Vec::with_capacity(alloc, count as usize) {
        Ok(list) => Ok(list),
        Err(_) => Err(NoMemory),
    }
}

/// Room for so many items.
fn open_items(alloc: Global, count: u32) -> Result<Vec<FlexItem>, NoMemory>
    ensures { IfOk result (λ list. count ≤ vec_len list) }
{
    match vec![in alloc; new_item(0, 0, 0); count as usize] {
        Ok(list) => Ok(list),
        Err(_) => Err(NoMemory),
    }
}

/// The area of an object that stands there and is so wide.
fn area_of(position: &Position, width: u16) -> Area
    requires { width ≤ 8191 }
    ensures value { rect_of result ≡ area_at position.now.x position.now.y width position.now.height }
    ensures near { IsNear (rect_of result) }
    ensures narrow { width_of (rect_of result) ≤ 8191 }
{
    Area {
        x1: position.x,
        y1: position.y,
        x2: last(position.x, width),
        y2: last(position.y, position.height),
    }
}

/// The last coordinate of so many from the first.
fn last(first: i32, count: u16) -> i32
    requires first { IsPlaced first }
    requires count { count ≤ 8191 }
    ensures value { result ≡ (first +ℤ pos count) -ℤ pos 1 }
    ensures fits { IsPlaceNumber result }
{
    first + i32::from(count) - 1
}

/// The pixels that both have, or None where there are none.
pub fn met(clip: Option<Area>, place: Option<Area>) -> Option<Area>
    ensures value { option_map rect_of result ≡ met (option_map rect_of clip) (option_map rect_of place) }
    ensures pixels { IfSome result (λ area. is_empty (rect_of area) ≡ false) }
{
    let area = clip?.meet(place?);
    if area.is_empty() { None } else { Some(area) }
}

/// The panel, where an object is a root that is shown.
fn shown_panel(store: &Store, root: Handle) -> Option<Area>
    ensures { option_map rect_of result ≡ shown_panel (scene_of store.now) root.0 }
{
    if root == store.active() || root == TOP_LAYER || root == SYSTEM_LAYER {
        let limits = store.limits();
        Some(Area::at(0, 0, limits.width, limits.height))
    } else {
        None
    }
}

impl Places {
    ghost use Rattle.gui_layout.specs.Solved.{limits_of, layout_of, moved_in, offset_at, place_at, reach_at};
    ghost use Rattle.gui_layout.specs.Solved.{AreReached, AreSettled, AreSolved};
    ghost use Rattle.gui_layout.specs.Naturals.{AreNatural, naturals, naturals_at};
    ghost use Rattle.gui_boxes.specs.Marks.{is_changed, is_marked, is_parent, mark_count, most_marks, solved_in};
    ghost use Rattle.gui_layout.specs.SettledBut.{AreRightBut, AreRightButChanged, AreSettledButMarks, IsReordered};
    ghost use Rattle.gui_layout.specs.SettledBut.{SettlesChanged, SettlesMarks, WereSettled, in_marked, nobody};
    ghost use Rattle.gui_layout.specs.Settles.{Settles, SolvesTree};
    ghost use Rattle.gui_boxes.specs.Around.{IsFlat, IsFlatWithout, ReadsReaches};
    ghost use Rattle.gui_layout.specs.Moved.{AreClosed, ListsMoved, Propagates, Spreads};
    ghost use Rattle.gui_layout.specs.Raised.{rests_at};
    ghost use Rattle.gui_boxes.specs.Scrolls.{scrolled_at};
    ghost use Rattle.gui_layout.specs.Tops.{MovesAt, ScrollsAt, ScrollsStay, SolvesAt, in_trees_at, is_over};

    /// No object has a place. It takes all the memory that solving will need, or answers NoMemory where there
    /// is too little.
    pub fn open(alloc: Global, limits: &Limits) -> Result<Places, NoMemory>
        ensures limits { IfOk result (λ places. limits_of places ≡ bounds_of limits.now) }
        ensures none { IfOk result (λ places. (h : ℕ) → place_at places h ≡ None) }
    {
        let objects = limits.objects;
        let entries = open_table(alloc, objects)?;
        let listed = open_list(alloc, objects)?;
        let found = open_list(alloc, objects)?;
        let items = open_items(alloc, objects)?;
        Ok(Places {
            entries,
            listed,
            found,
            items,
            limits: *limits,
        })
    }

    /// Solves all places of a store anew.
    pub fn solve_all(&mut self, store: &Store)
        requires { limits_of self.old ≡ (scene_of store.now).limits }
        ensures settled { AreSettled self.new (scene_of store.now) }
        ensures solved { AreSolved self.new (scene_of store.now) }
        ensures reached { AreReached self.new (scene_of store.now) }
        ensures naturals { (h : ℕ) → naturals_at self.new h ≡ naturals (scene_of store.now) h }
        ensures limits { limits_of self.new ≡ limits_of self.old }
    {
        self.enter(store);
        self.set_boxes(store);
        self.solve(store);
    }

    /// Settles the places of a store in which marked objects alone may differ from what they were when the
    /// places were settled: objects that have changed, come or gone, and those whose children are others. From
    /// what that follows is a law ([`crate::laws`]). Of a tree in which none is marked all places stay as they
    /// were. The marks are let go, and they tell at which objects trees were solved. [`Places::moved`] tells which
    /// objects moved.
    ///
    /// No contract says how little is solved: where the list of children alone is another, nothing is for an
    /// object whose sizes are not those of its content and whose children stand by themselves.
    pub fn settle(&mut self, store: &Store, marks: &mut Marks)
        requires limits { limits_of self.old ≡ (scene_of store.now).limits }
        requires but { AreRightBut self.old (scene_of store.now)
            (in_marked (is_marked marks.old) (scene_of store.now)) (is_changed marks.old) (is_parent marks.old) }
        ensures solved { (k : ℕ) → in_marked (is_marked marks.old) (scene_of store.now) k ≡ true →
            place_at self.new k ≡ place (scene_of store.now) k }
        ensures gone { (k : ℕ) → is_marked marks.old k ≡ true → is_there (scene_of store.now) k ≡ false →
            place_at self.new k ≡ None }
        ensures others { (k : ℕ) → is_there (scene_of store.now) k ≡ true →
            in_marked (is_marked marks.old) (scene_of store.now) k ≡ false →
            place_at self.new k ≡ place_at self.old k }
        ensures naturals { (k : ℕ) → in_marked (is_marked marks.old) (scene_of store.now) k ≡ true →
            naturals_at self.new k ≡ naturals (scene_of store.now) k }
        ensures gone_naturals { (k : ℕ) → is_marked marks.old k ≡ true →
            is_there (scene_of store.now) k ≡ false → naturals_at self.new k ≡ None }
        ensures other_naturals { (k : ℕ) → is_there (scene_of store.now) k ≡ true →
            in_marked (is_marked marks.old) (scene_of store.now) k ≡ false →
            naturals_at self.new k ≡ naturals_at self.old k }
        ensures reaches { (k : ℕ) → in_marked (is_marked marks.old) (scene_of store.now) k ≡ true →
            reach_at self.new k ≡ reach (scene_of store.now) k }
        ensures gone_reaches { (k : ℕ) → is_marked marks.old k ≡ true →
            is_there (scene_of store.now) k ≡ false → reach_at self.new k ≡ None }
        ensures other_reaches { (k : ℕ) → is_there (scene_of store.now) k ≡ true →
            in_marked (is_marked marks.old) (scene_of store.now) k ≡ false →
            reach_at self.new k ≡ reach_at self.old k }
        ensures offsets { (k : ℕ) → in_marked (is_marked marks.old) (scene_of store.now) k ≡ true →
            offset_at self.new k ≡ offset (scene_of store.now) k }
        ensures gone_offsets { (k : ℕ) → is_marked marks.old k ≡ true →
            is_there (scene_of store.now) k ≡ false → offset_at self.new k ≡ None }
        ensures other_offsets { (k : ℕ) → is_there (scene_of store.now) k ≡ true →
            in_marked (is_marked marks.old) (scene_of store.now) k ≡ false →
            offset_at self.new k ≡ offset_at self.old k }
        ensures right { (s : ℕ → Bool) →
            AreRightBut self.old (scene_of store.now) s (is_changed marks.old) (is_parent marks.old) →
            AreRightBut self.new (scene_of store.now) s nobody nobody }
        ensures settled { AreSettledButMarks self.old (scene_of store.now) (is_changed marks.old) (is_parent marks.old) →
            AreSettled self.new (scene_of store.now) }
        ensures tops { (u : ℕ) → 0 < times (solved_in marks.new) u → is_there (scene_of store.now) u ≡ true }
        ensures whole { (k : ℕ) → is_there (scene_of store.now) k ≡ true → is_changed marks.old k ≡ true →
            in_trees_at (handles_of (scene_of store.now).trees) (solved_in marks.new) k ≡ true }
        ensures stays { (k : ℕ) → is_there (scene_of store.now) k ≡ true →
            in_trees_at (handles_of (scene_of store.now).trees) (solved_in marks.new) k ≡ false →
            place_at self.new k ≡ place_at self.old k }
        ensures scrolls_stay { ScrollsStay self.old self.new (scene_of store.now)
            (is_marked marks.old) (solved_in marks.new) }
        ensures moved_once { (k : ℕ) → times (moved_in self.new) k ≤ 1 }
        ensures moved_there { (k : ℕ) → 0 < times (moved_in self.new) k → is_there (scene_of store.now) k ≡ true }
        ensures moved_whole { (k : ℕ) → is_there (scene_of store.now) k ≡ true → is_changed marks.old k ≡ true →
            0 < times (moved_in self.new) k }
        ensures moved_stays { (k : ℕ) → is_there (scene_of store.now) k ≡ true →
            times (moved_in self.new) k ≡ 0 → place_at self.new k ≡ place_at self.old k }
        ensures moved_reaches { (k : ℕ) → is_there (scene_of store.now) k ≡ true →
            times (moved_in self.new) k ≡ 0 → reach_at self.new k ≡ reach_at self.old k }
        ensures moved_offsets { (k : ℕ) → is_there (scene_of store.now) k ≡ true →
            times (moved_in self.new) k ≡ 0 → offset_at self.new k ≡ offset_at self.old k }
        ensures moved_only { (k : ℕ) → is_there (scene_of store.now) k ≡ true → is_changed marks.old k ≡ false →
            place_at self.new k ≡ place_at self.old k → reach_at self.new k ≡ reach_at self.old k →
            offset_at self.new k ≡ offset_at self.old k → times (moved_in self.new) k ≡ 0 }
        ensures empty { (k : ℕ) → is_marked marks.new k ≡ false }
        ensures count { mark_count marks.new ≡ 0 }
        ensures most { most_marks marks.new ≡ most_marks marks.old }
        ensures limits { limits_of self.new ≡ limits_of self.old }
    {
        self.settle_marks(store, marks, None);
    }

    /// Settles places that were settled for an earlier scene, from which this one differs in what is marked
    /// alone, as [`Places::settle`] does. The marks are let go, and they tell at which objects trees were
    /// solved. [`Places::moved`] tells which objects moved.
    ///
    /// No contract says what it saves: where one object is marked alone, its parent moves no children and these
    /// reach as far without it, no sibling is visited.
    pub fn settle_again(&mut self, store: &Store, marks: &mut Marks)
        requires limits { limits_of self.old ≡ (scene_of store.now).limits }
        requires were { WereSettled self.old (scene_of store.now) (is_changed marks.old) (is_parent marks.old) }
        ensures settled { AreSettled self.new (scene_of store.now) }
        ensures naturals { AreNatural self.new (scene_of store.now) }
        ensures tops { (u : ℕ) → 0 < times (solved_in marks.new) u → is_there (scene_of store.now) u ≡ true }
        ensures whole { (k : ℕ) → is_there (scene_of store.now) k ≡ true → is_changed marks.old k ≡ true →
            in_trees_at (handles_of (scene_of store.now).trees) (solved_in marks.new) k ≡ true }
        ensures stays { (k : ℕ) → is_there (scene_of store.now) k ≡ true →
            in_trees_at (handles_of (scene_of store.now).trees) (solved_in marks.new) k ≡ false →
            place_at self.new k ≡ place_at self.old k }
        ensures scrolls_stay { ScrollsStay self.old self.new (scene_of store.now)
            (is_marked marks.old) (solved_in marks.new) }
        ensures moved_once { (k : ℕ) → times (moved_in self.new) k ≤ 1 }
        ensures moved_there { (k : ℕ) → 0 < times (moved_in self.new) k → is_there (scene_of store.now) k ≡ true }
        ensures moved_whole { (k : ℕ) → is_there (scene_of store.now) k ≡ true → is_changed marks.old k ≡ true →
            0 < times (moved_in self.new) k }
        ensures moved_stays { (k : ℕ) → is_there (scene_of store.now) k ≡ true →
            times (moved_in self.new) k ≡ 0 → place_at self.new k ≡ place_at self.old k }
        ensures moved_reaches { (k : ℕ) → is_there (scene_of store.now) k ≡ true →
            times (moved_in self.new) k ≡ 0 → reach_at self.new k ≡ reach_at self.old k }
        ensures moved_offsets { (k : ℕ) → is_there (scene_of store.now) k ≡ true →
            times (moved_in self.new) k ≡ 0 → offset_at self.new k ≡ offset_at self.old k }
        ensures moved_only { (k : ℕ) → is_there (scene_of store.now) k ≡ true → is_changed marks.old k ≡ false →
            place_at self.new k ≡ place_at self.old k → reach_at self.new k ≡ reach_at self.old k →
            offset_at self.new k ≡ offset_at self.old k → times (moved_in self.new) k ≡ 0 }
        ensures empty { (k : ℕ) → is_marked marks.new k ≡ false }
        ensures count { mark_count marks.new ≡ 0 }
        ensures most { most_marks marks.new ≡ most_marks marks.old }
        ensures limits { limits_of self.new ≡ limits_of self.old }
    {
        let lone = lone_child(store.tree(), &self.entries, marks.listed.as_slice());
        self.settle_marks(store, marks, lone);
    }

    /// The one marked object where nothing is to be solved for it: it has a parent and no children, and its box and its
    /// natural sizes are what they were, but for its own height. Places that were settled for an earlier scene, from
    /// which this one differs in what is marked alone, stay so.
    pub fn keeps(&self, store: &Store, marks: &Marks) -> Option<Handle>
        ensures settled { IfSome result (λ h.
            WereSettled self.now (scene_of store.now) (is_changed marks.now) (is_parent marks.now) →
            AreSettled self.now (scene_of store.now)) }
        ensures there { IfSome result (λ h. is_there (scene_of store.now) h.0 ≡ true) }
        ensures alone { IfSome result (λ h. (k : ℕ) → is_marked marks.now k ≡ true → k ≡ h.0) }
        ensures room { IfSome result (λ h. 0 < most_marks marks.now) }
    {
        let h = only(marks.listed.as_slice())?;
        if is_pending(&marks.pending, h) && keeps(store.tree(), &self.entries, store, h) {
            Some(h)
        } else {
            None
        }
    }

    /// The objects that moved when places were settled last, each once: those that had changed, and those whose place,
    /// reach or offset became another. Once all places are solved anew it tells nothing.
    pub fn moved(&self) -> &[Handle]
        ensures { result.now ≡ moved_in self.now }
    {
        self.found.as_slice()
    }

    /// Whether places that were settled stay so where the children of an object stand in another order, and
    /// nothing else is another: it is there, its sizes are not those of its content, its children stand by
    /// themselves, and it does not move them.
    pub fn rests(&self, store: &Store, h: Handle) -> bool
        ensures when { result ≡ rests_at self.now (scene_of store.now) h.0 }
        ensures settled { (before : Scene) → result ≡ true → AreSettled self.now before →
            IsReordered before (scene_of store.now) h.0 → AreSettled self.now (scene_of store.now) }
    {
        rests(store.tree(), &self.entries, h)
    }

    /// The place of an object, or None exactly where it was not there when the places were solved. It lies
    /// within 1,000,000,000 pixels of the panel's corner.
    pub fn place(&self, h: Handle) -> Option<Area>
        ensures value { option_map rect_of result ≡ place_at self.now h.0 }
        ensures near { IfSome result (λ area. IsNear (rect_of area)) }
        ensures narrow { IfSome result (λ area. width_of (rect_of area) ≤ 8191) }
    {
        match self.entries.get(h.0 as u32) {
            Some(own) => Some(area_of(&own.position, own.width.pixels)),
            None => None,
        }
    }

    /// How far the children of an object reach out of its content area before they are moved, across and down,
    /// in pixels: 0 where none does. None exactly where the object was not there when the places were solved.
    pub fn reach(&self, h: Handle) -> Option<(u32, u32)>
        ensures { option_map span_from result ≡ reach_at self.now h.0 }
    {
        let own = self.entries.get(h.0 as u32)?;
        Some((own.scrolled.reach.across, own.scrolled.reach.down))
    }

    /// How far an object moves its children, to the left and upward, in pixels: 0 where it is not scrollable,
    /// and never further than they reach. None exactly where the object was not there when the places were
    /// solved.
    pub fn offset(&self, h: Handle) -> Option<(u32, u32)>
        ensures { option_map span_from result ≡ offset_at self.now h.0 }
    {
        let own = self.entries.get(h.0 as u32)?;
        let offset = own.scrolled.offset;
        Some((u32::from(offset.across), u32::from(offset.down)))
    }

    /// An object that is there as its items and its bars show it, with its text in `text`.
    pub fn look<'a>(
        &self,
        store: &'a Store,
        h: Handle,
        text: &'a mut ArrayVec<u8, 1000>,
    ) -> Look<'a>
        requires there { is_there (scene_of store.now) h.0 ≡ true }
        requires reached { AreReached self.now (scene_of store.now) }
        ensures look { IsLook result }
        ensures shows { Some (widget_of result)
            ≡ option_map (bar_look (scene_of store.now)) (object_at (scene_of store.now) h.0) }
        ensures scrollbar { (prop : Property) →
            value_in result.scrollbar prop ≡ value (scene_of store.now) h.0 Scrollbar prop }
    {
        let Some(row) = store.row(h) else {
            unreachable!()
        };
        let mut look = look_in(store, h, row, text);
        look.reach = self.reach(h).unwrap_or((0, 0));
        look.offset = self.offset(h).unwrap_or((0, 0));
        look
    }

    /// The bars that an object shows over its children, from back to front: none where it is not there or not
    /// scrollable, or they fit.
    pub fn bars(&self, store: &Store, h: Handle) -> ArrayVec<Item, 2>
        requires solved { AreSolved self.now (scene_of store.now) }
        requires reached { AreReached self.now (scene_of store.now) }
        ensures { items_of result.items ≡ bars (scene_of store.now) h.0 }
    {
        let Some(place) = self.scrollable_place(store, h) else {
            return ArrayVec::new();
        };
        let mut text = ArrayVec::new();
        let look = self.look(store, h, &mut text);
        bars(&look, place)
    }

    /// The place of an object that is there and scrollable. Any other shows no bars.
    fn scrollable_place(&self, store: &Store, h: Handle) -> Option<Area>
        requires { AreSolved self.now (scene_of store.now) }
        ensures { MatchOption result (bars (scene_of store.now) h.0 ≡ [])
            (λ area. ShowsBarsIn (scene_of store.now) h.0 (rect_of area)) }
    {
        let row = store.row(h)?;
        if !row.is_on(Flag::Scrollable) {
            return None;
        }
        self.place(h)
    }

    /// An object that is there with what its items go by, and its text in `text`. A value that they do not go
    /// by is not looked up: this one serves painting, and [`Places::look`] tells all.
    pub fn paint_look<'a>(
        &self,
        store: &'a Store,
        h: Handle,
        text: &'a mut ArrayVec<u8, 1000>,
    ) -> Look<'a>
        requires there { is_there (scene_of store.now) h.0 ≡ true }
        ensures look { IsLook result }
        ensures paints { PaintsLike (scene_of store.now) h.0 (widget_of result) }
    {
        let _ = &self.limits;
        let Some(row) = store.row(h) else {
            unreachable!()
        };
        paint_look_in(store, h, row, text)
    }

    /// What is seen of an object of a store for which the places were solved: its place met with those of all
    /// above it and with the panel. It has no pixel where the object is not there, where it or one above it
    /// is hidden, and where its root is not shown.
    pub fn visible(&self, store: &Store, h: Handle) -> Area
        requires { AreSolved self.now (scene_of store.now) }
        ensures { some_area (rect_of result) ≡ visible (scene_of store.now) h.0 }
    {
        match self.seen(store, h) {
            Some(area) => area,
            None => Area::default(),
        }
    }

    /// What is seen of an object, or None where nothing is.
    fn seen(&self, store: &Store, h: Handle) -> Option<Area>
        requires { AreSolved self.now (scene_of store.now) }
        ensures value { option_map rect_of result ≡ visible (scene_of store.now) h.0 }
        ensures pixels { IfSome result (λ area. is_empty (rect_of area) ≡ false) }
    {
        let tree = store.tree();
        let row = store.row(h)?;
        if row.is_on(Flag::Hidden) {
            return None;
        }
        match tree.parent(h) {
            Some(parent) => met(self.seen(store, parent), self.place(h)),
            None => met(shown_panel(store, h), self.place(h)),
        }
    }

    /// The content area of an object whose place does not go by its children, and in which these stand by
    /// themselves.
    fn steady_inside(&self, h: Handle) -> Option<Inside>
        requires { IsListed (listing_of self.now.entries) h.0 }
        ensures steady { IfSome result (λ inside. IsSteady (box_at (layout_of self.now).boxes h.0)) }
        ensures room { IfSome result (λ inside. room_in inside ≡
            room_of (tall_of (known_at (box_at (layout_of self.now).boxes) (layout_of self.now) h.0))
            (known_at (box_at (layout_of self.now).boxes) (layout_of self.now) h.0).slot) }
        ensures near { IfSome result (λ inside. FrameIsNearby (Content inside)) }
    {
        let own = entry_of(&self.entries, h);
        if is_steady(&own.wanted) && is_nearby(own.position) {
            Some(inside_of(&own.wanted, own.position, own.width.pixels))
        } else {
            None
        }
    }

    /// The nearest object, from this one upward, whose parent does not go by it, and what it stands in.
    fn frame_of(&self, tree: &Tree, h: Handle) -> (Handle, Frame)
        requires once { StandsOnce tree.now.forest }
        requires there { has tree.now.forest h.0 ≡ true }
        requires listed { (k : ℕ) → Encloses tree.now.forest k h.0 → has tree.now.forest k ≡ true →
            IsListed (listing_of self.now.entries) k }
        ensures there { has tree.now.forest result.0.0 ≡ true }
        ensures encloses { Encloses tree.now.forest result.0.0 h.0 }
        ensures near { FrameIsNearby result.1 }
        ensures frame { IsFrameOf (limits_of self.now) (known_at (box_at (layout_of self.now).boxes) (layout_of self.now))
            (parent_of tree.now.forest result.0.0) result.1 }
    {
        let Some(parent) = tree.parent(h) else {
            return (h, self.panel());
        };
        match self.steady_inside(parent) {
            Some(inside) => (h, Frame::Content(inside)),
            None => self.frame_of(tree, parent),
        }
    }

    /// Takes out the entries of the marked objects that are gone, and may take out those of others that are.
    fn leave_gone(&mut self, tree: &Tree, marked: &[Handle])
        ensures kept { (k : ℕ) → has tree.now.forest k ≡ true →
            SameValue k self.old.entries self.new.entries }
        ensures gone { (k : ℕ) → 0 < times marked.now k → has tree.now.forest k ≡ false →
            is_some (value_at self.new.entries k) ≡ false }
        ensures none { (k : ℕ) → is_some (value_at self.old.entries k) ≡ false →
            is_some (value_at self.new.entries k) ≡ false }
        ensures limits { limits_of self.new ≡ limits_of self.old }
    {
        if have_left(tree, &self.entries, marked) {
            return;
        }
        if marked.len() > FEW {
            self.leave(tree);
            return;
        }
        take_each(tree, marked, &mut self.listed, &mut self.entries);
    }

    /// Makes room for the entries of an object that is there and has none.
    fn make_room(&mut self, store: &Store, h: Handle)
        requires limits { limits_of self.old ≡ (scene_of store.now).limits }
        requires there { has (handles_of (scene_of store.now).trees) h.0 ≡ true }
        requires new { is_some (value_at self.old.entries h.0) ≡ false }
        ensures room { length self.new.listed.items < self.new.limits.objects }
        ensures new { is_some (value_at self.new.entries h.0) ≡ false }
        ensures kept { (k : ℕ) → has (handles_of (scene_of store.now).trees) k ≡ true →
            SameValue k self.old.entries self.new.entries }
        ensures none { (k : ℕ) → is_some (value_at self.old.entries k) ≡ false →
            is_some (value_at self.new.entries k) ≡ false }
        ensures limits { limits_of self.new ≡ limits_of self.old }
    {
        let tree = store.tree();
        if self.listed.as_slice().len() < self.limits.objects as usize {
            return;
        }
        self.leave(tree);
    }

    /// Gives entries to an object, if it is there and has none.
    fn enter_one(&mut self, store: &Store, h: Handle)
        requires limits { limits_of self.old ≡ (scene_of store.now).limits }
        ensures own { has (handles_of (scene_of store.now).trees) h.0 ≡ true →
            is_some (value_at self.new.entries h.0) ≡ true }
        ensures others { (k : ℕ) → has (handles_of (scene_of store.now).trees) k ≡ true →
            eqb k h.0 ≡ false → SameValue k self.old.entries self.new.entries }
        ensures kept { (k : ℕ) → has (handles_of (scene_of store.now).trees) k ≡ true →
            is_some (value_at self.old.entries k) ≡ true →
            SameValue k self.old.entries self.new.entries }
        ensures none { (k : ℕ) → has (handles_of (scene_of store.now).trees) k ≡ false →
            is_some (value_at self.old.entries k) ≡ false →
            is_some (value_at self.new.entries k) ≡ false }
        ensures calm { (k : ℕ) → has (handles_of (scene_of store.now).trees) k ≡ true →
            touched_or (value_at self.old.entries k) ≡ false → touched_or (value_at self.new.entries k) ≡ false }
        ensures limits { limits_of self.new ≡ limits_of self.old }
    {
        let tree = store.tree();
        if !tree.has(h) {
            return;
        }
        if has_entry(&self.entries, h) {
            return;
        }
        self.make_room(store, h);
        self.add_entries(store, h);
    }

    /// Gives entries to the marked objects that are there and have none.
    fn enter_marked(&mut self, store: &Store, marked: &[Handle])
        requires limits { limits_of self.old ≡ (scene_of store.now).limits }
        ensures own { (k : ℕ) → 0 < times marked.now k →
            has (handles_of (scene_of store.now).trees) k ≡ true →
            is_some (value_at self.new.entries k) ≡ true }
        ensures others { (k : ℕ) → has (handles_of (scene_of store.now).trees) k ≡ true →
            times marked.now k ≡ 0 → SameValue k self.old.entries self.new.entries }
        ensures kept { (k : ℕ) → has (handles_of (scene_of store.now).trees) k ≡ true →
            is_some (value_at self.old.entries k) ≡ true →
            SameValue k self.old.entries self.new.entries }
        ensures none { (k : ℕ) → has (handles_of (scene_of store.now).trees) k ≡ false →
            is_some (value_at self.old.entries k) ≡ false →
            is_some (value_at self.new.entries k) ≡ false }
        ensures calm { (k : ℕ) → has (handles_of (scene_of store.now).trees) k ≡ true →
            touched_or (value_at self.old.entries k) ≡ false → touched_or (value_at self.new.entries k) ≡ false }
        ensures limits { limits_of self.new ≡ limits_of self.old }
    {
        for h in marked {
            self.enter_one(store, *h);
        }
    }

    /// Makes the boxes of the listed objects anew that are there and whose marks are pending, and touches all that
    /// are there, and all above them.
    fn renew_marked(&mut self, store: &Store, marked: &[Handle], pending: &Table<Mark>)
        requires entries { (k : ℕ) → 0 < times marked.now k → is_pending pending.now k ≡ true →
            has (handles_of (scene_of store.now).trees) k ≡ true →
            is_some (value_at self.old.entries k) ≡ true }
        requires above { (h k : ℕ) → 0 < times marked.now h →
            has (handles_of (scene_of store.now).trees) h ≡ true →
            Encloses (handles_of (scene_of store.now).trees) k h →
            has (handles_of (scene_of store.now).trees) k ≡ true →
            is_some (value_at self.old.entries k) ≡ true }
        ensures own { (k : ℕ) → 0 < times marked.now k → is_pending pending.now k ≡ true →
            has (handles_of (scene_of store.now).trees) k ≡ true →
            IsRenewed (scene_of store.now) (layout_of self.new).boxes k }
        ensures kept { KeepsRenewed (scene_of store.now) (layout_of self.old).boxes (layout_of self.new).boxes }
        ensures closed { (s : ℕ → Bool) →
            IsClosedUp (handles_of (scene_of store.now).trees) s (is_touched (layout_of self.old)) →
            IsClosedUp (handles_of (scene_of store.now).trees) s (is_touched (layout_of self.new)) }
        ensures touched { (k : ℕ) → 0 < times marked.now k →
            has (handles_of (scene_of store.now).trees) k ≡ true → is_touched (layout_of self.new) k ≡ true }
        ensures over { (k : ℕ) → is_touched (layout_of self.old) k ≡ false →
            is_touched (layout_of self.new) k ≡ true →
            StandsOver (handles_of (scene_of store.now).trees) marked.now k }
        ensures listed { listing_of self.new.entries ≡ listing_of self.old.entries }
        ensures rest { ButTouchedBoxes (layout_of self.old) (layout_of self.new) }
        ensures limits { limits_of self.new ≡ limits_of self.old }
    {
        let tree = store.tree();
        renew_marked(tree, &mut self.entries, store, marked, pending);
        touch_marked(tree, &mut self.entries, marked);
    }

    /// Settles the places of a store in which marked objects alone may differ, and lets the marks go. The lone
    /// one, if there is one, is all that is marked, and its siblings reach as far as is told.
    fn settle_marks(&mut self, store: &Store, marks: &mut Marks, lone: Option<Handle>)
        requires limits { limits_of self.old ≡ (scene_of store.now).limits }
        requires but { AreRightBut self.old (scene_of store.now)
            (in_marked (is_marked marks.old) (scene_of store.now)) (is_changed marks.old) (is_parent marks.old) }
        requires alone { IfSome lone (λ h. marks.old.listed.items ≡ h ∷ []) }
        requires without { IfSome lone (λ h. (q : ℕ) → parent_of (handles_of (scene_of store.now).trees) h.0 ≡ Some q →
            IsFlatWithout (handles_of (scene_of store.now).trees) (layout_of self.old) h.0 q) }
        ensures settles { SettlesMarks self.old self.new (scene_of store.now)
            (is_marked marks.old) (is_changed marks.old) (is_parent marks.old) }
        ensures moves { MovesAt self.old self.new (scene_of store.now) (is_changed marks.old) (solved_in marks.new) }
        ensures scrolls { ScrollsStay self.old self.new (scene_of store.now)
            (is_marked marks.old) (solved_in marks.new) }
        ensures lists { ListsMoved self.old self.new (scene_of store.now) (is_changed marks.old) }
        ensures empty { (k : ℕ) → is_marked marks.new k ≡ false }
        ensures count { mark_count marks.new ≡ 0 }
        ensures most { most_marks marks.new ≡ most_marks marks.old }
        ensures limits { limits_of self.new ≡ limits_of self.old }
    {
        marks.solved.clear();
        self.settle_listed(
            store,
            marks.listed.as_slice(),
            &mut marks.pending,
            &mut marks.solved,
            lone,
        );
        clear_marks(&mut marks.pending, &mut marks.listed);
    }

    /// Settles the places of a store in which marked objects alone may differ, each of which is listed. The lone
    /// one, if there is one, is all that is listed, and its siblings reach as far as is told.
    fn settle_listed(
        &mut self,
        store: &Store,
        marked: &[Handle],
        pending: &mut Table<Mark>,
        solved: &mut Vec<Handle>,
        lone: Option<Handle>,
    )
        requires limits { limits_of self.old ≡ (scene_of store.now).limits }
        requires marked { (k : ℕ) → 0 < times marked.now k → is_any (value_at pending.old k) ≡ true }
        requires listed { (k : ℕ) → is_any (value_at pending.old k) ≡ true → 0 < times marked.now k }
        requires but { AreRightBut self.old (scene_of store.now)
            (in_marked (is_marked_in pending.old) (scene_of store.now))
            (is_pending pending.old) (is_partly pending.old) }
        requires alone { IfSome lone (λ h. marked.now ≡ h ∷ []) }
        requires without { IfSome lone (λ h. (q : ℕ) → parent_of (handles_of (scene_of store.now).trees) h.0 ≡ Some q →
            IsFlatWithout (handles_of (scene_of store.now).trees) (layout_of self.old) h.0 q) }
        requires first { (k : ℕ) → is_first pending.old k ≡ is_pending pending.old k }
        requires empty { solved.old.items ≡ [] }
        requires room { length marked.now ≤ vec_capacity solved.old }
        ensures settles { SettlesMarks self.old self.new (scene_of store.now)
            (is_marked_in pending.old) (is_pending pending.old) (is_partly pending.old) }
        ensures moves { MovesAt self.old self.new (scene_of store.now) (is_pending pending.old) solved.new.items }
        ensures scrolls { ScrollsStay self.old self.new (scene_of store.now)
            (is_marked_in pending.old) solved.new.items }
        ensures lists { ListsMoved self.old self.new (scene_of store.now) (is_pending pending.old) }
        ensures marks { listing_of pending.new ≡ listing_of pending.old }
        ensures capacity { vec_capacity solved.new ≡ vec_capacity solved.old }
        ensures limits { limits_of self.new ≡ limits_of self.old }
    {
        let tree = store.tree();
        raise_marks(tree, &self.entries, pending, marked);
        self.settle_changed(store, marked, pending, solved);
        self.renew_reaches(store, marked, solved.as_slice(), lone);
        self.tell_moved(store, marked, pending, solved.as_slice());
    }

    /// Lets go of the touched objects in the trees at these tops, of those that are listed, and of all above these. What
    /// is marked of them, or has changed since it was told last, has moved.
    fn tell_moved(
        &mut self,
        store: &Store,
        marked: &[Handle],
        pending: &Table<Mark>,
        tops: &[Handle],
    )
        requires limits { limits_of self.old ≡ (scene_of store.now).limits }
        requires there { (u : ℕ) → 0 < times tops.now u → has (handles_of (scene_of store.now).trees) u ≡ true }
        requires trees { (u : ℕ) → 0 < times tops.now u →
            AreListed (listing_of self.old.entries) (tree_at (handles_of (scene_of store.now).trees) u) }
        requires closed { AreClosed (handles_of (scene_of store.now).trees)
            (is_touched (layout_of self.old)) tops.now }
        requires above { (h k : ℕ) → 0 < times marked.now h →
            has (handles_of (scene_of store.now).trees) h ≡ true →
            Encloses (handles_of (scene_of store.now).trees) k h →
            has (handles_of (scene_of store.now).trees) k ≡ true → IsListed (listing_of self.old.entries) k }
        ensures tells { Tells (handles_of (scene_of store.now).trees) (is_first pending.now)
            (layout_of self.old) (layout_of self.new) [] (moved_in self.new) }
        ensures own { (k : ℕ) → StandsOver (handles_of (scene_of store.now).trees) marked.now k →
            is_touched (layout_of self.new) k ≡ false }
        ensures inside { (k : ℕ) → in_trees_at (handles_of (scene_of store.now).trees) tops.now k ≡ true →
            is_touched (layout_of self.new) k ≡ false }
        ensures within { (k : ℕ) → is_touched (layout_of self.old) k ≡ true →
            is_touched (layout_of self.new) k ≡ false →
            StandsOver (handles_of (scene_of store.now).trees) marked.now k
            ⊎ (in_trees_at (handles_of (scene_of store.now).trees) tops.now k ≡ true) }
        ensures listed { listing_of self.new.entries ≡ listing_of self.old.entries }
        ensures limits { limits_of self.new ≡ limits_of self.old }
    {
        let tree = store.tree();
        self.found.clear();
        tell_trees(tree, &mut self.entries, pending, &mut self.found, tops);
        tell_marked(tree, &mut self.entries, pending, &mut self.found, marked);
    }

    /// Finds anew how far the children reach of the parents of the trees that were solved, and of the marked
    /// objects: of those that are there and move none. Where the lone one alone was solved, its siblings reach
    /// as far as is told.
    fn renew_reaches(
        &mut self,
        store: &Store,
        marked: &[Handle],
        tops: &[Handle],
        lone: Option<Handle>,
    )
        requires there { (u : ℕ) → 0 < times tops.now u → has (handles_of (scene_of store.now).trees) u ≡ true }
        requires above { (u q : ℕ) → 0 < times tops.now u →
            parent_of (handles_of (scene_of store.now).trees) u ≡ Some q →
            AreListed (listing_of self.old.entries) (tree_at (handles_of (scene_of store.now).trees) q) }
        requires own { (k : ℕ) → 0 < times marked.now k → has (handles_of (scene_of store.now).trees) k ≡ true →
            AreListed (listing_of self.old.entries) (tree_at (handles_of (scene_of store.now).trees) k) }
        requires lone { (h : Handle) (q : ℕ) → lone ≡ Some h → tops.now ≡ h ∷ [] →
            parent_of (handles_of (scene_of store.now).trees) h.0 ≡ Some q →
            IsFlatWithout (handles_of (scene_of store.now).trees) (layout_of self.old) h.0 q }
        ensures above { (u q : ℕ) → 0 < times tops.now u →
            parent_of (handles_of (scene_of store.now).trees) u ≡ Some q →
            (box_at (layout_of self.old).boxes q).scrollable ≡ false →
            IsFlat (handles_of (scene_of store.now).trees) (layout_of self.new) q }
        ensures own { (k : ℕ) → 0 < times marked.now k → has (handles_of (scene_of store.now).trees) k ≡ true →
            (box_at (layout_of self.old).boxes k).scrollable ≡ false →
            IsFlat (handles_of (scene_of store.now).trees) (layout_of self.new) k }
        ensures reads { ReadsReaches (handles_of (scene_of store.now).trees)
            (layout_of self.old) (layout_of self.new) }
        ensures others { (k : ℕ) → is_over (handles_of (scene_of store.now).trees) tops.now k ≡ false →
            times marked.now k ≡ 0 →
            scrolled_at (layout_of self.new).scrolls k ≡ scrolled_at (layout_of self.old).scrolls k }
        ensures listed { listing_of self.new.entries ≡ listing_of self.old.entries }
        ensures limits { limits_of self.new ≡ limits_of self.old }
    {
        let tree = store.tree();
        let last = renew_around(tree, &mut self.entries, tops, lone);
        renew_all_there(tree, &mut self.entries, last, marked);
    }

    /// Settles the places of a store in which pending objects alone may differ, each of which is listed. What
    /// else is listed has entries, as has all above what is listed. Of the objects in whose trees one is pending
    /// none is touched yet, and it is told right how far they scroll their children, but where one of both is
    /// pending or they are listed.
    fn settle_changed(
        &mut self,
        store: &Store,
        marked: &[Handle],
        pending: &mut Table<Mark>,
        solved: &mut Vec<Handle>,
    )
        requires limits { limits_of self.old ≡ (scene_of store.now).limits }
        requires listed { (k : ℕ) → is_pending pending.old k ≡ true → 0 < times marked.now k }
        requires entries { (k : ℕ) → 0 < times marked.now k → is_pending pending.old k ≡ false →
            is_some (value_at self.old.entries k) ≡ true }
        requires above { (h k : ℕ) → 0 < times marked.now h →
            has (handles_of (scene_of store.now).trees) h ≡ true →
            Encloses (handles_of (scene_of store.now).trees) k h →
            has (handles_of (scene_of store.now).trees) k ≡ true → is_pending pending.old k ≡ false →
            is_some (value_at self.old.entries k) ≡ true }
        requires but { AreRightButChanged self.old (scene_of store.now)
            (in_marked (is_pending pending.old) (scene_of store.now)) (is_pending pending.old) }
        requires calm { (k : ℕ) → has (handles_of (scene_of store.now).trees) k ≡ true →
            in_marked (is_pending pending.old) (scene_of store.now) k ≡ true →
            is_touched (layout_of self.old) k ≡ false }
        requires scrolled { (k : ℕ) → has (handles_of (scene_of store.now).trees) k ≡ true →
            in_marked (is_pending pending.old) (scene_of store.now) k ≡ true → times marked.now k ≡ 0 →
            is_any_root (is_pending pending.old) (children_of (handles_of (scene_of store.now).trees) k) ≡ false →
            IsScrolledIn (known_at (scene_box (scene_of store.now)) (layout_of self.old)) (layout_of self.old).scrolls
            (handles_of (scene_of store.now).trees) k }
        requires empty { solved.old.items ≡ [] }
        requires room { length marked.now ≤ vec_capacity solved.old }
        ensures settles { SettlesChanged self.old self.new (scene_of store.now) (is_pending pending.old) }
        ensures moves { MovesAt self.old self.new (scene_of store.now) (is_pending pending.old) solved.new.items }
        ensures scrolls { ScrollsAt self.old self.new (scene_of store.now) (is_pending pending.old) solved.new.items }
        ensures spreads { Spreads self.old self.new (scene_of store.now)
            (is_pending pending.old) marked.now solved.new.items }
        ensures first { (k : ℕ) → is_first pending.new k ≡ is_first pending.old k }
        ensures marks { listing_of pending.new ≡ listing_of pending.old }
        ensures capacity { vec_capacity solved.new ≡ vec_capacity solved.old }
        ensures limits { limits_of self.new ≡ limits_of self.old }
    {
        let tree = store.tree();
        self.leave_gone(tree, marked);
        self.enter_marked(store, marked);
        self.renew_marked(store, marked, pending);
        self.settle_marked(store, marked, pending, solved);
    }

    /// Solves the tree in which an object lies that is marked, from the nearest one upward that stands by
    /// itself, and nothing else. The answer is that one.
    fn settle_at(&mut self, store: &Store, pending: &Table<Mark>, h: Handle) -> Handle
        requires limits { limits_of self.old ≡ (scene_of store.now).limits }
        requires there { has (handles_of (scene_of store.now).trees) h.0 ≡ true }
        requires entries { (u : ℕ) → Encloses (handles_of (scene_of store.now).trees) u h.0 →
            AreListed (listing_of self.old.entries) (tree_at (handles_of (scene_of store.now).trees) u) }
        requires boxes { (u : ℕ) → Encloses (handles_of (scene_of store.now).trees) u h.0 →
            AreRenewed (scene_of store.now) (layout_of self.old).boxes
            (tree_at (handles_of (scene_of store.now).trees) u) }
        requires own { is_touched (layout_of self.old) h.0 ≡ true }
        requires marked { is_pending pending.now h.0 ≡ true }
        requires ready { IsReady (scene_box (scene_of store.now)) (layout_of self.old)
            (handles_of (scene_of store.now).trees)
            (in_marked (is_pending pending.now) (scene_of store.now)) (is_pending pending.now) }
        ensures solves { SolvesTree self.old self.new (scene_of store.now) h.0 result.0 }
        ensures moves { MovesTouched (scene_box (scene_of store.now)) (layout_of self.old) (layout_of self.new)
            (tree_at (handles_of (scene_of store.now).trees) result.0) }
        ensures top { is_touched (layout_of self.old) result.0 ≡ true }
    {
        let _ = pending;
        let tree = store.tree();
        let (top, frame) = self.frame_of(tree, h);
        solve_tree(
            tree,
            store,
            &mut self.entries,
            self.items.as_mut_slice(),
            top,
            frame,
        );
        top
    }

    /// Settles what the mark of an object concerns, if it is there and its mark is pending. The answer is the
    /// object at the top of the tree that was solved, or None.
    fn settle_mark(&mut self, store: &Store, pending: &mut Table<Mark>, h: Handle) -> Option<Handle>
        requires limits { limits_of self.old ≡ (scene_of store.now).limits }
        requires entries { AreListed (listing_of self.old.entries)
            (marked_trees (is_pending pending.old) (handles_of (scene_of store.now).trees)) }
        requires boxes { AreRenewed (scene_of store.now) (layout_of self.old).boxes
            (marked_trees (is_pending pending.old) (handles_of (scene_of store.now).trees)) }
        requires ready { IsReady (scene_box (scene_of store.now)) (layout_of self.old)
            (handles_of (scene_of store.now).trees)
            (in_marked (is_pending pending.old) (scene_of store.now)) (is_pending pending.old) }
        ensures settles { Settles self.old self.new (scene_of store.now)
            (is_pending pending.old) (is_pending pending.new) }
        ensures solves { SolvesAt self.old self.new (scene_of store.now)
            (is_pending pending.old) (is_pending pending.new) (option_to_list result) }
        ensures scrolls { ScrollsAt self.old self.new (scene_of store.now)
            (is_pending pending.old) (option_to_list result) }
        ensures ready { IsReady (scene_box (scene_of store.now)) (layout_of self.new)
            (handles_of (scene_of store.now).trees)
            (in_marked (is_pending pending.new) (scene_of store.now)) (is_pending pending.new) }
        ensures moves { Propagates (scene_box (scene_of store.now)) (handles_of (scene_of store.now).trees)
            (in_marked (is_pending pending.old) (scene_of store.now))
            (layout_of self.old) (layout_of self.new) (option_to_list result) }
        ensures first { (k : ℕ) → is_first pending.new k ≡ is_first pending.old k }
        ensures own { has (handles_of (scene_of store.now).trees) h.0 ≡ true →
            is_pending pending.new h.0 ≡ false }
        ensures marks { listing_of pending.new ≡ listing_of pending.old }
    {
        let tree = store.tree();
        if !is_pending(pending, h) {
            return None;
        }
        if !tree.has(h) {
            return None;
        }
        let top = self.settle_at(store, pending, h);
        finish_touched(tree, &self.entries, pending, top);
        Some(top)
    }

    /// Settles what the marks of these objects concern, of those that are there, and lists the objects at the
    /// top of the trees that were solved.
    fn settle_marked(
        &mut self,
        store: &Store,
        marked: &[Handle],
        pending: &mut Table<Mark>,
        solved: &mut Vec<Handle>,
    )
        requires limits { limits_of self.old ≡ (scene_of store.now).limits }
        requires entries { AreListed (listing_of self.old.entries)
            (marked_trees (is_pending pending.old) (handles_of (scene_of store.now).trees)) }
        requires boxes { AreRenewed (scene_of store.now) (layout_of self.old).boxes
            (marked_trees (is_pending pending.old) (handles_of (scene_of store.now).trees)) }
        requires marked { (k : ℕ) → is_pending pending.old k ≡ true → 0 < times marked.now k }
        requires empty { solved.old.items ≡ [] }
        requires room { length marked.now ≤ vec_capacity solved.old }
        requires ready { IsReady (scene_box (scene_of store.now)) (layout_of self.old)
            (handles_of (scene_of store.now).trees)
            (in_marked (is_pending pending.old) (scene_of store.now)) (is_pending pending.old) }
        ensures settles { Settles self.old self.new (scene_of store.now)
            (is_pending pending.old) (is_pending pending.new) }
        ensures solves { SolvesAt self.old self.new (scene_of store.now)
            (is_pending pending.old) (is_pending pending.new) solved.new.items }
        ensures scrolls { ScrollsAt self.old self.new (scene_of store.now)
            (is_pending pending.old) solved.new.items }
        ensures moves { Propagates (scene_box (scene_of store.now)) (handles_of (scene_of store.now).trees)
            (in_marked (is_pending pending.old) (scene_of store.now))
            (layout_of self.old) (layout_of self.new) solved.new.items }
        ensures first { (k : ℕ) → is_first pending.new k ≡ is_first pending.old k }
        ensures all { (k : ℕ) → has (handles_of (scene_of store.now).trees) k ≡ true →
            is_pending pending.new k ≡ false }
        ensures marks { listing_of pending.new ≡ listing_of pending.old }
        ensures capacity { vec_capacity solved.new ≡ vec_capacity solved.old }
    {
        for h in marked {
            let top = self.settle_mark(store, pending, *h);
            add_any(solved, top);
        }
    }

    /// What a root stands in.
    fn panel(&self) -> Frame
        ensures near { FrameIsNearby result }
        ensures frame { IsFrameOf (limits_of self.now) (known_at (box_at (layout_of self.now).boxes) (layout_of self.now))
            None result }
    {
        let width = Size {
            pixels: self.limits.width as u16,
        };
        let height = Size {
            pixels: self.limits.height as u16,
        };
        Frame::Panel(width, height)
    }

    /// Takes out the entries of all objects.
    fn forget(&mut self)
        ensures empty { self.new.listed.items ≡ [] }
        ensures found { self.new.found.items ≡ self.old.found.items }
        ensures limits { limits_of self.new ≡ limits_of self.old }
    {
        clear(&mut self.entries, self.listed.as_slice());
        self.listed.clear();
    }

    /// Takes out the entries of the objects that a tree does not have.
    fn leave(&mut self, tree: &Tree)
        ensures kept { KeepsThose tree.now.forest self.old.listed.items self.old.entries self.new.entries }
        ensures limits { limits_of self.new ≡ limits_of self.old }
    {
        self.found.clear();
        take_gone(
            tree,
            self.listed.as_slice(),
            &mut self.found,
            &mut self.entries,
        );
        mem::swap(&mut self.listed, &mut self.found);
    }

    /// Gives entries to an object that has none, with its box in a store, before its own height is known.
    fn add_entries(&mut self, store: &Store, h: Handle)
        requires low { h.0 < HANDLE.high + 1 }
        requires new { times self.old.listed.items h.0 ≡ 0 }
        requires room { length self.old.listed.items < self.old.limits.objects }
        ensures added { AddsValue h.0 self.old.entries self.new.entries }
        ensures rests { touched_or (value_at self.new.entries h.0) ≡ false }
        ensures limits { limits_of self.new ≡ limits_of self.old }
    {
        put(&mut self.entries, h, new_entry(box_in(store, h)));
        self.listed.push_reserved(h);
    }

    /// Gives entries to the objects that were found, and to no others.
    fn replace_entries(&mut self)
        requires proper { AreProper self.old.found.items }
        requires few { length self.old.found.items ≤ self.old.limits.objects }
        ensures listed { self.new.listed.items ≡ self.old.found.items }
        ensures limits { limits_of self.new ≡ limits_of self.old }
    {
        self.forget();
        fill(
            &mut self.entries,
            self.found.as_slice(),
            new_entry(empty_box()),
        );
        mem::swap(&mut self.listed, &mut self.found);
    }

    /// Gives entries to the objects of a store, and to no others. They stay where the same objects had some.
    fn enter(&mut self, store: &Store)
        requires { limits_of self.old ≡ (scene_of store.now).limits }
        ensures listed { numbers self.new.listed.items ≡ preorder (handles_of (scene_of store.now).trees) }
        ensures limits { limits_of self.new ≡ limits_of self.old }
    {
        let tree = store.tree();
        self.found.clear();
        list_trees(tree, &mut self.found, tree.roots());
        if !are_same(self.listed.as_slice(), self.found.as_slice()) {
            self.replace_entries();
        }
    }

    /// Gives each object that has entries its box in a store, before its own height is known.
    fn set_boxes(&mut self, store: &Store)
        ensures boxes { HoldsBoxes (layout_of self.new).boxes (scene_of store.now) }
        ensures listed { self.new.listed.items ≡ self.old.listed.items }
        ensures limits { limits_of self.new ≡ limits_of self.old }
    {
        renew_all(&mut self.entries, store, self.listed.as_slice());
    }

    /// Solves the places of the objects of a store, each of which has an entry with its box.
    fn solve(&mut self, store: &Store)
        requires limits { limits_of self.old ≡ (scene_of store.now).limits }
        requires listed { numbers self.old.listed.items ≡ preorder (handles_of (scene_of store.now).trees) }
        requires boxes { HoldsBoxes (layout_of self.old).boxes (scene_of store.now) }
        ensures settled { AreSettled self.new (scene_of store.now) }
        ensures naturals { (h : ℕ) → naturals_at self.new h ≡ naturals (scene_of store.now) h }
        ensures limits { limits_of self.new ≡ limits_of self.old }
    {
        let listed = self.listed.as_slice();
        touch_all(&mut self.entries, listed);
        solve_trees(
            store.tree(),
            store,
            &mut self.entries,
            self.items.as_mut_slice(),
            Size {
                pixels: self.limits.width as u16,
            },
            Size {
                pixels: self.limits.height as u16,
            },
        );
        rest_all(&mut self.entries, listed);
    }
}
