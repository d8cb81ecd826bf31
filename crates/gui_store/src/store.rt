//! The store.
ghost use Rattle.std.specs.Prelude.{◌≡◌, ℕ, ◌^◌, ◌<◌, IfOk, IfSome, Some, None, true, length, []};
ghost use Rattle.std.specs.List.{list_any};
ghost use Rattle.std.specs.Prelude.{is_some, option_map};
ghost use Rattle.gui_base.specs.Bounded.{bounds_of};
ghost use Rattle.gui_base.specs.Intervals.{is_counted};
ghost use Rattle.gui_base.specs.Forest.{has};
ghost use Rattle.gui_base.specs.Props.{is_value};
ghost use Rattle.gui_base.specs.Refusing.{first_of, result_of, move_tests};
ghost use Rattle.scene_defs.specs.Deeds.{setter_of, is_in_range};
ghost use Rattle.scene_defs.specs.Row.{shown_row};
ghost use Rattle.scene_defs.specs.Scene.{handles_of, is_there, row_at, value, first_scene, used, spare};
ghost use Rattle.scene_defs.specs.Change.{answer_of, changed, tests, styling_in, asset_change_in};
ghost use Rattle.scene_defs.specs.Edits.{text_at};
ghost use Rattle.scene_defs.specs.Change.{absent_image, unfinished_image};
ghost use Rattle.scene_defs.specs.Texts.{is_text};
ghost use Rattle.scene_defs.specs.Valid.{IsValid, IsChange, IsRow};
ghost use Rattle.gui_style.specs.Styles.{is_handle, uses_style};
ghost use Rattle.gui_store.specs.Parts.{AreKept};
ghost use Rattle.gui_store.specs.Removed.{removed_by};
ghost use Rattle.gui_store.specs.Rows.{HaveRows, set_without, row_shown, object_in};
ghost use Rattle.gui_store.specs.Setters.{asked_of};
ghost use Rattle.gui_store.specs.Values.{won_at, inherited_at, given_at};

use crate::assets::build;
use crate::features::has_feature;
use crate::range::is_in_range;
use crate::row_table::RowTable;
use crate::setter::{Setter, setter_of};
use crate::styling::{named_by, restyle};
use arrayvec::ArrayVec;
use gui_base::intervals::HANDLE;
use gui_base::{Handle, Kind, Limits, NoMemory, Part, Pool, Prop, Refusal};
use gui_font::{Fonts, Images};
use gui_pool::ListIter;
use gui_style::Styles;
use gui_style::kinds::default_in;
use gui_tree::Tree;
use scene_defs::{Change, Feature, MOST_TEXT, Row, Text};
use std::alloc::Global;

/// One more than the greatest handle.
const HANDLES: u32 = HANDLE.high as u32 + 1;

/// The layer above the active screen.
pub const TOP_LAYER: Handle = Handle(1);

/// The layer above all else.
pub const SYSTEM_LAYER: Handle = Handle(2);

/// The screen that is shown at first.
const FIRST_SCREEN: Handle = Handle(3);

/// A scene: the tree of its objects, a row and a text for each, their styles, the fonts and images, the
/// active screen and the limits.
pub struct Store {
    tree: Tree,
    // Those of the objects of the tree, by handle.
    rows: RowTable,
    styles: Styles,
    fonts: Fonts,
    images: Images,
    active: Handle,
    limits: Limits,
    ghost kept: { AreKept (record {
      tree = tree;
      rows = rows.rows;
      spare_texts = rows.spare_texts;
      styles = styles;
      fonts = fonts;
      images = images;
      active = active.0;
      limits = bounds_of limits;
    }) },
}

impl Drop for Store {
    /// Lets go of every field in one call, which keeps the proofs of its owners short.
    fn drop(self) {
        let Store {
            tree: _,
            rows: _,
            styles: _,
            fonts: _,
            images: _,
            active: _,
            limits: _,
        } = self;
    }
}

/// Takes out the rows of these handles, and gives back the chunks of their texts.
fn remove_rows(rows: &mut RowTable, handles: &[Handle])
    requires { HaveRows rows.old.rows handles.now }
    ensures { rows.new ≡ set_without rows.old handles.now }
{
    for h in handles {
        rows.remove(h.0 as u32);
    }
}

impl Store {
    ghost use Rattle.gui_store.specs.Views.{parts_of, scene_of, removed_of, Changes};

    /// The top layer, the system layer and a screen, which is active. It takes all the memory that the store
    /// will need; NoMemory if there is too little.
    pub fn open(alloc: Global, limits: &Limits) -> Result<Store, NoMemory>
        ensures scene { IfOk result (λ store. scene_of store ≡ first_scene (bounds_of limits.now)) }
        ensures removed { IfOk result (λ store. removed_of store ≡ []) }
    {
        let tree = Tree::open(alloc, limits.objects)?;
        let Ok(mut rows) = RowTable::open(alloc, HANDLES, limits.objects, limits.texts) else {
            return Err(NoMemory);
        };
        let styles = Styles::open(alloc, limits.styles, limits.entries, limits.uses)?;
        let fonts = Fonts::with_capacity(alloc, limits.fonts, limits.glyphs, limits.ink)?;
        let images = Images::with_capacity(alloc, limits.images, limits.pixels)?;
        rows.insert_new(TOP_LAYER.0 as u32, Kind::Layer);
        rows.insert_new(SYSTEM_LAYER.0 as u32, Kind::Layer);
        rows.insert_new(FIRST_SCREEN.0 as u32, Kind::Screen);
        Ok(Store {
            tree,
            rows,
            styles,
            fonts,
            images,
            active: FIRST_SCREEN,
            limits: *limits,
        })
    }

    /// Changes the scene, or answers the first refusal of this change. A refused change leaves all as it was.
    /// Range comes first, if a number lies outside its interval or a text is too long. Then come the refusals
    /// of each change.
    pub fn apply(&mut self, change: &Change) -> Result<(), Refusal>
        requires { IsChange change.now }
        ensures answer { result ≡ result_of (answer_of (scene_of self.old) change.now) }
        ensures after { scene_of self.new ≡ changed (scene_of self.old) change.now }
        ensures removed { removed_of self.new ≡ removed_by (answer_of (scene_of self.old) change.now)
            (removed_of self.old) (scene_of self.old) change.now }
    {
        if !is_in_range(change) {
            return Err(Refusal::Range);
        }
        self.carry_out(change)
    }

    /// The tree of the objects. Its `last_removed` lists what the last delete with Ok has removed, each
    /// object before those below it.
    pub fn tree(&self) -> &Tree
        ensures forest { result.now.forest ≡ handles_of (scene_of self.now).trees }
        ensures removed { result.now.removed ≡ removed_of self.now }
        ensures valid { IsValid (scene_of self.now) }
    {
        &self.tree
    }

    /// The fonts beside the built-in one.
    pub fn fonts(&self) -> &Fonts
        ensures { result.now.fonts ≡ (scene_of self.now).fonts }
    {
        &self.fonts
    }

    /// The images.
    pub fn images(&self) -> &Images
        ensures { result.now.images ≡ (scene_of self.now).images }
    {
        &self.images
    }

    /// The screen that is shown.
    pub fn active(&self) -> Handle
        ensures screen { result.0 ≡ (scene_of self.now).active }
        ensures valid { IsValid (scene_of self.now) }
    {
        self.active
    }

    /// The limits that it was opened with.
    pub fn limits(&self) -> &Limits
        ensures { bounds_of result.now ≡ (scene_of self.now).limits }
    {
        &self.limits
    }

    /// How many slots of a pool are in use. Those of handlers, groups and animations are none of the scene's.
    pub fn used(&self, pool: Pool) -> u32
        ensures { result ≡ used (scene_of self.now) pool }
    {
        self.limits.slots(pool) - self.spare(pool)
    }

    /// How many slots of a pool are free.
    fn spare(&self, pool: Pool) -> u32
        ensures { result ≡ spare (scene_of self.now) pool }
    {
        match pool {
            Pool::Objects => self.tree.spare(),
            Pool::Styles => self.styles.spare_styles(),
            Pool::Entries => self.styles.spare_entries(),
            Pool::Uses => self.styles.spare_uses(),
            Pool::Texts => self.rows.spare_texts(),
            Pool::Fonts => self.fonts.spare_fonts() as u32,
            Pool::Glyphs => self.fonts.spare_glyphs(),
            Pool::Ink => self.fonts.spare_ink() as u32,
            Pool::Images => self.images.spare_images(),
            Pool::Pixels => self.images.spare_pixels() as u32,
            Pool::Handlers | Pool::Groups | Pool::Anims => self.limits.slots(pool),
        }
    }

    /// The row of an object, or none if it is not there.
    pub fn row(&self, h: Handle) -> Option<&Row>
        ensures value { option_map (λ r. shown_row r.now) result ≡ row_at (scene_of self.now) h.0 }
        ensures handle { IfSome result (λ row. is_counted HANDLE h.0 ≡ true) }
        ensures in_range { IfSome result (λ row. IsRow row.now) }
    {
        self.rows.get(h.0 as u32)
    }

    /// Makes `out` the bytes of the text of an object that is there: UTF-8, and at most 1,000 of them.
    pub fn text_into(&self, h: Handle, out: &mut ArrayVec<u8, 1000>)
        requires { is_there (scene_of self.now) h.0 ≡ true }
        ensures text { out.new.items ≡ text_at (scene_of self.now) h.0 }
        ensures valid { is_text out.new.items ≡ true }
    {
        self.rows.text_into(h.0 as u32, out);
    }

    /// The value of a property of a part of an object that is there: what wins for that part in the object's
    /// states. If nothing does, an inherited property has what wins for the object's own part, or else for that
    /// of the nearest object above, each in its own states, and then the default.
    pub fn value(&self, h: Handle, part: Part, prop: Prop) -> i32
        requires { is_there (scene_of self.now) h.0 ≡ true }
        ensures value { result ≡ value (scene_of self.now) h.0 part prop }
        ensures in_range { is_value prop result ≡ true }
    {
        let Some(row) = self.rows.get(h.0 as u32) else {
            unreachable!()
        };
        self.value_by_row(h, row, part, prop)
    }

    /// The value of a property of a part of an object, as `value` gives it. The caller has read the object's
    /// row already.
    pub fn value_by_row(&self, h: Handle, row: &Row, part: Part, prop: Prop) -> i32
        requires { Some (shown_row row.now) ≡ row_at (scene_of self.now) h.0 }
        ensures value { result ≡ value (scene_of self.now) h.0 part prop }
        ensures in_range { is_value prop result ≡ true }
    {
        match self.given(h, row, part, prop) {
            Some(value) => value,
            None => default_in(row.kind, part, row.states, prop),
        }
    }

    /// Whether an object uses a style, for any selector.
    pub fn uses_style(&self, h: Handle, id: u16) -> bool
        ensures { result ≡ uses_style (scene_of self.now).book h.0 id }
    {
        self.styles.uses_style(h, id)
    }

    /// The objects that use a style, for any selector. One that uses it for several selectors comes once for
    /// each of them. They come in no order, and no others are read.
    pub fn users(&self, id: u16) -> ListIter<'_, Handle>
        ensures these { (h : ℕ) → list_any (is_handle h) result ≡ uses_style (scene_of self.now).book h id }
        ensures few { length result < 2 ^ 32 }
    {
        self.styles.users(id)
    }

    /// What wins for a part of an object that has this row, in its states.
    fn won_by_row(&self, h: Handle, row: &Row, part: Part, prop: Prop) -> Option<i32>
        requires { Some (shown_row row.now) ≡ row_shown self.now.rows.rows h.0 }
        ensures { result ≡ won_at (parts_of self.now) h.0 part prop }
    {
        self.styles.lookup(h, part, row.states, prop)
    }

    /// The states of an object that is there.
    fn states_of(&self, h: Handle) -> u16
        requires { has self.now.tree.forest h.0 ≡ true }
        ensures { result ≡ (object_in (parts_of self.now).rows h.0).row.states }
    {
        let Some(row) = self.rows.get(h.0 as u32) else {
            unreachable!()
        };
        row.states
    }

    /// What wins for the own part of an object that is there, or else of the nearest above it.
    fn inherited(&self, h: Handle, prop: Prop) -> Option<i32>
        requires { has self.now.tree.forest h.0 ≡ true }
        ensures { result ≡ inherited_at (parts_of self.now) h.0 prop }
    {
        for k in self.tree.ancestors(h) {
            let states = self.states_of(k);
            let found = self.styles.lookup(k, Part::Main, states, prop);
            if found.is_some() {
                return found;
            }
        }
        None
    }

    /// What wins for a part of an object that has this row, or is inherited.
    fn given(&self, h: Handle, row: &Row, part: Part, prop: Prop) -> Option<i32>
        requires { Some (shown_row row.now) ≡ row_shown self.now.rows.rows h.0 }
        ensures { result ≡ given_at (parts_of self.now) h.0 part prop }
    {
        let own = self.won_by_row(h, row, part, prop);
        if own.is_some() || !prop.inherits() {
            return own;
        }
        self.inherited(h, prop)
    }

    /// Carries out a change whose numbers lie in their intervals, or answers its first refusal.
    fn carry_out(&mut self, change: &Change) -> Result<(), Refusal>
        requires in_range { is_in_range change.now ≡ true }
        requires plain { IsChange change.now }
        ensures { Changes self.old self.new change.now result }
    {
        match *change {
            Change::Screen(n) => self.add_screen(n),
            Change::New(n, parent, kind) => self.add_object(n, parent, kind),
            Change::Delete(h) => self.delete(h),
            Change::Parent(h, parent) => self.tree.set_parent(h, parent),
            Change::Index(h, index) => self.tree.move_to_index(h, index),
            // An index past the last is the last.
            Change::Front(h) => self.tree.move_to_index(h, u16::MAX),
            Change::Back(h) => self.tree.move_to_index(h, 0),
            Change::Load(h) => self.load(h),
            Change::Text(h, ref text) => self.change_text(h, text),
            Change::Style(_) | Change::Set(_, _, _) | Change::Unset(_, _) => {
                self.change_styles(change)
            }
            Change::Use(_, _, _) | Change::Unuse(_, _, _) => self.change_styles(change),
            Change::Local(_, _, _, _) | Change::Unlocal(_, _, _) => self.change_styles(change),
            Change::Font(_, _, _) | Change::Glyph(_, _, _, _) | Change::EndFont(_) => {
                self.change_assets(change)
            }
            Change::Image(_, _, _, _) | Change::ImageRow(_, _, _) => self.change_assets(change),
            _ => self.change_row(change),
        }
    }

    fn add_screen(&mut self, n: Handle) -> Result<(), Refusal>
        requires { is_in_range (Change.Screen n) ≡ true }
        ensures { Changes self.old self.new (Change.Screen n) result }
    {
        self.tree.add_root(n)?;
        self.rows.insert_new(n.0 as u32, Kind::Screen);
        Ok(())
    }

    fn add_object(&mut self, n: Handle, parent: Handle, kind: Kind) -> Result<(), Refusal>
        requires in_range { is_in_range (Change.New n parent kind) ≡ true }
        requires plain { IsChange (Change.New n parent kind) }
        ensures { Changes self.old self.new (Change.New n parent kind) result }
    {
        self.tree.add(n, parent)?;
        self.rows.insert_new(n.0 as u32, kind);
        Ok(())
    }

    fn delete(&mut self, h: Handle) -> Result<(), Refusal>
        requires { is_in_range (Change.Delete h) ≡ true }
        ensures { Changes self.old self.new (Change.Delete h) result }
    {
        if h == self.active {
            return Err(Refusal::Place);
        }
        self.tree.remove(h)?;
        let removed = self.tree.last_removed();
        remove_rows(&mut self.rows, removed);
        self.styles.forget_all(removed);
        Ok(())
    }

    fn load(&mut self, h: Handle) -> Result<(), Refusal>
        requires { is_in_range (Change.Load h) ≡ true }
        ensures { Changes self.old self.new (Change.Load h) result }
    {
        let Some(row) = self.rows.get(h.0 as u32) else {
            return Err(Refusal::Unknown);
        };
        match row.kind {
            Kind::Screen => {
                self.active = h;
                Ok(())
            }
            _ => Err(Refusal::Kind),
        }
    }

    /// Gives an object another text.
    fn change_text(&mut self, h: Handle, text: &Text) -> Result<(), Refusal>
        requires in_range { is_in_range (Change.Text h text.now) ≡ true }
        requires plain { IsChange (Change.Text h text.now) }
        ensures { Changes self.old self.new (Change.Text h text.now) result }
    {
        let Some(row) = self.rows.get(h.0 as u32) else {
            return Err(Refusal::Unknown);
        };
        if !has_feature(Feature::Text, row.kind) {
            return Err(Refusal::Kind);
        }
        let mut room = [0; MOST_TEXT];
        let bytes = text.read(&mut room);
        match self.rows.set_text(h.0 as u32, bytes) {
            Ok(()) => Ok(()),
            Err(_) => Err(Refusal::Full(Pool::Texts)),
        }
    }

    /// Whether an object that is there has a parent.
    fn check_parent(&self, h: Handle) -> Result<(), Refusal>
        requires { is_there (scene_of self.now) h.0 ≡ true }
        ensures { result ≡ result_of (first_of (move_tests (handles_of (scene_of self.now).trees) h.0) None) }
    {
        if self.tree.parent(h).is_none() {
            return Err(Refusal::Place);
        }
        Ok(())
    }

    /// Whether there is the image that a setter names.
    fn check_image(&self, image: Option<u16>) -> Result<(), Refusal>
        ensures { result ≡ result_of (first_of (absent_image (scene_of self.now).images image) None) }
    {
        match image {
            Some(image) if self.images.finished(image).is_none() => Err(Refusal::Unknown),
            _ => Ok(()),
        }
    }

    /// Whether the image that a setter names is finished.
    fn check_finished(&self, image: Option<u16>) -> Result<(), Refusal>
        ensures { result ≡ result_of (first_of (unfinished_image (scene_of self.now).images image) None) }
    {
        match image {
            Some(image) if self.images.finished(image) != Some(true) => Err(Refusal::Place),
            _ => Ok(()),
        }
    }

    /// Whether a setter is for an object that is there and has this row.
    fn check_row(&self, setter: Setter, row: &Row, change: &Change) -> Result<(), Refusal>
        requires setter { Some setter ≡ option_map asked_of (setter_of change.now) }
        requires there { is_there (scene_of self.now) setter.handle.0 ≡ true }
        requires row { Some (shown_row row.now) ≡ row_at (scene_of self.now) setter.handle.0 }
        ensures { result ≡ result_of (first_of (tests (scene_of self.now) change.now) None) }
    {
        self.check_image(setter.image)?;
        if let Some(feature) = setter.feature {
            if !has_feature(feature, row.kind) {
                return Err(Refusal::Kind);
            }
        }
        if setter.needs_parent {
            self.check_parent(setter.handle)?;
        }
        self.check_finished(setter.image)
    }

    /// Changes the row of an object alone.
    fn change_row(&mut self, change: &Change) -> Result<(), Refusal>
        requires setter { is_some (setter_of change.now) ≡ true }
        requires in_range { is_in_range change.now ≡ true }
        requires plain { IsChange change.now }
        ensures { Changes self.old self.new change.now result }
    {
        let Some(setter) = setter_of(change) else {
            unreachable!()
        };
        let h = setter.handle;
        let Some(row) = self.rows.get(h.0 as u32) else {
            return Err(Refusal::Unknown);
        };
        self.check_row(setter, row, change)?;
        self.rows.set(h.0 as u32, change);
        Ok(())
    }

    /// Changes the styles alone.
    fn change_styles(&mut self, change: &Change) -> Result<(), Refusal>
        requires styling { is_some (styling_in (scene_of self.old) change.now) ≡ true }
        requires in_range { is_in_range change.now ≡ true }
        requires plain { IsChange change.now }
        ensures { Changes self.old self.new change.now result }
    {
        match named_by(change) {
            Some(h) if !self.tree.has(h) => Err(Refusal::Unknown),
            _ => restyle(&mut self.styles, &self.fonts, change),
        }
    }

    /// Changes the fonts or the images alone.
    fn change_assets(&mut self, change: &Change) -> Result<(), Refusal>
        requires assets { is_some (asset_change_in (scene_of self.old) change.now) ≡ true }
        requires in_range { is_in_range change.now ≡ true }
        requires plain { IsChange change.now }
        ensures { Changes self.old self.new change.now result }
    {
        build(&mut self.fonts, &mut self.images, change)
    }
}
