//! What the changes of one object's row ask for.
ghost use Rattle.std.specs.Prelude.{◌≡◌, ◌&&◌, false, true, None, Some, option_map};
ghost use Rattle.gui_base.specs.Intervals.{is_within};
ghost use Rattle.scene_defs.specs.Row.{is_size, is_cross, is_range};
ghost use Rattle.scene_defs.specs.Deeds.{setter_of};
ghost use Rattle.scene_defs.specs.declared.Feature.TheVariants.{Value, Picture};
ghost use Rattle.gui_store.specs.Setters.{asked_of};

use gui_base::intervals::{COORDINATE, EXTENT, GROW, IMAGE, PERCENT, SCROLL, VALUE};
use gui_base::{Handle, Length, Placing};
use scene_defs::{Change, Feature};

/// What a change of one object's row asks for.
#[derive(Clone, Copy)]
pub(crate) struct Setter {
    /// Whose row.
    pub(crate) handle: Handle,
    /// Each number that it sets lies in its interval.
    pub(crate) fits: bool,
    /// Roots refuse it.
    pub(crate) needs_parent: bool,
    /// What it sets, if not all kinds have it.
    pub(crate) feature: Option<Feature>,
    /// The image that it names.
    pub(crate) image: Option<u16>,
}

impl Setter {
    /// One for any object.
    fn of_any(handle: Handle, fits: bool) -> Setter
        ensures { result ≡ record {
          handle = handle;
          fits = fits;
          needs_parent = false;
          feature = None;
          image = None;
        } }
    {
        Setter {
            handle,
            fits,
            needs_parent: false,
            feature: None,
            image: None,
        }
    }

    /// One for objects that have a parent.
    fn of_child(handle: Handle, fits: bool) -> Setter
        ensures { result ≡ record {
          handle = handle;
          fits = fits;
          needs_parent = true;
          feature = None;
          image = None;
        } }
    {
        Setter {
            handle,
            fits,
            needs_parent: true,
            feature: None,
            image: None,
        }
    }

    /// One for objects that have a value.
    fn of_valued(handle: Handle, fits: bool) -> Setter
        ensures { result ≡ record {
          handle = handle;
          fits = fits;
          needs_parent = false;
          feature = Some Value;
          image = None;
        } }
    {
        Setter {
            handle,
            fits,
            needs_parent: false,
            feature: Some(Feature::Value),
            image: None,
        }
    }

    /// One for objects that show a picture.
    fn of_pictured(handle: Handle, image: u16, fits: bool) -> Setter
        ensures { result ≡ record {
          handle = handle;
          fits = fits;
          needs_parent = false;
          feature = Some Picture;
          image = Some image;
        } }
    {
        Setter {
            handle,
            fits,
            needs_parent: false,
            feature: Some(Feature::Picture),
            image: Some(image),
        }
    }
}

/// What a change asks for, if it sets the row of one object and does nothing else.
pub(crate) fn setter_of(change: &Change) -> Option<Setter>
    ensures { result ≡ option_map asked_of (setter_of change.now) }
{
    match *change {
        Change::Flag(h, _, _) | Change::State(h, _, _) => Some(Setter::of_any(h, true)),
        Change::Pos(h, x, y) => Some(Setter::of_child(h, is_place(x, y))),
        Change::Align(h, _, x, y) => Some(Setter::of_child(h, is_place(x, y))),
        Change::Size(h, width, height) => {
            Some(Setter::of_child(h, is_size(width) && is_size(height)))
        }
        Change::Scroll(h, x, y) => Some(Setter::of_any(h, SCROLL.holds(x) && SCROLL.holds(y))),
        Change::Flex(h, _) => Some(Setter::of_any(h, true)),
        Change::Places(h, _, cross, _) => Some(Setter::of_any(h, is_cross(cross))),
        Change::Grow(h, n) => Some(Setter::of_child(h, GROW.holds(n as u16))),
        Change::Value(h, n) => Some(Setter::of_valued(h, VALUE.holds(n))),
        Change::Range(h, low, high) => Some(Setter::of_valued(h, is_range(low, high))),
        Change::Source(h, image) => Some(Setter::of_pictured(h, image, IMAGE.holds(image))),
        _ => None,
    }
}

/// Whether these are coordinates of a wanted place.
fn is_place(x: i32, y: i32) -> bool
    ensures { result ≡ (is_within COORDINATE x && is_within COORDINATE y) }
{
    COORDINATE.holds(x) && COORDINATE.holds(y)
}

fn is_size(length: Length) -> bool
    ensures { result ≡ is_size length }
{
    match length {
        Length::Pixels(n) => EXTENT.holds(n),
        Length::Percent(n) => PERCENT.holds(n as u16),
        Length::Content => true,
    }
}

/// Whether it places the items of a track across it.
fn is_cross(placing: Placing) -> bool
    ensures { result ≡ is_cross placing }
{
    matches!(placing, Placing::Start | Placing::End | Placing::Center)
}

/// Whether these are the ends of a range, in order.
fn is_range(low: i32, high: i32) -> bool
    ensures { result ≡ is_range low high }
{
    VALUE.holds(low) && VALUE.holds(high) && low < high
}
