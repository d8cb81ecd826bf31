//! The items of a container, and how they are placed.
ghost use Rattle.std.specs.Prelude.{IsTrue, ◌≡◌, ◌≤◌, ◌+◌, ℤ, pos};
ghost use Rattle.gui_base.specs.Area.{nat_of};
ghost use Rattle.layout_defs.specs.Flex.{counted};
ghost use Rattle.layout_defs.specs.Sizes.{IsSize, IsReach, is_cross};

use gui_base::words::Placing;

/// An item of a container.
#[derive(Clone, Copy, Debug, PartialEq, Eq)]
pub struct FlexItem {
    /// Its size along the flow, from 0 to 8191. [`crate::share`] sets it if the item grows.
    pub main: i32,
    /// Its size across the flow, from 0 to 8191.
    pub cross: i32,
    /// Its weight in sharing the free space; it grows if this is not 0.
    pub grow: u8,
    /// How far along the flow it stands from the container's corner, from 0 to 50,000,000.
    pub main_at: i32,
    /// How far across the flow, from 0 to 50,000,000.
    pub cross_at: i32,
    ghost main_fits: { IsSize main },
    ghost cross_fits: { IsSize cross },
    ghost main_at_fits: { IsReach main_at },
    ghost cross_at_fits: { IsReach cross_at },
}

/// How the items of a container are placed.
#[derive(Clone, Copy, Debug, PartialEq, Eq)]
pub struct FlexPlaces {
    /// The items of a track, along the flow.
    pub main: Placing,
    /// Each item in its track, across the flow: at its start, its end or its center.
    pub cross: Placing,
    /// The tracks, across the flow.
    pub track: Placing,
    ghost cross_fits: { IsTrue (is_cross cross) },
}

impl FlexItem {
    ghost use Rattle.gui_flex.specs.Items.{item_of};

    /// Its size along the flow, in pixels.
    pub fn main_size(&self) -> u32
        ensures value { result ≡ (item_of self.now).main }
        ensures small { result ≤ 8191 }
    {
        self.main as u32
    }

    /// Its size across the flow, in pixels.
    pub fn cross_size(&self) -> u32
        ensures value { result ≡ (item_of self.now).cross }
        ensures small { result ≤ 8191 }
    {
        self.cross as u32
    }

    /// The size along the flow that counts before the free space is shared out.
    pub(crate) fn counted_size(&self) -> u32
        ensures value { result ≡ counted (item_of self.now) }
        ensures small { result ≤ 8191 }
    {
        if self.grow > 0 { 0 } else { self.main_size() }
    }
}
