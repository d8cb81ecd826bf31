//! The definitions of a scene: what it is, how it changes, and how it is painted. The only code is what
//! code and definitions share, a change and the row of an object, and laws.
#![tactic(auto)]

ghost use Rattle.std.specs.Prelude.{◌≡◌};

pub mod laws;
mod row_bytes;
mod texts;

use gui_base::{
    Align, Bits, Flag, Flow, Format, Handle, Kind, Length, Placing, Prop, Selector, State,
};
use gui_pool::TextId;
pub use row_bytes::{MOST_BYTES, RowBytes};
use text_defs::GlyphBox;
pub use texts::{MOST_TEXT, Text};

/// A change of the scene. No change holds a kind that only roots have.
#[derive(Drop)]
pub enum Change<'a> {
    /// Makes a screen, which is not shown.
    Screen(Handle),
    /// Makes an object of this kind, the last child of the second.
    New(Handle, Handle, Kind),
    /// Removes an object and all below it.
    Delete(Handle),
    /// The first becomes the last child of the second.
    Parent(Handle, Handle),
    /// Moves an object among its siblings to an index from 0, or to the last place.
    Index(Handle, u16),
    /// Makes an object the last of its siblings.
    Front(Handle),
    /// Makes an object the first of its siblings.
    Back(Handle),
    /// Makes a screen the active one.
    Load(Handle),
    /// Switches a flag on or off.
    Flag(Handle, Flag, bool),
    /// The wanted place in the parent, in pixels from -4000 to 4000.
    Pos(Handle, i32, i32),
    /// The alignment in the parent, and the wanted place, in pixels from -4000 to 4000.
    Align(Handle, Align, i32, i32),
    /// The wanted width and height.
    Size(Handle, Length, Length),
    /// How far the children of a scrollable object are to be scrolled, to the left and upward, in pixels from 0
    /// to 8191. It takes effect as far as they reach out of its content area.
    Scroll(Handle, i32, i32),
    /// How an object arranges its children.
    Flex(Handle, Flow),
    /// The placings of its flow: of the items along a track, of the items across it, and of the tracks. The
    /// second one is start, end or center.
    Places(Handle, Placing, Placing, Placing),
    /// The weight of an object in sharing the free space of its track.
    Grow(Handle, u8),
    /// Switches a state on or off.
    State(Handle, State, bool),
    /// The text of a label or a checkbox.
    Text(Handle, Text<'a>),
    /// The value of a bar or a slider, from -10,000 to 10,000. It is brought into the range of that.
    Value(Handle, i32),
    /// The range of a bar or a slider, each end from -10,000 to 10,000, the first below the second. The value
    /// is brought into it.
    Range(Handle, i32, i32),
    /// The picture that an image object shows.
    Source(Handle, u16),
    /// Makes a shared style with this number.
    Style(u16),
    /// Sets a property of a shared style.
    Set(u16, Prop, i32),
    /// Removes a property of a shared style.
    Unset(u16, Prop),
    /// Adds a shared style to an object, after those that it uses.
    Use(Handle, u16, Selector),
    /// Takes a shared style from an object.
    Unuse(Handle, u16, Selector),
    /// Sets a property of a part of an object, in some states.
    Local(Handle, Selector, Prop, i32),
    /// Removes such a property.
    Unlocal(Handle, Selector, Prop),
    /// Begins a font with this number. The height of its lines follows, and how far the next character stands
    /// from one without a glyph, both in pixels.
    Font(u8, u8, u8),
    /// Gives a font the glyph of a character: its box, and its bits row by row, each row in whole bytes.
    Glyph(u8, char, GlyphBox, RowBytes<'a>),
    /// Finishes a font. It takes no more glyphs then.
    EndFont(u8),
    /// Begins an image with this number: its format, and its width and height in pixels.
    Image(u16, Format, u16, u16),
    /// Gives an image its next row: which it is, from 0, and its bytes. The last row finishes the image.
    ImageRow(u16, u16, RowBytes<'a>),
}

/// What objects of some kinds have and others have not. The kind's row says which.
#[derive(Clone, Copy, Debug, PartialEq, Eq)]
pub enum Feature {
    /// A text.
    Text,
    /// A value in a range.
    Value,
    /// A picture.
    Picture,
}

/// What an object is and what is wanted of it. Only screens and layers are roots; all else is a plain object.
#[derive(Clone, Copy, Debug, PartialEq, Eq)]
pub struct Row {
    pub kind: Kind,
    /// The sum of the flags that are on: hidden is 1, clickable 2, checkable 4, bubble 8 and scrollable 16.
    pub flags: u8,
    /// The set of the states that it is in, by [`State::bit`].
    pub states: u16,
    /// The wanted place in the parent, in pixels from -4000 to 4000.
    pub x: i32,
    pub y: i32,
    /// Where in the parent's content area that place counts from.
    pub align: Align,
    /// The wanted sizes.
    pub width: Length,
    pub height: Length,
    /// How it arranges its children.
    pub flow: Flow,
    /// The placings of its flow: along its tracks, across each, and of the tracks.
    pub places: (Placing, Placing, Placing),
    /// Its weight in sharing the free space of its track.
    pub grow: u8,
    /// How far its children are to be scrolled if it is scrollable, to the left and upward, in pixels from 0 to
    /// 8191.
    pub scroll_x: i32,
    pub scroll_y: i32,
    /// What a bar or a slider shows, from `min` to `max`.
    pub value: i32,
    /// From -10,000 on.
    pub min: i32,
    /// Greater than `min`, and at most 10,000.
    pub max: i32,
    /// The number of the image that it shows.
    pub image: Option<u16>,
    /// The name of its text among those that a store keeps. A scene shows the text itself, and no name.
    pub text: TextId,
}

impl Row {
    ghost use Rattle.scene_defs.specs.Row.{is_on};

    /// Whether a flag is on.
    pub fn is_on(&self, flag: Flag) -> bool
        ensures { result ≡ is_on self.now.flags flag }
    {
        Bits(self.flags as u16).has(flag.bit())
    }
}
