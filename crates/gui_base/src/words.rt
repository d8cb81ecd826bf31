//! The words of the script language that several crates share. Each kind of word has one table of its names.
ghost use Rattle.std.specs.Prelude.{◌≡◌, ◌<◌};

/// What an object is. Screens and layers are roots and cannot be made by `new`.
#[derive(Clone, Copy, Debug, PartialEq, Eq)]
pub enum Kind {
    /// A root that is shown if it is the active one.
    Screen,
    /// A root that is always shown, above the active screen.
    Layer,
    /// A plain object.
    Obj,
    /// A text, in as many lines as it takes.
    Label,
    /// An object to press.
    Button,
    /// A picture.
    Image,
    /// A share of a range, as a filled part of its width.
    Bar,
    /// A bar with a knob that sets the share.
    Slider,
    /// A box to check, with a text beside it.
    Checkbox,
    /// A column of objects.
    List,
}

/// The kinds that `new` makes.
pub const KINDS: [(&'static str, Kind); 8] = [
    ("obj", Kind::Obj),
    ("label", Kind::Label),
    ("button", Kind::Button),
    ("image", Kind::Image),
    ("bar", Kind::Bar),
    ("slider", Kind::Slider),
    ("checkbox", Kind::Checkbox),
    ("list", Kind::List),
];

/// What may be switched on and off at an object.
#[derive(Clone, Copy, Debug, PartialEq, Eq)]
pub enum Flag {
    /// It and all below it show nothing.
    Hidden,
    /// A pointer may hit it.
    Clickable,
    /// It can be checked.
    Checkable,
    /// Its events go on to its parent.
    Bubble,
    /// It moves its children by its offset, and shows bars if they do not fit.
    Scrollable,
}

pub const FLAGS: [(&'static str, Flag); 5] = [
    ("hidden", Flag::Hidden),
    ("clickable", Flag::Clickable),
    ("checkable", Flag::Checkable),
    ("bubble", Flag::Bubble),
    ("scrollable", Flag::Scrollable),
];

/// What a flag is set to.
pub const ON_OFF: [(&'static str, bool); 2] = [("on", true), ("off", false)];

impl Flag {
    ghost use Rattle.gui_base.specs.Bits.{flag_bit};

    /// Its bit in a set of flags, from 0.
    pub fn bit(self) -> u8
        ensures { result ≡ flag_bit self }
    {
        self as u8
    }
}

/// The part of an object that a property is for.
#[derive(Clone, Copy, Debug, PartialEq, Eq)]
pub enum Part {
    /// The object itself.
    Main,
    /// The scrollbar.
    Scrollbar,
    /// The filled share of a bar or a slider, and the box of a checkbox.
    Indicator,
    /// The handle of a slider.
    Knob,
}

pub const PARTS: [(&'static str, Part); 4] = [
    ("main", Part::Main),
    ("scrollbar", Part::Scrollbar),
    ("indicator", Part::Indicator),
    ("knob", Part::Knob),
];

/// A state that an object may be in. The numbers are those of its bit in a set of states.
#[derive(Clone, Copy, Debug, PartialEq, Eq)]
pub enum State {
    Checked = 0,
    Focused = 1,
    /// Focused by a key or the encoder.
    FocusKey = 2,
    Edited = 3,
    Hovered = 4,
    Pressed = 5,
    Scrolled = 6,
    Disabled = 7,
    User1 = 12,
    User2 = 13,
    User3 = 14,
    User4 = 15,
}

pub const STATES: [(&'static str, State); 12] = [
    ("checked", State::Checked),
    ("focused", State::Focused),
    ("focus_key", State::FocusKey),
    ("edited", State::Edited),
    ("hovered", State::Hovered),
    ("pressed", State::Pressed),
    ("scrolled", State::Scrolled),
    ("disabled", State::Disabled),
    ("user1", State::User1),
    ("user2", State::User2),
    ("user3", State::User3),
    ("user4", State::User4),
];

impl State {
    ghost use Rattle.gui_base.specs.Bits.{state_bit};

    /// Its bit in a set of states, from 0.
    pub fn bit(self) -> u8
        ensures value { result ≡ state_bit self }
        ensures within { result < 16 }
    {
        self as u8
    }
}

/// What a property is set for: a part, while the object is in all of the given states.
#[derive(Clone, Copy, Debug, PartialEq, Eq)]
pub struct Selector {
    pub part: Part,
    /// A bit for each state, as [`State::bit`] says.
    pub states: u16,
}

/// A wanted width or height.
#[derive(Clone, Copy, Debug, PartialEq, Eq)]
pub enum Length {
    /// A number of pixels, from 0 to 4000.
    Pixels(u16),
    /// Hundredths of the parent's content area, from 0 to 100.
    Percent(u8),
    /// As much as what it holds.
    Content,
}

/// Where an object stands in its parent's content area, unless the parent has a flow.
#[derive(Clone, Copy, Debug, PartialEq, Eq)]
pub enum Align {
    TopLeft,
    TopMid,
    TopRight,
    LeftMid,
    Center,
    RightMid,
    BottomLeft,
    BottomMid,
    BottomRight,
}

pub const ALIGNS: [(&'static str, Align); 9] = [
    ("top_left", Align::TopLeft),
    ("top_mid", Align::TopMid),
    ("top_right", Align::TopRight),
    ("left_mid", Align::LeftMid),
    ("center", Align::Center),
    ("right_mid", Align::RightMid),
    ("bottom_left", Align::BottomLeft),
    ("bottom_mid", Align::BottomMid),
    ("bottom_right", Align::BottomRight),
];

/// How an object arranges its children. A row runs from left to right and a column from top to bottom; a
/// reversed one takes the children from the last to the first.
#[derive(Clone, Copy, Debug, PartialEq, Eq)]
pub enum Flow {
    /// Each child stands by its alignment and its wanted place.
    Free,
    Row,
    Column,
    /// In as many rows as the children take.
    RowWrap,
    /// In as many columns as the children take.
    ColumnWrap,
    RowReverse,
    ColumnReverse,
    RowWrapReverse,
    ColumnWrapReverse,
}

pub const FLOWS: [(&'static str, Flow); 9] = [
    ("none", Flow::Free),
    ("row", Flow::Row),
    ("column", Flow::Column),
    ("row_wrap", Flow::RowWrap),
    ("column_wrap", Flow::ColumnWrap),
    ("row_reverse", Flow::RowReverse),
    ("column_reverse", Flow::ColumnReverse),
    ("row_wrap_reverse", Flow::RowWrapReverse),
    ("column_wrap_reverse", Flow::ColumnWrapReverse),
];

/// How the free space of a flow is dealt out.
#[derive(Clone, Copy, Debug, PartialEq, Eq)]
pub enum Placing {
    /// All of it behind the items.
    Start,
    /// All of it before the items.
    End,
    /// Half of it on each side.
    Center,
    /// Equal shares before, between and behind the items.
    SpaceEvenly,
    /// Equal shares on both sides of each item.
    SpaceAround,
    /// Equal shares between the items, and none outside.
    SpaceBetween,
}

pub const PLACINGS: [(&'static str, Placing); 6] = [
    ("start", Placing::Start),
    ("end", Placing::End),
    ("center", Placing::Center),
    ("space_evenly", Placing::SpaceEvenly),
    ("space_around", Placing::SpaceAround),
    ("space_between", Placing::SpaceBetween),
];

/// The placings of the items of a track across it.
pub const CROSS_PLACINGS: [(&'static str, Placing); 3] = [
    ("start", Placing::Start),
    ("end", Placing::End),
    ("center", Placing::Center),
];

/// Where a line of a text stands in its width.
#[derive(Clone, Copy, Debug, PartialEq, Eq)]
pub enum TextAlign {
    Left,
    Center,
    Right,
}

pub const TEXT_ALIGNS: [(&'static str, TextAlign); 3] = [
    ("left", TextAlign::Left),
    ("center", TextAlign::Center),
    ("right", TextAlign::Right),
];

/// What a pixel of an image holds.
#[derive(Clone, Copy, Debug, PartialEq, Eq)]
pub enum Format {
    /// A colour of sixteen bits, in two bytes, the high one first.
    Rgb565,
    /// A colour and its opacity, in three bytes.
    Rgb565Alpha,
    /// An opacity alone, in one byte.
    Alpha,
}

pub const FORMATS: [(&'static str, Format); 3] = [
    ("565", Format::Rgb565),
    ("565a", Format::Rgb565Alpha),
    ("alpha", Format::Alpha),
];
