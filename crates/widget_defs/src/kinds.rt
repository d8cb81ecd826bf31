//! What a kind of object is. Each kind has one row, and definitions and code cite it.

use gui_base::{Flow, Kind, Length};

/// What objects paint in their content area, below their children.
#[derive(Clone, Copy, Debug, PartialEq, Eq)]
pub enum Shown {
    Nothing,
    /// The text, in lines as wide as the area.
    Text,
    Picture,
    /// The indicator, over as much of the width as the value is of its range.
    Share,
    /// The indicator, over as much of the width as the value is of its range, and the knob where the value puts
    /// it.
    ShareAndKnob,
    /// The indicator as a box, and the text beside it.
    BoxAndText,
}

/// What all objects of a kind have in common.
#[derive(Clone, Copy, Debug, PartialEq, Eq)]
pub struct KindFacts {
    /// The flags that are on at a new one, a bit for each, as [`gui_base::Flag::bit`] says.
    pub flags: u8,
    /// The wanted width of a new one. Roots have the panel's size, whatever theirs is.
    pub width: Length,
    /// The wanted height of a new one.
    pub height: Length,
    /// The flow of a new one.
    pub flow: Flow,
    pub shows: Shown,
    /// It may be given a text.
    pub text: bool,
    /// It may be given a value and a range.
    pub value: bool,
    /// It may be given a picture.
    pub picture: bool,
    /// Its value depends on where it is pressed, and on arrows.
    pub slides: bool,
}

const CLICKABLE: u8 = 2;

const CHECKABLE: u8 = 4;

const SCROLLABLE: u8 = 16;

/// What a kind is if its row says nothing else.
const PLAIN: KindFacts = KindFacts {
    flags: CLICKABLE,
    width: Length::Pixels(100),
    height: Length::Pixels(50),
    flow: Flow::Free,
    shows: Shown::Nothing,
    text: false,
    value: false,
    picture: false,
    slides: false,
};

pub const SCREEN: KindFacts = PLAIN;

pub const LAYER: KindFacts = KindFacts { flags: 0, ..PLAIN };

pub const OBJ: KindFacts = PLAIN;

pub const LABEL: KindFacts = KindFacts {
    flags: 0,
    width: Length::Content,
    height: Length::Content,
    shows: Shown::Text,
    text: true,
    ..PLAIN
};

pub const BUTTON: KindFacts = KindFacts {
    width: Length::Content,
    height: Length::Content,
    ..PLAIN
};

pub const IMAGE: KindFacts = KindFacts {
    flags: 0,
    width: Length::Content,
    height: Length::Content,
    shows: Shown::Picture,
    picture: true,
    ..PLAIN
};

pub const BAR: KindFacts = KindFacts {
    flags: 0,
    height: Length::Pixels(10),
    shows: Shown::Share,
    value: true,
    ..PLAIN
};

pub const SLIDER: KindFacts = KindFacts {
    height: Length::Pixels(10),
    shows: Shown::ShareAndKnob,
    value: true,
    slides: true,
    ..PLAIN
};

pub const CHECKBOX: KindFacts = KindFacts {
    flags: CLICKABLE | CHECKABLE,
    width: Length::Content,
    height: Length::Content,
    shows: Shown::BoxAndText,
    text: true,
    ..PLAIN
};

pub const LIST: KindFacts = KindFacts {
    flags: CLICKABLE | SCROLLABLE,
    height: Length::Pixels(100),
    flow: Flow::Column,
    ..PLAIN
};
