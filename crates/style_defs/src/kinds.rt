//! What each kind of object sets by itself: it holds if nothing else is set or inherited.

use gui_base::{Part, Prop};

/// A part, the states that it is for with a bit for each, a property, and its value.
pub type KindRow = (Part, u16, Prop, i32);

const CHECKED: u16 = 0x01;

const PRESSED: u16 = 0x20;

const LIGHT_GREY: i32 = 0xE0E0E0;

const BLUE: i32 = 0x2196F3;

const DARK_BLUE: i32 = 0x1976D2;

const GREY: i32 = 0x9E9E9E;

/// The bars of every kind are filled.
pub const SCROLLBAR: [KindRow; 2] = [
    (Part::Scrollbar, 0, Prop::BgOpa, 255),
    (Part::Scrollbar, 0, Prop::BgColor, GREY),
];

/// A screen is filled.
pub const SCREEN: [KindRow; 1] = [(Part::Main, 0, Prop::BgOpa, 255)];

/// A button is filled, and darker while it is pressed.
pub const BUTTON: [KindRow; 7] = [
    (Part::Main, 0, Prop::BgOpa, 255),
    (Part::Main, 0, Prop::BgColor, BLUE),
    (Part::Main, PRESSED, Prop::BgColor, DARK_BLUE),
    (Part::Main, 0, Prop::PadTop, 4),
    (Part::Main, 0, Prop::PadBottom, 4),
    (Part::Main, 0, Prop::PadLeft, 4),
    (Part::Main, 0, Prop::PadRight, 4),
];

/// A bar is filled, and its share stands out.
pub const BAR: [KindRow; 4] = [
    (Part::Main, 0, Prop::BgOpa, 255),
    (Part::Main, 0, Prop::BgColor, LIGHT_GREY),
    (Part::Indicator, 0, Prop::BgOpa, 255),
    (Part::Indicator, 0, Prop::BgColor, BLUE),
];

/// A slider is a bar with a knob.
pub const SLIDER: [KindRow; 6] = [
    (Part::Main, 0, Prop::BgOpa, 255),
    (Part::Main, 0, Prop::BgColor, LIGHT_GREY),
    (Part::Indicator, 0, Prop::BgOpa, 255),
    (Part::Indicator, 0, Prop::BgColor, BLUE),
    (Part::Knob, 0, Prop::BgOpa, 255),
    (Part::Knob, 0, Prop::BgColor, DARK_BLUE),
];

/// A checkbox is an empty box, which is filled while it is checked, and stands apart from its text.
pub const CHECKBOX: [KindRow; 4] = [
    (Part::Main, 0, Prop::PadColumn, 4),
    (Part::Indicator, 0, Prop::BorderWidth, 1),
    (Part::Indicator, CHECKED, Prop::BgOpa, 255),
    (Part::Indicator, CHECKED, Prop::BgColor, BLUE),
];

/// A list is filled and has a border, and its objects stand apart.
pub const LIST: [KindRow; 7] = [
    (Part::Main, 0, Prop::BgOpa, 255),
    (Part::Main, 0, Prop::BorderWidth, 1),
    (Part::Main, 0, Prop::PadTop, 2),
    (Part::Main, 0, Prop::PadBottom, 2),
    (Part::Main, 0, Prop::PadLeft, 2),
    (Part::Main, 0, Prop::PadRight, 2),
    (Part::Main, 0, Prop::PadRow, 2),
];
