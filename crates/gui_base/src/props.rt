//! The properties of the parts of objects.
ghost use Rattle.std.specs.Prelude.{◌≡◌};

use crate::intervals::{BORDER, COLOR, Interval, OPACITY, PAD, TEXT_ALIGN, TEXT_FONT, TEXT_SPACE};

/// A property of a part. Its value is a number.
///
/// A colour of red r, green g and blue b, from 0 to 255 each, is `65536 * r + 256 * g + b`. An opacity is
/// from 0 to 255. Widths, pads and spaces are in pixels.
///
/// The properties of a text are inherited. If a part has no value, that of the object's own part holds, and
/// then those of the object's ancestors. Other properties are not inherited.
#[derive(Clone, Copy, Debug, PartialEq, Eq)]
pub enum Prop {
    /// The colour of the fill. White if none is set.
    BgColor,
    /// The opacity of the fill. 0 if none is set.
    BgOpa,
    /// The colour of the border. Black if none is set.
    BorderColor,
    /// The opacity of the border. 255 if none is set.
    BorderOpa,
    /// The width of the border, from 0 to 100. 0 if none is set.
    BorderWidth,
    /// The space between the upper border and what is inside, from 0 to 1000. 0 if none is set.
    PadTop,
    /// The space above the lower border, from 0 to 1000. 0 if none is set.
    PadBottom,
    /// The space after the left border, from 0 to 1000. 0 if none is set.
    PadLeft,
    /// The space before the right border, from 0 to 1000. 0 if none is set.
    PadRight,
    /// The space between two rows of children, from 0 to 1000. 0 if none is set.
    PadRow,
    /// The space between two columns of children, from 0 to 1000. 0 if none is set.
    PadColumn,
    /// The colour in which an image of opacities alone is drawn. Black if none is set.
    ImgRecolor,
    /// The opacity of an image. 255 if none is set.
    ImgOpa,
    /// The colour of a text. Black if none is set.
    TextColor,
    /// The opacity of a text. 255 if none is set.
    TextOpa,
    /// The number of a text's font, from 0 to 99. The built-in font, 0, if none is set.
    TextFont,
    /// Where the lines of a text stand: 0 left, 1 center, 2 right. Left if none is set.
    TextAlign,
    /// The space between two characters, from 0 to 100. 0 if none is set.
    TextLetterSpace,
    /// The space between two lines, from 0 to 100. 0 if none is set.
    TextLineSpace,
}

pub const PROPS: [(&'static str, Prop); 19] = [
    ("bg_color", Prop::BgColor),
    ("bg_opa", Prop::BgOpa),
    ("border_color", Prop::BorderColor),
    ("border_opa", Prop::BorderOpa),
    ("border_width", Prop::BorderWidth),
    ("pad_top", Prop::PadTop),
    ("pad_bottom", Prop::PadBottom),
    ("pad_left", Prop::PadLeft),
    ("pad_right", Prop::PadRight),
    ("pad_row", Prop::PadRow),
    ("pad_column", Prop::PadColumn),
    ("img_recolor", Prop::ImgRecolor),
    ("img_opa", Prop::ImgOpa),
    ("text_color", Prop::TextColor),
    ("text_opa", Prop::TextOpa),
    ("text_font", Prop::TextFont),
    ("text_align", Prop::TextAlign),
    ("text_letter_space", Prop::TextLetterSpace),
    ("text_line_space", Prop::TextLineSpace),
];

impl Prop {
    ghost use Rattle.gui_base.specs.Props.{values_of, default_of, inherits};

    /// The values that it may have.
    pub fn values(self) -> Interval
        ensures { result ≡ values_of self }
    {
        match self {
            Prop::BgColor | Prop::BorderColor | Prop::ImgRecolor | Prop::TextColor => COLOR,
            Prop::BgOpa | Prop::BorderOpa | Prop::ImgOpa | Prop::TextOpa => OPACITY,
            Prop::BorderWidth => BORDER,
            Prop::PadTop | Prop::PadBottom | Prop::PadLeft | Prop::PadRight => PAD,
            Prop::PadRow | Prop::PadColumn => PAD,
            Prop::TextFont => TEXT_FONT,
            Prop::TextAlign => TEXT_ALIGN,
            Prop::TextLetterSpace | Prop::TextLineSpace => TEXT_SPACE,
        }
    }

    /// Its value if nothing sets it.
    pub fn default_value(self) -> i32
        ensures { result ≡ default_of self }
    {
        match self {
            Prop::BgColor => 0xff_ffff,
            Prop::BorderOpa | Prop::ImgOpa | Prop::TextOpa => 255,
            _ => 0,
        }
    }

    /// Whether it is inherited. If a part has no value of such a property, that of the object's own part holds,
    /// and then those of the object's ancestors.
    pub fn inherits(self) -> bool
        ensures { result ≡ inherits self }
    {
        match self {
            Prop::TextColor | Prop::TextOpa | Prop::TextFont => true,
            Prop::TextAlign | Prop::TextLetterSpace | Prop::TextLineSpace => true,
            _ => false,
        }
    }
}
