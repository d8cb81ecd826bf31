//! The values of a part, as numbers and colours.
ghost use Rattle.std.specs.Prelude.{◌≡◌, ◌≤◌};
ghost use Rattle.gui_widgets.specs.Bounds.{most_of};
ghost use Rattle.widget_defs.specs.Items.{rgb_of};
ghost use Rattle.widget_defs.specs.Looks.{AreValues, value_in, number_of, align_of, text_look, left_look};

use gui_base::{Prop, Rgb565};
use gui_font::{TextAlign, TextLook};
use widget_defs::Values;

/// The value of a property.
pub fn value_in(values: &Values, prop: Prop) -> i32
    ensures { result ≡ value_in values.now prop }
{
    values.0[prop as usize]
}

/// The value of a property that is never below 0.
pub(crate) fn number(values: &Values, prop: Prop) -> u32
    requires { AreValues (value_in values.now) }
    ensures value { result ≡ number_of (value_in values.now prop) }
    ensures most { result ≤ most_of prop }
{
    value_in(values, prop).unsigned_abs()
}

/// The value of a property that is never above 255.
pub(crate) fn byte(values: &Values, prop: Prop) -> u8
    requires values { AreValues (value_in values.now) }
    requires small { most_of prop ≤ 255 }
    ensures value { result ≡ number_of (value_in values.now prop) }
    ensures most { result ≤ most_of prop }
{
    number(values, prop) as u8
}

/// The value of a property that is a colour.
pub(crate) fn color(values: &Values, prop: Prop) -> Rgb565
    requires values { AreValues (value_in values.now) }
    requires small { most_of prop ≤ 16777215 }
    ensures { result ≡ rgb_of (value_in values.now prop) }
{
    let n = number(values, prop);
    let red = (n / 65536) as u8;
    let green = (n / 256 % 256) as u8;
    let blue = (n % 256) as u8;
    Rgb565::from_rgb(red, green, blue)
}

/// An alignment by its number.
fn align_of(n: u32) -> TextAlign
    ensures { result ≡ align_of n }
{
    match n {
        0 => TextAlign::Left,
        1 => TextAlign::Center,
        _ => TextAlign::Right,
    }
}

/// How a text is set.
pub(crate) fn text_look(values: &Values) -> TextLook
    requires { AreValues (value_in values.now) }
    ensures look { result ≡ text_look (value_in values.now) }
    ensures letter { result.letter ≤ 100 }
    ensures line { result.line ≤ 100 }
{
    TextLook {
        font: byte(values, Prop::TextFont),
        letter: byte(values, Prop::TextLetterSpace),
        line: byte(values, Prop::TextLineSpace),
        align: align_of(number(values, Prop::TextAlign)),
    }
}

/// How a text looks whose lines stand at the left, whatever its alignment.
pub(crate) fn left_look(values: &Values) -> TextLook
    requires { AreValues (value_in values.now) }
    ensures look { result ≡ left_look (value_in values.now) }
    ensures letter { result.letter ≤ 100 }
    ensures line { result.line ≤ 100 }
{
    TextLook {
        align: TextAlign::Left,
        ..text_look(values)
    }
}
