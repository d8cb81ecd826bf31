//! How large what an object shows is by itself.
ghost use Rattle.std.specs.Prelude.{◌≡◌, ◌≤◌, None, Some, pos, ◌≤ℤ◌, option_map};
ghost use Rattle.std.specs.Option.{ForSome};
ghost use Rattle.gui_base.specs.Area.{nat_of};
ghost use Rattle.gui_widgets.specs.Looks.{IsLook, widget_of};
ghost use Rattle.widget_defs.specs.Sizes.{own_width, own_height, text_size, text_offset};

use crate::look::Look;
use crate::values::{number, text_look};
use gui_base::Prop;
use gui_kinds::shows;
use widget_defs::kinds::Shown;

/// The own width of an object. A label has its text's, if lines end at newlines alone, and an image its
/// picture's. A checkbox has that of its box and its text with `pad_column` between them. All others have 0.
pub fn own_width(look: &Look<'_>) -> i32
    requires { IsLook look.now }
    ensures value { result ≡ pos (own_width (widget_of look.now)) }
    ensures small { result ≤ℤ pos 1000000 }
{
    match shows(look.kind) {
        Shown::Text => text_size(look, None).0,
        Shown::Picture => match look.image {
            None => 0,
            Some(image) => image.w as i32,
        },
        Shown::BoxAndText => text_offset(look) as i32 + text_size(look, None).0,
        _ => 0,
    }
}

/// The own height of an object whose content area is so wide. A label has its text's, in lines of this width,
/// and an image its picture's. A checkbox has the greater of its box's and its text's. All others have 0.
pub fn own_height(look: &Look<'_>, content: i32) -> i32
    requires look { IsLook look.now }
    requires content { pos 0 ≤ℤ content }
    ensures value { result ≡ pos (own_height (widget_of look.now) (nat_of content)) }
    ensures small { result ≤ℤ pos 1000000 }
{
    match shows(look.kind) {
        Shown::Text => text_size(look, Some(content)).1,
        Shown::Picture => match look.image {
            None => 0,
            Some(image) => image.h as i32,
        },
        Shown::BoxAndText => box_side(look).max(text_size(look, None).1),
        _ => 0,
    }
}

/// The widest run of an object's text, in so many pixels at most, and the height of its lines.
pub(crate) fn text_size(look: &Look<'_>, width: Option<i32>) -> (i32, i32)
    requires look { IsLook look.now }
    requires width { ForSome width (λ w. pos 0 ≤ℤ w) }
    ensures size { let size = text_size (widget_of look.now) (option_map nat_of width) in
        result ≡ (pos size.0, pos size.1) }
    ensures small { (result.0 ≤ℤ pos 355000) × (result.1 ≤ℤ pos 355255) }
{
    look.fonts.measure(text_look(&look.main), look.text, width)
}

/// The side of a checkbox's box: the height of a line.
pub(crate) fn box_side(look: &Look<'_>) -> i32
    requires { IsLook look.now }
    ensures value { result ≡ pos (widget_of look.now).face.height }
    ensures small { result ≤ℤ pos 255 }
{
    i32::from(look.fonts.height(text_look(&look.main).font))
}

/// From the left of a checkbox's box to its text.
pub(crate) fn text_offset(look: &Look<'_>) -> u32
    requires { IsLook look.now }
    ensures value { result ≡ text_offset (widget_of look.now) }
    ensures small { result ≤ 1255 }
{
    box_side(look).unsigned_abs() + number(&look.main, Prop::PadColumn)
}
