//! Whether the numbers of a change lie in their intervals.
ghost use Rattle.std.specs.Prelude.{◌≡◌, ◌&&◌};
ghost use Rattle.gui_base.specs.Intervals.{is_counted};
ghost use Rattle.scene_defs.specs.Deeds.{is_in_range};
ghost use Rattle.scene_defs.specs.Assets.{is_shape};

use crate::setter::setter_of;
use gui_base::intervals::{
    ADVANCE, CODE, FONT, FONT_HEIGHT, GLYPH_HEIGHT, GLYPH_OFFSET, GLYPH_WIDTH, HANDLE, IMAGE,
    IMAGE_ROW, IMAGE_SIDE, INDEX, NEW_HANDLE, STYLE,
};
use scene_defs::Change;
use text_defs::GlyphBox;

/// Whether each number of a change lies in its interval, and its text is one that an object may have.
pub fn is_in_range(change: &Change) -> bool
    ensures { result ≡ is_in_range change.now }
{
    if let Some(setter) = setter_of(change) {
        return HANDLE.holds(setter.handle.0) && setter.fits;
    }
    match *change {
        Change::Screen(n) => NEW_HANDLE.holds(n.0),
        Change::New(n, parent, _) => NEW_HANDLE.holds(n.0) && HANDLE.holds(parent.0),
        Change::Parent(h, parent) => HANDLE.holds(h.0) && HANDLE.holds(parent.0),
        Change::Index(h, index) => HANDLE.holds(h.0) && INDEX.holds(index),
        Change::Delete(h) | Change::Front(h) | Change::Back(h) | Change::Load(h) => HANDLE.holds(
            h.0,
        ),
        Change::Text(h, ref text) => HANDLE.holds(h.0) && text.fits(),
        Change::Style(s) | Change::Unset(s, _) => STYLE.holds(s),
        Change::Set(s, prop, value) => STYLE.holds(s) && prop.values().holds(value),
        Change::Use(h, s, _) | Change::Unuse(h, s, _) => HANDLE.holds(h.0) && STYLE.holds(s),
        Change::Local(h, _, prop, value) => HANDLE.holds(h.0) && prop.values().holds(value),
        Change::Unlocal(h, _, _) => HANDLE.holds(h.0),
        Change::Font(f, height, advance) => is_font(f, height, advance),
        Change::Glyph(f, code, shape, _) => {
            FONT.holds(f as u16) && CODE.holds(code as i32) && is_shape(shape)
        }
        Change::EndFont(f) => FONT.holds(f as u16),
        Change::Image(i, _, w, h) => IMAGE.holds(i) && IMAGE_SIDE.holds(w) && IMAGE_SIDE.holds(h),
        Change::ImageRow(i, y, _) => IMAGE.holds(i) && IMAGE_ROW.holds(y),
        _ => false,
    }
}

/// Whether each number of a font lies in its interval.
fn is_font(f: u8, height: u8, advance: u8) -> bool
    ensures { result ≡ (is_counted FONT f && (is_counted FONT_HEIGHT height && is_counted ADVANCE advance)) }
{
    FONT.holds(f as u16) && FONT_HEIGHT.holds(height as u16) && ADVANCE.holds(advance as u16)
}

/// Whether each number of a glyph's box lies in its interval.
fn is_shape(shape: GlyphBox) -> bool
    ensures { result ≡ is_shape shape }
{
    ADVANCE.holds(shape.advance as u16)
        && GLYPH_WIDTH.holds(shape.w as u16)
        && GLYPH_HEIGHT.holds(shape.h as u16)
        && GLYPH_OFFSET.holds(i32::from(shape.ox))
        && GLYPH_OFFSET.holds(i32::from(shape.oy))
}
