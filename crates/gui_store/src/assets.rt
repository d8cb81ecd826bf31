//! The changes of fonts and images.
ghost use Rattle.std.specs.Prelude.{◌≡◌, true};
ghost use Rattle.gui_base.specs.Props.{is_value};
ghost use Rattle.gui_base.specs.Refusing.{first_of};
ghost use Rattle.scene_defs.specs.Deeds.{asset_change_of};
ghost use Rattle.scene_defs.specs.Styling.{font_tests};
ghost use Rattle.gui_store.specs.Assets.{AreBuilt};

use gui_base::{Prop, Refusal};
use gui_font::{Fonts, Images};
use scene_defs::{Change, MOST_BYTES};

/// Why a value of a property is refused: it names a font that is not there, or is not finished.
pub(crate) fn font_fault(fonts: &Fonts, prop: Prop, value: i32) -> Option<Refusal>
    requires { is_value prop value ≡ true }
    ensures { result ≡ first_of (font_tests fonts.now.fonts prop value) None }
{
    if prop != Prop::TextFont {
        return None;
    }
    match fonts.finished(value as u8) {
        None => Some(Refusal::Unknown),
        Some(false) => Some(Refusal::Place),
        Some(true) => None,
    }
}

/// Carries out a change of fonts or images. Any other change is unknown.
pub(crate) fn build(fonts: &mut Fonts, images: &mut Images, change: &Change) -> Result<(), Refusal>
    ensures { AreBuilt fonts.old fonts.new images.old images.new
        (asset_change_of fonts.old.fonts images.old.images change.now) result }
{
    match change {
        Change::Font(f, height, advance) => fonts.begin(*f, *height, *advance),
        Change::Glyph(f, code, shape, rows) => {
            fonts.glyph(*f, *code, *shape, rows.read(&mut [0; MOST_BYTES]))
        }
        Change::EndFont(f) => fonts.finish(*f),
        Change::Image(i, format, w, h) => images.begin(*i, *format, *w, *h),
        Change::ImageRow(i, y, row) => images.row(*i, *y, row.read(&mut [0; MOST_BYTES])),
        _ => Err(Refusal::Unknown),
    }
}
