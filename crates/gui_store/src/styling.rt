//! The changes of styles.
ghost use Rattle.std.specs.Prelude.{◌≡◌, true, List};
ghost use Rattle.style_defs.specs.Book.{Book};
ghost use Rattle.text_defs.specs.Fonts.{Font};
ghost use Rattle.scene_defs.specs.Deeds.{is_in_range, styling_of};
ghost use Rattle.gui_store.specs.Styling.{named_by, IsRestyled};

use crate::assets::font_fault;
use gui_base::{Handle, Refusal};
use gui_font::Fonts;
use gui_style::Styles;
use scene_defs::Change;

/// The object that a change of styles names.
pub(crate) fn named_by(change: &Change) -> Option<Handle>
    ensures { (fonts : List Font) (book : Book) → result ≡ named_by (styling_of fonts book change.now) }
{
    match *change {
        Change::Use(h, _, _) | Change::Unuse(h, _, _) => Some(h),
        Change::Local(h, _, _, _) | Change::Unlocal(h, _, _) => Some(h),
        _ => None,
    }
}

/// Carries out a change of styles, of an object that is there if it names one. Any other change is unknown.
pub(crate) fn restyle(styles: &mut Styles, fonts: &Fonts, change: &Change) -> Result<(), Refusal>
    requires { is_in_range change.now ≡ true }
    ensures { IsRestyled styles.old styles.new (styling_of fonts.now.fonts styles.old.book change.now)
        result }
{
    match *change {
        Change::Style(s) => styles.style(s),
        Change::Set(s, prop, value) => {
            if !styles.has_style(s) {
                return Err(Refusal::Unknown);
            }
            if let Some(refusal) = font_fault(fonts, prop, value) {
                return Err(refusal);
            }
            styles.style_prop(s, prop, value)
        }
        Change::Unset(s, prop) => styles.unset_prop(s, prop),
        Change::Use(h, s, selector) => styles.add_style(h, s, selector),
        Change::Unuse(h, s, selector) => styles.remove_style(h, s, selector),
        Change::Local(h, selector, prop, value) => {
            if let Some(refusal) = font_fault(fonts, prop, value) {
                return Err(refusal);
            }
            styles.set_local(h, selector, prop, value)
        }
        Change::Unlocal(h, selector, prop) => styles.unset_local(h, selector, prop),
        _ => Err(Refusal::Unknown),
    }
}
