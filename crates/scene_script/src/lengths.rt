//! Wanted widths and heights.
ghost use Rattle.std.specs.Prelude.{◌≡◌};
ghost use Rattle.run_defs.specs.Lengths.{length_said};

use crate::numbers::{count, small};
use gui_base::Length;
use gui_base::intervals::{EXTENT, PERCENT};
use run_defs::LineFault;

/// A wanted width or height: a number of pixels, a number and a percent sign, or `content`.
#[tactic(auto, unfolding(run_defs::specs::Lengths::length_said))]
pub(crate) fn length(word: &[u8]) -> Result<Length, LineFault>
    ensures { result ≡ length_said word.now }
{
    if let [number @ .., b'%'] = word {
        return Ok(Length::Percent(small(number, PERCENT)?));
    }
    if word == b"content".as_slice() {
        return Ok(Length::Content);
    }
    Ok(Length::Pixels(count(word, EXTENT)?))
}
