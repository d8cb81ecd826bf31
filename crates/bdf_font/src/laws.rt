//! What follows from the definitions. Each function does nothing: its contract is a law, which is proved.
ghost use Rattle.bdf_font.specs.Asked.{LinesAsk};
ghost use Rattle.bdf_font.specs.Beginnings.{BadLineIsFirst};
ghost use Rattle.bdf_font.specs.Examples.{FontsAreWorked};

/// Fonts that were worked out by hand.
#[tactic(auto, using(crate::proofs::Worked::fonts_are_worked))]
pub fn worked_fonts()
    ensures { FontsAreWorked }
{}

/// The lines of a font's text ask for the font, for its glyphs in order and for its end, and the last of them
/// is a comment.
#[tactic(auto, using(crate::proofs::AskedAll::lines_ask))]
pub fn font_lines_ask()
    ensures { LinesAsk }
{}

/// If bytes are no font, the number is that of the first line at which the lines so far begin none: those
/// before it can go on to be one. It follows the last line if only the end is missing.
#[tactic(auto, using(crate::proofs::Beginnings::bad_line_is_first))]
pub fn bad_line_is_first()
    ensures { BadLineIsFirst }
{}
