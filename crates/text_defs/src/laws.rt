//! What follows from the definitions. Each function does nothing: its contract is a law, which is proved.
ghost use Rattle.text_defs.specs.Examples.{LinesAreWorked, InkIsWorked, ImagesAreWorked};
ghost use Rattle.text_defs.specs.Laws.{LinesEndByRule, WideLinesEndAtNewlines};
ghost use Rattle.text_defs.specs.Reference.{BuiltInLines, UnevenLines};

/// A segment goes whole into one line if it fits. Otherwise its first line ends after the last space that fits,
/// or after as many characters as fit. In a width of at least the widest run, lines end at newlines alone.
#[tactic(auto, using(crate::proofs::Ending::line_ends, crate::proofs::Ending::wide_lines_end_at_newlines))]
pub fn lines_end_by_rule()
    ensures rule { LinesEndByRule }
    ensures wide { WideLinesEndAtNewlines }
{}

/// Texts and images that were worked out by hand.
pub fn worked_examples()
    ensures lines { LinesAreWorked }
    ensures ink { InkIsWorked }
    ensures images { ImagesAreWorked }
{}

/// Two hundred texts have the lines that a reference implementation gives.
pub fn reference_lines()
    ensures built_in { BuiltInLines }
    ensures uneven { UnevenLines }
{}
