//! What is printed is read again. Each function does nothing: its contract is a law, which is proved.
ghost use Rattle.line_texts.specs.Commands.{FontLinesSay, SceneLinesSay};
ghost use Rattle.line_texts.specs.Laws.{CountSays, DigitsSay, NumberSays, PrintsShort, PrintsWords};
ghost use Rattle.line_texts.specs.Laws.{TextSays, WordsSay};
ghost use Rattle.line_texts.specs.MadeLines.{MadeCommandsSay};

/// The text of a line says what its words say, if its name begins no comment, its words are words of a line,
/// and it is not too long.
#[tactic(auto, using(crate::proofs::Words::words_say_so))]
pub fn lines_say_their_words()
    ensures { WordsSay }
{}

/// A number that is printed says itself as a number of an interval that it lies in.
#[tactic(auto, using(crate::proofs::Numbers::number_says, crate::proofs::Numbers::count_says))]
pub fn numbers_say_themselves()
    ensures signed { NumberSays }
    ensures counts { CountSays }
{}

/// Hexadecimal digits say the bytes that they stand for.
#[tactic(auto, using(crate::proofs::Digits::digits_say))]
pub fn digits_say_their_bytes()
    ensures { DigitsSay }
{}

/// A text between quotes says itself.
#[tactic(auto, using(crate::proofs::Texts::text_says))]
pub fn texts_say_themselves()
    ensures { TextSays }
{}

/// Numbers, digits and texts that are printed are words of a line, and not longer than this.
#[tactic(auto, using(crate::proofs::Plain::prints_words, crate::proofs::Plain::prints_short))]
pub fn printed_words_are_words()
    ensures words { PrintsWords }
    ensures short { PrintsShort }
{}

/// The lines by which fonts and trees of objects are made say their commands, according to what their words
/// say.
#[tactic(auto, using(crate::proofs::Commands::font_lines_say, crate::proofs::Commands::scene_lines_say))]
pub fn lines_say_their_commands()
    ensures font { FontLinesSay }
    ensures scene { SceneLinesSay }
{}

/// The lines of the made script say the changes that are drawn with them.
#[tactic(auto, using(crate::proofs::MadeLines::made_commands_say))]
pub fn made_lines_say_their_changes()
    ensures { MadeCommandsSay }
{}
