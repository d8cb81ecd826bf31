//! The tables that definitions and code share, written a second time as tables of words and numbers, and the
//! built-in font as a sheet of digits and as drawn letters. There is no code here.
#![tactic(auto)]

ghost use Rattle.table_checks.specs.Pools.{PoolsAreThese, DefaultsAreThese, MostIsTaken, MoreIsNot};
ghost use Rattle.table_checks.specs.Pools.{LeastIsTaken, SizesAreThese, BlocksAreThese};
ghost use Rattle.table_checks.specs.Font.{SheetIsTheFont, LettersAreDrawn};
ghost use Rattle.table_checks.specs.Numbers.{CountsAreThese, IntervalsAreThese, BoundsAreThese};
ghost use Rattle.table_checks.specs.Properties.{PropertiesAreThese, StatesAreThese, FlagsAreThese};
ghost use Rattle.table_checks.specs.Words.{WordsAreThese, CommandsAreThese, LinesAreThese};
ghost use Rattle.table_checks.specs.Kinds.{NewRowsAreThese, KindsSetThese};

/// The pools with their names, ranges and defaults, and what the words of the command line make of them. Each
/// pool takes the least and the greatest number of its range. For one more slot there are no limits.
pub fn pools()
    ensures rows { PoolsAreThese }
    ensures defaults { DefaultsAreThese }
    ensures most { MostIsTaken }
    ensures more { MoreIsNot }
    ensures least { LeastIsTaken }
    ensures sizes { SizesAreThese }
    ensures blocks { BlocksAreThese }
{}

/// The built-in font: its columns as they stand on a sheet of hexadecimal digits, and letters as they look.
pub fn built_in_font()
    ensures sheet { SheetIsTheFont }
    ensures letters { LettersAreDrawn }
{}

/// The intervals of numbers, and the bounds that stand alone.
pub fn numbers()
    ensures counts { CountsAreThese }
    ensures intervals { IntervalsAreThese }
    ensures bounds { BoundsAreThese }
{}

/// The properties with their values, defaults and inheritance; the numbers of states and flags.
pub fn properties()
    ensures properties { PropertiesAreThese }
    ensures states { StatesAreThese }
    ensures flags { FlagsAreThese }
{}

/// The words of the language, and what lines say that begin with those commands.
pub fn words()
    ensures words { WordsAreThese }
    ensures commands { CommandsAreThese }
    ensures lines { LinesAreThese }
{}

/// What a new object of each kind has, and what each kind sets by itself.
pub fn kinds()
    ensures rows { NewRowsAreThese }
    ensures sets { KindsSetThese }
{}
