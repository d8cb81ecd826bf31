//! The definitions of a session: what a viewer says over the RFB protocol, version 3.8, and what it is told.
//! There is no code here but the words that code and definitions share, and laws.
#![tactic(auto)]

ghost use Rattle.session_defs.specs.Examples.{SessionsAreWorked};
ghost use Rattle.session_defs.specs.Reference.{ReferenceSessions};
ghost use Rattle.session_defs.specs.Runs.{SessionsAreRead, RunsAreSeen};
ghost use Rattle.session_defs.specs.Viewing.{AnswersAreSeen};
ghost use Rattle.session_defs.specs.Watching.{SessionsAreSeen, MessagesAreSeen};

/// A channel of a pixel's number.
#[derive(Clone, Copy, Debug, PartialEq, Eq)]
pub struct Channel {
    /// Its greatest value, from 1 on.
    pub most: u16,
    /// By how many bits it is shifted, up to 31.
    pub shift: u8,
}

/// How a viewer wants its pixels: a number for each colour, and bytes for each number.
#[derive(Clone, Copy, Debug, PartialEq, Eq)]
pub struct Format {
    /// How many bits a pixel has: 8, 16 or 32.
    pub bits: u8,
    /// Whether the high byte comes first.
    pub big: bool,
    pub red: Channel,
    pub green: Channel,
    pub blue: Channel,
}

/// Why a session is at fault.
#[derive(Clone, Copy, Debug, PartialEq, Eq)]
pub enum RfbBad {
    /// The bytes end before the line `rfb`.
    NoSession,
    /// The viewer has another version.
    Version,
    /// The viewer chooses a security that is not offered.
    Security,
    /// A message is of no known kind.
    Message,
    /// A format may not be asked for.
    Format,
    /// The bytes end within what the viewer says.
    Cut,
}

/// Sessions that were worked out by hand.
pub fn worked_sessions()
    ensures { SessionsAreWorked }
{}

/// After each answer a viewer has the numbers of the picture in the area that it asked for.
pub fn answers_are_seen()
    ensures { AnswersAreSeen }
{}

/// So in the course of a session, whatever its parts are.
pub fn sessions_are_seen()
    ensures sound { SessionsAreSeen }
    ensures answers { MessagesAreSeen }
{}

/// A viewer reads what it has off the bytes that it gets, in the formats that it set: of each session, and of the
/// messages of each run.
pub fn bytes_are_read()
    ensures read { SessionsAreRead }
    ensures seen { RunsAreSeen }
{}

/// Sessions that were made at random come to what a reference implementation gives.
pub fn reference_sessions()
    ensures { ReferenceSessions }
{}
