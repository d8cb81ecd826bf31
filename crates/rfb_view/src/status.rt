//! How a session ended.
ghost use Rattle.std.specs.Prelude.{◌≡◌};
ghost use Rattle.rfb_view.specs.Status.{exit_status};

use session_defs::RfbBad;

/// How a session ended.
#[derive(Clone, Copy, Debug, PartialEq, Eq)]
pub enum RfbStatus {
    /// The source ended after what a viewer said, and no line and no action was refused.
    Done,
    /// The source ended after what a viewer said, and a line or an action was refused.
    Noted,
    /// The words have no settings.
    Usage,
    /// A read failed.
    ReadFault,
    /// A write of the output or of the log failed.
    WriteFault,
    /// Memory ran out at the opening.
    NoMemory,
    /// The script is too long, or the session.
    TooLong,
    /// The session is bad, for this reason.
    Bad(RfbBad),
}

impl RfbStatus {
    /// The exit status of a program that ends so.
    pub fn number(self) -> u8
        ensures { result ≡ exit_status self }
    {
        match self {
            RfbStatus::Done => 0,
            RfbStatus::Noted => 1,
            RfbStatus::Usage => 2,
            RfbStatus::ReadFault => 3,
            RfbStatus::WriteFault => 4,
            RfbStatus::NoMemory => 6,
            RfbStatus::TooLong => 7,
            RfbStatus::Bad(_) => 8,
        }
    }
}
