//! How a run ended.

/// How a run ended. The numbers are those of the program's exit status.
#[derive(Clone, Copy, Debug, PartialEq, Eq)]
pub enum Status {
    /// The script was read to its end, no line was refused and no frame faulted.
    Done = 0,
    /// The script was read to its end, and a line was refused or a frame faulted.
    Noted = 1,
    /// The words have no limits.
    Usage = 2,
    /// A read of the script failed.
    ReadFault = 3,
    /// A write of the log or of a frame failed.
    WriteFault = 4,
    /// The panel could not be opened.
    PanelFault = 5,
    /// Memory ran out at the opening.
    NoMemory = 6,
    /// The script has more than 16,777,216 bytes.
    TooLong = 7,
}
