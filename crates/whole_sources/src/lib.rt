//! Reads a source whole, and says what a program comes to that then writes the text that its bytes mean.
#![tactic(auto)]

ghost use Rattle.whole_sources.specs.Whole.{ReadsWhole, whole};

use gui_edge::{Failed, Source};
use std::alloc::Global;

/// The most bytes of a source that is read whole.
pub const MOST_BYTES: usize = 16_777_216;

/// Why a source was not read whole.
#[derive(Clone, Copy, Debug, PartialEq, Eq)]
pub enum Unread {
    /// A read failed.
    ReadFault,
    /// Memory ran out.
    NoMemory,
    /// It has more than [`MOST_BYTES`].
    TooLong,
}

/// All bytes of a source, up to [`MOST_BYTES`]. Memory is taken as they come.
pub fn read_whole<S: Source>(alloc: Global, source: &mut S) -> Result<Vec<u8>, Unread>
    ensures { ReadsWhole (S.state source.old) (S.state source.new) (whole result) }
{
    let mut bytes = Vec::new(alloc);
    let mut buffer = [0; 4096];
    loop {
        let count = match source.read(&mut buffer) {
            Ok(count) => count,
            Err(Failed) => return Err(Unread::ReadFault),
        };
        if count == 0 {
            return Ok(bytes);
        }
        // This comes before the bytes are kept, so that it does not hang on memory.
        if count > MOST_BYTES - bytes.len() {
            return Err(Unread::TooLong);
        }
        let piece = buffer.split_at(count).0;
        if bytes.extend_from_slice(piece).is_err() {
            return Err(Unread::NoMemory);
        }
    }
}
