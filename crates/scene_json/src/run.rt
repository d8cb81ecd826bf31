//! The top call: from the bytes of a scene to the lines of a script.
ghost use Rattle.scene_json.specs.Running.{ending, exit_status};
ghost use Rattle.scene_json.specs.Scenes.{scene_text};
ghost use Rattle.std.specs.Prelude.{◌≡◌, ◌↔◌, ◌≢◌, []};
ghost use Rattle.whole_sources.specs.Endings.{streams, Translates};

use crate::scene::scene_text;
use gui_base::NoMemory;
use gui_edge::{Failed, Sink, Source};
use std::alloc::Global;
use whole_sources::{Unread, read_whole};

/// How the reading of a scene ended.
#[derive(Clone, Copy, Debug, PartialEq, Eq)]
pub enum JsonStatus {
    /// The scene was written.
    Done,
    /// There is a word.
    Usage,
    /// A read failed.
    ReadFault,
    /// A write failed.
    WriteFault,
    /// Memory ran out before anything was written.
    NoMemory,
    /// The source has more than 16,777,216 bytes.
    TooLong,
    /// The bytes are no scene.
    Bad,
}

impl JsonStatus {
    /// The exit status of a program that ends so.
    pub fn number(self) -> u8
        ensures { result ≡ exit_status self }
    {
        match self {
            JsonStatus::Done => 0,
            JsonStatus::Usage => 2,
            JsonStatus::ReadFault => 3,
            JsonStatus::WriteFault => 4,
            JsonStatus::NoMemory => 6,
            JsonStatus::TooLong => 7,
            JsonStatus::Bad => 8,
        }
    }
}

/// Reads a scene in JSON, and writes the lines of a script that make its tree on the first screen. The source is
/// read whole before the first byte is written. There are to be no words.
#[tactic(auto, using(whole_sources::proofs::Endings::endings))]
pub fn run_json<S: Source, O: Sink>(
    alloc: Global,
    words: &[&str],
    source: &mut S,
    out: &mut O,
) -> JsonStatus
    ensures usage { result ≡ JsonStatus.Usage ↔ (words.now ≢ []) }
    ensures translates { words.now ≡ []
        → Translates scene_text (streams (S.state source.old) (O.state out.old))
        (streams (S.state source.new) (O.state out.new)) (ending result) }

    // If there is a word, nothing is touched.
    ensures unread { result ≡ JsonStatus.Usage → source.new ≡ source.old }
    ensures unwritten { result ≡ JsonStatus.Usage → out.new ≡ out.old }
{
    if !words.is_empty() {
        return JsonStatus::Usage;
    }
    let bytes = match read_whole(alloc, source) {
        Ok(bytes) => bytes,
        Err(Unread::ReadFault) => return JsonStatus::ReadFault,
        Err(Unread::NoMemory) => return JsonStatus::NoMemory,
        Err(Unread::TooLong) => return JsonStatus::TooLong,
    };
    let text = match scene_text(alloc, &bytes) {
        Ok(Some(text)) => text,
        Ok(None) => return JsonStatus::Bad,
        Err(NoMemory) => return JsonStatus::NoMemory,
    };
    match out.put(&text) {
        Ok(()) => JsonStatus::Done,
        Err(Failed) => JsonStatus::WriteFault,
    }
}
