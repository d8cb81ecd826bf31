//! The top call: from the bytes of a font to the lines of a script.
ghost use Rattle.bdf_font.specs.Running.{font_number, ending, exit_status};
ghost use Rattle.bdf_font.specs.Texts.{font_text};
ghost use Rattle.std.specs.Prelude.{◌≡◌, ◌↔◌, None, IfSome, map};
ghost use Rattle.whole_sources.specs.Endings.{streams, Translates};

use crate::font::font_text;
use gui_base::NoMemory;
use gui_edge::{Failed, Sink, Source};
use scene_script::natural;
use std::alloc::Global;
use whole_sources::{Unread, read_whole};

/// How the reading of a font ended.
#[derive(Clone, Copy, Debug, PartialEq, Eq)]
pub enum BdfStatus {
    /// The font was written.
    Done,
    /// The words are not one number from 1 to 99.
    Usage,
    /// A read failed.
    ReadFault,
    /// A write failed.
    WriteFault,
    /// Memory ran out before anything was written.
    NoMemory,
    /// The source has more than 16,777,216 bytes.
    TooLong,
    /// The bytes are no font. This is the first line at which they are none, counted from 1; it is the number
    /// after the last line if only the end is missing.
    Bad { line: u32 },
}

impl BdfStatus {
    /// The exit status of a program that ends so.
    pub fn number(self) -> u8
        ensures { result ≡ exit_status self }
    {
        match self {
            BdfStatus::Done => 0,
            BdfStatus::Usage => 2,
            BdfStatus::ReadFault => 3,
            BdfStatus::WriteFault => 4,
            BdfStatus::NoMemory => 6,
            BdfStatus::TooLong => 7,
            BdfStatus::Bad { .. } => 8,
        }
    }
}

/// Reads a font in BDF, and writes the lines of a script that make it, under the number that the words are. The
/// source is read whole before the first byte is written.
#[tactic(auto, using(whole_sources::proofs::Endings::endings))]
pub fn run_bdf<S: Source, O: Sink>(
    alloc: Global,
    words: &[&str],
    source: &mut S,
    out: &mut O,
) -> BdfStatus
    ensures usage { result ≡ BdfStatus.Usage ↔ (font_number (map (λ w. w.now) words.now) ≡ None) }
    ensures translates { IfSome (font_number (map (λ w. w.now) words.now))
        (λ number. Translates (font_text number) (streams (S.state source.old) (O.state out.old))
        (streams (S.state source.new) (O.state out.new)) (ending result)) }

    // If the words are no number, nothing is touched.
    ensures unread { result ≡ BdfStatus.Usage → source.new ≡ source.old }
    ensures unwritten { result ≡ BdfStatus.Usage → out.new ≡ out.old }
{
    let Some(number) = font_number(words) else {
        return BdfStatus::Usage;
    };
    let bytes = match read_whole(alloc, source) {
        Ok(bytes) => bytes,
        Err(Unread::ReadFault) => return BdfStatus::ReadFault,
        Err(Unread::NoMemory) => return BdfStatus::NoMemory,
        Err(Unread::TooLong) => return BdfStatus::TooLong,
    };
    let text = match font_text(alloc, number, &bytes) {
        Ok(Ok(text)) => text,
        Ok(Err(line)) => return BdfStatus::Bad { line },
        Err(NoMemory) => return BdfStatus::NoMemory,
    };
    match out.put(&text) {
        Ok(()) => BdfStatus::Done,
        Err(Failed) => BdfStatus::WriteFault,
    }
}

/// The number of a font, from 1 to 99, if the words are one.
fn font_number(words: &[&str]) -> Option<u8>
    ensures { result ≡ font_number (map (λ w. w.now) words.now) }
{
    let [word] = words else {
        return None;
    };
    match natural(word.as_bytes(), 1, 99) {
        Ok(number) => Some(number as u8),
        Err(_) => None,
    }
}
