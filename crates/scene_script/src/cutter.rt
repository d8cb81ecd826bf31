//! Cuts a stream of bytes into lines.
ghost use Rattle.std.specs.Prelude.{◌≡◌, IsSomeAnd, Some, [], false};
ghost use Rattle.run_defs.specs.Script.{without_return};
ghost use Rattle.scene_script.specs.Cutting.{begun, pushed, finished, line_of, HasTaken, Takes, Finishes};

use crate::parse::MAX_LINE;
use arrayvec::ArrayVec;
use std::marker::Model;

/// What a byte, or the end of the script, makes of a line.
#[derive(Clone, Copy, Debug, PartialEq, Eq)]
pub enum Cut {
    /// The line goes on.
    More,
    /// The line is whole.
    Line,
    /// The line is whole, and has more than 4,096 bytes before its newline.
    Long,
}

/// The bytes of a line so far, up to 4,096 of them. It takes no memory.
#[derive(Drop)]
pub struct Cutter {
    line: ArrayVec<u8, MAX_LINE>,
    long: bool,
    answer: Cut,
    last: bool,
}

impl Model for Cutter {
    ghost use Rattle.std.specs.Prelude.{◌≡◌, Some, None, false, if◌then◌else◌};
    ghost use Rattle.scene_script.specs.Cutting.{Cutting};
    ghost use Rattle.scene_script.specs.declared.cutter.Cut.TheVariants.{Line};

    ghost Value = { Cutting };

    ghost view = { λ c. record {
      bytes = if c.long then None else Some c.line.items;
      answer = c.answer;
      last = c.last;
    } };

    ghost invariant = { λ c. c.answer ≡ Line → c.long ≡ false };
}

impl Cutter {
    /// A cutter at the beginning of a script, with the empty line.
    pub fn new() -> Cutter
        ensures state { result ≡ record { bytes = Some []; answer = Cut.More; last = false } }
        ensures nothing { HasTaken result [] }
    {
        Cutter {
            line: ArrayVec::new(),
            long: false,
            answer: Cut::More,
            last: false,
        }
    }

    /// Takes a byte of the script. A newline ends the line: `Line` if it has at most 4,096 bytes, else `Long`.
    /// The byte after that begins the next line.
    #[tactic(auto, using(crate::proofs::Cuts::pushed_takes))]
    pub fn push(&mut self, byte: u8) -> Cut
        ensures state { self.new ≡ pushed self.old byte }
        ensures takes { Takes self.old self.new byte }
        ensures answer { result ≡ self.new.answer }
    {
        self.add(byte);
        self.answer
    }

    /// Adds a byte to the line, or ends the line at a newline.
    fn add(&mut self, byte: u8)
        ensures { self.new ≡ pushed self.old byte }
    {
        self.begin();
        if byte == b'\n' {
            self.answer = if self.long { Cut::Long } else { Cut::Line };
        } else if self.line.is_full() {
            self.long = true;
        } else {
            self.line.push(byte);
        }
    }

    /// Ends the line at the end of the script, as [`Cutter::push`] does at a newline, but answers `More` if the
    /// line has no byte.
    pub fn finish(&mut self) -> Cut
        ensures state { self.new ≡ finished self.old }
        ensures finishes { Finishes self.old self.new }
        ensures answer { result ≡ self.new.answer }
    {
        self.begin();
        self.last = true;
        if self.long {
            self.answer = Cut::Long;
        } else if !self.line.is_empty() {
            self.answer = Cut::Line;
        }
        self.answer
    }

    /// The line, if the last answer was `Line`. One carriage return at its end is left out if a newline ended
    /// the line.
    pub fn line(&self) -> &[u8]
        requires { self.now.answer ≡ Cut.Line }
        ensures { IsSomeAnd self.now.bytes (λ bytes. result.now ≡ line_of self.now.last bytes) }
    {
        if self.last {
            self.line.as_slice()
        } else {
            trimmed(self.line.as_slice())
        }
    }

    /// Begins the next line if the last one is whole.
    fn begin(&mut self)
        ensures { self.new ≡ record { bytes = begun self.old; answer = Cut.More; last = false } }
    {
        if self.answer != Cut::More {
            self.line.clear();
            self.long = false;
            self.answer = Cut::More;
        }
        self.last = false;
    }
}

/// The line without one carriage return at its end.
fn trimmed(bytes: &[u8]) -> &[u8]
    ensures { result.now ≡ without_return bytes.now }
{
    match bytes {
        [before @ .., b'\r'] => before,
        _ => bytes,
    }
}
