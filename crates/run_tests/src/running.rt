//! Runs over a panel in memory that lists what it is sent, and what they came to.

use arrayvec::ArrayVec;
use gui_edge::{MemSink, SimPanel};
use scene_run::Status;
use std::alloc::Global;
use std::process::Abort;
use std::test::Fail;
use test_panels::ListingPanel;
use test_runs::{Fault, Outside, run_over};

/// What a run is made of, and what fails in it.
#[derive(Clone, Copy)]
pub(crate) struct Setup<'a> {
    pub(crate) words: &'a [&'a str],
    pub(crate) script: &'a [u8],
    /// How many bytes a read gives at most.
    pub(crate) piece: usize,
    pub(crate) faults: &'a [Fault],
    /// How many pixels each of the first polls moves; each later one moves all.
    pub(crate) moves: &'a [u32],
}

/// What a run came to.
pub(crate) struct Ran {
    pub(crate) status: Status,
    pub(crate) log: MemSink,
    /// The files of the presented frames.
    pub(crate) frames: MemSink,
    /// The corners of the areas that the panel was asked to start.
    pub(crate) starts: ArrayVec<[i32; 4], 16>,
    /// How many pixels were sent for each presented frame, after the one before.
    pub(crate) counts: ArrayVec<u64, 8>,
    /// How many were sent in all.
    pub(crate) sent: u64,
    /// The bits of the colours that the first pixels of the panel show at the end, row by row: none if it was
    /// not opened.
    pub(crate) shown: ArrayVec<u16, 8>,
}

impl Drop for Ran {
    /// Lets go of every field in one call, which keeps the proofs of its owners short.
    fn drop(self) {
        let Ran {
            status: _,
            log: _,
            frames: _,
            starts: _,
            counts: _,
            sent: _,
            shown: _,
        } = self;
    }
}

/// The colours of the first pixels of a panel, as their bits.
fn shown_by(panel: &ListingPanel<SimPanel<MemSink>>) -> ArrayVec<u16, 8> {
    let mut shown = ArrayVec::new();
    for y in 0..panel.height {
        for x in 0..panel.width {
            let _ = shown.try_push(panel.panel.shown(x, y).0);
        }
    }
    shown
}

impl Ran {
    /// Fails if the run ended otherwise.
    pub(crate) fn check_status(&self, rt: &impl Abort, status: Status, name: &str) {
        assert_eq!(rt; self.status as u8, status as u8, "{name}");
    }

    /// Fails if the log is another one.
    pub(crate) fn check_log(&self, rt: &impl Abort, log: &str, name: &str) {
        assert_eq!(rt; self.log.bytes(), log.as_bytes(), "{name}");
    }

    /// Fails if the files of the presented frames are others.
    pub(crate) fn check_frames(&self, rt: &impl Abort, frames: &[u8], name: &str) {
        assert!(rt; self.frames.bytes() == frames, "{name}");
    }

    /// Fails if the panel was asked to start other areas.
    pub(crate) fn check_starts(&self, rt: &impl Abort, corners: &[[i32; 4]], name: &str) {
        assert_eq!(rt; self.starts.as_slice(), corners, "{name}");
    }

    /// Fails if another count of pixels was sent in all.
    pub(crate) fn check_sent(&self, rt: &impl Abort, sent: u64, name: &str) {
        assert_eq!(rt; self.sent, sent, "{name}");
    }

    /// Fails if the run ended otherwise, or its frames were sent other counts of pixels.
    pub(crate) fn check_counts(&self, rt: &impl Abort, status: Status, counts: &[u64], name: &str) {
        self.check_status(rt, status, name);
        assert_eq!(rt; self.counts.as_slice(), counts, "{name}");
    }
}

impl Setup<'_> {
    /// What the run comes to.
    pub(crate) fn run(&self, alloc: Global) -> Result<Ran, Fail> {
        let script = Vec::from_slice(alloc, self.script)?;
        let moves = Vec::from_slice(alloc, self.moves)?;
        let mut outside = Outside::with_moves(alloc, script, self.piece, self.faults, moves)?;
        let mut panel = ListingPanel::new(outside.panel);
        let status = run_over(
            alloc,
            self.words,
            &mut outside.source,
            &mut outside.log,
            &mut panel,
        );
        let shown = shown_by(&panel);
        Ok(Ran {
            status,
            log: outside.log,
            starts: panel.starts,
            counts: panel.counts,
            sent: panel.panel.sent(),
            shown,
            frames: panel.panel.into_frames(),
        })
    }
}

/// Runs a script, read whole, with these words, over a panel that is always ready, of which these calls fail.
pub(crate) fn run(
    alloc: Global,
    words: &[&str],
    script: &[u8],
    faults: &[Fault],
) -> Result<Ran, Fail> {
    let setup = Setup {
        words,
        script,
        piece: 4096,
        faults,
        moves: &[],
    };
    setup.run(alloc)
}

/// Fails if something differs in a run in which these calls fail.
pub(crate) fn check(rt: &impl Abort, difference: Option<&str>, faults: &[Fault]) {
    assert_eq!(rt; difference, None, "{faults:?}");
}
