//! What a run reads and writes, in memory, and the calls on it that fail: for the crates of tests.
#![tactic(auto)]

ghost use Rattle.std.specs.Prelude.{◌≡◌, IfOk};

use self::Fault::{Frames, Log, Open, Poll, Read, Start};
use gui_base::NoMemory;
use gui_edge::{MemSink, MemSource, Panel, SimPanel, SimPlan, Sink, Source};
use scene_run::{Status, run_scene};
use std::alloc::{AllocError, Global};

/// The words of most runs: 4 by 2 pixels, in slices of one line.
pub const WORDS: [&str; 3] = ["4", "2", "1"];

/// The file of the white frame of these words.
pub const WHITE_FRAME: &[u8] =
    b"P6\n4 2\n255\n\xFF\xFF\xFF\xFF\xFF\xFF\xFF\xFF\xFF\xFF\xFF\xFF\xFF\xFF\xFF\xFF\xFF\xFF\xFF\xFF\
    \xFF\xFF\xFF\xFF";

/// A call that fails: the opening of the panel, or the read, the put on the log, the put on the sink of the
/// frames, the start or the poll of this number, from 1.
#[derive(Clone, Copy, Debug)]
pub enum Fault {
    Open,
    Read(u64),
    Log(u64),
    Frames(u64),
    Start(u64),
    Poll(u64),
}

/// The numbers of the calls that fail.
#[derive(Drop)]
struct Plan {
    open: bool,
    reads: Vec<u64>,
    log: Vec<u64>,
    frames: Vec<u64>,
    starts: Vec<u64>,
    polls: Vec<u64>,
}

impl Plan {
    fn new(alloc: Global, faults: &[Fault]) -> Result<Plan, AllocError> {
        let mut plan = Plan {
            open: false,
            reads: Vec::new(alloc),
            log: Vec::new(alloc),
            frames: Vec::new(alloc),
            starts: Vec::new(alloc),
            polls: Vec::new(alloc),
        };
        for fault in faults {
            match *fault {
                Open => plan.open = true,
                Read(call) => plan.reads.push(call)?,
                Log(call) => plan.log.push(call)?,
                Frames(call) => plan.frames.push(call)?,
                Start(call) => plan.starts.push(call)?,
                Poll(call) => plan.polls.push(call)?,
            }
        }
        Ok(plan)
    }
}

/// Runs over these. It promises nothing: a test looks at what the run came to.
pub fn run_over<S: Source, L: Sink, P: Panel>(
    alloc: Global,
    words: &[&str],
    source: &mut S,
    log: &mut L,
    panel: &mut P,
) -> Status
    requires { (P.state panel.old).limit ≡ 0 }
{
    run_scene(alloc, words, source, log, panel)
}

/// What a run reads and writes, in memory.
#[derive(Drop)]
pub struct Outside {
    pub source: MemSource,
    pub log: MemSink,
    pub panel: SimPanel<MemSink>,
}

impl Outside {
    /// A script of which a read gives at most `piece` bytes, an empty log and a panel that is not opened, of
    /// which a poll moves all pixels.
    pub fn new(
        alloc: Global,
        script: Vec<u8>,
        piece: usize,
        faults: &[Fault],
    ) -> Result<Outside, NoMemory>
        ensures { IfOk result (λ outside. outside.panel.limit ≡ 0) }
    {
        Outside::with_moves(alloc, script, piece, faults, Vec::new(alloc))
    }

    /// A script of which a read gives at most `piece` bytes, an empty log and a panel that is not opened. Each
    /// poll moves as many pixels as are listed for it, and all pixels after the last listed number.
    pub fn with_moves(
        alloc: Global,
        script: Vec<u8>,
        piece: usize,
        faults: &[Fault],
        moves: Vec<u32>,
    ) -> Result<Outside, NoMemory>
        ensures { IfOk result (λ outside. outside.panel.limit ≡ 0) }
    {
        let Ok(plan) = Plan::new(alloc, faults) else {
            return Err(NoMemory);
        };
        let frames = MemSink::with_capacity(alloc, 4096, plan.frames)?;
        let panel = SimPlan {
            fail_open: plan.open,
            fail_flush: plan.starts,
            fail_poll: plan.polls,
            moves,
        };
        Ok(Outside {
            source: MemSource::new(script, piece.max(1), plan.reads),
            log: MemSink::with_capacity(alloc, 4096, plan.log)?,
            panel: SimPanel::new(frames, panel),
        })
    }

    /// Runs with these words. It promises nothing, as `run_over` does.
    pub fn run(&mut self, alloc: Global, words: &[&str]) -> Status
        requires { self.old.panel.limit ≡ 0 }
    {
        run_over(
            alloc,
            words,
            &mut self.source,
            &mut self.log,
            &mut self.panel,
        )
    }
}
