//! Runs for a host over memory, and what they came to.

use gui_edge::{MemSink, MemSource};
use scene_host::run_host;
use scene_run::Status;
use std::alloc::Global;
use std::process::Abort;
use std::test::Fail;

/// What a run came to.
#[derive(Drop)]
pub(crate) struct Ran {
    status: Status,
    answered: bool,
    log: MemSink,
    answers: MemSink,
    out: MemSink,
}

/// What a script comes to on a panel of 4 by 2 pixels and slices of one line, if the puts of these numbers on
/// the stream and on the answers fail.
pub(crate) fn run(
    alloc: Global,
    script: &[u8],
    puts: &[u64],
    answers: &[u64],
) -> Result<Ran, Fail> {
    let script = Vec::from_slice(alloc, script)?;
    let mut source = MemSource::new(script, 7, Vec::new(alloc));
    let mut log = MemSink::with_capacity(alloc, 4096, Vec::new(alloc))?;
    let mut answers = MemSink::with_capacity(alloc, 4096, Vec::from_slice(alloc, answers)?)?;
    let out = MemSink::with_capacity(alloc, 4096, Vec::from_slice(alloc, puts)?)?;
    let end = run_host(
        alloc,
        &["4", "2", "1"],
        &mut source,
        &mut log,
        &mut answers,
        out,
    );
    Ok(Ran {
        status: end.status,
        answered: end.answered,
        log,
        answers,
        out: end.out,
    })
}

impl Ran {
    /// Fails if the run ended otherwise or has another log.
    pub(crate) fn check_end(&self, rt: &impl Abort, status: Status, log: &str) {
        assert_eq!(rt; self.status as u8, status as u8);
        assert_eq!(rt; self.log.bytes(), log.as_bytes());
    }

    /// Fails if the stream is another one.
    pub(crate) fn check_stream(&self, rt: &impl Abort, stream: &[u8]) {
        assert!(rt; self.out.bytes() == stream);
    }

    /// Fails if the answers are others, or whether all of them were written.
    pub(crate) fn check_answers(&self, rt: &impl Abort, answered: bool, answers: &str) {
        assert_eq!(rt; self.answered, answered);
        assert_eq!(rt; self.answers.bytes(), answers.as_bytes());
    }
}
