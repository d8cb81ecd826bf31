//! Reads a script from standard input, and writes the frames to standard output and the log to standard error.
//! If the first word is `dcs`, the panel is one behind a controller in memory, turned as the next word says. If
//! it is `bdf`, it reads a font instead, and if it is `json`, a tree of objects, and writes the lines of a
//! script that make it. If it is `host`, standard output gets a stream of what changes in place of whole
//! frames, and questions are answered among the lines of the log. If it is `rfb`, what follows the script is
//! what a viewer sends, and standard output is what it gets.
#![tactic(auto)]

use bdf_font::run_bdf;
use gui_edge::{SimPanel, SimPlan, StdSink, StdSource};
use panel_dcs::SimBus;
use scene_dcs::run_dcs;
use scene_host::run_host;
use scene_json::run_json;
use scene_rfb::run_rfb;
use scene_run::{Status, run_scene};
use std::alloc::{AllocError, Global};
use std::io::ErrorKind;
use std::process::ExitCode;
use std::{env, io};

/// The words after the program's name.
fn words(rt: &HostRuntime) -> io::Result<Vec<String>> {
    let mut words = Vec::new(rt.alloc());
    for word in env::args(rt)?.skip(1) {
        words.push(word)?;
    }
    Ok(words)
}

/// The words after the program's name, as texts.
fn texts(alloc: Global, words: &[String]) -> Result<Vec<&str>, AllocError> {
    let mut texts = Vec::new(alloc);
    for word in words {
        texts.push(word.as_str())?;
    }
    Ok(texts)
}

/// Runs the script with these words, over the standard streams and a panel in memory.
fn run_script(rt: &HostRuntime, words: &[&str]) -> Status {
    let alloc = rt.alloc();
    let plan = SimPlan {
        fail_open: false,
        fail_flush: Vec::new(alloc),
        fail_poll: Vec::new(alloc),
        moves: Vec::new(alloc),
    };
    let mut source = StdSource::new(rt.stdin());
    let mut log = StdSink::new(rt.stderr());
    let mut panel = SimPanel::new(StdSink::new(rt.stdout()), plan);
    run_scene(alloc, words, &mut source, &mut log, &mut panel)
}

/// Runs the script over a panel behind a controller in memory. The first word is its turn.
fn run_turned(rt: &HostRuntime, words: &[&str]) -> Status {
    let alloc = rt.alloc();
    let mut source = StdSource::new(rt.stdin());
    let mut log = StdSink::new(rt.stderr());
    let frames = StdSink::new(rt.stdout());
    let bus = SimBus::new(Vec::new(alloc));
    let (status, _panel) = run_dcs(alloc, words, &mut source, &mut log, frames, bus);
    status
}

/// Runs the script for a host: what changes goes to standard output, and the answers to its questions among the lines of the log.
fn run_hosted(rt: &HostRuntime, words: &[&str]) -> Status {
    let mut source = StdSource::new(rt.stdin());
    let mut log = StdSink::new(rt.stderr());
    let mut answers = StdSink::new(rt.stderr());
    let out = StdSink::new(rt.stdout());
    let end = run_host(rt.alloc(), words, &mut source, &mut log, &mut answers, out);
    match end.status {
        Status::Done | Status::Noted if !end.answered => Status::WriteFault,
        status => status,
    }
}

/// Writes the font of standard input as lines of a script. The word is its number.
fn write_font(rt: &HostRuntime, words: &[&str]) -> u8 {
    let mut source = StdSource::new(rt.stdin());
    let mut out = StdSink::new(rt.stdout());
    run_bdf(rt.alloc(), words, &mut source, &mut out).number()
}

/// Writes the scene in JSON of standard input as lines of a script. There are to be no words.
fn write_scene(rt: &HostRuntime, words: &[&str]) -> u8 {
    let mut source = StdSource::new(rt.stdin());
    let mut out = StdSink::new(rt.stdout());
    run_json(rt.alloc(), words, &mut source, &mut out).number()
}

/// Runs a session with a viewer, whose bytes come after the script on standard input. The first word is how many
/// milliseconds pass at each of its requests.
fn serve(rt: &HostRuntime, words: &[&str]) -> u8 {
    let mut source = StdSource::new(rt.stdin());
    let mut out = StdSink::new(rt.stdout());
    let mut log = StdSink::new(rt.stderr());
    run_rfb(rt.alloc(), words, &mut source, &mut out, &mut log).number()
}

/// Does what the first word asks for, and answers the exit status.
fn run(rt: &HostRuntime, words: &[String]) -> u8 {
    let Ok(texts) = texts(rt.alloc(), words) else {
        return Status::NoMemory as u8;
    };
    match texts.as_slice() {
        ["dcs", words @ ..] => run_turned(rt, words) as u8,
        ["host", words @ ..] => run_hosted(rt, words) as u8,
        ["bdf", words @ ..] => write_font(rt, words),
        ["json", words @ ..] => write_scene(rt, words),
        ["rfb", words @ ..] => serve(rt, words),
        words => run_script(rt, words) as u8,
    }
}

/// What the program says of an input that it did not read to its end, by its exit status.
fn message(status: u8) -> Option<&'static str> {
    match status {
        2 => Some("usage: scene WIDTH HEIGHT LINES [POOL=COUNT]... [make=K] [block=BWxBH]"),
        3 => Some("read fault"),
        4 => Some("write fault"),
        5 => Some("panel fault"),
        6 => Some("no memory"),
        7 => Some("script too long"),
        8 => Some("bad input"),
        _ => None,
    }
}

/// The end of a run whose words could not be read: a word that is not UTF-8 makes a faulty command line.
fn unread(error: &io::Error) -> u8 {
    match error.kind() {
        ErrorKind::InvalidData => Status::Usage as u8,
        _ => Status::NoMemory as u8,
    }
}

fn main(rt: HostRuntime) -> ExitCode {
    let status = match words(&rt) {
        Ok(words) => run(&rt, &words),
        Err(error) => unread(&error),
    };
    if let Some(text) = message(status) {
        let _ = eprintln!(rt; "scene: {text}");
    }
    ExitCode::from(status)
}
