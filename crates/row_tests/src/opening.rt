//! What takes memory, where memory is ample, and the lines of a made script.

use gui_base::{Kind, Limits};
use gui_change::Canvas;
use gui_store::{Change, RowTable};
use scene_script::{Command, Line, MadeSays, Maker, limits_of};
use std::alloc::Global;
use std::test::Fail;

#[test]
fn ample_memory_opens_what_a_machine_is_made_of(rt: HostRuntime) -> Result<(), Fail> {
    let alloc = rt.alloc();
    let limits = Limits::with_sizes(4, 2, 1);
    assert!(rt; RowTable::open(alloc, 10000, 4, 2).is_ok());
    assert!(rt; Canvas::open(alloc, &limits).is_ok());
    Ok(())
}

/// The limits that words have.
fn limits_in(alloc: Global, words: &[&str]) -> Result<Limits, Fail> {
    match limits_of(alloc, words) {
        Ok(Some(limits)) => Ok(limits),
        _ => Err(Fail::from("no limits")),
    }
}

/// Whether words have no limits.
fn have_none(alloc: Global, words: &[&str]) -> bool {
    matches!(limits_of(alloc, words), Ok(None))
}

#[test]
fn words_have_limits_or_none(rt: HostRuntime) -> Result<(), Fail> {
    let alloc = rt.alloc();
    let limits = limits_in(alloc, &["8", "4", "2", "objects=9", "make=7"])?;
    assert_eq!(rt; (limits.width, limits.height, limits.lines), (8, 4, 2));
    assert_eq!(rt;
        (limits.objects, limits.styles, limits.make),
        (9, 64, Some(7))
    );
    assert!(rt; have_none(alloc, &["8", "4"]));
    assert!(rt; have_none(alloc, &["8", "4", "2", "--help"]));
    Ok(())
}

/// Whether a line makes the object that a made script makes first.
fn is_first_object(line: &Line) -> bool {
    let Line::Make(Command::Change(Change::New(id, parent, Kind::Obj))) = line else {
        return false;
    };
    (id.0, parent.0) == (10, 3)
}

#[test]
fn a_made_script_has_1261_lines(rt: HostRuntime) -> Result<(), Fail> {
    let limits = Limits::with_sizes(64, 48, 8);
    let mut maker = Maker::new(1, &limits);
    let mut says = MadeSays::new(1, &limits);
    for number in 0..1261 {
        let (Some(text), Some(line)) = (maker.next_line(), says.next_said()) else {
            return Err(Fail::from("too few lines"));
        };
        if number == 0 {
            assert_eq!(rt; text.as_str(), "new 10 3 obj");
            assert!(rt; is_first_object(&line));
        }
        if number == 250 || number == 1260 {
            assert_eq!(rt; text.as_str(), "frame");
            assert!(rt; matches!(line, Line::Frame));
        }
    }
    assert!(rt; maker.next_line().is_none());
    assert!(rt; maker.next_line().is_none());
    assert!(rt; says.next_said().is_none());
    assert!(rt; says.next_said().is_none());
    Ok(())
}
