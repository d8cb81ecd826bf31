//! Places and values after lines, worked out by hand.

use crate::playing::{Want, is_so_after};
use gui_base::{Limits, State};
use std::test::Fail;

/// Three objects that grow share a row of ten pixels.
#[test]
fn growing_objects_share_a_row(rt: HostRuntime) -> Result<(), Fail> {
    let script =
        "flex 3 row\nnew 10 3 obj\nsize 10 1 1\ngrow 10 1\nnew 11 3 obj\nsize 11 1 1\ngrow 11 1\nnew 12 3 obj\nsize 12 1 1\ngrow 12 1\n";
    let wanted = [
        Want::Place(10, [0, 0, 2, 0]),
        Want::Place(11, [3, 0, 5, 0]),
        Want::Place(12, [6, 0, 9, 0]),
    ];
    assert!(rt; is_so_after(rt.alloc(), &Limits::with_sizes(10, 2, 2), script, &wanted)?);
    Ok(())
}

/// Between a single object there is no space.
#[test]
fn a_single_object_has_no_space_between(rt: HostRuntime) -> Result<(), Fail> {
    let script = "flex 3 row\nplaces 3 space_between start start\nnew 10 3 obj\nsize 10 4 1\n";
    let wanted = [Want::Place(10, [0, 0, 3, 0])];
    assert!(rt; is_so_after(rt.alloc(), &Limits::with_sizes(10, 2, 2), script, &wanted)?);
    Ok(())
}

/// Two objects that do not fit.
#[test]
fn what_does_not_fit_is_cut(rt: HostRuntime) -> Result<(), Fail> {
    let script =
        "flex 3 row\nplaces 3 space_between start start\nnew 10 3 obj\nsize 10 8 1\nnew 11 3 obj\nsize 11 8 1\n";
    let wanted = [
        Want::Place(10, [0, 0, 7, 0]),
        Want::Place(11, [8, 0, 15, 0]),
        Want::Seen(11, [8, 0, 9, 0]),
    ];
    assert!(rt; is_so_after(rt.alloc(), &Limits::with_sizes(10, 2, 2), script, &wanted)?);
    Ok(())
}

/// A percentage counts nothing in what its parent's content is as wide as.
#[test]
fn a_percentage_counts_nothing_in_a_content(rt: HostRuntime) -> Result<(), Fail> {
    let script = "new 10 3 obj\nsize 10 content 20\nflex 10 row\nlocal 10 main border_width 1\n\
         local 10 main pad_top 2\nlocal 10 main pad_bottom 2\nlocal 10 main pad_left 2\n\
         local 10 main pad_right 2\nnew 11 10 obj\nsize 11 30 10\nnew 12 10 obj\n\
         size 12 50% 10\n";
    let wanted = [
        Want::Place(10, [0, 0, 35, 19]),
        Want::Place(11, [3, 3, 32, 12]),
        Want::Place(12, [33, 3, 47, 12]),
        Want::Seen(12, [33, 3, 35, 12]),
    ];
    assert!(rt; is_so_after(rt.alloc(), &Limits::with_sizes(64, 32, 8), script, &wanted)?);
    Ok(())
}

/// Two objects that are as large as their content follow what the lowest one is set to.
#[test]
fn contents_follow_a_grandchild(rt: HostRuntime) -> Result<(), Fail> {
    let script = "new 10 3 obj\nnew 11 10 obj\nnew 12 11 obj\nsize 10 content content\n\
         size 11 content content\nsize 12 10 10\nsize 12 20 10\n";
    let wanted = [
        Want::Place(10, [0, 0, 19, 9]),
        Want::Place(11, [0, 0, 19, 9]),
        Want::Place(12, [0, 0, 19, 9]),
    ];
    assert!(rt; is_so_after(rt.alloc(), &Limits::with_sizes(40, 20, 20), script, &wanted)?);
    Ok(())
}

/// What is to be scrolled farther than it reaches stands at its end.
#[test]
fn a_child_is_scrolled_to_its_end(rt: HostRuntime) -> Result<(), Fail> {
    let script =
        "new 10 3 obj\nsize 10 20 20\nflag 10 scrollable on\nnew 11 10 obj\nsize 11 10 60\nscroll 10 0 100\n";
    let wanted = [
        Want::Place(10, [0, 0, 19, 19]),
        Want::Place(11, [0, -40, 9, 19]),
        Want::Scroll(10, 0, 100),
    ];
    assert!(rt; is_so_after(rt.alloc(), &Limits::with_sizes(20, 20, 20), script, &wanted)?);
    Ok(())
}

/// A pointer that goes eleven pixels scrolls by its last step, and a tap scrolls nothing.
#[test]
fn a_drag_scrolls_by_its_last_step(rt: HostRuntime) -> Result<(), Fail> {
    let script =
        "new 10 3 obj\nsize 10 20 20\nflag 10 scrollable on\nnew 11 10 obj\nsize 11 10 60\n\
         touch 5 15\nrelease\ntouch 5 15\ntouch 5 10\ntouch 5 4\n";
    let wanted = [
        Want::Place(11, [0, -6, 9, 53]),
        Want::Scroll(10, 0, 6),
        Want::States(10, 1 << State::Scrolled.bit()),
        Want::States(11, 1 << State::Pressed.bit()),
    ];
    assert!(rt; is_so_after(rt.alloc(), &Limits::with_sizes(20, 20, 20), script, &wanted)?);
    Ok(())
}

/// A text is broken after a space.
#[test]
fn a_text_is_broken_after_a_space(rt: HostRuntime) -> Result<(), Fail> {
    let script =
        "new 10 3 obj\nsize 10 48 content\nflex 10 column\nnew 11 10 label\nsize 11 50% content\ntext 11 \"ab cd\"\n";
    let wanted = [
        Want::Place(10, [0, 0, 47, 15]),
        Want::Place(11, [0, 0, 23, 15]),
    ];
    assert!(rt; is_so_after(rt.alloc(), &Limits::with_sizes(64, 32, 8), script, &wanted)?);
    Ok(())
}

/// A word that does not fit is broken, and a text of no glyph is one empty cell.
#[test]
fn a_word_that_does_not_fit_is_broken(rt: HostRuntime) -> Result<(), Fail> {
    let script = "new 10 3 obj\nsize 10 48 content\nflex 10 column\nnew 11 10 label\n\
         size 11 50% content\ntext 11 \"abcdef\"\nnew 12 3 label\ntext 12 \"\u{e9}\"\n\
         font 1 2 2\nglyph 1 65 2 3 1 -1 0 E0\nendfont 1\nnew 13 3 label\n\
         local 13 main text_font 1\ntext 13 \"A\"\n";
    let wanted = [
        Want::Place(10, [0, 0, 47, 15]),
        Want::Place(11, [0, 0, 23, 15]),
        Want::Place(12, [0, 0, 5, 7]),
        Want::Place(13, [0, 0, 1, 1]),
    ];
    assert!(rt; is_so_after(rt.alloc(), &Limits::with_sizes(64, 32, 8), script, &wanted)?);
    Ok(())
}

/// Three steps of an encoder take a slider to its end.
#[test]
fn a_turn_sets_a_slider(rt: HostRuntime) -> Result<(), Fail> {
    let script = "new 10 3 slider\ngroup 1\njoin 1 10\nencoder 1\nrange 10 0 5\nvalue 10 4\n\
         on 10 value_changed say\npush down\ntick 400\npush up\nturn 3\n";
    let wanted = [Want::Value(10, 5)];
    assert!(rt;
        is_so_after(
            rt.alloc(),
            &Limits::with_sizes(100, 10, 10),
            script,
            &wanted
        )?
    );
    Ok(())
}

/// A quarter of an animation's time.
#[test]
fn an_animation_sets_the_wanted_place(rt: HostRuntime) -> Result<(), Fail> {
    let script = "new 10 3 obj\nanim 10 x 0 100 1000 0 0 1 linear\ntick 250\n";
    let wanted = [Want::X(10, 25)];
    assert!(rt; is_so_after(rt.alloc(), &Limits::with_sizes(4, 2, 1), script, &wanted)?);
    Ok(())
}

/// A half of it.
#[test]
fn an_animation_goes_on(rt: HostRuntime) -> Result<(), Fail> {
    let script = "new 10 3 obj\nanim 10 x 0 100 1000 0 0 1 linear\ntick 250\ntick 250\n";
    let wanted = [Want::X(10, 50)];
    assert!(rt; is_so_after(rt.alloc(), &Limits::with_sizes(4, 2, 1), script, &wanted)?);
    Ok(())
}

/// A half of it, begun slowly.
#[test]
fn an_animation_begins_slowly(rt: HostRuntime) -> Result<(), Fail> {
    let script = "new 10 3 obj\nanim 10 x 0 100 1000 0 0 1 ease_in\ntick 500\n";
    let wanted = [Want::X(10, 17)];
    assert!(rt; is_so_after(rt.alloc(), &Limits::with_sizes(4, 2, 1), script, &wanted)?);
    Ok(())
}
