//! A settings screen: a list of eight buttons with labels, two sliders, a checkbox and a bar.

use crate::playing::{Want, is_so_after};
use gui_base::Limits;
use std::test::Fail;

const SCREEN: &str = "new 10 3 list\nsize 10 150 240\nnew 11 10 button\nnew 21 11 label\n\
    text 21 \"Item 1\"\nnew 12 10 button\nnew 22 12 label\ntext 22 \"Item 2\"\n\
    new 13 10 button\nnew 23 13 label\ntext 23 \"Item 3\"\nnew 14 10 button\n\
    new 24 14 label\ntext 24 \"Item 4\"\nnew 15 10 button\nnew 25 15 label\n\
    text 25 \"Item 5\"\nnew 16 10 button\nnew 26 16 label\ntext 26 \"Item 6\"\n\
    new 17 10 button\nnew 27 17 label\ntext 27 \"Item 7\"\nnew 18 10 button\n\
    new 28 18 label\ntext 28 \"Item 8\"\nnew 40 3 slider\npos 40 160 10\n\
    new 41 3 slider\npos 41 160 30\nvalue 41 70\nnew 42 3 checkbox\npos 42 160 50\n\
    text 42 \"Dark mode\"\nnew 43 3 bar\npos 43 160 70\n";

const TOUCHED: &str = "new 42 3 checkbox\npos 42 160 50\ntext 42 \"Dark mode\"\nnew 43 3 bar\n\
    pos 43 160 70\nanim 43 value 0 100 1000 0 0 1 linear\ntouch 165 55\nrelease\ntick 500\n";

/// The list stands its buttons below each other, and a point hits the object that is seen there.
#[test]
fn a_screen_stands_and_is_hit(rt: HostRuntime) -> Result<(), Fail> {
    let wanted = [
        Want::Place(11, [3, 3, 46, 18]),
        Want::Place(12, [3, 21, 46, 36]),
        Want::Place(42, [160, 50, 225, 57]),
        Want::Text(42, 9),
        Want::States(42, 0),
        Want::Hit(165, 55, 42),
        Want::Hit(10, 10, 11),
        Want::Hit(0, 0, 10),
        Want::Hit(319, 239, 3),
    ];
    assert!(rt;
        is_so_after(
            rt.alloc(),
            &Limits::with_sizes(320, 240, 20),
            SCREEN,
            &wanted
        )?
    );
    Ok(())
}

/// A touch checks the checkbox, and half of the animation's time fills half of the bar.
#[test]
fn a_touch_checks_and_a_bar_fills(rt: HostRuntime) -> Result<(), Fail> {
    let wanted = [Want::States(42, 1), Want::Value(43, 50)];
    assert!(rt;
        is_so_after(
            rt.alloc(),
            &Limits::with_sizes(320, 240, 20),
            TOUCHED,
            &wanted
        )?
    );
    Ok(())
}

/// Seven white pixels and a red one.
#[test]
fn the_colours_of_a_picture_are_summed_up(rt: HostRuntime) -> Result<(), Fail> {
    let script =
        "new 10 3 obj\nsize 10 1 1\nlocal 10 main bg_opa 255\nlocal 10 main bg_color #FF0000\n";
    let wanted = [Want::Sum(63481)];
    assert!(rt; is_so_after(rt.alloc(), &Limits::with_sizes(4, 2, 1), script, &wanted)?);
    Ok(())
}
