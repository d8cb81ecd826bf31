//! A content area.
ghost use Rattle.std.specs.Prelude.{◌≤◌};
ghost use Rattle.gui_boxes.specs.Reaches.{IsInner};

/// A content area: its corner and its sizes.
#[derive(Clone, Copy)]
pub struct Inside {
    pub x: i32,
    pub y: i32,
    pub width: u16,
    pub height: u16,
    ghost x_fits: { IsInner x },
    ghost y_fits: { IsInner y },
    ghost width_fits: { width ≤ 8191 },
    ghost height_fits: { height ≤ 8191 },
}
