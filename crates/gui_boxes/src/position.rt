//! Where an object stands.
ghost use Rattle.std.specs.Prelude.{◌≤◌};
ghost use Rattle.gui_boxes.specs.Reaches.{IsPlaced};

/// An object's top left corner and its height.
#[derive(Clone, Copy, Drop)]
pub struct Position {
    pub x: i32,
    pub y: i32,
    pub height: u16,
    ghost x_fits: { IsPlaced x },
    ghost y_fits: { IsPlaced y },
    ghost height_fits: { height ≤ 8191 },
}

/// The corner of the panel, and no height.
pub const CORNER: Position = Position {
    x: 0,
    y: 0,
    height: 0,
};
