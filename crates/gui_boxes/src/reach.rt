//! How far children reach, and how far they are moved.
ghost use Rattle.std.specs.Prelude.{◌≤◌};

/// How far the children of an object reach out of its content area, in pixels.
#[derive(Clone, Copy, Drop)]
pub struct Reach {
    pub across: u32,
    pub down: u32,
}

/// How far an object moves its children, to the left and upward, in pixels.
#[derive(Clone, Copy, Drop)]
pub struct Offset {
    pub across: u16,
    pub down: u16,
    ghost across_fits: { across ≤ 8191 },
    ghost down_fits: { down ≤ 8191 },
}

/// Both.
#[derive(Clone, Copy, Drop)]
pub struct Scrolled {
    /// How far they reach before they are moved.
    pub reach: Reach,
    pub offset: Offset,
}

/// Children that are not moved.
pub const AT_REST: Offset = Offset { across: 0, down: 0 };

/// No children.
pub const NOT_SCROLLED: Scrolled = Scrolled {
    reach: Reach { across: 0, down: 0 },
    offset: AT_REST,
};
