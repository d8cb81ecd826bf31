//! Sizes.
ghost use Rattle.std.specs.Prelude.{◌≤◌};

/// A size that solving gives, in pixels.
#[derive(Clone, Copy, Drop)]
pub struct Size {
    pub pixels: u16,
    ghost fits: { pixels ≤ 8191 },
}
