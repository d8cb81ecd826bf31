//! What follows from the rules of areas. Each function does nothing: its contract is a law, which is proved.
ghost use Rattle.gui_base.specs.Gridded.{PixelsWidenNothing};

/// Blocks of a single pixel widen no area.
pub fn pixels_widen_nothing()
    ensures { PixelsWidenNothing }
{}
