//! Sinks of which it is fixed whether they tell their bytes.
ghost use Rattle.std.specs.Prelude.{◌≡◌, Bool, true, false, is_some, refl};

use gui_edge::{MemSink, Sink, StdSink, Unheard};
use std::io::Stdout;

/// A sink of a type that tells its bytes always or never.
pub trait Steady: Sink {
    ghost tells: { Bool };

    // Each of them tells its bytes, or none does.
    ghost steady: { (sink : Self) → is_some (Self.state sink).held ≡ tells };
}

impl Steady for MemSink {
    ghost tells = { true };

    ghost steady = { λ s. refl };
}

impl Steady for Unheard {
    ghost tells = { false };

    ghost steady = { λ s. refl };
}

/// Nothing tells what a program's output holds.
impl Steady for StdSink<Stdout> {
    ghost tells = { false };

    ghost steady = { λ s. refl };
}

/// A vector tells its bytes.
impl Steady for StdSink<Vec<u8>> {
    ghost tells = { true };

    ghost steady = { λ s. refl };
}
