//! An animation that runs.
ghost use Rattle.play_defs.specs.Animation.{IsAnim};

use crate::value::value_of;
use gui_base::{Handle, Var};
use play_defs::{AnimSpec, AnimValue};

/// An animation that runs, and when it was started.
#[derive(Clone, Copy, Drop)]
pub struct Running {
    pub spec: AnimSpec,
    pub started: u64,
    pub ghost in_range: { IsAnim spec },
}

impl Running {
    ghost use Rattle.std.specs.Prelude.{◌≡◌, ◌==◌};
    ghost use Rattle.play_defs.specs.Animation.{moves, has_ended};
    ghost use Rattle.gui_anim.specs.Kept.{anim_in};

    /// Whether it is for an object.
    pub fn is_of(&self, h: Handle) -> bool
        ensures { result ≡ ((anim_in self.now).spec.h.0 == h.0) }
    {
        self.spec.h == h
    }

    /// Whether it is for this variable of this object.
    pub fn moves(&self, h: Handle, var: Var) -> bool
        ensures { result ≡ moves h.0 var (anim_in self.now) }
    {
        self.is_of(h) && self.spec.var == var
    }

    /// Whether what it gives at a time is its last value.
    pub fn has_ended(&self, now: u64) -> bool
        ensures { result ≡ has_ended now (anim_in self.now) }
    {
        match value_of(&self.spec, now.saturating_sub(self.started)) {
            AnimValue::Before | AnimValue::Now(_) => false,
            AnimValue::Last(_) => true,
        }
    }
}
