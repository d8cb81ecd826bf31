//! The animations that run, in order.
ghost use Rattle.std.specs.Prelude.{◌≡◌, ◌+◌, ◌<◌, [], length, slice_get, option_map};
ghost use Rattle.std.specs.Prelude.{IfOk, IfSome, OnOk, OnErr};
ghost use Rattle.std.specs.List.{list_any};
ghost use Rattle.play_defs.specs.Animation.{IsAnim, moves, is_moved};
ghost use Rattle.gui_anim.specs.Kept.{anim_in};
ghost use Rattle.gui_anim.specs.Anims.{spare, as_pair, start_answer, with_started, stop_answer, with_stopped};
ghost use Rattle.gui_anim.specs.Anims.{with_forgotten, with_lasting};

use crate::running::Running;
use gui_base::{Handle, NoMemory, Pool, Refusal, Var};
use play_defs::AnimSpec;
use std::alloc::Global;
use std::marker::Model;

/// The animations that run, in the order of starting. There is at most one for each variable of an object.
///
/// A contract sees them, and how many fit in all. `spare` and `at` take constant time, and other calls take
/// time in proportion to the number of animations.
#[derive(Drop)]
pub struct Anims {
    running: Vec<Running>,
    size: u32,
}

impl Model for Anims {
    ghost use Rattle.gui_anim.specs.Anims.{Anims};

    ghost Value = { Anims };

    ghost use Rattle.std.specs.Prelude.{vec_capacity};
    ghost use Rattle.gui_anim.specs.Kept.{anims_of, AreAnims};

    ghost view = { λ s. anims_of s.running.items s.size };

    ghost invariant = { λ s. AreAnims s.running.items s.size (vec_capacity s.running) };
}

/// Whether one of some animations is for this variable of this object.
fn any_moves(running: &[Running], h: Handle, var: Var) -> bool
    ensures { result ≡ list_any (λ anim. moves h.0 var (anim_in anim)) running.now }
{
    running.iter().any(|anim| anim.moves(h, var))
}

impl Anims {
    /// No animations, and room for `n`. `NoMemory` if there is no memory for so many. No later call takes
    /// memory.
    pub fn open(alloc: Global, n: u32) -> Result<Anims, NoMemory>
        ensures none { IfOk result (λ s. s.running ≡ []) }
        ensures size { IfOk result (λ s. s.size ≡ n) }
    {
        let Ok(running) = Vec::with_capacity(alloc, n as usize) else {
            return Err(NoMemory);
        };
        Ok(Anims { running, size: n })
    }

    /// How many more fit.
    pub fn spare(&self) -> u32
        ensures value { result ≡ spare self.now }
        ensures sum { length self.now.running + result ≡ self.now.size }
    {
        self.size - self.running.len() as u32
    }

    /// Whether an animation runs for this variable of this object.
    pub fn is_moved(&self, h: Handle, var: Var) -> bool
        ensures { result ≡ is_moved h.0 var self.now.running }
    {
        any_moves(&self.running, h, var)
    }

    /// Drops the animation for this variable of this object, if there is one.
    fn drop_moving(&mut self, h: Handle, var: Var)
        ensures { self.new ≡ with_stopped self.old h.0 var }
    {
        self.running.retain(|anim| !anim.moves(h, var));
    }

    /// Drops the animation for this variable of this object, if there is one. Another then fits.
    fn make_room(&mut self, h: Handle, var: Var) -> Result<(), Refusal>
        ensures answer { result ≡ start_answer self.old h.0 var }
        ensures ok { OnOk result (self.new ≡ with_stopped self.old h.0 var) }
        ensures room { OnOk result (length self.new.running < self.new.size) }
        ensures refused { OnErr result (self.new ≡ self.old) }
    {
        if self.spare() == 0 && !self.is_moved(h, var) {
            return Err(Refusal::Full(Pool::Anims));
        }
        self.drop_moving(h, var);
        Ok(())
    }

    /// Starts an animation at a time in milliseconds. It goes last, in place of the one for the same variable
    /// of the same object.
    ///
    /// # Errors
    ///
    /// `Full` of animations if none is replaced and no more fit. All is then as before.
    pub fn start(&mut self, spec: AnimSpec, now: u64) -> Result<(), Refusal>
        requires { IsAnim spec }
        ensures answer { result ≡ start_answer self.old spec.h.0 spec.var }
        ensures ok { OnOk result (self.new ≡ with_started self.old spec now) }
        ensures refused { OnErr result (self.new ≡ self.old) }
    {
        self.make_room(spec.h, spec.var)?;
        self.running.push_reserved(Running { spec, started: now });
        Ok(())
    }

    /// Stops the animation for this variable of this object where it stands.
    ///
    /// # Errors
    ///
    /// `Unknown` if none runs. All is then as before.
    pub fn stop(&mut self, h: Handle, var: Var) -> Result<(), Refusal>
        ensures answer { result ≡ stop_answer self.old h.0 var }
        ensures ok { OnOk result (self.new ≡ with_stopped self.old h.0 var) }
        ensures refused { OnErr result (self.new ≡ self.old) }
    {
        if !self.is_moved(h, var) {
            return Err(Refusal::Unknown);
        }
        self.drop_moving(h, var);
        Ok(())
    }

    /// Drops the animations of an object.
    pub fn forget(&mut self, h: Handle)
        ensures { self.new ≡ with_forgotten self.old h.0 }
    {
        self.running.retain(|anim| !anim.is_of(h));
    }

    /// Drops the animations that end by a time in milliseconds: those whose value is then the last one.
    pub fn drop_ended(&mut self, now: u64)
        ensures { self.new ≡ with_lasting self.old now }
    {
        self.running.retain(|anim| !anim.has_ended(now));
    }

    /// The nth in the order of starting, counted from 0, and the time of its start: `None` exactly past the
    /// last.
    pub fn at(&self, n: u32) -> Option<(AnimSpec, u64)>
        ensures value { result ≡ option_map as_pair (slice_get self.now.running n) }
        ensures in_range { IfSome result (λ anim. IsAnim anim.0) }
    {
        let anim = self.running.get(n as usize)?;
        Some((anim.spec, anim.started))
    }
}
