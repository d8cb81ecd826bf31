//! The board on which the rules are played.
ghost use Rattle.std.specs.Prelude.{◌≡◌, ◌∷◌, [], false, IfOk, OnErr, pos};
ghost use Rattle.gui_base.specs.Area.{area_at, is_empty};
ghost use Rattle.gui_base.specs.Bounded.{bounds_of};
ghost use Rattle.gui_base.specs.Corners.{rect_of};
ghost use Rattle.gui_base.specs.Gridded.{block_of};
ghost use Rattle.gui_base.specs.Refusing.{result_of};
ghost use Rattle.gui_change.specs.Canvas.{scene_in, removed_in};
ghost use Rattle.gui_damage.specs.Gridded.{listed_in};
ghost use Rattle.gui_damage.specs.Pending.{IsPending};
ghost use Rattle.gui_edge.specs.Sink.{SinkState};
ghost use Rattle.gui_layout.specs.Naturals.{AreNatural};
ghost use Rattle.gui_layout.specs.Solved.{AreReached, AreSolved};
ghost use Rattle.gui_refresh.specs.Stages.{sizes_of, stage as sending};
ghost use Rattle.gui_store.specs.Removed.{removed_by};
ghost use Rattle.gui_store.specs.Views.{scene_of};
ghost use Rattle.run_defs.specs.Machine.{first_machine, used_in};
ghost use Rattle.run_defs.specs.Making.{is_in_state, make};
ghost use Rattle.scene_defs.specs.Change.{answer_of};
ghost use Rattle.scene_defs.specs.Place.{panel_of};
ghost use Rattle.scene_defs.specs.Scene.{is_there};
ghost use Rattle.scene_defs.specs.Valid.{IsChange, IsValid};
ghost use Rattle.gui_board.specs.Panels.{CanSend, DrawsPart, DrawsScene, Pumps, Refreshes};
ghost use Rattle.gui_board.specs.Sizes.{AreSized};

use crate::inputs::Inputs;
use crate::scribe::Scribe;
use gui_anim::Anims;
use gui_base::{Area, Bits, Grid, Handle, Limits, NoMemory, Pool, Refusal, State, Steps};
use gui_change::Canvas;
use gui_damage::Damage;
use gui_edge::{Failed, Panel};
use gui_event::{Groups, Handlers};
use gui_layout::Places;
use gui_refresh::{Pumped, Refreshed, Refresher};
use gui_store::Store;
use gui_view::View;
use run_defs::Reply;
use scene_defs::Change;
use std::alloc::Global;
use std::sync::ledger::Ledger;

/// What the rules read and change: a scene with its places, the pending areas, the handlers, the focus groups,
/// the animations, the time, the input devices, and how the log goes in this step.
pub struct Board {
    pub(crate) canvas: Canvas,
    pub(crate) damage: Damage<Grid>,
    pub(crate) handlers: Handlers,
    pub(crate) groups: Groups,
    pub(crate) anims: Anims,
    pub(crate) inputs: Inputs,
    pub(crate) scribe: Scribe,
    ghost panel: { (listed_in damage).panel ≡ panel_of (scene_in canvas) },
    ghost blocks: { block_of damage.round ≡ (scene_in canvas).limits.block },
    ghost sized: { AreSized handlers groups anims (scene_in canvas).limits },
}

impl Drop for Board {
    /// Lets go of every field in one call, which keeps the proofs of its owners short.
    fn drop(self) {
        let Board {
            canvas: _,
            damage: _,
            handlers: _,
            groups: _,
            anims: _,
            inputs: _,
            scribe: _,
        } = self;
    }
}

impl Board {
    ghost use Rattle.gui_board.specs.Boards.{machine_of, pending_of, stage, Quiet, IsFresh, IsOutcome};

    /// A machine whose scene has the roots 1, 2 and 3, with screen 3 active, and no handlers, no groups and no
    /// animations. Its devices have read nothing yet, and its time is 0. The whole panel is pending. It takes
    /// all the memory that the board will need; NoMemory if there is too little.
    pub fn open(alloc: Global, limits: &Limits) -> Result<Board, NoMemory>
        ensures machine { IfOk result (λ board. machine_of board ≡ first_machine (bounds_of limits.now)) }
        ensures whole { IfOk result (λ board. (pending_of board).areas ≡ (pending_of board).panel ∷ []) }
    {
        let handlers = Handlers::open(alloc, limits.handlers)?;
        let groups = Groups::open(alloc, limits.groups, limits.objects)?;
        let anims = Anims::open(alloc, limits.anims)?;
        // The canvas comes last, since a way out on which it is let go is dear to prove.
        let canvas = Canvas::open(alloc, limits)?;
        let panel = panel_area(limits);
        let grid = Grid::new(limits.block, panel);
        let damage = Damage::new(panel, grid);
        Ok(Board {
            canvas,
            damage,
            handlers,
            groups,
            anims,
            inputs: Inputs::new(),
            scribe: Scribe::new(),
        })
    }

    /// Begins a step: the log has not failed in it, and no action was refused.
    pub fn begin(&mut self)
        ensures machine { machine_of self.new ≡ machine_of self.old }
        ensures pending { pending_of self.new ≡ pending_of self.old }
        ensures fresh { IsFresh self.new }
        ensures sound { IsPending (pending_of self.new) }
        ensures valid { IsValid (machine_of self.new).scene }
    {
        // For the proof alone: `areas` says that the list is sound, and `tree` that the scene is in order.
        let _areas = self.damage.areas();
        let _tree = self.canvas.store().tree();
        self.scribe = Scribe::new();
    }

    /// The answer of a step that was done.
    pub fn finish(&self) -> Result<Reply, Failed>
        ensures { IsOutcome self.now result }
    {
        if self.scribe.cut {
            Err(Failed)
        } else {
            Ok(Reply::Ok {
                noted: self.scribe.noted,
            })
        }
    }

    /// The scene.
    pub fn store(&self) -> &Store
        ensures { scene_of result.now ≡ (machine_of self.now).scene }
    {
        self.canvas.store()
    }

    /// The places of the scene's objects, their natural sizes, and how far their children reach and are moved.
    pub fn places(&self) -> &Places
        ensures solved { AreSolved result.now (machine_of self.now).scene }
        ensures reached { AreReached result.now (machine_of self.now).scene }
        ensures naturals { AreNatural result.now (machine_of self.now).scene }
    {
        self.canvas.places()
    }

    /// How many slots of a pool are in use.
    pub fn used(&self, pool: Pool) -> u32
        ensures { result ≡ used_in (machine_of self.now) pool }
    {
        let store = self.canvas.store();
        match pool {
            Pool::Handlers => store.limits().handlers - self.handlers.spare(),
            Pool::Groups => store.limits().groups - self.groups.spare(),
            Pool::Anims => store.limits().anims - self.anims.spare(),
            _ => store.used(pool),
        }
    }

    /// Whether an object is there.
    pub fn has(&self, h: Handle) -> bool
        ensures { result ≡ is_there (machine_of self.now).scene h.0 }
    {
        self.canvas.store().tree().has(h)
    }

    /// Whether it is in a state.
    pub fn is_in_state(&self, state: State, h: Handle) -> bool
        ensures { result ≡ is_in_state state (machine_of self.now).scene h }
    {
        match self.canvas.store().row(h) {
            None => false,
            Some(row) => Bits(row.states).has(state.bit()),
        }
    }

    /// Makes a change of the scene alone.
    ///
    /// # Errors
    ///
    /// Its first refusal. All is then as before.
    pub fn change(&mut self, change: &Change) -> Result<(), Refusal>
        requires { IsChange change.now }
        ensures answer { result ≡ result_of (answer_of (machine_of self.old).scene change.now) }
        ensures done { Quiet self.old self.new (make change.now) }
        ensures refused { OnErr result (pending_of self.new ≡ pending_of self.old) }
        ensures gone { removed_in self.new.canvas
            ≡ removed_by (answer_of (machine_of self.old).scene change.now) (removed_in self.old.canvas)
            (machine_of self.old).scene change.now }
    {
        self.canvas.change(change, &mut self.damage)
    }

    /// Pumps until nothing of the scene's picture is pending, drawn or in flight, and stops at the first
    /// fault. `steps` counts the pixels that are made black as each slice begins, each mix over a pixel,
    /// each object that is looked at, and the characters of texts as they are drawn.
    pub fn refresh<P: Panel, B: Ledger>(
        &mut self,
        refresher: &mut Refresher,
        panel: &mut P,
        steps: &mut Steps<B>,
    ) -> Refreshed
        requires can { CanSend (sending refresher.old (P.state panel.old) (pending_of self.old))
            (machine_of self.old).scene }
        requires refresher { refresher.old.sizes ≡ sizes_of (machine_of self.old).scene.limits }
        ensures machine { machine_of self.new ≡ machine_of self.old }
        ensures refreshes { Refreshes (sending refresher.old (P.state panel.old) (pending_of self.old))
            (sending refresher.new (P.state panel.new) (pending_of self.new))
            (machine_of self.old).scene result }
        ensures refresher { refresher.new.sizes ≡ refresher.old.sizes }
        ensures draws { DrawsScene (sending refresher.old (P.state panel.old) (pending_of self.old))
            (sending refresher.new (P.state panel.new) (pending_of self.new))
            (machine_of self.old).scene result steps.old steps.new }
    {
        let view = View {
            canvas: &self.canvas,
        };
        refresher.refresh(&view, &mut self.damage, panel, steps)
    }

    /// Goes one step on to bring the scene's picture to the panel: a poll, a start, or a slice that is drawn.
    /// `steps` counts as in a refresh.
    pub fn pump<P: Panel, B: Ledger>(
        &mut self,
        refresher: &mut Refresher,
        panel: &mut P,
        steps: &mut Steps<B>,
    ) -> Pumped
        requires can { CanSend (sending refresher.old (P.state panel.old) (pending_of self.old))
            (machine_of self.old).scene }
        requires refresher { refresher.old.sizes ≡ sizes_of (machine_of self.old).scene.limits }
        ensures machine { machine_of self.new ≡ machine_of self.old }
        ensures pumps { Pumps (sending refresher.old (P.state panel.old) (pending_of self.old))
            (sending refresher.new (P.state panel.new) (pending_of self.new))
            (machine_of self.old).scene result }
        ensures refresher { refresher.new.sizes ≡ refresher.old.sizes }
        ensures draws { DrawsPart (sending refresher.old (P.state panel.old) (pending_of self.old))
            (sending refresher.new (P.state panel.new) (pending_of self.new))
            (machine_of self.old).scene result steps.old steps.new }
    {
        let view = View {
            canvas: &self.canvas,
        };
        refresher.pump(&view, &mut self.damage, panel, steps)
    }
}

/// All pixels of the panel of these limits.
fn panel_area(limits: &Limits) -> Area
    ensures value { rect_of result ≡ area_at (pos 0) (pos 0) limits.now.width limits.now.height }
    ensures some { is_empty (rect_of result) ≡ false }
{
    Area::at(0, 0, limits.width, limits.height)
}
