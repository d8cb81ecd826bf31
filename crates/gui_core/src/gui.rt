//! The machine.
ghost use Rattle.std.specs.Prelude.{◌≡◌, ◌↔◌, ◌<◌, ◌≤◌, ◌*◌, ◌∷◌, [], IfOk, OnOk, OnErr, None, false};
ghost use Rattle.gui_base.specs.declared.refusal.Refusal.{Refusal};
ghost use Rattle.gui_edge.specs.Panel.{PanelState, HasSizes};
ghost use Rattle.gui_base.specs.Area.{size_of};
ghost use Rattle.gui_damage.specs.Pending.{most_areas, total};
ghost use Rattle.gui_store.specs.Views.{scene_of};
ghost use Rattle.gui_layout.specs.Naturals.{AreNatural};
ghost use Rattle.gui_layout.specs.Solved.{AreReached, AreSolved};
ghost use Rattle.gui_refresh.specs.Refreshes.{IsAtRest};
ghost use Rattle.gui_refresh.specs.Stages.{sizes_of, progress_of};
ghost use Rattle.gui_play.specs.Boards.{machine_of as machine_on};
ghost use Rattle.gui_play.specs.Panels.{AgreesWith, CanSend, DrawsPart, DrawsScene, GoesOnAgreeing};
ghost use Rattle.gui_play.specs.Panels.{Pumps, Refreshes};
ghost use Rattle.gui_play.specs.Steps.{Refuses};
ghost use Rattle.owed_defs.specs.Happenings.{debt_of};
ghost use Rattle.owed_defs.specs.Progress.{Changing};
ghost use Rattle.owed_defs.specs.declared.Pumped.TheVariants.{Idle};
ghost use Rattle.play_defs.specs.Focus.{focused_in, group_at};
ghost use Rattle.run_defs.specs.declared.Reply.TheVariants.{Refused};
ghost use Rattle.run_laws.specs.Members.{AreJoined};

use gui_base::{Handle, Limits, NoMemory, Pool, Steps};
use gui_edge::{Failed, Panel, Sink};
use gui_layout::Places;
use gui_paint::Shown;
use gui_play::Board;
use gui_refresh::{Pumped, Refreshed, Refresher};
use gui_store::Store;
use run_defs::{Command, Reply};
use std::alloc::Global;
use std::sync::ledger::Ledger;

/// A scene with its places, handlers of events, focus groups, input devices, the time, the areas of the panel
/// that are pending, and what sends their pixels of the scene's picture.
///
/// From the opening on, and after each call, each pixel of the panel is pending, or its newest copy has the
/// scene's colour. The newest copy is the one that is drawn and waits, else the one in flight, else what the
/// panel shows.
pub struct Gui {
    board: Board,
    refresher: Refresher,
    ghost sizes: { refresher.sizes ≡ sizes_of (machine_on board).scene.limits },
    ghost joined: { AreJoined (machine_on board) },
}

impl Drop for Gui {
    /// Lets go of every field in one call, which keeps the proofs of its owners short.
    fn drop(self) {
        let Gui {
            board: _,
            refresher: _,
        } = self;
    }
}

impl Gui {
    ghost use Rattle.gui_base.specs.Bounded.{bounds_of};
    ghost use Rattle.run_defs.specs.Machine.{first_machine, used_in};
    ghost use Rattle.run_defs.specs.Pointing.{hit};
    ghost use Rattle.run_defs.specs.Step.{step, IsCommand};
    ghost use Rattle.run_defs.specs.Owing.{command_owes};
    ghost use Rattle.std.specs.Io.KnownBytes.{Appends};
    ghost use Rattle.gui_damage.specs.Adding.{AddsAll};
    ghost use Rattle.gui_edge.specs.Causes.{HasCause};
    ghost use Rattle.gui_edge.specs.Sink.{AppendsPrefix};
    ghost use Rattle.gui_core.specs.Machines.{machine_of, pending_in, refresher_in, stage_of};
    ghost use Rattle.gui_core.specs.Sums.{picture_sum};

    /// A machine whose scene has the roots 1, 2 and 3, with screen 3 active, and no handlers, no groups and no
    /// animations. Its devices have read nothing yet, and its time is 0. The whole panel is pending. It takes
    /// all the memory that the machine will need; NoMemory if there is too little.
    pub fn open(alloc: Global, limits: &Limits) -> Result<Gui, NoMemory>
        ensures machine { IfOk result (λ gui. machine_of gui ≡ first_machine (bounds_of limits.now)) }
        ensures whole { IfOk result (λ gui. (pending_in gui).areas ≡ (pending_in gui).panel ∷ []) }
        ensures agrees { IfOk result (λ gui. (panel : PanelState) →
            HasSizes panel (machine_of gui).scene.limits →
            AgreesWith (stage_of gui panel) (machine_of gui).scene) }
        ensures still { IfOk result (λ gui. refresher_in gui
            ≡ record (refresher_in gui) { drawn = None; free = 2; started = false }) }
    {
        // The board comes last, since a way out on which it is let go is dear to prove.
        let refresher = Refresher::open(alloc, limits)?;
        let board = Board::open(alloc, limits)?;
        Ok(Gui { board, refresher })
    }

    /// Carries out a command, or answers its first refusal, which leaves all as it was, what is pending and the
    /// log too. What its changes owe becomes pending. What its events write goes to the log. `Failed` comes
    /// only if the log failed: the machine is then as if the log had not failed, and the log holds a prefix of
    /// what the events write.
    pub fn apply<S: Sink>(&mut self, command: &Command, log: &mut S) -> Result<Reply, Failed>
        requires { IsCommand command.now }
        ensures machine { machine_of self.new ≡ (step (machine_of self.old) command.now).machine }
        ensures reply { IfOk result (λ reply. reply ≡ (step (machine_of self.old) command.now).reply) }
        ensures lines { OnOk result (Appends (S.state log.old).held (S.state log.new).held
            (step (machine_of self.old) command.now).lines) }
        ensures cut { OnErr result (AppendsPrefix (S.state log.old).held (S.state log.new).held
            (step (machine_of self.old) command.now).lines) }
        ensures cause { HasCause (S.state log.old).faults (S.state log.new).faults result }
        ensures refused { (refusal : Refusal) →
            (step (machine_of self.old) command.now).reply ≡ Refused refusal →
            Refuses refusal result (pending_in self.old) (pending_in self.new) (S.state log.old)
            (S.state log.new) }
        ensures damage { AddsAll (pending_in self.old) (pending_in self.new)
            (command_owes (machine_of self.old) command.now) }
        ensures agrees { GoesOnAgreeing (pending_in self.old) (pending_in self.new)
            (machine_of self.old).scene (machine_of self.new).scene }
        ensures refresher { refresher_in self.new ≡ refresher_in self.old }
        ensures progress { (panel : PanelState) →
            Changing (debt_of (command_owes (machine_of self.old) command.now))
            (progress_of (stage_of self.old panel)) (progress_of (stage_of self.new panel)) }
    {
        self.board.begin();
        gui_play::apply(&mut self.board, command, log)
    }

    /// The scene.
    pub fn store(&self) -> &Store
        ensures { scene_of result.now ≡ (machine_of self.now).scene }
    {
        self.board.store()
    }

    /// The places of the scene's objects, their natural sizes, and how far their children reach and are moved.
    pub fn places(&self) -> &Places
        ensures solved { AreSolved result.now (machine_of self.now).scene }
        ensures reached { AreReached result.now (machine_of self.now).scene }
        ensures naturals { AreNatural result.now (machine_of self.now).scene }
    {
        self.board.places()
    }

    /// The object that a point of the panel hits: the last in paint order that is clickable and whose visible
    /// area holds the point. `None` exactly if there is none.
    pub fn hit(&self, x: i32, y: i32) -> Option<Handle>
        ensures { result ≡ hit (machine_of self.now).scene x y }
    {
        self.board.hit(x, y)
    }

    /// The object of a focus group that has the focus: `None` exactly if there is no such group or none has it.
    pub fn focused(&self, group: u8) -> Option<Handle>
        ensures { result ≡ focused_in (group_at (machine_of self.now).groups group) }
    {
        self.board.focused(group)
    }

    /// The time in milliseconds.
    pub fn time(&self) -> u64
        ensures { result ≡ (machine_of self.now).time }
    {
        self.board.time()
    }

    /// How many slots of a pool are in use.
    pub fn used(&self, pool: Pool) -> u32
        ensures { result ≡ used_in (machine_of self.now) pool }
    {
        self.board.used(pool)
    }

    /// How many pixels are pending, those of each listed area by themselves.
    pub fn pending(&self) -> u64
        ensures pixels { result ≡ total (pending_in self.now).areas }
        ensures most { result ≤ most_areas * size_of (pending_in self.now).panel }
    {
        self.board.pending()
    }

    /// The sum of the numbers of the colours of all pixels of the scene's picture, modulo 65536. The picture
    /// is painted in slices into a free buffer, which `steps` counts as in a refresh. Nothing is sent, and
    /// nothing changes.
    pub fn picture_sum<B: Ledger>(&mut self, steps: &mut Steps<B>) -> u16
        requires { 0 < (refresher_in self.old).free }
        ensures same { self.new ≡ self.old }
        ensures sum { result ≡ picture_sum (machine_of self.old).scene }
    {
        let shown = Shown {
            store: self.board.store(),
            places: self.board.places(),
        };
        self.refresher.sum_of(&shown, steps)
    }

    /// Pumps until nothing of the scene's picture is pending, drawn or in flight, and stops at the first
    /// fault. `steps` counts the pixels that are made black as each slice begins, each mix over a pixel,
    /// each object that is looked at, and the characters of texts as they are drawn.
    pub fn refresh<P: Panel, B: Ledger>(&mut self, panel: &mut P, steps: &mut Steps<B>) -> Refreshed
        requires { CanSend (stage_of self.old (P.state panel.old)) (machine_of self.old).scene }
        ensures machine { machine_of self.new ≡ machine_of self.old }
        ensures refreshes { Refreshes (stage_of self.old (P.state panel.old))
            (stage_of self.new (P.state panel.new)) (machine_of self.old).scene result }
        ensures draws { DrawsScene (stage_of self.old (P.state panel.old))
            (stage_of self.new (P.state panel.new)) (machine_of self.old).scene result steps.old steps.new }
    {
        self.board.refresh(&mut self.refresher, panel, steps)
    }

    /// Goes one step on to bring the scene's picture to the panel: a poll, a start, or a slice that is drawn.
    /// It is idle exactly if nothing was pending, drawn or in flight. `steps` counts as in a refresh.
    pub fn pump<P: Panel, B: Ledger>(&mut self, panel: &mut P, steps: &mut Steps<B>) -> Pumped
        requires { CanSend (stage_of self.old (P.state panel.old)) (machine_of self.old).scene }
        ensures machine { machine_of self.new ≡ machine_of self.old }
        ensures pumps { Pumps (stage_of self.old (P.state panel.old)) (stage_of self.new (P.state panel.new))
            (machine_of self.old).scene result }
        ensures idle { (result ≡ Idle) ↔ IsAtRest (stage_of self.old (P.state panel.old)) }
        ensures draws { DrawsPart (stage_of self.old (P.state panel.old))
            (stage_of self.new (P.state panel.new)) (machine_of self.old).scene result steps.old steps.new }
    {
        self.board.pump(&mut self.refresher, panel, steps)
    }
}
