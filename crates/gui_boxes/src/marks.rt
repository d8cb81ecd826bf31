//! Objects that are marked.
ghost use Rattle.std.specs.Prelude.{◌≡◌, ◌≤◌, ◌<◌, ◌+◌, [], ◌∷◌, ℕ, true, false, eqb, length, not, ◌&&◌, if◌then◌else◌, IfOk, vec_capacity};
ghost use Rattle.gui_boxes.specs.Listing.{HasThese};
ghost use Rattle.gui_boxes.specs.Pending.{AreMarks};

use crate::listing::{clear, put};
use crate::mark::Mark;
use crate::pending::has_mark;
use gui_base::{Handle, NoMemory};
use gui_pool::Table;
use std::alloc::Global;

/// As many as there are handles at all: any may be marked.
const HANDLES: u32 = 65536;

/// Objects that are marked: those that may differ from what they were when the places were settled. An object
/// that is gone may be marked too. Of an object either anything may differ, or its list of children alone.
///
/// Marking takes constant time, and letting go of all marks takes time by their number. Each of so many
/// objects takes 24 to 28 bytes.
#[derive(Drop)]
pub struct Marks {
    // Each once, in the order of marking.
    pub listed: Vec<Handle>,
    // Of these alone: how far the mark goes. What a mark concerns is settled only while places are.
    pub pending: Table<Mark>,
    // The objects at the top of the trees that were solved last.
    pub solved: Vec<Handle>,
    objects: u32,
    ghost marks: { AreMarks objects pending listed.items },
    ghost room: { objects ≤ vec_capacity listed },
    ghost solved_room: { objects ≤ vec_capacity solved },
}

impl Marks {
    ghost use Rattle.gui_boxes.specs.Marks.{is_changed, is_marked, is_parent, mark_count, most_marks, solved_in};

    /// No marks. It takes all the memory that so many marks need; NoMemory where there is too little.
    pub fn open(alloc: Global, objects: u32) -> Result<Marks, NoMemory>
        ensures none { IfOk result (λ marks. (h : ℕ) → is_marked marks h ≡ false) }
        ensures count { IfOk result (λ marks. mark_count marks ≡ 0) }
        ensures most { IfOk result (λ marks. most_marks marks ≡ objects) }
        ensures solved { IfOk result (λ marks. solved_in marks ≡ []) }
    {
        let Ok(listed) = Vec::with_capacity(alloc, objects as usize) else {
            return Err(NoMemory);
        };
        let Ok(pending) = Table::open(alloc, HANDLES, objects) else {
            return Err(NoMemory);
        };
        let Ok(solved) = Vec::with_capacity(alloc, objects as usize) else {
            return Err(NoMemory);
        };
        Ok(Marks {
            listed,
            pending,
            solved,
            objects,
        })
    }

    /// The objects at the top of the trees that were solved when these marks were settled last, in the order
    /// of solving.
    pub fn solved(&self) -> &[Handle]
        ensures { result.now ≡ solved_in self.now }
    {
        self.solved.as_slice()
    }

    /// Marks an object, be it there or gone: anything of it may have changed.
    pub fn mark(&mut self, h: Handle)
        requires room { is_marked self.old h.0 ≡ false → mark_count self.old < most_marks self.old }
        ensures own { is_changed self.new h.0 ≡ true }
        ensures others { (k : ℕ) → eqb k h.0 ≡ false → is_changed self.new k ≡ is_changed self.old k }
        ensures parents { (k : ℕ) → is_parent self.new k ≡ (is_parent self.old k && not (eqb k h.0)) }
        ensures count { mark_count self.new
            ≡ (if is_marked self.old h.0 then mark_count self.old else mark_count self.old + 1) }
        ensures most { most_marks self.new ≡ most_marks self.old }
        ensures solved { solved_in self.new ≡ solved_in self.old }
    {
        if has_mark(&self.pending, h) {
            let _ = self.pending.replace(h.0 as u32, Mark::All);
            return;
        }
        put(&mut self.pending, h, Mark::All);
        self.listed.push_reserved(h);
    }

    /// Marks an object whose list of children alone may be another, where those that are new in it are
    /// marked. Nothing comes of it where the object is marked.
    pub fn mark_children(&mut self, h: Handle)
        requires room { is_marked self.old h.0 ≡ false → mark_count self.old < most_marks self.old }
        ensures own { is_marked self.new h.0 ≡ true }
        ensures changed { (k : ℕ) → is_changed self.new k ≡ is_changed self.old k }
        ensures others { (k : ℕ) → eqb k h.0 ≡ false → is_parent self.new k ≡ is_parent self.old k }
        ensures count { mark_count self.new
            ≡ (if is_marked self.old h.0 then mark_count self.old else mark_count self.old + 1) }
        ensures most { most_marks self.new ≡ most_marks self.old }
        ensures solved { solved_in self.new ≡ solved_in self.old }
    {
        if has_mark(&self.pending, h) {
            return;
        }
        put(&mut self.pending, h, Mark::Children);
        self.listed.push_reserved(h);
    }

    /// Nothing is solved for a change that leaves settled places as they are.
    pub fn solve_none(&mut self)
        ensures solved { solved_in self.new ≡ [] }
        ensures marked { (k : ℕ) → is_marked self.new k ≡ is_marked self.old k }
        ensures changed { (k : ℕ) → is_changed self.new k ≡ is_changed self.old k }
        ensures parents { (k : ℕ) → is_parent self.new k ≡ is_parent self.old k }
        ensures count { mark_count self.new ≡ mark_count self.old }
        ensures most { most_marks self.new ≡ most_marks self.old }
    {
        self.solved.clear();
    }

    /// All marks are let go for a change that leaves settled places as they are, and one object is told as if it were
    /// solved: it alone was marked.
    pub fn solve_one(&mut self, h: Handle)
        requires room { 0 < most_marks self.old }
        ensures solved { solved_in self.new ≡ h ∷ [] }
        ensures empty { (k : ℕ) → is_marked self.new k ≡ false }
        ensures count { mark_count self.new ≡ 0 }
        ensures most { most_marks self.new ≡ most_marks self.old }
    {
        self.solved.clear();
        self.solved.push_reserved(h);
        clear_marks(&mut self.pending, &mut self.listed);
    }
}

/// Lets go of all marks, of which some may be settled.
pub fn clear_marks(pending: &mut Table<Mark>, listed: &mut Vec<Handle>)
    ensures marks { (objects : ℕ) → HasThese objects pending.old listed.old.items →
        65536 ≤ length pending.old.values → AreMarks objects pending.new listed.new.items }
    ensures empty { listed.new.items ≡ [] }
    ensures capacity { vec_capacity listed.new ≡ vec_capacity listed.old }
{
    clear(pending, listed.as_slice());
    listed.clear();
}
