//! The rows of objects by handle, and their texts.
ghost use Rattle.std.specs.Prelude.{◌≡◌, ℕ, ◌+◌, ◌<◌, ◌≤◌, ◌↔◌, [], length, option_map};
ghost use Rattle.std.specs.Prelude.{None, Some, IsSome, IfSome, IfOk, IsErr, OnOk, OnErr};
ghost use Rattle.gui_pool.specs.Table.{value_at, value_inserted, value_replaced};
ghost use Rattle.gui_pool.specs.Texts.{need_of};
ghost use Rattle.scene_defs.specs.Row.{shown_row, new_row};
ghost use Rattle.scene_defs.specs.Deeds.{row_after};
ghost use Rattle.gui_store.specs.RowSets.{chunks_at, without_row, with_text};

use crate::row::{new_row, set_row};
use arrayvec::ArrayVec;
use gui_base::Kind;
use gui_pool::{Chains, NoChunks, NoMemory, Table};
use scene_defs::{Change, Row};
use std::alloc::Global;
use std::marker::Model;

/// A row for each of some handles, and a text of at most 1,000 bytes for each row.
///
/// A contract sees the row of each handle as a scene shows it, beside the bytes of its text, and how many
/// chunks are free for texts. It sees no name of a text: a row keeps one, and no two rows the same, but for
/// that of the empty text.
pub struct RowTable {
    // By handle.
    rows: Table<Row>,
    // Those that the rows name.
    texts: Chains,
}

impl Drop for RowTable {
    /// Lets go of every field in one call, which keeps the proofs of its owners short.
    fn drop(self) {
        let RowTable { rows: _, texts: _ } = self;
    }
}

impl Model for RowTable {
    ghost use Rattle.gui_store.specs.RowSets.{RowSet};

    ghost Value = { RowSet };

    ghost use Rattle.gui_store.specs.KeptRows.{rows_in, AreRows};

    ghost view = { λ r. rows_in r.rows r.texts };

    ghost invariant = { λ r. AreRows r.rows r.texts };
}

impl RowTable {
    /// No rows, for handles below `handles`, at most `objects` rows at a time, and `texts` chunks for their
    /// texts, or `NoMemory` if there is no memory for so many. No later call takes memory.
    pub fn open(alloc: Global, handles: u32, objects: u32, texts: u32) -> Result<RowTable, NoMemory>
        ensures handles { IfOk result (λ r. length r.rows.values ≡ handles) }
        ensures empty { IfOk result (λ r. (h : ℕ) → value_at r.rows h ≡ None) }
        ensures spare { IfOk result (λ r. r.rows.spare ≡ objects) }
        ensures size { IfOk result (λ r. r.rows.size ≡ objects) }
        ensures spare_texts { IfOk result (λ r. r.spare_texts ≡ texts) }
    {
        let rows = Table::open(alloc, handles, objects)?;
        let texts = Chains::with_capacity(alloc, texts)?;
        Ok(RowTable { rows, texts })
    }

    /// The row of a handle: `None` exactly if it has none.
    pub fn get(&self, h: u32) -> Option<&Row>
        ensures value { option_map (λ r. shown_row r.now) result
            ≡ option_map (λ k. k.row) (value_at self.now.rows h) }
    {
        self.rows.get(h)
    }

    /// Gives the row of a new object, without text, to a handle that has none.
    pub fn insert_new(&mut self, h: u32, kind: Kind)
        requires within { h < length self.old.rows.values }
        requires vacant { value_at self.old.rows h ≡ None }
        requires room { 0 < self.old.rows.spare }
        ensures { self.new ≡ record self.old {
          rows = value_inserted self.old.rows h (record { row = new_row kind; text = [] });
        } }
    {
        let Ok(()) = self.rows.insert(h, new_row(kind)) else {
            unreachable!()
        };
    }

    /// Takes out the row of a handle that has one, and gives the chunks of its text back.
    pub fn remove(&mut self, h: u32)
        requires { IsSome (value_at self.old.rows h) }
        ensures { self.new ≡ without_row self.old h }
    {
        let Some(row) = self.rows.remove(h) else {
            unreachable!()
        };
        self.texts.drop_text(row.text);
    }

    /// Makes a change to the row of a handle that has one. A change that sets no row leaves it.
    pub fn set(&mut self, h: u32, change: &Change)
        requires { IsSome (value_at self.old.rows h) }
        ensures { IfSome (value_at self.old.rows h) (λ kept. self.new ≡ record self.old {
          rows = value_replaced self.old.rows h (record kept { row = row_after change.now kept.row });
        }) }
    {
        let Some(row) = self.rows.get_mut(h) else {
            unreachable!()
        };
        set_row(row, change);
    }

    /// Gives another text to the row of a handle that has one. The chunks of the one that it had count as
    /// free.
    ///
    /// # Errors
    ///
    /// `NoChunks`, with all as before, exactly if the text needs more chunks than are free together with those
    /// of the one that it had.
    pub fn set_text(&mut self, h: u32, text: &[u8]) -> Result<(), NoChunks>
        requires there { IsSome (value_at self.old.rows h) }
        requires short { length text.now ≤ 1000 }
        ensures full { IsErr result ↔ (self.old.spare_texts + chunks_at self.old h < need_of text.now) }
        ensures after { OnOk result (self.new ≡ with_text self.old h text.now) }
        ensures refused { OnErr result (self.new ≡ self.old) }
    {
        let Some(row) = self.rows.get_mut(h) else {
            unreachable!()
        };
        row.text = self.texts.replace(row.text, text)?;
        Ok(())
    }

    /// How many chunks are free for texts.
    pub fn spare_texts(&self) -> u32
        ensures { result ≡ self.now.spare_texts }
    {
        let _ = &self.rows;
        self.texts.spare()
    }

    /// Makes `out` the bytes of the text of a handle that has a row.
    pub fn text_into(&self, h: u32, out: &mut ArrayVec<u8, 1000>)
        requires { IsSome (value_at self.now.rows h) }
        ensures { option_map (λ k. k.text) (value_at self.now.rows h) ≡ Some out.new.items }
    {
        let Some(row) = self.rows.get(h) else {
            unreachable!()
        };
        self.texts.copy_into(row.text, out);
    }
}
