//! Texts in counted chunks of bytes.
ghost use Rattle.std.specs.Prelude.{◌≡◌, ℕ, suc, ◌+◌, ◌<◌, ◌≤◌, ◌↔◌, [], length, take, None, Some};
ghost use Rattle.std.specs.Prelude.{IsErr, IsSome, IfOk, OnErr};
ghost use Rattle.gui_pool.specs.Lists.{list_of};
ghost use Rattle.gui_pool.specs.Pieces.{padded, filled, joined};
ghost use Rattle.gui_pool.specs.Texts.{chunk_count, chunks_used, text_of, put, dropped, need_of, need_in};
ghost use Rattle.gui_pool.specs.Texts.{IsFree};

use crate::block::NoMemory;
use crate::lists::Lists;
use crate::slab::Slab;
use arrayvec::ArrayVec;
use std::alloc::Global;
use std::marker::Model;

/// How many bytes a chunk has.
const CHUNK: usize = 28;

/// Names a text that `Chains` keep.
#[derive(Clone, Copy, Debug, PartialEq, Eq)]
pub struct TextId(u32);

impl TextId {
    /// The empty text, which is always there. It takes no chunk.
    pub const EMPTY: TextId = TextId(0);
}

/// There are fewer spare chunks than a text needs.
#[derive(Clone, Copy, Debug, PartialEq, Eq)]
pub struct NoChunks;

/// Texts of at most 1,000 bytes, in chunks of 28 bytes that all of them share.
///
/// A contract sees the text of each name, and the number `spare` of chunks that are free. The chunks in use
/// and the spare ones add up to those that were there at opening.
///
/// A chunk takes 40 bytes, and a text 8 more. Each call takes time in proportion to the square of the number of
/// chunks of its text, of which there are at most 36.
#[derive(Drop)]
pub struct Chains {
    // The length of each text. A text's name is one more than its slot.
    lens: Slab<u16>,
    // Its bytes, in order, by that slot.
    chunks: Lists<[u8; 28]>,
}

impl Model for Chains {
    ghost use Rattle.gui_pool.specs.Texts.{Texts};

    ghost Value = { Texts };

    ghost use Rattle.gui_pool.specs.KeptTexts.{texts_in, AreTexts};

    ghost view = { λ c. texts_in c.lens c.chunks };

    ghost invariant = { λ c. AreTexts c.lens c.chunks };
}

impl Chains {
    /// No text, and `n` free chunks, or `NoMemory` if there is no memory for so many. No later call takes
    /// memory.
    pub fn with_capacity(alloc: Global, n: u32) -> Result<Chains, NoMemory>
        ensures empty { IfOk result (λ t. (slot : ℕ) → text_of t (suc slot) ≡ None) }
        ensures spare { IfOk result (λ t. t.spare ≡ n) }
        ensures slots { IfOk result (λ t. length t.texts ≡ n) }
    {
        let lens = Slab::with_capacity(alloc, n)?;
        let chunks = Lists::open(alloc, n, n)?;
        Ok(Chains { lens, chunks })
    }

    /// How many chunks are free.
    pub fn spare(&self) -> u32
        ensures value { result ≡ self.now.spare }
        ensures sum { chunks_used self.now + result ≡ length self.now.texts }
    {
        let _ = &self.lens;
        self.chunks.spare()
    }

    /// Keeps a text, and names it.
    ///
    /// # Errors
    ///
    /// `NoChunks`, with all as before, exactly if the text needs more chunks than are free.
    pub fn put(&mut self, text: &[u8]) -> Result<TextId, NoChunks>
        requires { length text.now ≤ 1000 }
        ensures full { IsErr result ↔ (self.old.spare < need_of text.now) }
        ensures named { IfOk result (λ id. text_of self.new id.0 ≡ Some text.now) }
        ensures fresh { IfOk result (λ id. IsFree self.old id.0) }
        ensures puts { IfOk result (λ id. self.new ≡ put self.old id.0 text.now) }
        ensures refused { OnErr result (self.new ≡ self.old) }
    {
        if text.is_empty() {
            return Ok(TextId::EMPTY);
        }
        let need = chunk_count(text.len());
        if need > self.chunks.spare() {
            return Err(NoChunks);
        }
        // Each text has a chunk at least, so if a chunk is free, a slot is.
        let slots = self.lens.spare();
        if slots == 0 {
            return Err(NoChunks);
        }
        let Ok(slot) = self.lens.insert(text.len() as u16) else {
            unreachable!()
        };
        fill(&mut self.chunks, slot, text);
        Ok(TextId(slot + 1))
    }

    /// Keeps a text in the place of another, and names it. The chunks of the other count as free.
    ///
    /// # Errors
    ///
    /// `NoChunks`, with all as before, exactly if the text needs more chunks than are free together with those
    /// of the other.
    pub fn replace(&mut self, old: TextId, text: &[u8]) -> Result<TextId, NoChunks>
        requires short { length text.now ≤ 1000 }
        requires there { IsSome (text_of self.old old.0) }
        ensures full { IsErr result ↔
            (self.old.spare + need_in (text_of self.old old.0) < need_of text.now) }
        ensures named { IfOk result (λ id. text_of self.new id.0 ≡ Some text.now) }
        ensures fresh { IfOk result (λ id. IsFree (dropped self.old old.0) id.0) }
        ensures puts { IfOk result (λ id. self.new ≡ put (dropped self.old old.0) id.0 text.now) }
        ensures refused { OnErr result (self.new ≡ self.old) }
    {
        let need = chunk_count(text.len());
        let free = self.spare();
        let held = self.held(old);
        if need.saturating_sub(free) > held {
            return Err(NoChunks);
        }
        self.drop_text(old);
        self.put(text)
    }

    /// Gives the chunks of a text back.
    pub fn drop_text(&mut self, id: TextId)
        requires { IsSome (text_of self.old id.0) }
        ensures { self.new ≡ dropped self.old id.0 }
    {
        if id.0 == 0 {
            return;
        }
        let slot = id.0 - 1;
        self.lens.take(slot);
        self.chunks.clear(slot);
    }

    /// Makes `out` the bytes of a text.
    pub fn copy_into(&self, id: TextId, out: &mut ArrayVec<u8, 1000>)
        requires { IsSome (text_of self.now id.0) }
        ensures { text_of self.now id.0 ≡ Some out.new.items }
    {
        if id.0 == 0 {
            out.clear();
            return;
        }
        let slot = id.0 - 1;
        let Some(len) = self.lens.get(slot) else {
            unreachable!()
        };
        copy(&self.chunks, slot, *len as usize, out);
    }

    /// How many chunks a text has.
    fn held(&self, id: TextId) -> u32
        requires { IsSome (text_of self.now id.0) }
        ensures { result ≡ need_in (text_of self.now id.0) }
    {
        if id.0 == 0 {
            return 0;
        }
        self.chunks.len(id.0 - 1)
    }
}

/// How many chunks a text of so many bytes takes.
fn chunk_count(len: usize) -> u32
    requires { len ≤ 1000 }
    ensures { result ≡ chunk_count len }
{
    ((len + CHUNK - 1) / CHUNK) as u32
}

/// A piece of a text, with zeros behind it.
fn padded(piece: &[u8]) -> [u8; 28]
    requires { length piece.now ≤ 28 }
    ensures { result ≡ padded piece.now }
{
    let mut chunk = [0; 28];
    chunk[..piece.len()].copy_from_slice(piece);
    chunk
}

/// Puts the chunks of a text behind one another, as the list of an owner that has none.
fn fill(chunks: &mut Lists<[u8; 28]>, owner: u32, text: &[u8])
    requires short { length text.now ≤ 1000 }
    requires within { owner < length chunks.old.lists }
    requires none { list_of chunks.old owner ≡ [] }
    requires room { chunk_count (length text.now) ≤ chunks.old.spare }
    ensures { chunks.new ≡ filled chunks.old owner text.now }
{
    let mut rest = text;
    'pieces: for _i in 0..chunk_count(text.len()) {
        let (piece, more) = rest.split_at(CHUNK.min(rest.len()));
        let Ok(()) = chunks.push(owner, padded(piece)) else {
            unreachable!()
        };
        rest = more;
    }
}

/// Makes `out` the first so many bytes of an owner's chunks.
fn copy(chunks: &Lists<[u8; 28]>, owner: u32, len: usize, out: &mut ArrayVec<u8, 1000>)
    requires within { owner < length chunks.now.lists }
    requires short { len ≤ 1000 }
    ensures { out.new.items ≡ take len (joined (list_of chunks.now owner)) }
{
    out.clear();
    let mut items = chunks.of(owner);
    let mut left = len;
    while let Some(chunk) = items.next() {
        let bytes: &[u8] = chunk;
        let (piece, _) = bytes.split_at(left.min(bytes.len()));
        let Ok(()) = out.try_extend_from_slice(piece) else {
            unreachable!()
        };
        left -= piece.len();
    }
}
