//! The buffer that an area of the picture is drawn into.
ghost use Rattle.std.specs.Prelude.{◌≡◌, ◌+◌, ◌^◌, ◌<◌, ◌≤◌, [], true, false, length, replicate, slice_range, IfOk, ◌≤ℤ◌};
ghost use Rattle.std.specs.Borrow.{sem};
ghost use Rattle.gui_base.specs.Area.{has, is_empty, width_of, size_of, count_between};
ghost use Rattle.gui_base.specs.Color.{black, parts};
ghost use Rattle.gui_base.specs.Corners.{rect_of};
ghost use Rattle.gui_color.specs.Buffer.{no_pixel, distance, place, row_of};
ghost use Rattle.gui_color.specs.Buffer.{IsWhole, IsBlack, IsMixed, HoldsRow};
ghost use Rattle.gui_color.specs.Lending.{LendsRow, LendsRun};

use crate::mixing::{ALL_PARTS, parts_of};
use crate::row::lay_row;
use gui_base::{Area, NoMemory, Rgb565, Steps};
use std::alloc::Global;
use std::marker::Model;
use std::sync::ledger::Ledger;

/// The pixels of an area, row by row, in memory that is taken once. No area has more pixels than the limit.
#[derive(Drop)]
pub struct DrawBuf {
    area: Area,
    /// As many as the limit; those of the area come first.
    pixels: Vec<Rgb565>,
}

impl Model for DrawBuf {
    ghost use Rattle.std.specs.Prelude.{◌≤◌, take, vec_len};
    ghost use Rattle.gui_base.specs.Area.{size_of};
    ghost use Rattle.gui_base.specs.Corners.{rect_of};
    ghost use Rattle.gui_color.specs.Buffer.{Buffer};

    ghost Value = { Buffer };

    ghost view = { λ b. record {
      area = rect_of b.area;
      pixels = take (size_of (rect_of b.area)) b.pixels.items;
      limit = vec_len b.pixels;
    } };

    ghost invariant = { λ b. size_of (rect_of b.area) ≤ vec_len b.pixels };
}

impl DrawBuf {
    /// A buffer without a pixel yet, with memory for `limit` pixels, from 1 to 1,048,576.
    pub fn open(alloc: Global, limit: u32) -> Result<DrawBuf, NoMemory>
        requires some { 1 ≤ limit }
        requires most { limit ≤ 1048576 }
        ensures limit { IfOk result (λ buf. buf.limit ≡ limit) }
        ensures area { IfOk result (λ buf. buf.area ≡ no_pixel) }
        ensures none { IfOk result (λ buf. buf.pixels ≡ []) }
    {
        let pixels = vec![in alloc; Rgb565::BLACK; limit as usize].map_err(|_| NoMemory)?;
        let area = Area {
            x1: 0,
            y1: 0,
            x2: -1,
            y2: -1,
        };
        Ok(DrawBuf { area, pixels })
    }

    /// Makes the buffer hold the pixels of an area, all of them black. The area is not empty and has at most
    /// the limit's pixels. Each pixel that is written is a step.
    pub fn begin<L: Ledger>(&mut self, area: Area, steps: &mut Steps<L>)
        requires some { is_empty (rect_of area) ≡ false }
        requires fits { size_of (rect_of area) ≤ self.old.limit }
        ensures area { self.new.area ≡ rect_of area }
        ensures black { self.new.pixels ≡ replicate (size_of (rect_of area)) black }
        ensures each_black { IsBlack self.new }
        ensures limit { self.new.limit ≡ self.old.limit }
        ensures steps { steps.new ≡ steps.old + size_of (rect_of area) }
    {
        let size = area.size() as usize;
        self.area = area;
        clear(self.pixels.slice_mut(0..size), steps);
    }

    /// The area whose pixels it holds.
    pub fn area(&self) -> Area
        ensures { rect_of result ≡ self.now.area }
    {
        self.area
    }

    /// The pixels of the area, row by row.
    pub fn pixels(&self) -> &[Rgb565]
        ensures colors { result.now ≡ self.now.pixels }
        ensures whole { IsWhole self.now }
    {
        let size = self.area.size() as usize;
        &self.pixels[..size]
    }

    /// The pixels of row `y` from `x1` to `x2`, both included, for writing. All of them are in the area.
    pub fn row_mut(&mut self, y: i32, x1: i32, x2: i32) -> &mut [Rgb565]
        requires order { x1 ≤ℤ x2 }
        requires first { has self.old.area x1 y ≡ true }
        requires last { has self.old.area x2 y ≡ true }
        ensures* writes_back { sem 𝓛 (LendsRow self.entry y x1 result) }
        ensures row { result.now ≡ row_of self.old y x1 x2 }
        ensures len { length result.now ≡ count_between x1 x2 }
        ensures whole { IsWhole self.old }
        ensures pixels { HoldsRow self.old y x1 x2 }
    {
        let start = place_of(self.area, x1, y);
        let len = distance_between(x1, x2) + 1;
        self.pixels.slice_mut(start..start + len)
    }

    /// Mixes `fg` with an opacity from 0 to 255 over the pixels of a part of the area.
    pub fn fill(&mut self, part: Area, fg: Rgb565, opa: u8)
        requires some { is_empty (rect_of part) ≡ false }
        requires first { has self.old.area part.x1 part.y1 ≡ true }
        requires last { has self.old.area part.x2 part.y2 ≡ true }
        ensures area { self.new.area ≡ self.old.area }
        ensures limit { self.new.limit ≡ self.old.limit }
        ensures pixels { IsMixed self.old self.new (has (rect_of part)) fg opa }
    {
        match parts_of(opa) {
            0 => {}
            ALL_PARTS => self.lay::<true>(part, fg, opa),
            _ => self.lay::<false>(part, fg, opa),
        }
    }

    /// Mixes a colour over each pixel of a part. `COVERS` says that the colour covers what lies below it: such
    /// a colour has code of its own, which prepares no mixing.
    #[inline(never)]
    fn lay<const COVERS: bool>(&mut self, part: Area, fg: Rgb565, opa: u8)
        requires covers { COVERS ≡ true → parts opa ≡ 32 }
        requires some { is_empty (rect_of part) ≡ false }
        requires first { has self.old.area part.x1 part.y1 ≡ true }
        requires last { has self.old.area part.x2 part.y2 ≡ true }
        ensures area { self.new.area ≡ self.old.area }
        ensures limit { self.new.limit ≡ self.old.limit }
        ensures pixels { IsMixed self.old self.new (has (rect_of part)) fg opa }
    {
        if part.width() == self.area().width() {
            self.lay_whole_lines::<COVERS>(part, fg, opa);
        } else {
            self.lay_lines::<COVERS>(part, fg, opa);
        }
    }

    /// Mixes a colour over a part as wide as the area. Its lines lie one after another, so one run holds them
    /// all.
    fn lay_whole_lines<const COVERS: bool>(&mut self, part: Area, fg: Rgb565, opa: u8)
        requires covers { COVERS ≡ true → parts opa ≡ 32 }
        requires wide { width_of (rect_of part) ≡ width_of self.old.area }
        requires some { is_empty (rect_of part) ≡ false }
        requires first { has self.old.area part.x1 part.y1 ≡ true }
        requires last { has self.old.area part.x2 part.y2 ≡ true }
        ensures area { self.new.area ≡ self.old.area }
        ensures limit { self.new.limit ≡ self.old.limit }
        ensures pixels { IsMixed self.old self.new (has (rect_of part)) fg opa }
    {
        let from = place_of(self.area(), part.x1, part.y1);
        let len = part.width() as usize * part.height() as usize;
        lay_row::<COVERS>(self.run_mut(from, len), fg, opa);
    }

    /// Mixes a colour over any part, line by line.
    fn lay_lines<const COVERS: bool>(&mut self, part: Area, fg: Rgb565, opa: u8)
        requires covers { COVERS ≡ true → parts opa ≡ 32 }
        requires some { is_empty (rect_of part) ≡ false }
        requires first { has self.old.area part.x1 part.y1 ≡ true }
        requires last { has self.old.area part.x2 part.y2 ≡ true }
        ensures area { self.new.area ≡ self.old.area }
        ensures limit { self.new.limit ≡ self.old.limit }
        ensures pixels { IsMixed self.old self.new (has (rect_of part)) fg opa }
    {
        let area = self.area();
        let whole = area.width() as usize;
        let from = place_of(area, part.x1, part.y1);
        let len = part.width() as usize;
        for line in 0..part.height() as usize {
            lay_row::<COVERS>(self.run_mut(from + line * whole, len), fg, opa);
        }
    }

    /// So many pixels from a place on, row by row, for writing.
    fn run_mut(&mut self, from: usize, len: usize) -> &mut [Rgb565]
        requires { from + len ≤ size_of self.old.area }
        ensures* writes_back { sem 𝓛 (LendsRun self.entry from result) }
        ensures run { result.now ≡ slice_range self.old.pixels from (from + len) }
        ensures len { length result.now ≡ len }
        ensures whole { IsWhole self.old }
    {
        self.pixels.slice_mut(from..from + len)
    }
}

/// How many pixels of an area come before one of its pixels, row by row.
pub fn place_of(area: Area, x: i32, y: i32) -> usize
    requires { has (rect_of area) x y ≡ true }
    ensures place { result ≡ place (rect_of area) x y }
    ensures below { result < size_of (rect_of area) }
{
    distance_between(area.y1, y) * area.width() as usize + distance_between(area.x1, x)
}

/// How far a number is from another that is not above it.
fn distance_between(from: i32, to: i32) -> usize
    requires { from ≤ℤ to }
    ensures distance { result ≡ distance from to }
    ensures most { result < 2 ^ 32 }
{
    (i64::from(to) - i64::from(from)) as usize
}

/// How many pixels are cleared at once: 1,024 bytes, which the C library stores in whole vectors.
const CLEARED: usize = 512;

/// Makes each pixel black, so many at once, each one a step.
fn clear<L: Ledger>(row: &mut [Rgb565], steps: &mut Steps<L>)
    ensures black { row.new ≡ replicate (length row.old) black }
    ensures steps { steps.new ≡ steps.old + length row.old }
{
    for i in 0..row.len().div_ceil(CLEARED) {
        let from = i * CLEARED;
        let to = row.len().min(from + CLEARED);
        clear_run(&mut row[from..to], steps);
    }
}

/// Makes each pixel black, each one a step.
fn clear_run<L: Ledger>(row: &mut [Rgb565], steps: &mut Steps<L>)
    ensures black { row.new ≡ replicate (length row.old) black }
    ensures steps { steps.new ≡ steps.old + length row.old }
{
    for pixel in row.iter_mut() {
        *pixel = Rgb565::BLACK;
        steps.tick();
    }
}
