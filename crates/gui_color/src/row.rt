//! Mixing a colour over rows of pixels.
ghost use Rattle.std.specs.Prelude.{◌≡◌, true, ℕ, ◌≤◌, ◌<◌, ◌-◌, ◌*◌, ◌/◌, ◌++◌};
ghost use Rattle.std.specs.Prelude.{length, map, take, slice_index_or};
ghost use Rattle.gui_base.specs.Color.{mix, parts, black};

use crate::ends::{HALF, ends_of, write_ends};
use crate::lanes::{GROUP, mix_one};
use crate::mixing::{ALL_PARTS, Veil, parts_of};
use gui_base::Rgb565;

/// The pixels of the groups that are mixed in one turn.
const TURN: usize = 4 * GROUP;

/// Mixes `fg` over each pixel with an opacity from 0 to 255.
#[inline]
pub fn fill_row(row: &mut [Rgb565], fg: Rgb565, opa: u8)
    ensures { row.new ≡ map (λ bg. mix fg bg opa) row.old }
{
    match parts_of(opa) {
        0 => {}
        ALL_PARTS => cover_row(row, fg),
        _ => blend_row(row, fg, opa),
    }
}

/// Mixes `fg` over each pixel with an opacity from 0 to 255, which covers it or may not.
#[inline(always)]
pub(crate) fn lay_row<const COVERS: bool>(row: &mut [Rgb565], fg: Rgb565, opa: u8)
    requires covers { COVERS ≡ true → parts opa ≡ 32 }
    ensures { row.new ≡ map (λ bg. mix fg bg opa) row.old }
{
    if COVERS {
        cover_row(row, fg);
    } else {
        blend_row(row, fg, opa);
    }
}

/// Makes each pixel `fg`.
fn cover_row(row: &mut [Rgb565], fg: Rgb565)
    ensures { row.new ≡ map (λ bg. fg) row.old }
{
    for pixel in row.iter_mut() {
        *pixel = fg;
    }
}

/// Mixes `fg` over each pixel, a group at a time. If whole groups leave pixels over, those are mixed together
/// with some before them, as the row's last group: from what the row was, and written when the whole groups are
/// mixed.
#[inline(always)]
fn blend_row(row: &mut [Rgb565], fg: Rgb565, opa: u8)
    ensures { row.new ≡ map (λ bg. mix fg bg opa) row.old }
{
    match row.last_chunk::<GROUP>() {
        Some(last) if row.len() % GROUP > 0 => {
            let mut last = *last;
            mix_one(&mut last, fg, opa);
            blend_groups(row, fg, opa);
            write_last(row, last);
        }
        Some(_) => blend_groups(row, fg, opa),
        None if row.len() >= HALF => blend_ends(row, fg, opa),
        None => blend_each(row, Veil::new(fg, opa)),
    }
}

/// Mixes a colour over the pixels of whole groups, four groups a turn: no group waits for another, and what
/// they have in common is made ready once for all of them.
#[inline(always)]
fn blend_groups(row: &mut [Rgb565], fg: Rgb565, opa: u8)
    ensures { (k : ℕ) → k < length row.old / 8 * 8 → slice_index_or row.new k black
        ≡ mix fg (slice_index_or row.old k black) opa }
{
    let turns = row.len() / TURN;
    for i in 0..turns {
        blend_turn(&mut row[i * TURN..i * TURN + TURN], fg, opa);
    }
    let from = turns * TURN;
    for j in 0..(row.len() - from) / GROUP {
        let at = from + j * GROUP;
        mix_one(&mut row[at..at + GROUP], fg, opa);
    }
}

/// Mixes a colour over the pixels of four groups.
#[inline(always)]
fn blend_turn(groups: &mut [Rgb565], fg: Rgb565, opa: u8)
    requires { length groups.old ≡ 32 }
    ensures { (k : ℕ) → k < 32 → slice_index_or groups.new k black
        ≡ mix fg (slice_index_or groups.old k black) opa }
{
    for i in 0..4 {
        let from = i * GROUP;
        mix_one(&mut groups[from..from + GROUP], fg, opa);
    }
}

/// Mixes a colour over the pixels of a row that is no group, but has both of its halves.
#[inline(always)]
fn blend_ends(row: &mut [Rgb565], fg: Rgb565, opa: u8)
    requires some { 4 ≤ length row.old }
    requires short { length row.old ≤ 8 }
    ensures { row.new ≡ map (λ bg. mix fg bg opa) row.old }
{
    let mut group = ends_of(row);
    mix_one(&mut group, fg, opa);
    write_ends(row, group);
}

/// Mixes a colour over each pixel, one by one.
#[inline(always)]
fn blend_each(row: &mut [Rgb565], veil: Veil)
    ensures { row.new ≡ map (λ bg. mix veil.fg bg veil.opa) row.old }
{
    for pixel in row.iter_mut() {
        *pixel = veil.over(*pixel);
    }
}

/// Writes a group over the last pixels of a row.
#[inline(always)]
pub(crate) fn write_last(row: &mut [Rgb565], group: [Rgb565; GROUP])
    requires { 8 ≤ length row.old }
    ensures { row.new ≡ take (length row.old - 8) row.old ++ group }
{
    if let Some(last) = row.last_chunk_mut::<GROUP>() {
        *last = group;
    }
}
