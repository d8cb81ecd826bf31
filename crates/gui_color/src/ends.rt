//! Rows of four to eight pixels, mixed as one group: that of their first four pixels and their last four, in
//! which some pixels stand twice.
ghost use Rattle.std.specs.Prelude.{◌≡◌, ℕ, ◌+◌, ◌-◌, ◌/◌, ◌%◌, ◌^◌, ◌<◌, ◌≤◌, ◌==◌, length, slice_index_or};
ghost use Rattle.gui_base.specs.Color.{black};
ghost use Rattle.gui_color.specs.Ends.{HasEnds};

use crate::lanes::GROUP;
use gui_base::Rgb565;

/// The pixels of half a group.
pub(crate) const HALF: usize = GROUP / 2;

/// The first four pixels of a row and its last four.
#[inline(always)]
pub(crate) fn ends_of(row: &[Rgb565]) -> [Rgb565; GROUP]
    requires { 4 ≤ length row.now }
    ensures { HasEnds row.now result }
{
    let mut group = [Rgb565::BLACK; GROUP];
    let from = row.len() - HALF;
    for k in 0..4 {
        group[k] = row[k];
        group[HALF + k] = row[from + k];
    }
    group
}

/// Writes a group over the first four pixels of a row and its last four.
#[inline(always)]
pub(crate) fn write_ends(row: &mut [Rgb565], group: [Rgb565; GROUP])
    requires { 4 ≤ length row.old }
    ensures first { (k : ℕ) → k < 4 → k + 4 < length row.old →
        slice_index_or row.new k black ≡ slice_index_or group k black }
    ensures last { (k : ℕ) → k < 4 →
        slice_index_or row.new (length row.old - 4 + k) black ≡ slice_index_or group (4 + k) black }
{
    'first: for k in 0..4 {
        row[k] = group[k];
    }
    let from = row.len() - HALF;
    'last: for k in 0..4 {
        row[from + k] = group[HALF + k];
    }
}

/// The bits of the first four of `count` pixels and of the last four. `byte` has a bit for each pixel, the
/// highest first.
#[inline(always)]
pub(crate) fn bits_of_ends(byte: u16, count: usize) -> u16
    requires byte { byte < 256 }
    requires count { (4 ≤ count) × (count ≤ 8) }
    ensures small { result < 256 }
    ensures first { (k : ℕ) → k < 4 → (result / 2 ^ (7 - k) % 2 == 1) ≡ (byte / 2 ^ (7 - k) % 2 == 1) }
    ensures last { (k : ℕ) → k < 4 →
        (result / 2 ^ (7 - (4 + k)) % 2 == 1) ≡ (byte / 2 ^ (7 - (count - 4 + k)) % 2 == 1) }
{
    byte / 16 * 16 + (byte >> (8 - count)) % 16
}
