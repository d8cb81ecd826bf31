//! Colours mixed over rows of pixels, each pixel with its own.
ghost use Rattle.std.specs.Prelude.{◌≡◌, ℕ, ◌+◌, ◌-◌, ◌*◌, ◌/◌, ◌%◌, ◌^◌, ◌<◌, ◌≤◌, ◌==◌, length, slice_index, slice_index_or};
ghost use Rattle.std.specs.Prelude.{if◌then◌else◌};
ghost use Rattle.gui_base.specs.Color.{mix, black};
ghost use Rattle.gui_color.specs.Masks.{mask_bit, masked};

use crate::ends::{HALF, bits_of_ends, ends_of, write_ends};
use crate::lanes::{GROUP, bits_from, mix_by, mix_colors, mix_masked};
use crate::mixing::{ALL_PARTS, Veil, mix, parts_of};
use crate::row::write_last;
use gui_base::Rgb565;

/// Mixes over each pixel the colour of `src` with the opacity of `opas` at its place.
pub fn mix_row(row: &mut [Rgb565], src: &[Rgb565], opas: &[u8])
    requires colors { length src.now ≡ length row.old }
    requires opacities { length opas.now ≡ length row.old }
    ensures { (k : ℕ) → k < length row.old → slice_index_or row.new k black
        ≡ mix (slice_index_or src.now k black) (slice_index_or row.old k black) (slice_index opas.now k) }
{
    let whole = row.len() / GROUP;
    'groups: for i in 0..whole {
        let from = i * GROUP;
        let to = from + GROUP;
        mix_colors(&mut row[from..to], &src[from..to], &opas[from..to]);
    }
    'rest: for i in whole * GROUP..row.len() {
        row[i] = mix(src[i], row[i], opas[i]);
    }
}

/// Mixes `fg` with an opacity from 0 to 255 over each pixel whose bit is 1: pixel i has bit `first + i`, and
/// bit 0 is the highest of byte 0. In rows of four pixels or more no branch waits for a bit.
pub fn mask_row(row: &mut [Rgb565], bits: &[u8], first: u32, fg: Rgb565, opa: u8)
    requires { first + length row.old ≤ 8 * length bits.now }
    ensures { (k : ℕ) → k < length row.old → slice_index_or row.new k black
        ≡ masked (mask_bit bits.now (first + k)) fg opa (slice_index_or row.old k black) }
{
    if parts_of(opa) == 0 {
        return;
    }
    match row.last_chunk::<GROUP>() {
        Some(last) if row.len() % GROUP > 0 => {
            let mut last = *last;
            mix_masked(&mut last, bits, first as usize + row.len() - GROUP, fg, opa);
            mask_groups(row, bits, first, fg, opa);
            write_last(row, last);
        }
        Some(_) => mask_groups(row, bits, first, fg, opa),
        None if row.is_empty() => {}
        None => mask_short(row, bits, first, fg, opa),
    }
}

/// Mixes `fg` over the pixels of whole groups whose bit is 1.
#[inline(always)]
fn mask_groups(row: &mut [Rgb565], bits: &[u8], first: u32, fg: Rgb565, opa: u8)
    requires { first + length row.old ≤ 8 * length bits.now }
    ensures { (k : ℕ) → k < length row.old / 8 * 8 → slice_index_or row.new k black
        ≡ masked (mask_bit bits.now (first + k)) fg opa (slice_index_or row.old k black) }
{
    for i in 0..row.len() / GROUP {
        let from = i * GROUP;
        mix_masked(
            &mut row[from..from + GROUP],
            bits,
            first as usize + from,
            fg,
            opa,
        );
    }
}

/// Mixes `fg` over each pixel whose bit is 1, in a row shorter than a group. Most rows of letters are so short.
/// Their bits are read as one byte.
#[inline(always)]
fn mask_short(row: &mut [Rgb565], bits: &[u8], first: u32, fg: Rgb565, opa: u8)
    requires short { length row.old < 8 }
    requires some { 0 < length row.old }
    requires bits { first + length row.old ≤ 8 * length bits.now }
    ensures { (k : ℕ) → k < length row.old → slice_index_or row.new k black
        ≡ masked (mask_bit bits.now (first + k)) fg opa (slice_index_or row.old k black) }
{
    let byte = bits_from(bits, first as usize);
    if row.len() >= HALF {
        mask_ends(row, byte, fg, opa);
    } else if parts_of(opa) == ALL_PARTS {
        cover_masked(row, byte, fg);
    } else {
        blend_masked(row, byte, Veil::new(fg, opa));
    }
}

/// Mixes `fg` over each pixel whose bit of `byte` is 1, the highest first, of a row that has both halves of a
/// group.
#[inline(always)]
fn mask_ends(row: &mut [Rgb565], byte: u16, fg: Rgb565, opa: u8)
    requires some { 4 ≤ length row.old }
    requires short { length row.old ≤ 8 }
    requires byte { byte < 256 }
    ensures { (k : ℕ) → k < length row.old → slice_index_or row.new k black
        ≡ masked (byte / 2 ^ (7 - k) % 2 == 1) fg opa (slice_index_or row.old k black) }
{
    let mut group = ends_of(row);
    mix_by(&mut group, bits_of_ends(byte, row.len()), fg, opa);
    write_ends(row, group);
}

/// Makes each pixel `fg` whose bit of `byte` is 1, the highest first.
#[inline(always)]
fn cover_masked(row: &mut [Rgb565], byte: u16, fg: Rgb565)
    requires { length row.old < 8 }
    ensures { (k : ℕ) → k < length row.old → slice_index_or row.new k black
        ≡ (if byte / 2 ^ (7 - k) % 2 == 1 then fg else slice_index_or row.old k black) }
{
    for (i, pixel) in row.iter_mut().enumerate() {
        *pixel = chosen(has_bit(byte, i), fg, *pixel);
    }
}

/// Whether bit `i` of a byte is 1, counted from the highest.
#[inline(always)]
fn has_bit(byte: u16, i: usize) -> bool
    requires { i < 8 }
    ensures { result ≡ (byte / 2 ^ (7 - i) % 2 == 1) }
{
    byte >> (7 - i) & 1 == 1
}

/// One of two colours.
#[inline(always)]
fn chosen(test: bool, fg: Rgb565, bg: Rgb565) -> Rgb565
    ensures { result ≡ (if test then fg else bg) }
{
    if test { fg } else { bg }
}

/// Mixes a colour over each pixel whose bit of `byte` is 1, the highest first.
#[inline(always)]
fn blend_masked(row: &mut [Rgb565], byte: u16, veil: Veil)
    requires { length row.old < 8 }
    ensures { (k : ℕ) → k < length row.old → slice_index_or row.new k black
        ≡ masked (byte / 2 ^ (7 - k) % 2 == 1) veil.fg veil.opa (slice_index_or row.old k black) }
{
    for (i, pixel) in row.iter_mut().enumerate() {
        *pixel = veil.over_if(has_bit(byte, i), *pixel);
    }
}

/// Bit `k` of some bytes, counted from the highest of the first.
#[inline]
pub fn mask_bit(bits: &[u8], k: usize) -> bool
    requires { k < 8 * length bits.now }
    ensures { result ≡ mask_bit bits.now k }
{
    u32::from(bits[k / 8]) >> (7 - k % 8) & 1 == 1
}
