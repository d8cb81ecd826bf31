//! Rows under bits and with opacities.
ghost use Rattle.std.specs.Prelude.{length, ◌*◌, ◌+◌, ◌≤◌};

use crate::canvas::lines_of;
use crate::checks::same_at;
use gui_base::Rgb565;
use gui_color::{fill_row, mask_bit, mask_row, mix, mix_row};

/// Eight pixels under bits from the first on, white over black.
fn masked(bits: &[u8], first: u32) -> u8
    requires { first + 8 ≤ 8 * length bits.now }
{
    let mut row = [Rgb565::BLACK; 8];
    mask_row(&mut row, bits, first, Rgb565::WHITE, 255);
    lines_of(&row)[0]
}

#[test]
fn masks_read_the_high_bit_first(rt: HostRuntime) {
    let bits = [0xA1, 0x0F];
    for (first, want) in [(0, 0xA1), (1, 0x42), (5, 0x21), (8, 0x0F)] {
        same_at(&rt, &first, &masked(&bits, first), &want);
    }
}

#[test]
fn rows_are_mixed_pixel_by_pixel(rt: HostRuntime) {
    let mut row = [Rgb565::BLACK; 4];
    let colors = [
        Rgb565(0xF800),
        Rgb565(0x07E0),
        Rgb565(0x001F),
        Rgb565::WHITE,
    ];
    mix_row(&mut row, &colors, &[3, 4, 251, 252]);
    let want = [Rgb565::BLACK, Rgb565(0x0020), Rgb565(0x001E), Rgb565::WHITE];
    assert_eq!(rt; row, want);
}

/// The longest row that is tried.
const LONGEST: usize = 300;

/// The opacities that are tried: none, the least, a half, and both sides of all.
const OPACITIES: [u8; 5] = [3, 4, 128, 251, 252];

/// Colours that begin with one, each other than the one before.
fn colors_from(first: u16) -> [Rgb565; LONGEST] {
    let mut number = first;
    let mut row = [Rgb565::BLACK; LONGEST];
    for pixel in row.iter_mut() {
        *pixel = Rgb565(number);
        number = number.wrapping_add(2579);
    }
    row
}

/// Whether a fill mixes each of the first `len` pixels by itself.
fn is_filled(len: usize, opa: u8) -> bool
    requires { len ≤ 300 }
{
    let fg = Rgb565(0xF81F);
    let was = colors_from(0);
    let mut row = was;
    fill_row(&mut row[..len], fg, opa);
    for i in 0..LONGEST {
        let want = if i < len {
            mix(fg, was[i], opa)
        } else {
            was[i]
        };
        if row[i] != want {
            return false;
        }
    }
    true
}

/// Whether `mask_row` mixes those pixels of a row whose bits are 1, counted from the fourth bit, and no others.
fn is_masked(len: usize, opa: u8) -> bool
    requires { len ≤ 300 }
{
    let fg = Rgb565(0x07E0);
    let bits = [0x5B; 38];
    let was = colors_from(1);
    let mut row = was;
    mask_row(&mut row[..len], &bits, 3, fg, opa);
    for i in 0..LONGEST {
        let want = if i < len && mask_bit(&bits, 3 + i) {
            mix(fg, was[i], opa)
        } else {
            was[i]
        };
        if row[i] != want {
            return false;
        }
    }
    true
}

/// Whether `mix_row` mixes a row of colours over another, each with an opacity of its own, and nothing behind
/// it.
fn is_mixed(len: usize) -> bool
    requires { len ≤ 300 }
{
    let src = colors_from(40_000);
    let was = colors_from(2);
    let mut opas = [0_u8; LONGEST];
    for (i, opa) in opas.iter_mut().enumerate() {
        *opa = (i % 256) as u8;
    }
    let mut row = was;
    mix_row(&mut row[..len], &src[..len], &opas[..len]);
    for i in 0..LONGEST {
        let want = if i < len {
            mix(src[i], was[i], opas[i])
        } else {
            was[i]
        };
        if row[i] != want {
            return false;
        }
    }
    true
}

/// Whether rows of a length are filled, masked and mixed so.
fn is_right(len: usize) -> bool
    requires { len ≤ 300 }
{
    for opa in OPACITIES {
        if !is_filled(len, opa) || !is_masked(len, opa) {
            return false;
        }
    }
    is_mixed(len)
}

#[test]
fn rows_of_each_length_are_mixed(rt: HostRuntime) {
    for len in 0..41 {
        same_at(&rt, &len, &is_right(len), &true);
    }
    same_at(&rt, &LONGEST, &is_right(LONGEST), &true);
}
