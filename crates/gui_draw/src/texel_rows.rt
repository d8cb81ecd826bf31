//! Texels mixed over rows of pixels, one loop for each format.
ghost use Rattle.std.specs.Prelude.{◌≡◌, ℕ, ◌+◌, ◌*◌, ◌≤◌, ◌<◌, length, slice_index_or};
ghost use Rattle.gui_base.specs.Color.{black};
ghost use Rattle.gui_base.specs.declared.words.Format.TheVariants as format;
ghost use Rattle.text_defs.specs.Images.{color_at};
ghost use Rattle.gui_draw.specs.Texels.{row_over};

use gui_base::Rgb565;
use gui_color::{combine, mix, mix_row};
use gui_font::color_at;

/// How many texels are read before they are mixed.
const READ: usize = 32;

/// Mixes colours of two bytes, from the one of number `first` on, with one opacity.
pub(crate) fn mix_colors(row: &mut [Rgb565], bytes: &[u8], first: usize, opa: u8)
    requires { (first + length row.old) * 2 ≤ length bytes.now }
    ensures { (k : ℕ) → k < length row.old → slice_index_or row.new k black
        ≡ row_over format.Rgb565 bytes.now black opa (first + k) (slice_index_or row.old k black) }
{
    if opa >= 252 {
        cover_colors(row, bytes, first);
    } else {
        blend_colors(row, bytes, first, opa);
    }
}

/// Puts colours of two bytes over a row of pixels. It reads and turns the two bytes as one number, so that a
/// processor turns those of many pixels at once.
fn cover_colors(row: &mut [Rgb565], bytes: &[u8], first: usize)
    requires { (first + length row.old) * 2 ≤ length bytes.now }
    ensures { (k : ℕ) → k < length row.old →
        slice_index_or row.new k black ≡ color_at bytes.now ((first + k) * 2) }
{
    let (pairs, _) = bytes.as_chunks::<2>();
    for (i, pixel) in row.iter_mut().enumerate() {
        *pixel = Rgb565(u16::from_be_bytes(pairs[first + i]));
    }
}

/// Mixes colours of two bytes with an opacity over a row of pixels.
fn blend_colors(row: &mut [Rgb565], bytes: &[u8], first: usize, opa: u8)
    requires { (first + length row.old) * 2 ≤ length bytes.now }
    ensures { (k : ℕ) → k < length row.old → slice_index_or row.new k black
        ≡ row_over format.Rgb565 bytes.now black opa (first + k) (slice_index_or row.old k black) }
{
    for (i, pixel) in row.iter_mut().enumerate() {
        *pixel = mix(color_at(bytes, (first + i) * 2), *pixel, opa);
    }
}

/// Mixes colours of two bytes, each with the opacity of a third byte and then with `opa`. It reads some of
/// them, and then mixes these in lanes.
pub(crate) fn mix_shades(row: &mut [Rgb565], bytes: &[u8], first: usize, opa: u8)
    requires { (first + length row.old) * 3 ≤ length bytes.now }
    ensures { (k : ℕ) → k < length row.old → slice_index_or row.new k black
        ≡ row_over format.Rgb565Alpha bytes.now black opa (first + k) (slice_index_or row.old k black) }
{
    let whole = row.len() / READ;
    for i in 0..whole {
        let from = i * READ;
        mix_read(&mut row[from..from + READ], bytes, first + from, opa);
    }
    let from = whole * READ;
    mix_read(&mut row[from..], bytes, first + from, opa);
}

/// Mixes at most `READ` colours, each with its own opacity, over the pixels of a row.
fn mix_read(row: &mut [Rgb565], bytes: &[u8], first: usize, opa: u8)
    requires few { length row.old ≤ 32 }
    requires bytes { (first + length row.old) * 3 ≤ length bytes.now }
    ensures { (k : ℕ) → k < length row.old → slice_index_or row.new k black
        ≡ row_over format.Rgb565Alpha bytes.now black opa (first + k) (slice_index_or row.old k black) }
{
    let mut colors = [Rgb565::BLACK; READ];
    let mut opas = [0_u8; READ];
    for i in 0..row.len() {
        let at = (first + i) * 3;
        colors[i] = color_at(bytes, at);
        opas[i] = combine(bytes[at + 2], opa);
    }
    mix_row(row, &colors[..row.len()], &opas[..row.len()]);
}

/// Mixes a colour with the opacity of each byte and then with `opa`.
pub(crate) fn mix_alphas(row: &mut [Rgb565], bytes: &[u8], first: usize, recolor: Rgb565, opa: u8)
    requires { first + length row.old ≤ length bytes.now }
    ensures { (k : ℕ) → k < length row.old → slice_index_or row.new k black
        ≡ row_over format.Alpha bytes.now recolor opa (first + k) (slice_index_or row.old k black) }
{
    for (i, pixel) in row.iter_mut().enumerate() {
        *pixel = mix(recolor, *pixel, combine(bytes[first + i], opa));
    }
}
