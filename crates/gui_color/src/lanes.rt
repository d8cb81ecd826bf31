//! Groups of pixels, mixed at once.
ghost use Rattle.std.specs.Prelude.{◌≡◌, ℕ, ◌+◌, ◌-◌, ◌*◌, ◌/◌, ◌%◌, ◌^◌, ◌<◌, ◌==◌, length};
ghost use Rattle.std.specs.Prelude.{slice_index, slice_index_or, if◌then◌else◌};
ghost use Rattle.gui_base.specs.Color.{mix, black};
ghost use Rattle.gui_color.specs.Masks.{mask_bit, masked};

use crate::mixing::{ALL_PARTS, parts_of};
use gui_base::Rgb565;
use std::simd::prelude::*;

/// How many pixels a processor mixes at once: as many as a register of 128 bits holds.
pub(crate) const GROUP: usize = 8;

/// Mixes a group of colours over others, each with its own opacity from 0 to 255, according to the formula of
/// `mix`. What each channel comes to stands where its whole thirty-seconds need no shift of their own: red 64
/// times and green 32 times what it is.
#[inline(always)]
fn mix_lanes(fg: u16x8, bg: u16x8, opas: u16x8) -> u16x8
    requires { (k : ℕ) → k < 8 → slice_index opas k < 256 }
    ensures { (k : ℕ) → k < 8 → record { 0 = slice_index result k }
        ≡ mix (record { 0 = slice_index fg k }) (record { 0 = slice_index bg k }) (slice_index opas k) }
{
    let five = u16x8::splat(5);
    let six = u16x8::splat(6);
    let ten = u16x8::splat(10);
    let eleven = u16x8::splat(11);
    let low_five = u16x8::splat(31);
    let low_six = u16x8::splat(63);
    let parts = (opas + u16x8::splat(4)) >> u16x8::splat(3);
    let left = u16x8::splat(32) - parts;
    let red = (bg >> eleven) * (left << six) + (fg >> eleven) * (parts << six);
    let green = (((bg >> five) & low_six) << five) * left
        + ((fg >> five) & low_six) * (parts << five);
    let blue = (bg & low_five) * left + (fg & low_five) * parts;
    ((red >> eleven) << eleven) + ((((green >> ten) << ten) + blue) >> five)
}

/// The numbers of a group's colours.
#[inline(always)]
fn lanes_of(group: &[Rgb565]) -> u16x8
    requires { length group.now ≡ 8 }
    ensures { (k : ℕ) → k < 8 → record { 0 = slice_index result k } ≡ slice_index_or group.now k black }
{
    let mut numbers = [0_u16; GROUP];
    for k in 0..8 {
        numbers[k] = group[k].0;
    }
    u16x8::from_array(numbers)
}

/// Writes colours over a group of pixels.
#[inline(always)]
fn write_lanes(group: &mut [Rgb565], lanes: u16x8)
    requires { length group.old ≡ 8 }
    ensures { (k : ℕ) → k < 8 → slice_index_or group.new k black ≡ record { 0 = slice_index lanes k } }
{
    let numbers = lanes.to_array();
    for k in 0..8 {
        group[k] = Rgb565(numbers[k]);
    }
}

/// Mixes colours over a group of pixels, each with its own opacity.
#[inline(always)]
fn mix_group(group: &mut [Rgb565], fg: u16x8, opas: u16x8)
    requires len { length group.old ≡ 8 }
    requires small { (k : ℕ) → k < 8 → slice_index opas k < 256 }
    ensures { (k : ℕ) → k < 8 → slice_index_or group.new k black
        ≡ mix (record { 0 = slice_index fg k }) (slice_index_or group.old k black) (slice_index opas k) }
{
    write_lanes(group, mix_lanes(fg, lanes_of(group), opas));
}

/// The opacities of a group.
#[inline(always)]
fn opacities_of(opas: &[u8]) -> u16x8
    requires { length opas.now ≡ 8 }
    ensures value { (k : ℕ) → k < 8 → slice_index result k ≡ slice_index opas.now k }
    ensures small { (k : ℕ) → k < 8 → slice_index result k < 256 }
{
    u8x8::from_slice(opas).cast::<u16>()
}

/// Mixes over each pixel of a group the colour of `src` with the opacity of `opas` at its place.
#[inline(always)]
pub(crate) fn mix_colors(group: &mut [Rgb565], src: &[Rgb565], opas: &[u8])
    requires len { length group.old ≡ 8 }
    requires colors { length src.now ≡ 8 }
    requires opacities { length opas.now ≡ 8 }
    ensures { (k : ℕ) → k < 8 → slice_index_or group.new k black
        ≡ mix (slice_index_or src.now k black) (slice_index_or group.old k black) (slice_index opas.now k) }
{
    mix_group(group, lanes_of(src), opacities_of(opas));
}

/// Mixes `fg` over each pixel of a group.
#[inline(always)]
pub(crate) fn mix_one(group: &mut [Rgb565], fg: Rgb565, opa: u8)
    requires { length group.old ≡ 8 }
    ensures { (k : ℕ) → k < 8 → slice_index_or group.new k black
        ≡ mix fg (slice_index_or group.old k black) opa }
{
    mix_group(group, u16x8::splat(fg.0), u16x8::splat(opa as u16));
}

/// For each pixel of a group one of two numbers: that of `yes` if its bit of `byte` is 1, and else that of
/// `no`. The highest bit comes first.
#[inline(always)]
fn choose_by(byte: u16, yes: u16x8, no: u16x8) -> u16x8
    requires { byte < 256 }
    ensures { (k : ℕ) → k < 8 → slice_index result k
        ≡ (if byte / 2 ^ (7 - k) % 2 == 1 then slice_index yes k else slice_index no k) }
{
    let places = u16x8::from_array([128, 64, 32, 16, 8, 4, 2, 1]);
    let set = u16x8::splat(byte) & places;
    set.simd_ne(u16x8::splat(0)).select(yes, no)
}

/// Eight bits from bit `at` on, as a byte: some of its byte and some of the next. Bits behind the last byte are
/// 0.
#[inline(always)]
pub(crate) fn bits_from(bits: &[u8], at: usize) -> u16
    requires { at < 8 * length bits.now }
    ensures small { result < 256 }
    ensures value { (k : ℕ) → k < 8 → (result / 2 ^ (7 - k) % 2 == 1) ≡ mask_bit bits.now (at + k) }
{
    let high = byte_at(bits, at / 8);
    let low = byte_at(bits, at / 8 + 1);
    ((high * 256 + low) >> (8 - at % 8)) & 0xff
}

/// A byte of some, and 0 past the last.
#[inline(always)]
fn byte_at(bytes: &[u8], i: usize) -> u16
    ensures value { result ≡ slice_index bytes.now i }
    ensures small { result < 256 }
{
    if i < bytes.len() { bytes[i] as u16 } else { 0 }
}

/// Mixes `fg` over each pixel of a group whose bit is 1: pixel i has bit `at + i`.
#[inline(always)]
pub(crate) fn mix_masked(group: &mut [Rgb565], bits: &[u8], at: usize, fg: Rgb565, opa: u8)
    requires len { length group.old ≡ 8 }
    requires bits { at < 8 * length bits.now }
    ensures { (k : ℕ) → k < 8 → slice_index_or group.new k black
        ≡ masked (mask_bit bits.now (at + k)) fg opa (slice_index_or group.old k black) }
{
    mix_by(group, bits_from(bits, at), fg, opa);
}

/// Mixes `fg` over each pixel of a group whose bit in the byte is 1, the highest bit first. An opaque `fg`
/// needs no mixing.
#[inline(always)]
pub(crate) fn mix_by(group: &mut [Rgb565], byte: u16, fg: Rgb565, opa: u8)
    requires len { length group.old ≡ 8 }
    requires byte { byte < 256 }
    ensures { (k : ℕ) → k < 8 → slice_index_or group.new k black
        ≡ masked (byte / 2 ^ (7 - k) % 2 == 1) fg opa (slice_index_or group.old k black) }
{
    let colors = u16x8::splat(fg.0);
    if parts_of(opa) == ALL_PARTS {
        write_lanes(group, choose_by(byte, colors, lanes_of(group)));
    } else {
        mix_group(
            group,
            colors,
            choose_by(byte, u16x8::splat(opa as u16), u16x8::splat(0)),
        );
    }
}
