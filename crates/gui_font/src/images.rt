//! Images.
ghost use Rattle.std.specs.Prelude.{◌≡◌, true, false, ℕ, ◌+◌, ◌*◌, ◌≤◌, ◌<◌, ◌++◌, ◌==◌, ◌&&◌, nat_lt};
ghost use Rattle.std.specs.Prelude.{List, length, map, option_map, position};
ghost use Rattle.std.specs.Prelude.{IfOk, IfSome, OnOk, OnErr, Some, None, pos, replicate, slice_index};
ghost use Rattle.std.specs.Prelude.{vec_len, vec_capacity};
ghost use Rattle.text_defs.specs.Images.{has_image, image_of, image_bytes, texel_size, texel_in, color_at};
ghost use Rattle.text_defs.specs.Images.{finished, size_in, takes_if, texel_of};
ghost use Rattle.gui_font.specs.Bitmaps.{bitmap_texel};
ghost use Rattle.gui_font.specs.ImageSets.{no_images, begin_answer, with_image, row_answer, with_row};
ghost use Rattle.gui_font.specs.Stores.{image_in, is_image, written, need_of, IsPlaced};
ghost use Rattle.gui_font.specs.Views.{IsMember};

use gui_base::words::Format;
use gui_base::{NoMemory, Pool, Refusal, Rgb565};
use gui_pool::Table;
use std::alloc::Global;
use std::marker::Model;
use text_defs::Texel;

/// How many numbers there are for images.
const NAMES: u32 = 65_536;

/// Images, which are built row by row.
///
/// A contract sees the images in order of beginning, each with the bytes of the rows that it was given, and
/// how many more images and bytes fit. The bytes of all rows are taken when an image begins.
///
/// An image takes 52 to 56 bytes, and each byte of it a byte.
pub struct Images {
    // The place of each image among the slots, by its number.
    index: Table<u32>,
    slots: Vec<ImageSlot>,
    // The bytes of the images, one image after the other.
    bytes: Vec<u8>,
}

impl Drop for Images {
    /// Lets go of every field in one call, which keeps the proofs of its owners short.
    fn drop(self) {
        let Images {
            index: _,
            slots: _,
            bytes: _,
        } = self;
    }
}

impl Model for Images {
    ghost use Rattle.std.specs.Prelude.{◌-◌, map, vec_len, vec_capacity};
    ghost use Rattle.gui_font.specs.ImageSets.{ImageSet};
    ghost use Rattle.gui_font.specs.Stores.{image_in, AreStored};

    ghost Value = { ImageSet };

    ghost view = { λ f. record {
      images = map (image_in f.bytes.items) f.slots.items;
      spare_images = f.index.spare;
      spare_pixels = vec_capacity f.bytes - vec_len f.bytes;
    } };

    ghost invariant = { λ f. AreStored f.index f.slots.items f.bytes.items (vec_capacity f.slots) };
}

/// The texels of a finished image, row by row from the top, with the bytes of each behind those of the texel
/// before.
#[derive(Clone, Copy)]
pub struct Bitmap<'a> {
    pub format: Format,
    pub width: u16,
    pub height: u16,
    pub bytes: &'a [u8],
}

impl<'a> Bitmap<'a> {
    /// The bytes of a row, counted from the top.
    #[inline]
    pub fn row(self, y: u16) -> &'a [u8]
        requires whole { length self.bytes.now ≡ image_bytes self.format self.width self.height }
        requires inside { y < self.height }
        ensures len { length result.now ≡ self.entry.width * texel_size self.entry.format }
        ensures texels { (x : ℕ) → x < self.entry.width →
            texel_in self.entry.format result.now (x * texel_size self.entry.format)
            ≡ bitmap_texel self.entry x y }
    {
        let len = self.width as usize * texel_size(self.format);
        let from = y as usize * len;
        &self.bytes[from..from + len]
    }
}

#[derive(Clone, Copy)]
pub(crate) struct ImageSlot {
    pub(crate) name: u16,
    pub(crate) format: Format,
    pub(crate) width: u16,
    pub(crate) height: u16,
    /// Where its bytes begin, and how many of them were given.
    pub(crate) start: usize,
    pub(crate) given: usize,
}

impl Images {
    /// No image yet, and room for so many images and bytes. `NoMemory` if there is no memory for them. No later
    /// call takes memory.
    pub fn with_capacity(alloc: Global, images: u32, bytes: u32) -> Result<Images, NoMemory>
        ensures { IfOk result (λ set. set ≡ no_images images bytes) }
    {
        let Ok(index) = Table::open(alloc, NAMES, images) else {
            return Err(NoMemory);
        };
        let slots = Vec::with_capacity(alloc, images as usize).map_err(|_| NoMemory)?;
        let bytes = Vec::with_capacity(alloc, bytes as usize).map_err(|_| NoMemory)?;
        Ok(Images {
            index,
            slots,
            bytes,
        })
    }

    /// Begins an image of this number, of `w` by `h` pixels, each from 1 to 256.
    ///
    /// # Errors
    ///
    /// `Taken` if the image is there, then `Full` of images if no more images fit, and then `Full` of pixels if
    /// the bytes of all its rows do not fit. All is then as before.
    pub fn begin(&mut self, id: u16, format: Format, w: u16, h: u16) -> Result<(), Refusal>
        ensures answer { result ≡ begin_answer self.old id format w h }
        ensures ok { OnOk result (self.new ≡ with_image self.old id format w h) }
        ensures refused { OnErr result (self.new ≡ self.old) }
    {
        if self.has_image(id) {
            return Err(Refusal::Taken);
        }
        if self.spare_images() == 0 {
            return Err(Refusal::Full(Pool::Images));
        }
        if self.spare_pixels() < bytes_for(format, w, h) {
            return Err(Refusal::Full(Pool::Pixels));
        }
        self.put_image(id, format, w, h);
        Ok(())
    }

    /// Gives an image its next row, from the top. An image is finished when its last row has been given.
    ///
    /// # Errors
    ///
    /// `Unknown` if there is no such image, and `Place` if it is finished, if `y` is not its next row, or if
    /// `bytes` are not as many as those of a row. All is then as before.
    pub fn row(&mut self, id: u16, y: u16, bytes: &[u8]) -> Result<(), Refusal>
        ensures answer { result ≡ row_answer self.old id y bytes.now }
        ensures ok { OnOk result (self.new ≡ with_row self.old id bytes.now) }
        ensures refused { OnErr result (self.new ≡ self.old) }
    {
        if !self.has_image(id) {
            return Err(Refusal::Unknown);
        }
        if !self.takes_row(id, y, bytes.len()) {
            return Err(Refusal::Place);
        }
        self.put_row(id, y, bytes);
        Ok(())
    }

    /// The width and the height of an image in pixels: `None` exactly if there is no finished image of this
    /// number.
    pub fn size(&self, id: u16) -> Option<(u16, u16)>
        ensures { result ≡ size_in self.now.images id }
    {
        let slot = slot_of(&self.index, self.slots.as_slice(), id)?;
        if is_whole(slot) {
            Some((slot.width, slot.height))
        } else {
            None
        }
    }

    /// Whether an image is finished: `None` exactly if there is no image of this number.
    pub fn finished(&self, id: u16) -> Option<bool>
        ensures { result ≡ finished self.now.images id }
    {
        let slot = slot_of(&self.index, self.slots.as_slice(), id)?;
        Some(is_whole(slot))
    }

    /// The texel of a pixel of a finished image, counted from its top left.
    pub fn texel(&self, id: u16, x: u16, y: u16) -> Texel
        requires finished { finished self.now.images id ≡ Some true }
        requires inside { IfSome (size_in self.now.images id) (λ size. (x < size.0) × (y < size.1)) }
        ensures { result ≡ texel_of self.now.images id x y }
    {
        let Some(slot) = slot_of(&self.index, self.slots.as_slice(), id) else {
            unreachable!()
        };
        let row = slot.start + y as usize * row_length(slot);
        texel_in(
            slot.format,
            self.bytes.as_slice(),
            row + x as usize * texel_size(slot.format),
        )
    }

    /// All texels of a finished image: `None` exactly if there is no finished image of this number.
    pub fn bitmap(&self, id: u16) -> Option<Bitmap<'_>>
        ensures size { option_map (λ b. (b.width, b.height)) result ≡ size_in self.now.images id }
        ensures whole { IfSome result (λ b. length b.bytes.now ≡ image_bytes b.format b.width b.height) }
        ensures texels { IfSome result (λ b. (x y : ℕ) → bitmap_texel b x y ≡ texel_of self.now.images id x y) }
    {
        let slot = slot_of(&self.index, self.slots.as_slice(), id)?;
        if !is_whole(slot) {
            return None;
        }
        Some(Bitmap {
            format: slot.format,
            width: slot.width,
            height: slot.height,
            bytes: &self.bytes.as_slice()[slot.start..slot.start + slot.given],
        })
    }

    /// How many more images fit.
    pub fn spare_images(&self) -> u32
        ensures { result ≡ self.now.spare_images }
    {
        self.index.spare()
    }

    /// How many more bytes fit.
    pub fn spare_pixels(&self) -> usize
        ensures { result ≡ self.now.spare_pixels }
    {
        self.bytes.capacity() - self.bytes.len()
    }

    fn has_image(&self, id: u16) -> bool
        ensures { result ≡ has_image self.now.images id }
    {
        slot_of(&self.index, self.slots.as_slice(), id).is_some()
    }

    fn takes_row(&self, id: u16, y: u16, len: usize) -> bool
        ensures { result ≡ takes_if (image_of self.now.images id) y len }
    {
        match slot_of(&self.index, self.slots.as_slice(), id) {
            None => false,
            Some(slot) => is_next(slot, y, len),
        }
    }

    /// Puts an image behind the others.
    fn put_image(&mut self, id: u16, format: Format, w: u16, h: u16)
        requires new { has_image self.old.images id ≡ false }
        requires images { 1 ≤ self.old.spare_images }
        requires pixels { image_bytes format w h ≤ self.old.spare_pixels }
        ensures { self.new ≡ with_image self.old id format w h }
    {
        let place = self.slots.len() as u32;
        let Ok(()) = self.index.insert(id as u32, place) else {
            unreachable!()
        };
        self.slots.push_reserved(ImageSlot {
            name: id,
            format,
            width: w,
            height: h,
            start: self.bytes.as_slice().len(),
            given: 0,
        });
        append_zeros(&mut self.bytes, bytes_for(format, w, h));
    }

    /// Puts the bytes of a row into an image.
    fn put_row(&mut self, id: u16, y: u16, bytes: &[u8])
        requires { takes_if (image_of self.old.images id) y (length bytes.now) ≡ true }
        ensures { self.new ≡ with_row self.old id bytes.now }
    {
        let Some(place) = place_of(&self.index, self.slots.as_slice(), id) else {
            unreachable!()
        };
        let slot = self.slots[place];
        let at = slot.start + y as usize * row_length(slot);
        write_bytes(self.bytes.as_mut_slice(), at, bytes);
        self.slots[place] = ImageSlot {
            given: slot.given + bytes.len(),
            ..slot
        };
    }
}

/// The place of an image among the slots.
fn place_of(index: &Table<u32>, slots: &[ImageSlot], name: u16) -> Option<usize>
    requires { IsPlaced index.now slots.now }
    ensures { result ≡ position (is_image name) slots.now }
{
    let place = *index.get(name as u32)?;
    Some(place as usize)
}

/// The slot of an image.
fn slot_of(index: &Table<u32>, slots: &[ImageSlot], name: u16) -> Option<ImageSlot>
    requires { IsPlaced index.now slots.now }
    ensures image { (bytes : List ℕ) →
        option_map (image_in bytes) result ≡ image_of (map (image_in bytes) slots.now) name }
    ensures member { IfSome result (λ s. IsMember s slots.now) }
{
    let place = place_of(index, slots, name)?;
    Some(slots[place])
}

/// How many bytes a pixel has.
fn texel_size(format: Format) -> usize
    ensures value { result ≡ texel_size format }
    ensures few { result ≤ 3 }
{
    match format {
        Format::Rgb565 => 2,
        Format::Rgb565Alpha => 3,
        Format::Alpha => 1,
    }
}

/// How many bytes the rows of an image take.
fn bytes_for(format: Format, w: u16, h: u16) -> usize
    ensures value { result ≡ image_bytes format w h }
{
    h as usize * (w as usize * texel_size(format))
}

/// How many bytes a row of an image has.
fn row_length(slot: ImageSlot) -> usize
    ensures value { result ≡ slot.width * texel_size slot.format }
    ensures few { result ≤ 196605 }
{
    slot.width as usize * texel_size(slot.format)
}

/// Whether an image was given all its bytes.
fn is_whole(slot: ImageSlot) -> bool
    ensures { result ≡ (slot.given == need_of slot) }
{
    slot.given == bytes_for(slot.format, slot.width, slot.height)
}

/// Whether row `y` is the next one of an image, and of this many bytes.
fn is_next(slot: ImageSlot, y: u16, len: usize) -> bool
    ensures { let stride = slot.width * texel_size slot.format in
        result ≡ (nat_lt y slot.height && (y * stride == slot.given) && (len == stride)) }
{
    let stride = row_length(slot);
    y < slot.height && y as usize * stride == slot.given && len == stride
}

/// What the bytes of a pixel say.
fn texel_in(format: Format, bytes: &[u8], at: usize) -> Texel
    requires { at + texel_size format ≤ length bytes.now }
    ensures { result ≡ texel_in format bytes.now at }
{
    match format {
        Format::Rgb565 => Texel {
            color: Some(color_at(bytes, at)),
            alpha: 255,
        },
        Format::Rgb565Alpha => Texel {
            color: Some(color_at(bytes, at)),
            alpha: bytes[at + 2],
        },
        Format::Alpha => Texel {
            color: None,
            alpha: bytes[at],
        },
    }
}

/// The colour of two bytes, the high one first.
#[inline]
pub fn color_at(bytes: &[u8], at: usize) -> Rgb565
    requires { at + 2 ≤ length bytes.now }
    ensures { result ≡ color_at bytes.now at }
{
    Rgb565(u16::from(bytes[at]) * 256 + u16::from(bytes[at + 1]))
}

/// Puts bytes over others.
fn write_bytes(bytes: &mut [u8], at: usize, row: &[u8])
    requires { at + length row.now ≤ length bytes.old }
    ensures { bytes.new ≡ written bytes.old at row.now }
{
    bytes[at..at + row.len()].copy_from_slice(row);
}

/// Puts zeros behind other bytes. There is room for them.
fn append_zeros(bytes: &mut Vec<u8>, count: usize)
    requires { vec_len bytes.old + count ≤ vec_capacity bytes.old }
    ensures items { bytes.new.items ≡ bytes.old.items ++ replicate count 0 }
    ensures len { vec_len bytes.new ≡ vec_len bytes.old + count }
    ensures capacity { vec_capacity bytes.new ≡ vec_capacity bytes.old }
{
    for _i in 0..count {
        bytes.push_reserved(0);
    }
}
