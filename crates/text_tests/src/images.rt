//! Images that are built row by row: each refusal in its order, each pool at its last slot, and the texels.
use crate::checks::same;
use gui_base::{Pool, Refusal, Rgb565};
use gui_font::{Format, Images, Texel};
use std::alloc::Global;
use std::process::Abort;

fn opened(rt: &impl Abort, alloc: Global, images: u32, bytes: u32) -> Images {
    Images::with_capacity(alloc, images, bytes).expect(rt, "no memory")
}

/// The texel of a pixel, if the image has it.
fn texel(images: &Images, id: u16, x: u16, y: u16) -> Option<Texel> {
    let (w, h) = images.size(id)?;
    if x < w && y < h {
        Some(images.texel(id, x, y))
    } else {
        None
    }
}

#[test]
fn rows_come_in_order(rt: HostRuntime) {
    let mut images = opened(&rt, rt.alloc(), 2, 16);
    let answers = [
        images.row(1, 0, &[1]),
        images.begin(1, Format::Rgb565, 1, 2),
        images.begin(1, Format::Alpha, 1, 1),
        images.row(1, 1, &[1, 2]),
        images.row(1, 0, &[1]),
        images.row(1, 0, &[0xF8, 0]),
        images.row(1, 0, &[0, 0]),
    ];
    same(
        &rt,
        &answers,
        &[
            Err(Refusal::Unknown),
            Ok(()),
            Err(Refusal::Taken),
            Err(Refusal::Place),
            Err(Refusal::Place),
            Ok(()),
            Err(Refusal::Place),
        ],
    );
    let before = (images.finished(1), images.size(1));
    let last = [images.row(1, 1, &[7, 0xE0]), images.row(1, 2, &[0, 0])];
    same(&rt, &last, &[Ok(()), Err(Refusal::Place)]);
    let after = (images.finished(1), images.size(1));
    same(
        &rt,
        &[before, after],
        &[(Some(false), None), (Some(true), Some((1, 2)))],
    );
    let colors = [texel(&images, 1, 0, 0), texel(&images, 1, 0, 1)];
    same(&rt, &colors, &[Some(opaque(0xF800)), Some(opaque(0x07E0))]);
}

fn opaque(color: u16) -> Texel {
    Texel {
        color: Some(Rgb565(color)),
        alpha: 255,
    }
}

#[test]
fn images_do_not_touch_each_other(rt: HostRuntime) {
    let mut images = opened(&rt, rt.alloc(), 3, 16);
    let answers = [
        images.begin(5, Format::Alpha, 2, 2),
        images.begin(3, Format::Rgb565Alpha, 1, 1),
        images.row(5, 0, &[1, 2]),
        images.row(3, 0, &[0, 31, 9]),
        images.row(5, 1, &[3, 128]),
    ];
    same(&rt, &answers, &[Ok(()); 5]);
    let both = Texel {
        color: Some(Rgb565(31)),
        alpha: 9,
    };
    same(&rt, &texel(&images, 3, 0, 0), &Some(both));
    let mut alphas = [0; 4];
    for (i, alpha) in alphas.iter_mut().enumerate() {
        let (x, y) = ((i % 2) as u16, (i / 2 % 2) as u16);
        if let Some(texel) = texel(&images, 5, x, y) {
            *alpha = texel.alpha;
        }
    }
    same(&rt, &alphas, &[1, 2, 3, 128]);
}

#[test]
fn last_slot_then_full(rt: HostRuntime) {
    let mut images = opened(&rt, rt.alloc(), 2, 6);
    let answers = [
        images.begin(1, Format::Alpha, 7, 1),
        images.begin(1, Format::Rgb565, 2, 1),
        images.begin(2, Format::Alpha, 3, 1),
        images.begin(2, Format::Alpha, 2, 1),
        // The pool of images comes before that of pixels.
        images.begin(3, Format::Alpha, 1, 1),
    ];
    same(
        &rt,
        &answers,
        &[
            Err(Refusal::Full(Pool::Pixels)),
            Ok(()),
            Err(Refusal::Full(Pool::Pixels)),
            Ok(()),
            Err(Refusal::Full(Pool::Images)),
        ],
    );
}
