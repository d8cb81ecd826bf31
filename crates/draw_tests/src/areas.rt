//! Fills and rings.

use crate::canvas::{Item, SHADES, Shape, WHOLE, draw, number_at, opened, seen, white};
use crate::checks::{check_areas, check_clips, check_shades, same_at};
use gui_base::Area;
use std::alloc::Global;
use std::process::Abort;

#[test]
fn fills_are_cut_at_each_side(rt: HostRuntime) {
    let fill = white(Shape::Fill, Area::at(2, 1, 4, 4));
    let table = [
        (WHOLE, [0, 0x3C, 0x3C, 0x3C, 0x3C, 0]),
        (Area::at(4, 0, 4, 6), [0, 0x0C, 0x0C, 0x0C, 0x0C, 0]),
        (Area::at(0, 0, 4, 6), [0, 0x30, 0x30, 0x30, 0x30, 0]),
        (Area::at(0, 3, 8, 3), [0, 0, 0, 0x3C, 0x3C, 0]),
        (Area::at(0, 0, 8, 3), [0, 0x3C, 0x3C, 0, 0, 0]),
        (Area::at(3, 3, 0, 2), [0; 6]),
    ];
    check_clips(&rt, rt.alloc(), fill, &table);
}

#[test]
fn fills_end_with_the_buffer(rt: HostRuntime) {
    let table = [
        (Area::at(-3, -2, 5, 4), [0xC0, 0xC0, 0, 0, 0, 0]),
        (Area::at(6, 4, 5, 4), [0, 0, 0, 0, 3, 3]),
        (Area::at(2, 1, 0, 4), [0; 6]),
        (Area::at(2, 1, 4, 0), [0; 6]),
    ];
    check_areas(&rt, rt.alloc(), Shape::Fill, &table);
}

#[test]
fn rings_have_their_width(rt: HostRuntime) {
    for (width, want) in [
        (0, [0; 6]),
        (1, [0, 0x7E, 0x42, 0x42, 0x7E, 0]),
        (2, [0, 0x7E, 0x7E, 0x7E, 0x7E, 0]),
        (3, [0, 0x7E, 0x7E, 0x7E, 0x7E, 0]),
        (255, [0, 0x7E, 0x7E, 0x7E, 0x7E, 0]),
    ] {
        let ring = white(Shape::Ring { width }, Area::at(1, 1, 6, 4));
        same_at(&rt, &width, &seen(&rt, rt.alloc(), WHOLE, ring), &want);
    }
}

#[test]
fn rings_are_cut_at_each_side(rt: HostRuntime) {
    let ring = white(Shape::Ring { width: 2 }, WHOLE);
    let table = [
        (WHOLE, [0xFF, 0xFF, 0xC3, 0xC3, 0xFF, 0xFF]),
        (Area::at(3, 0, 5, 6), [0x1F, 0x1F, 0x03, 0x03, 0x1F, 0x1F]),
        (Area::at(0, 0, 5, 6), [0xF8, 0xF8, 0xC0, 0xC0, 0xF8, 0xF8]),
        (Area::at(0, 3, 8, 3), [0, 0, 0, 0xC3, 0xFF, 0xFF]),
        (Area::at(0, 0, 8, 3), [0xFF, 0xFF, 0xC3, 0, 0, 0]),
    ];
    check_clips(&rt, rt.alloc(), ring, &table);
}

#[test]
fn rings_end_with_the_buffer(rt: HostRuntime) {
    let table = [
        (Area::at(-3, -2, 6, 4), [0x20, 0xE0, 0, 0, 0, 0]),
        (Area::at(4, 4, 0, 3), [0; 6]),
        (Area::at(4, 4, 3, 0), [0; 6]),
    ];
    check_areas(&rt, rt.alloc(), Shape::Ring { width: 1 }, &table);
}

#[test]
fn fills_are_mixed_once(rt: HostRuntime) {
    check_shades(&rt, rt.alloc(), white(Shape::Fill, WHOLE));
}

/// The numbers of pixels at three corners and at two sides, under a ring of one pixel.
fn ring_numbers(rt: &impl Abort, alloc: Global, opa: u8) -> [u16; 5] {
    let mut buf = opened(rt, alloc, 48);
    let ring = Item {
        opa,
        ..white(Shape::Ring { width: 1 }, WHOLE)
    };
    draw(&mut buf, WHOLE, WHOLE, &[ring]);
    let colors = buf.pixels();
    [0, 1, 7, 8, 47].map(|i| number_at(colors, i))
}

#[test]
fn corners_are_mixed_once(rt: HostRuntime) {
    for (opa, want) in SHADES {
        same_at(&rt, &opa, &ring_numbers(&rt, rt.alloc(), opa), &[want; 5]);
    }
}
