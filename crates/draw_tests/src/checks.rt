//! The checks that all tests make. To prove each expansion of `assert_eq!` takes seconds, and a call next to
//! nothing.
use crate::canvas::{Item, SHADES, Shape, WHOLE, first_number, seen, white};
use gui_base::Area;
use std::alloc::Global;
use std::fmt::Debug;
use std::process::Abort;

/// Two values are the same at a place of a table, which a failure names.
pub(crate) fn same_at<P: Debug, T: PartialEq + Debug>(
    rt: &impl Abort,
    place: &P,
    value: &T,
    wanted: &T,
) {
    assert_eq!(rt; value, wanted, "at {place:?}");
}

/// Whether an item is seen so in clips.
pub(crate) fn check_clips(
    rt: &impl Abort,
    alloc: Global,
    item: Item<'_>,
    table: &[(Area, [u8; 6])],
) {
    for (clip, want) in table {
        same_at(rt, clip, &seen(rt, alloc, *clip, item), want);
    }
}

/// Whether a white shape is seen so in areas.
pub(crate) fn check_areas(
    rt: &impl Abort,
    alloc: Global,
    shape: Shape<'_>,
    table: &[(Area, [u8; 6])],
) {
    for (area, want) in table {
        let item = white(shape, *area);
        same_at(rt, area, &seen(rt, alloc, WHOLE, item), want);
    }
}

/// Whether the first pixel is mixed once under an item, with each opacity.
pub(crate) fn check_shades(rt: &impl Abort, alloc: Global, item: Item<'_>) {
    for (opa, want) in SHADES {
        let number = first_number(rt, alloc, &[Item { opa, ..item }]);
        same_at(rt, &opa, &number, &want);
    }
}
