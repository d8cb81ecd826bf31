//! One container's flex, with places that were worked out by hand.
ghost use Rattle.std.specs.Prelude.{◌≡◌, ◌≤◌, length};

use gui_base::words::PLACINGS;
use gui_flex::{FlexItem, FlexPlaces, Placing, measure, place, share};
use std::test::Fail;

/// An item of these sizes, with its weight in sharing.
fn item(main: u8, cross: u8, grow: u8) -> FlexItem {
    FlexItem {
        main: main as i32,
        cross: cross as i32,
        grow,
        main_at: 0,
        cross_at: 0,
    }
}

/// Items that are so far placed along the flow, and their tracks across it.
fn by(main: Placing, track: Placing) -> FlexPlaces {
    FlexPlaces {
        main,
        cross: Placing::Center,
        track,
    }
}

/// Shares and places items in a container of 10 by 9 pixels, with so many pixels between two items and two
/// between two tracks.
fn lay_out(items: &mut [FlexItem], wrap: bool, places: FlexPlaces, gap: u8)
    requires { length items.old ≤ 4000 }
    ensures { length items.new ≡ length items.old }
{
    share(items, wrap, 10, gap as i32);
    place(items, wrap, places, 10, 9, gap as i32, 2);
}

/// Whether the items stand there along the flow, and are so long.
fn stand(items: &[FlexItem], wanted: &[(i32, i32)]) -> bool {
    items.len() == wanted.len()
        && items.iter().zip(wanted).all(|(item, (at, long))| item.main_at == *at
            && item.main == *long)
}

/// Whether they stand there across it.
fn stand_across(items: &[FlexItem], wanted: &[i32]) -> bool {
    items.len() == wanted.len()
        && items
            .iter()
            .zip(wanted)
            .all(|(item, at)| item.cross_at == *at)
}

#[test]
fn three_growing_items_share_ten_pixels(rt: HostRuntime) {
    let mut items = [item(1, 1, 1); 3];
    lay_out(&mut items, false, by(Placing::Start, Placing::Start), 0);
    assert!(rt; stand(&items, &[(0, 3), (3, 3), (6, 4)]));
}

#[test]
fn shares_go_by_weight(rt: HostRuntime) {
    let mut items = [item(7, 1, 1), item(2, 1, 0), item(9, 1, 2)];
    lay_out(
        &mut items,
        false,
        by(Placing::SpaceAround, Placing::Start),
        1,
    );
    assert!(rt; stand(&items, &[(0, 2), (3, 2), (6, 4)]));
}

#[test]
fn one_item_between_stands_at_the_start(rt: HostRuntime) {
    let mut items = [item(4, 1, 0)];
    lay_out(
        &mut items,
        false,
        by(Placing::SpaceBetween, Placing::SpaceBetween),
        0,
    );
    assert!(rt; stand(&items, &[(0, 4)]) && stand_across(&items, &[0]));
}

#[test]
fn items_that_do_not_fit_begin_at_the_start(rt: HostRuntime) {
    let mut items = [item(8, 1, 0), item(8, 1, 0)];
    lay_out(
        &mut items,
        false,
        by(Placing::SpaceBetween, Placing::Start),
        0,
    );
    assert!(rt; stand(&items, &[(0, 8), (8, 8)]));
    let mut items = [item(15, 1, 0), item(3, 1, 0), item(1, 12, 1)];
    lay_out(&mut items, true, by(Placing::End, Placing::End), 0);
    assert!(rt; stand(&items, &[(0, 15), (0, 3), (3, 7)]));
    assert!(rt; stand_across(&items, &[0, 8, 3]));
}

/// Where one, two and three items of two pixels stand in ten, and two tracks in nine, two apart.
const PLACED: [([i32; 1], [i32; 2], [i32; 3], [i32; 2]); 6] = [
    ([0], [0, 2], [0, 2, 4], [0, 4]),
    ([8], [6, 8], [4, 6, 8], [3, 7]),
    ([4], [3, 5], [2, 4, 6], [1, 5]),
    ([4], [2, 6], [1, 4, 7], [1, 6]),
    ([4], [1, 6], [0, 4, 7], [0, 6]),
    ([0], [0, 8], [0, 4, 8], [0, 7]),
];

/// Whether so many items of two pixels stand there.
fn small_items_stand(placing: Placing, wanted: &[i32]) -> bool {
    if wanted.len() > 3 {
        return false;
    }
    let mut items = [item(2, 1, 0); 3];
    let items = &mut items[..wanted.len()];
    lay_out(items, false, by(placing, Placing::Start), 0);
    items
        .iter()
        .zip(wanted)
        .all(|(item, at)| item.main_at == *at)
}

/// Whether two tracks of one item each stand there.
fn tracks_stand(placing: Placing, wanted: &[i32]) -> bool {
    let mut items = [item(9, 2, 0); 2];
    lay_out(&mut items, true, by(Placing::Start, placing), 0);
    stand_across(&items, wanted)
}

/// Whether two items that fill ten pixels stand at 0 and 4, and one that grows beside them gets nothing.
fn full_items_stand(placing: Placing) -> bool {
    let mut items = [item(4, 1, 0), item(6, 1, 0), item(5, 1, 3)];
    lay_out(&mut items[..2], false, by(placing, Placing::Start), 0);
    let full = stand(&items[..2], &[(0, 4), (4, 6)]);
    lay_out(&mut items, false, by(placing, Placing::Start), 0);
    full && stand(&items, &[(0, 4), (4, 6), (10, 0)])
}

#[test]
fn each_placing_of_one_two_and_three_items(rt: HostRuntime) {
    for ((name, placing), (one, two, three, tracks)) in PLACINGS.iter().zip(&PLACED) {
        assert!(rt; small_items_stand(*placing, one), "{name}, one item");
        assert!(rt; small_items_stand(*placing, two), "{name}, two items");
        assert!(rt; small_items_stand(*placing, three), "{name}, three items");
        assert!(rt; tracks_stand(*placing, tracks), "{name}, tracks");
        assert!(rt; full_items_stand(*placing), "{name}, no free space");
    }
}

#[test]
fn items_go_on_in_tracks(rt: HostRuntime) {
    let mut items = [item(4, 2, 0), item(4, 3, 0), item(4, 1, 0)];
    assert_eq!(rt; measure(&items, true, 10, 1), (2, 4));
    assert_eq!(rt; measure(&items, false, 10, 1), (1, 3));
    lay_out(&mut items, true, by(Placing::SpaceBetween, Placing::End), 1);
    assert!(rt; stand(&items, &[(0, 4), (6, 4), (0, 4)]) && stand_across(&items, &[3, 3, 8]));
    // What grows counts as nothing if tracks are filled.
    let mut items = [item(4, 1, 1), item(8, 1, 0), item(3, 1, 0)];
    lay_out(&mut items, true, by(Placing::Start, Placing::Start), 0);
    assert!(rt; stand(&items, &[(0, 2), (2, 8), (0, 3)]) && stand_across(&items, &[0, 0, 3]));
}

#[test]
fn turned_items_stand_in_the_order_of_the_flow(rt: HostRuntime) {
    let mut items = [item(2, 1, 0), item(3, 1, 0), item(6, 1, 0)];
    items.reverse();
    lay_out(&mut items, true, by(Placing::Start, Placing::Start), 1);
    items.reverse();
    assert!(rt; stand(&items, &[(0, 2), (7, 3), (0, 6)]) && stand_across(&items, &[3, 0, 0]));
}

#[test]
fn no_items(rt: HostRuntime) {
    lay_out(&mut [], true, by(Placing::End, Placing::End), 1);
    assert_eq!(rt; measure(&[], true, 10, 1), (0, 0));
}
