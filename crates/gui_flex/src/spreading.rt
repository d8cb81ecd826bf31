//! Placing items in tracks, and tracks in the container.
ghost use Rattle.std.specs.Prelude.{◌≡◌, ◌≤◌, ◌<◌, ◌+◌, ◌*◌, length};
ghost use Rattle.gui_base.specs.Area.{nat_of};
ghost use Rattle.layout_defs.specs.Flex.{left_over, spread, across, track_spots, spots};
ghost use Rattle.layout_defs.specs.Sizes.{IsSize, IsGap};
ghost use Rattle.gui_flex.specs.Items.{items_of, spots_of, placings_of};

use crate::item::{FlexItem, FlexPlaces};
use crate::track::{free_space, measure, thickness, track_len, weight};
use gui_base::words::Placing;

/// How far thing `i` of `n` stands from where it would without free space.
fn spread(placing: Placing, free: u32, i: u32, n: u32) -> u32
    requires free { free ≤ 8191 }
    requires there { i < n }
    requires few { n ≤ 4000 }
    ensures value { result ≡ spread placing free i n }
    ensures small { result ≤ free }
{
    match placing {
        Placing::Start => 0,
        Placing::End => free,
        Placing::Center => free / 2,
        Placing::SpaceEvenly => free * (i + 1) / (n + 1),
        Placing::SpaceAround => free * (2 * i + 1) / (2 * n),
        Placing::SpaceBetween if n == 1 => 0,
        Placing::SpaceBetween => free * i / (n - 1),
    }
}

/// Where thing `i` stands after things that are so long together, with the gaps between them, if it is spread
/// so far.
fn stand(before: u32, gap: u32, i: u32, far: u32) -> u32
    requires before { before ≤ 8191 * i }
    requires gap { gap ≤ 1000 }
    requires few { i ≤ 4000 }
    requires far { far ≤ 8191 }
    ensures value { result ≡ before + gap * i + far }
    ensures small { result ≤ 40000000 }
{
    before + gap * i + far
}

/// Where an item stands in its track, across the flow.
fn across(placing: Placing, room: u32) -> u32
    ensures value { result ≡ across placing room }
    ensures small { result ≤ room }
{
    match placing {
        Placing::End => room,
        Placing::Center => room / 2,
        _ => 0,
    }
}

/// What is free in a track once it is shared out.
fn left_over(track: &[FlexItem], extent: u32, gap: u32) -> u32
    requires few { length track.now ≤ 4000 }
    requires gap { gap ≤ 1000 }
    ensures value { result ≡ left_over extent gap (items_of track.now) }
    ensures small { result ≤ extent }
{
    if weight(track) > 0 {
        return 0;
    }
    free_space(track, extent, gap)
}

/// Places the items of a track that stands `at` so many pixels across the flow.
fn place_track(track: &mut [FlexItem], places: FlexPlaces, extent: u32, gap: u32, at: u32)
    requires few { length track.old ≤ 4000 }
    requires extent { extent ≤ 8191 }
    requires gap { gap ≤ 1000 }
    requires at { at ≤ 40000000 }
    ensures spots { spots_of track.new ≡ track_spots (placings_of places) extent gap at (items_of track.old) }
    ensures items { items_of track.new ≡ items_of track.old }
{
    let free = left_over(track, extent, gap);
    let thickness = thickness(track);
    let count = track.len() as u32;
    let mut before = 0;
    for i in 0..track.len() {
        let item = &mut track[i];
        let far = spread(places.main, free, i as u32, count);
        let main_at = stand(before, gap, i as u32, far);
        let cross_at = at + across(places.cross, thickness - item.cross_size());
        before += item.main_size();
        item.main_at = main_at as i32;
        item.cross_at = cross_at as i32;
    }
}

/// The sizes of a container along its flow and across it, and the spaces between two items and between two
/// tracks.
#[derive(Clone, Copy)]
struct Extents {
    extent: u32,
    cross_extent: u32,
    gap: u32,
    track_gap: u32,
    ghost extent_fits: { extent ≤ 8191 },
    ghost cross_extent_fits: { cross_extent ≤ 8191 },
    ghost gap_fits: { gap ≤ 1000 },
    ghost track_gap_fits: { track_gap ≤ 1000 },
}

/// Places the items of all tracks.
fn place_tracks(items: &mut [FlexItem], wrap: bool, places: FlexPlaces, extents: Extents)
    requires few { length items.old ≤ 4000 }
    ensures spots { spots_of items.new ≡ spots (placings_of places) wrap extents.extent
        extents.cross_extent extents.gap extents.track_gap (items_of items.old) }
    ensures items { items_of items.new ≡ items_of items.old }
{
    let Extents {
        extent,
        cross_extent,
        gap,
        track_gap,
    } = extents;
    let (count, sizes) = measure(items, wrap, extent, gap);
    let free = cross_extent.saturating_sub(sizes + track_gap * count.saturating_sub(1));
    let mut first = 0;
    let mut track = 0;
    let mut before = 0;
    while first < items.len() {
        let taken = track_len(items.split_at(first).1, wrap, extent, gap);
        let far = spread(places.track, free, track, count);
        let at = stand(before, track_gap, track, far);
        before += thickness(items.split_at(first).1.split_at(taken).0);
        place_track(&mut items[first..first + taken], places, extent, gap, at);
        track += 1;
        first += taken;
    }
}

// Each size by itself, as a container has them: the sizes of its content area and its gaps.
/// Places items whose shares are given: tracks one after another across the flow, and the items of each along
/// it. `extent` and `cross_extent` are the sizes of the container along the flow and across it, from 0 to 8191.
/// `gap` and `track_gap` are the spaces between two items and between two tracks, from 0 to 1000. There are at
/// most 4,000 items.
pub fn place(
    items: &mut [FlexItem],
    wrap: bool,
    places: FlexPlaces,
    extent: i32,
    cross_extent: i32,
    gap: i32,
    track_gap: i32,
)
    requires few { length items.old ≤ 4000 }
    requires extent { IsSize extent }
    requires cross_extent { IsSize cross_extent }
    requires gap { IsGap gap }
    requires track_gap { IsGap track_gap }
    ensures spots { spots_of items.new
        ≡ spots (placings_of places) wrap (nat_of extent) (nat_of cross_extent) (nat_of gap)
        (nat_of track_gap) (items_of items.old) }
    ensures items { items_of items.new ≡ items_of items.old }
{
    let extents = Extents {
        extent: extent as u32,
        cross_extent: cross_extent as u32,
        gap: gap as u32,
        track_gap: track_gap as u32,
    };
    place_tracks(items, wrap, places, extents);
}
