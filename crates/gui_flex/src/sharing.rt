//! Sharing what is free.
ghost use Rattle.std.specs.Prelude.{pos, if◌then◌else◌, ◌==◌, ◌≡◌, ◌≤◌, ◌<◌, ◌+◌, ◌*◌, ◌-◌, ◌/◌, length};
ghost use Rattle.gui_base.specs.Area.{nat_of};
ghost use Rattle.layout_defs.specs.Flex.{shared_track, shared};
ghost use Rattle.layout_defs.specs.Sizes.{IsSize, IsGap};
ghost use Rattle.gui_flex.specs.Items.{item_of, items_of, spots_of};

use crate::item::FlexItem;
use crate::track::{free_space, track_len, weight};

/// The part of the free space for the first items, whose weights come to `upto` together.
fn part(free: u32, upto: u32, weight: u32) -> u32
    requires free { free ≤ 8191 }
    requires weight { 0 < weight }
    requires upto { upto ≤ weight }
    ensures value { result ≡ free * upto / weight }
    ensures small { result ≤ free }
{
    (u64::from(free) * u64::from(upto) / u64::from(weight)) as u32
}

/// The size along the flow of an item that comes after items of so much weight: its share, if it grows.
fn main_after(item: &FlexItem, free: u32, before: u32, weight: u32) -> i32
    requires free { free ≤ 8191 }
    requires weight { before + item.now.grow ≤ weight }
    ensures value { result ≡ pos (if item.now.grow == 0 then (item_of item.now).main
        else free * (before + item.now.grow) / weight - free * before / weight) }
    ensures fits { IsSize result }
{
    if item.grow == 0 {
        return item.main;
    }
    let with = before + u32::from(item.grow);
    (part(free, with, weight) - part(free, before, weight)) as i32
}

/// Shares what is free in a track.
fn share_track(track: &mut [FlexItem], extent: u32, gap: u32)
    requires few { length track.old ≤ 4000 }
    requires extent { extent ≤ 8191 }
    requires gap { gap ≤ 1000 }
    ensures items { items_of track.new ≡ shared_track extent gap (items_of track.old) }
    ensures spots { spots_of track.new ≡ spots_of track.old }
{
    let free = free_space(track, extent, gap);
    let weight = weight(track);
    let mut before = 0;
    for item in track.iter_mut() {
        item.main = main_after(item, free, before, weight);
        before += u32::from(item.grow);
    }
}

/// Shares what is free, track by track.
fn share_tracks(items: &mut [FlexItem], wrap: bool, extent: u32, gap: u32)
    requires few { length items.old ≤ 4000 }
    requires extent { extent ≤ 8191 }
    requires gap { gap ≤ 1000 }
    ensures items { items_of items.new ≡ shared wrap extent gap (items_of items.old) }
    ensures spots { spots_of items.new ≡ spots_of items.old }
{
    let mut first = 0;
    while first < items.len() {
        let count = track_len(items.split_at(first).1, wrap, extent, gap);
        share_track(&mut items[first..first + count], extent, gap);
        first += count;
    }
}

/// Shares what is free among the growing items by their weights, track by track. `extent` is the size of the
/// container along the flow, from 0 to 8191, and `gap` the space between two items, from 0 to 1000. There are
/// at most 4,000 items. If the flow does not wrap, all are one track.
pub fn share(items: &mut [FlexItem], wrap: bool, extent: i32, gap: i32)
    requires few { length items.old ≤ 4000 }
    requires extent { IsSize extent }
    requires gap { IsGap gap }
    ensures items { items_of items.new ≡ shared wrap (nat_of extent) (nat_of gap) (items_of items.old) }
    ensures spots { spots_of items.new ≡ spots_of items.old }
{
    share_tracks(items, wrap, extent as u32, gap as u32);
}
