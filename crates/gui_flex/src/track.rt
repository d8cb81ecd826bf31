//! Tracks: which items stand in one, and how long, heavy and thick it is.
ghost use Rattle.std.specs.Prelude.{◌≡◌, ◌≤◌, ◌<◌, ◌+◌, ◌*◌, ◌-◌, ◌∷◌, not, ◌||◌, nat_le, length, take, drop};
ghost use Rattle.std.specs.Prelude.{map, sum};
ghost use Rattle.std.specs.List.{sum_by};
ghost use Rattle.layout_defs.specs.Flex.{is_fit, tracks, free_of, weight_of, thickness};
ghost use Rattle.gui_flex.specs.Items.{items_of};

use crate::item::FlexItem;

/// Whether a track may be so long.
fn is_fit(wrap: bool, extent: u32, long: u32) -> bool
    ensures { result ≡ is_fit wrap extent long }
{
    !wrap || long <= extent
}

/// How many items the first track takes.
pub(crate) fn track_len(items: &[FlexItem], wrap: bool, extent: u32, gap: u32) -> usize
    requires some { 0 < length items.now }
    requires few { length items.now ≤ 4000 }
    requires gap { gap ≤ 1000 }
    ensures least { 0 < result }
    ensures most { result ≤ length items.now }
    ensures track { tracks wrap extent gap (items_of items.now)
        ≡ take result (items_of items.now) ∷ tracks wrap extent gap (drop result (items_of items.now)) }
{
    let mut long = items[0].counted_size();
    let mut end = 1;
    while end < items.len() {
        let longer = long + gap + items[end].counted_size();
        if !is_fit(wrap, extent, longer) {
            return end;
        }
        long = longer;
        end += 1;
    }
    end
}

/// What is free in a track before it is shared out.
pub(crate) fn free_space(track: &[FlexItem], extent: u32, gap: u32) -> u32
    requires few { length track.now ≤ 4000 }
    requires gap { gap ≤ 1000 }
    ensures value { result ≡ free_of extent gap (items_of track.now) }
    ensures small { result ≤ extent }
{
    let mut sizes = 0;
    for item in track {
        sizes += item.counted_size();
    }
    let gaps = gap * track.len().saturating_sub(1) as u32;
    extent.saturating_sub(sizes + gaps)
}

/// The weight of a track's items together.
pub(crate) fn weight(track: &[FlexItem]) -> u32
    requires few { length track.now ≤ 4000 }
    ensures value { result ≡ weight_of (items_of track.now) }
{
    let mut weight = 0;
    for item in track {
        weight += u32::from(item.grow);
    }
    weight
}

/// How far a track reaches across the flow.
pub(crate) fn thickness(track: &[FlexItem]) -> u32
    ensures value { result ≡ thickness (items_of track.now) }
    ensures small { result ≤ 8191 }
{
    let mut most = 0;
    for item in track {
        most = most.max(item.cross_size());
    }
    most
}

/// How many tracks there are, and how thick they are together, in pixels and without the gaps between them.
pub fn measure(items: &[FlexItem], wrap: bool, extent: u32, gap: u32) -> (u32, u32)
    requires few { length items.now ≤ 4000 }
    requires gap { gap ≤ 1000 }
    ensures count { result.0 ≡ length (tracks wrap extent gap (items_of items.now)) }
    ensures sum { result.1 ≡ sum_by thickness (tracks wrap extent gap (items_of items.now)) }
    ensures few { result.0 ≤ 4000 }
    ensures small { result.1 ≤ 8191 * result.0 }
{
    let mut count = 0;
    let mut sizes = 0;
    let mut first = 0;
    while first < items.len() {
        let rest = items.split_at(first).1;
        let taken = track_len(rest, wrap, extent, gap);
        sizes += thickness(rest.split_at(taken).0);
        count += 1;
        first += taken;
    }
    (count, sizes)
}
