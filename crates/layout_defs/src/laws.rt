//! What follows from the definitions. Each function does nothing: its contract is a law, which is proved.
ghost use Rattle.layout_defs.specs.Contents.{ChildrenFillRow, ContentHoldsChildren};
ghost use Rattle.layout_defs.specs.Examples.{PlacesAreWorked};
ghost use Rattle.layout_defs.specs.FlexLaws.{ItemsKeepOrder, TracksHoldItems, OneTrack};
ghost use Rattle.layout_defs.specs.FlexLaws.{TracksFit, TracksAreFull};
ghost use Rattle.layout_defs.specs.FlexLaws.{SharesFillTracks, NothingShared, SharesKeepTracks};
ghost use Rattle.layout_defs.specs.FlexLaws.{NeighboursApart, ItemsApart, TracksApart};
ghost use Rattle.layout_defs.specs.FlexLaws.{LinesFit, ItemsInTracks};
ghost use Rattle.layout_defs.specs.Laws.{SolvedKeepsBoxes, SolvedApart, SolvedByRoot};
ghost use Rattle.layout_defs.specs.MadeTrees.{MadeTreesAreSolved};
ghost use Rattle.layout_defs.specs.OwnHeights.{NaturalWidthsAskNone, WidthsAskNone, SlotsAskNone};
ghost use Rattle.layout_defs.specs.OwnHeights.{NaturalHeightsAskAtWidths, PlacesAskAtWidths};
ghost use Rattle.layout_defs.specs.Scrolling.{StillStandsFlat, MovedAsTheirRoom, ReachesAnywhere, SizesAskNoScroll};
ghost use Rattle.layout_defs.specs.Reach.{NaturalWidthsAreSizes, SolvedAreSizes, PlacesAreNear};

/// Each item of a container stands in exactly one track, and keeps its order. No track is empty, and without
/// wrap there is one.
pub fn items_keep_their_order()
    ensures order { ItemsKeepOrder }
    ensures some { TracksHoldItems }
    ensures one { OneTrack }
{}

/// With wrap a track takes each next item that fits, and no other.
pub fn tracks_are_filled_in_order()
    ensures fit { TracksFit }
    ensures full { TracksAreFull }
{}

/// If an item grows, the shares and the other sizes fill the track, if those fit. If none grows, all keep their
/// sizes. What is shared stands in the same tracks as before.
pub fn shares_fill_tracks()
    ensures filled { SharesFillTracks }
    ensures none { NothingShared }
    ensures same { SharesKeepTracks }
{}

/// No two neighbours overlap, neither items of one track nor tracks, and what fits stands within the
/// container. Across the flow each item stands within its track.
pub fn neighbours_do_not_overlap()
    ensures apart { NeighboursApart }
    ensures items { ItemsApart }
    ensures tracks { TracksApart }
    ensures fit { LinesFit }
    ensures inside { ItemsInTracks }
{}

/// Solving keeps the trees and their boxes, and each size that it finds lies between 0 and 8191.
pub fn solved_sizes_are_small()
    ensures boxes { SolvedKeepsBoxes }
    ensures naturals { NaturalWidthsAreSizes }
    ensures sizes { SolvedAreSizes }
{}

/// Each number of a place lies within 1,000,000,000 pixels of the panel's corner.
pub fn places_are_near()
    ensures { PlacesAreNear }
{}

/// The children of an object that is not to be scrolled stand flat. Those of another stand as in a content area
/// that is moved. How far they reach does not depend on where their parent stands, and no size depends on how
/// far an object is to be scrolled.
pub fn scrolled_children()
    ensures flat { StillStandsFlat }
    ensures moved { MovedAsTheirRoom }
    ensures reach { ReachesAnywhere }
    ensures sizes { SizesAskNoScroll }
{}

/// What is as wide as its content, and less wide than the greatest size, is wide enough. Without flex it holds
/// each child that stands by its near side, if that is not a percentage wide. The children of a row that does
/// not wrap fill it with their gaps, if none grows or is a percentage wide and what the row shows is not wider.
pub fn contents_hold_children()
    ensures near { ContentHoldsChildren }
    ensures row { ChildrenFillRow }
{}

/// Trees are solved one by one: what lies at a root and below it comes from its tree alone.
pub fn solved_apart()
    ensures trees { SolvedApart }
    ensures roots { SolvedByRoot }
{}

/// Solving asks how high an object is by what it shows only if its content area is as wide as its solved width
/// leaves it. Widths, and slots by natural heights, do not ask it at all.
pub fn own_heights_count_at_widths()
    ensures natural_widths { NaturalWidthsAskNone }
    ensures widths { WidthsAskNone }
    ensures natural_heights { NaturalHeightsAskAtWidths }
    ensures slots { SlotsAskNone }
    ensures places { PlacesAskAtWidths }
{}

/// Places that were worked out by hand, and places in trees made at random, as another implementation of the
/// same rules finds them.
pub fn worked_examples()
    ensures by_hand { PlacesAreWorked }
    ensures made { MadeTreesAreSolved }
{}
