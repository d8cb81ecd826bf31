//! The places of a store's objects, worked out by hand.
ghost use Rattle.std.specs.Prelude.{◌≡◌, All};
ghost use Rattle.scene_defs.specs.Valid.{IsChange};
ghost use Rattle.gui_store.specs.Views.{scene_of};
ghost use Rattle.gui_layout.specs.Solved.{AreSolved, limits_of};

use gui_base::{Area, Flag, Flow, Handle, Kind, Length, Limits};
use gui_layout::{Marks, Places};
use gui_store::Store;
use scene_defs::Change;
use std::alloc::Global;
use std::process::Abort;

const SCREEN: Handle = Handle(3);

/// Makes the change, or tells that it is refused.
fn make(store: &mut Store, change: &Change) -> Result<(), &'static str>
    requires { IsChange change.now }
    ensures { (scene_of store.new).limits ≡ (scene_of store.old).limits }
{
    if store.apply(change).is_err() {
        return Err("refused");
    }
    Ok(())
}

/// Makes the changes in order, or tells that one is refused.
fn make_all(store: &mut Store, changes: &[Change]) -> Result<(), &'static str>
    requires { All IsChange changes.now }
    ensures { (scene_of store.new).limits ≡ (scene_of store.old).limits }
{
    for change in changes {
        make(store, change)?;
    }
    Ok(())
}

/// A new object.
fn new(h: u16, parent: Handle) -> Change<'static>
    ensures { IsChange result }
{
    Change::New(Handle(h), parent, Kind::Obj)
}

/// The size of an object in pixels.
fn size(h: u16, width: u16, height: u16) -> Change<'static>
    ensures { IsChange result }
{
    Change::Size(Handle(h), Length::Pixels(width), Length::Pixels(height))
}

/// The corners of an area.
fn corners(area: Area) -> [i32; 4] {
    [area.x1, area.y1, area.x2, area.y2]
}

/// Whether the objects stand there.
fn stand(places: &Places, wanted: &[(u16, [i32; 4])]) -> bool {
    for (h, at) in wanted {
        match places.place(Handle(*h)) {
            Some(area) => {
                if corners(area) != *at {
                    return false;
                }
            }
            None => return false,
        }
    }
    true
}

/// Whether an object has no place.
fn is_nowhere(places: &Places, h: u16) -> bool {
    places.place(Handle(h)).is_none()
}

/// Makes a row of three children that grow.
fn make_growing(store: &mut Store) -> Result<(), &'static str>
    ensures { (scene_of store.new).limits ≡ (scene_of store.old).limits }
{
    let changes = [
        Change::Flex(SCREEN, Flow::Row),
        new(10, SCREEN),
        size(10, 1, 1),
        Change::Grow(Handle(10), 1),
        new(11, SCREEN),
        size(11, 1, 1),
        Change::Grow(Handle(11), 1),
        new(12, SCREEN),
        size(12, 1, 1),
        Change::Grow(Handle(12), 1),
    ];
    make_all(store, &changes)
}

/// Whether they share it.
fn growing_share(store: &mut Store, places: &mut Places) -> Result<bool, &'static str>
    requires { limits_of places.old ≡ (scene_of store.old).limits }
{
    make_growing(store)?;
    places.solve_all(store);
    let wanted = [
        (3, [0, 0, 9, 1]),
        (10, [0, 0, 2, 0]),
        (11, [3, 0, 5, 0]),
        (12, [6, 0, 9, 0]),
    ];
    Ok(stand(places, &wanted) && is_nowhere(places, 13))
}

/// Makes a row of three children, which is as large as they are. The second one is hidden and has a place of its own
/// and a child.
fn make_hiding(store: &mut Store) -> Result<(), &'static str>
    ensures { (scene_of store.new).limits ≡ (scene_of store.old).limits }
{
    let changes = [
        new(10, SCREEN),
        Change::Size(Handle(10), Length::Content, Length::Content),
        Change::Flex(Handle(10), Flow::Row),
        new(11, Handle(10)),
        size(11, 4, 2),
        new(12, Handle(10)),
        size(12, 20, 20),
        Change::Pos(Handle(12), 5, 1),
        Change::Flag(Handle(12), Flag::Hidden, true),
        new(13, Handle(12)),
        size(13, 2, 2),
        new(14, Handle(10)),
        size(14, 3, 3),
    ];
    make_all(store, &changes)
}

/// Whether nothing of an object is visible.
fn is_unseen(store: &Store, places: &Places, h: u16) -> bool
    requires { AreSolved places.now (scene_of store.now) }
{
    places.visible(store, Handle(h)).is_empty()
}

/// Whether the hidden one takes no part in the row.
fn hidden_takes_no_part(store: &mut Store, places: &mut Places) -> Result<bool, &'static str>
    requires { limits_of places.old ≡ (scene_of store.old).limits }
{
    make_hiding(store)?;
    places.solve_all(store);
    let wanted = [
        (10, [0, 0, 6, 2]),
        (11, [0, 0, 3, 1]),
        (12, [5, 1, 24, 20]),
        (13, [5, 1, 6, 2]),
        (14, [4, 0, 6, 2]),
    ];
    let unseen = is_unseen(store, places, 12)
        && is_unseen(store, places, 13)
        && is_unseen(store, places, 99);
    Ok(unseen && stand(places, &wanted))
}

/// Makes two children of the screen, the first with a child, and finds their places.
fn solve_three(store: &mut Store, places: &mut Places) -> Result<(), &'static str>
    requires { limits_of places.old ≡ (scene_of store.old).limits }
    ensures { limits_of places.new ≡ (scene_of store.new).limits }
{
    let changes = [
        new(10, SCREEN),
        size(10, 4, 4),
        new(11, Handle(10)),
        new(12, SCREEN),
        size(12, 5, 5),
    ];
    make_all(store, &changes)?;
    places.solve_all(store);
    Ok(())
}

/// Removes two of the three, and makes another.
fn remove(store: &mut Store) -> Result<(), &'static str>
    ensures { (scene_of store.new).limits ≡ (scene_of store.old).limits }
{
    make_all(store, &[Change::Delete(Handle(10)), new(13, SCREEN)])
}

/// Whether those that were removed have no place after all were found again.
fn removed_have_no_place(store: &mut Store, places: &mut Places) -> Result<bool, &'static str>
    requires { limits_of places.old ≡ (scene_of store.old).limits }
{
    solve_three(store, places)?;
    remove(store)?;
    places.solve_all(store);
    let wanted = [(12, [0, 0, 4, 4]), (13, [0, 0, 99, 49])];
    Ok(is_nowhere(places, 11) && stand(places, &wanted))
}

/// Settles places with no marks.
fn settle_unmarked(alloc: Global, store: &Store, places: &mut Places) -> Result<(), &'static str>
    requires { limits_of places.old ≡ (scene_of store.now).limits }
{
    let Ok(mut marks) = Marks::open(alloc, 4) else {
        return Err("no memory");
    };
    places.settle(store, &mut marks);
    Ok(())
}

/// Whether all places stay if that is done after objects were removed.
fn unmarked_stay(
    alloc: Global,
    store: &mut Store,
    places: &mut Places,
) -> Result<bool, &'static str>
    requires { limits_of places.old ≡ (scene_of store.old).limits }
{
    solve_three(store, places)?;
    remove(store)?;
    settle_unmarked(alloc, store, places)?;
    let wanted = [(10, [0, 0, 3, 3]), (12, [0, 0, 4, 4])];
    Ok(is_nowhere(places, 13) && stand(places, &wanted))
}

/// Makes the three in another store, the first of them wider.
fn make_wider(store: &mut Store) -> Result<(), &'static str>
    ensures { (scene_of store.new).limits ≡ (scene_of store.old).limits }
{
    let changes = [
        new(10, SCREEN),
        size(10, 9, 4),
        new(11, Handle(10)),
        new(12, SCREEN),
        size(12, 5, 5),
    ];
    make_all(store, &changes)
}

/// Whether all places stay if they are settled with no marks for that other store.
fn unmarked_stay_for(
    alloc: Global,
    other: &mut Store,
    places: &mut Places,
) -> Result<bool, &'static str>
    requires { limits_of places.old ≡ (scene_of other.old).limits }
{
    make_wider(other)?;
    settle_unmarked(alloc, other, places)?;
    let wanted = [
        (3, [0, 0, 15, 7]),
        (10, [0, 0, 3, 3]),
        (11, [0, 0, 99, 49]),
        (12, [0, 0, 4, 4]),
    ];
    Ok(stand(places, &wanted))
}

/// Whether places that were solved for this store serve another store, in which nothing is marked.
fn unmarked_stay_for_another(
    alloc: Global,
    store: &mut Store,
    places: &mut Places,
) -> Result<bool, &'static str>
    requires { limits_of places.old ≡ (scene_of store.old).limits }
{
    solve_three(store, places)?;
    match Store::open(alloc, store.limits()) {
        Ok(mut other) => unmarked_stay_for(alloc, &mut other, places),
        Err(_) => Err("no memory"),
    }
}

/// Makes a scrolled object with two children: the first has a child that is wider, and the second stands
/// beside the object's corner.
fn make_scrolled(store: &mut Store) -> Result<(), &'static str>
    ensures { (scene_of store.new).limits ≡ (scene_of store.old).limits }
{
    let changes = [
        new(10, SCREEN),
        size(10, 20, 20),
        Change::Flag(Handle(10), Flag::Scrollable, true),
        Change::Scroll(Handle(10), 7, 15),
        new(11, Handle(10)),
        size(11, 10, 60),
        new(12, Handle(11)),
        size(12, 30, 4),
        new(13, Handle(10)),
        size(13, 8, 4),
        Change::Pos(Handle(13), 15, -6),
    ];
    make_all(store, &changes)
}

/// Whether the children of an object reach so far, and are moved so far.
fn scrolls(places: &Places, h: u16, reach: (u32, u32), offset: (u32, u32)) -> bool {
    places.reach(Handle(h)) == Some(reach) && places.offset(Handle(h)) == Some(offset)
}

/// Whether the scrolled one moves its children. What is not scrollable reaches too, and moves nothing.
fn scrolled_moves_children(store: &mut Store, places: &mut Places) -> Result<bool, &'static str>
    requires { limits_of places.old ≡ (scene_of store.old).limits }
{
    make_scrolled(store)?;
    places.solve_all(store);
    let wanted = [
        (10, [0, 0, 19, 19]),
        (11, [-3, -15, 6, 44]),
        (12, [-3, -15, 26, -12]),
        (13, [12, -21, 19, -18]),
    ];
    let moved = scrolls(places, 10, (3, 40), (3, 15))
        && scrolls(places, 11, (20, 0), (0, 0))
        && scrolls(places, 12, (0, 0), (0, 0));
    let none = places.reach(Handle(99)).is_none() && places.offset(Handle(99)).is_none();
    Ok(moved && none && stand(places, &wanted))
}

/// What is tried with a store and its places.
#[derive(Clone, Copy)]
enum Case {
    Growing,
    Hiding,
    Removed,
    Unmarked,
    Wider,
    Scrolled,
}

/// Whether all is as it should be in a case.
fn holds(
    alloc: Global,
    store: &mut Store,
    places: &mut Places,
    case: Case,
) -> Result<bool, &'static str>
    requires { limits_of places.old ≡ (scene_of store.old).limits }
{
    match case {
        Case::Growing => growing_share(store, places),
        Case::Hiding => hidden_takes_no_part(store, places),
        Case::Removed => removed_have_no_place(store, places),
        Case::Unmarked => unmarked_stay(alloc, store, places),
        Case::Wider => unmarked_stay_for_another(alloc, store, places),
        Case::Scrolled => scrolled_moves_children(store, places),
    }
}

/// Whether all is as it should be in a case on a panel of this size. This function alone owns the store and the
/// places, apart from a second store. It lets both go in one way out, since that takes most of a proof's time.
fn holds_on(alloc: Global, limits: &Limits, case: Case) -> Result<bool, &'static str> {
    match Store::open(alloc, limits) {
        Ok(mut store) => match Places::open(alloc, limits) {
            Ok(mut places) => holds(alloc, &mut store, &mut places, case),
            Err(_) => Err("no memory"),
        },
        Err(_) => Err("no memory"),
    }
}

/// All is as it should be in a case on a panel of this size.
fn check(rt: &impl Abort, alloc: Global, limits: &Limits, case: Case) {
    assert_eq!(rt; holds_on(alloc, limits, case), Ok(true));
}

#[test]
fn children_that_grow_share_a_row(rt: HostRuntime) {
    check(
        &rt,
        rt.alloc(),
        &Limits::with_sizes(10, 2, 2),
        Case::Growing,
    );
}

#[test]
fn hidden_children_take_no_part(rt: HostRuntime) {
    check(
        &rt,
        rt.alloc(),
        &Limits::with_sizes(64, 32, 8),
        Case::Hiding,
    );
}

#[test]
fn removed_objects_have_no_place(rt: HostRuntime) {
    check(
        &rt,
        rt.alloc(),
        &Limits::with_sizes(16, 8, 8),
        Case::Removed,
    );
}

#[test]
fn with_no_marks_all_places_stay(rt: HostRuntime) {
    check(
        &rt,
        rt.alloc(),
        &Limits::with_sizes(16, 8, 8),
        Case::Unmarked,
    );
}

#[test]
fn with_no_marks_all_places_stay_for_another_store(rt: HostRuntime) {
    check(&rt, rt.alloc(), &Limits::with_sizes(16, 8, 8), Case::Wider);
}

#[test]
fn a_scrolled_parent_moves_its_children(rt: HostRuntime) {
    check(
        &rt,
        rt.alloc(),
        &Limits::with_sizes(20, 20, 8),
        Case::Scrolled,
    );
}
