//! Cascades with winners that were worked out by hand, and each pool of the styles at its last slot.
use crate::checks::same;
use gui_base::{Handle, Pool, Refusal};
use gui_style::{Part, Prop, Selector, Styles};
use std::alloc::Global;
use std::process::Abort;

const OBJECT: Handle = Handle(10);

const CHECKED: u16 = 0x0001;

const PRESSED: u16 = 0x0020;

/// Styles with so many slots in each pool.
fn opened(rt: &impl Abort, alloc: Global, slots: u32) -> Styles {
    Styles::open(alloc, slots, slots, slots).expect(rt, "no memory")
}

fn on(part: Part, states: u16) -> Selector {
    Selector { part, states }
}

/// The styles 1 and 2, which set an opacity of 10 and of 20.
fn two_styles(rt: &impl Abort, alloc: Global) -> Styles {
    let mut styles = opened(rt, alloc, 8);
    for (id, opacity) in [(1, 10), (2, 20)] {
        let done = styles.style(id).is_ok() && styles.style_prop(id, Prop::BgOpa, opacity).is_ok();
        same(rt, &done, &true);
    }
    styles
}

/// The opacity that wins at the object in no state, checked, pressed, and in both.
fn winners(styles: &Styles, part: Part) -> [Option<i32>; 4] {
    let none = styles.lookup(OBJECT, part, 0, Prop::BgOpa);
    let checked = styles.lookup(OBJECT, part, CHECKED, Prop::BgOpa);
    let pressed = styles.lookup(OBJECT, part, PRESSED, Prop::BgOpa);
    let both = styles.lookup(OBJECT, part, CHECKED | PRESSED, Prop::BgOpa);
    [none, checked, pressed, both]
}

fn spare(styles: &Styles) -> [u32; 3] {
    [
        styles.spare_styles(),
        styles.spare_entries(),
        styles.spare_uses(),
    ]
}

#[test]
fn greater_states_win(rt: HostRuntime) {
    let mut styles = two_styles(&rt, rt.alloc());
    let answers = [
        styles.add_style(OBJECT, 1, on(Part::Main, PRESSED)),
        styles.set_local(OBJECT, on(Part::Main, CHECKED), Prop::BgOpa, 30),
    ];
    same(&rt, &answers, &[Ok(()), Ok(())]);
    same(
        &rt,
        &winners(&styles, Part::Main),
        &[None, Some(30), Some(10), Some(10)],
    );

    // What is set for two states applies in both of them alone.
    let both = on(Part::Main, CHECKED | PRESSED);
    same(
        &rt,
        &styles.set_local(OBJECT, both, Prop::BgOpa, 40),
        &Ok(()),
    );
    same(
        &rt,
        &winners(&styles, Part::Main),
        &[None, Some(30), Some(10), Some(40)],
    );

    // Another part, another property and another object have nothing.
    same(&rt, &winners(&styles, Part::Knob), &[None; 4]);
    let others = [
        styles.lookup(OBJECT, Part::Main, PRESSED, Prop::BgColor),
        styles.lookup(Handle(11), Part::Main, PRESSED, Prop::BgOpa),
    ];
    same(&rt, &others, &[None; 2]);
}

#[test]
fn local_entries_win_where_states_are_equal(rt: HostRuntime) {
    let mut styles = two_styles(&rt, rt.alloc());
    let answers = [
        styles.set_local(OBJECT, on(Part::Knob, 0), Prop::BgOpa, 30),
        styles.add_style(OBJECT, 1, on(Part::Knob, 0)),
    ];
    same(&rt, &answers, &[Ok(()), Ok(())]);
    same(&rt, &winners(&styles, Part::Knob), &[Some(30); 4]);
    same(
        &rt,
        &styles.unset_local(OBJECT, on(Part::Knob, 0), Prop::BgOpa),
        &Ok(()),
    );
    same(&rt, &winners(&styles, Part::Knob), &[Some(10); 4]);
}

#[test]
fn a_style_that_is_used_again_is_the_last(rt: HostRuntime) {
    let mut styles = two_styles(&rt, rt.alloc());
    let main = on(Part::Main, 0);
    let answers = [
        styles.add_style(OBJECT, 1, main),
        styles.add_style(OBJECT, 2, main),
    ];
    same(&rt, &answers, &[Ok(()), Ok(())]);
    same(&rt, &winners(&styles, Part::Main), &[Some(20); 4]);
    let answers = [
        styles.remove_style(OBJECT, 1, main),
        styles.add_style(OBJECT, 1, main),
    ];
    same(&rt, &answers, &[Ok(()), Ok(())]);
    same(&rt, &winners(&styles, Part::Main), &[Some(10); 4]);

    // A property that a style loses is given by the other.
    same(&rt, &styles.unset_prop(1, Prop::BgOpa), &Ok(()));
    same(&rt, &winners(&styles, Part::Main), &[Some(20); 4]);
}

/// The first three users of a style.
fn first_users(styles: &Styles, id: u16) -> [Option<Handle>; 3] {
    let mut users = styles.users(id);
    [
        users.next().copied(),
        users.next().copied(),
        users.next().copied(),
    ]
}

#[test]
fn users_of_a_style_come_once_for_each_use(rt: HostRuntime) {
    let mut styles = two_styles(&rt, rt.alloc());
    let other = Handle(11);
    let answers = [
        styles.add_style(OBJECT, 1, on(Part::Main, 0)),
        styles.add_style(other, 1, on(Part::Main, 0)),
        styles.add_style(OBJECT, 1, on(Part::Knob, 0)),
        styles.add_style(other, 2, on(Part::Main, 0)),
    ];
    same(&rt, &answers, &[Ok(()); 4]);
    same(
        &rt,
        &first_users(&styles, 1),
        &[Some(OBJECT), Some(other), Some(OBJECT)],
    );
    same(&rt, &first_users(&styles, 2), &[Some(other), None, None]);

    same(
        &rt,
        &styles.remove_style(other, 1, on(Part::Main, 0)),
        &Ok(()),
    );
    same(
        &rt,
        &first_users(&styles, 1),
        &[Some(OBJECT), Some(OBJECT), None],
    );
    styles.forget(OBJECT);
    same(&rt, &first_users(&styles, 1), &[None; 3]);
    same(&rt, &first_users(&styles, 2), &[Some(other), None, None]);
}

#[test]
fn the_last_slot_of_each_pool(rt: HostRuntime) {
    let mut styles = opened(&rt, rt.alloc(), 1);
    let main = on(Part::Main, 0);
    let answers = [
        styles.style(999),
        styles.style(999),
        styles.style(1),
        styles.style_prop(1, Prop::PadTop, 1),
        styles.style_prop(999, Prop::PadTop, 1),
        // A value is replaced in its slot.
        styles.style_prop(999, Prop::PadTop, 2),
        styles.set_local(OBJECT, main, Prop::PadTop, 3),
    ];
    same(
        &rt,
        &answers,
        &[
            Ok(()),
            Err(Refusal::Taken),
            Err(Refusal::Full(Pool::Styles)),
            Err(Refusal::Unknown),
            Ok(()),
            Ok(()),
            Err(Refusal::Full(Pool::Entries)),
        ],
    );
    let answers = [
        styles.add_style(OBJECT, 1, main),
        styles.add_style(OBJECT, 999, main),
        styles.add_style(OBJECT, 999, main),
        styles.add_style(OBJECT, 999, on(Part::Knob, 0)),
    ];
    same(
        &rt,
        &answers,
        &[
            Err(Refusal::Unknown),
            Ok(()),
            Err(Refusal::Taken),
            Err(Refusal::Full(Pool::Uses)),
        ],
    );
    same(&rt, &spare(&styles), &[0, 0, 0]);
}

#[test]
fn what_is_removed_gives_its_slot_back(rt: HostRuntime) {
    let mut styles = opened(&rt, rt.alloc(), 2);
    let main = on(Part::Main, 0);
    let answers = [
        styles.style(1),
        styles.style_prop(1, Prop::PadTop, 1),
        styles.set_local(OBJECT, main, Prop::PadTop, 2),
        styles.add_style(OBJECT, 1, main),
    ];
    same(&rt, &answers, &[Ok(()); 4]);
    same(&rt, &spare(&styles), &[1, 0, 1]);
    styles.forget(OBJECT);
    same(&rt, &spare(&styles), &[1, 1, 2]);
    same(
        &rt,
        &styles.lookup(OBJECT, Part::Main, 0, Prop::PadTop),
        &None,
    );
    let answers = [
        styles.unset_local(OBJECT, main, Prop::PadTop),
        styles.remove_style(OBJECT, 1, main),
        styles.unset_prop(1, Prop::PadTop),
        styles.unset_prop(1, Prop::PadTop),
    ];
    same(
        &rt,
        &answers,
        &[
            Err(Refusal::Unknown),
            Err(Refusal::Unknown),
            Ok(()),
            Err(Refusal::Unknown),
        ],
    );
    same(
        &rt,
        &(styles.has_style(1), styles.has_style(2)),
        &(true, false),
    );
    same(&rt, &spare(&styles), &[1, 2, 2]);
}
