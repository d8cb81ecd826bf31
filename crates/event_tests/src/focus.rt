//! Focus groups: the order of focus, and their last slots.
use crate::checks::same;
use gui_base::{Handle, Pool, Refusal};
use gui_event::Groups;

/// Joins a group if there is room.
fn join(groups: &mut Groups, id: u8, h: u16) -> Result<(), Refusal> {
    if groups.spare_members() == 0 {
        return Err(Refusal::Long);
    }
    groups.join(id, Handle(h))
}

/// The member to which the focus of group 1 moves, if one object is not usable.
fn moves(groups: &Groups, forwards: bool, unusable: u16) -> Option<u16> {
    let next = if forwards {
        groups.focus_next(1, |h| h.0 != unusable)
    } else {
        groups.focus_prev(1, |h| h.0 != unusable)
    };
    Some(next?.0)
}

#[test]
fn focus_moves_past_unusable_members(rt: HostRuntime) {
    let mut groups = Groups::open(rt.alloc(), 2, 4).expect(&rt, "no memory");
    let answers = [
        groups.group(1),
        groups.group(2),
        groups.group(1),
        groups.group(3),
        join(&mut groups, 1, 10),
        join(&mut groups, 1, 11),
        join(&mut groups, 2, 13),
        join(&mut groups, 3, 12),
        join(&mut groups, 2, 11),
        join(&mut groups, 1, 12),
    ];
    same(
        &rt,
        &answers,
        &[
            Ok(()),
            Ok(()),
            Err(Refusal::Taken),
            Err(Refusal::Full(Pool::Groups)),
            Ok(()),
            Ok(()),
            Ok(()),
            Err(Refusal::Unknown),
            Err(Refusal::Taken),
            Ok(()),
        ],
    );
    same(&rt, &groups.spare_members(), &0);
    let first = [moves(&groups, true, 10), moves(&groups, false, 12)];
    same(&rt, &first, &[Some(11), Some(11)]);
    groups.set_focused(1, Some(Handle(12)));
    groups.set_editing(1, true);
    let next = [moves(&groups, true, 10), moves(&groups, false, 11)];
    same(&rt, &next, &[Some(11), Some(10)]);
    same(&rt, &groups.focus_next(1, |h| h.0 == 12), &None);
}

/// Whether group 1 is edited, and which of its members has focus.
fn state(groups: &Groups) -> (bool, Option<Handle>) {
    (groups.editing(1), groups.focused(1))
}

#[test]
fn a_member_that_leaves_takes_focus_and_editing_along(rt: HostRuntime) {
    let mut groups = Groups::open(rt.alloc(), 1, 2).expect(&rt, "no memory");
    let answers = [
        groups.group(1),
        join(&mut groups, 1, 10),
        join(&mut groups, 1, 11),
    ];
    same(&rt, &answers, &[Ok(()); 3]);
    groups.set_focused(1, Some(Handle(11)));
    groups.set_editing(1, true);
    same(&rt, &groups.leave(Handle(10)), &Ok(()));
    same(&rt, &state(&groups), &(true, Some(Handle(11))));
    same(&rt, &groups.leave(Handle(11)), &Ok(()));
    same(&rt, &state(&groups), &(false, None));
    same(&rt, &groups.leave(Handle(11)), &Err(Refusal::Place));
    same(&rt, &groups.group_of(Handle(11)), &None);
    same(&rt, &[groups.has(1), groups.has(2)], &[true, false]);
}
