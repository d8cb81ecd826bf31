//! The members of focus groups in turn.
ghost use Rattle.std.specs.Prelude.{◌≡◌, ◌&&◌, ◌++◌, Bool, reverse, find, position};
ghost use Rattle.gui_base.specs.declared.Handle.{Handle as Object};
ghost use Rattle.play_defs.specs.Focus.{is_member, is_object, members_of, turned};

use gui_base::Handle;
use play_defs::Member;

/// The first of some members that is in a group and usable.
pub fn first_usable<U: Fn(Handle) -> bool>(members: &[Member], id: u8, usable: &U) -> Option<Handle>
    requires { U.IsAlwaysCallable usable.now }
    ensures { (test : Object → Bool) → ((h : Object) (r : Bool) → U.post usable.now h r → r ≡ test h) →
        result ≡ find test (members_of id members.now) }
{
    'members: for member in members {
        if member.group == id && usable(member.h) {
            return Some(member.h);
        }
    }
    None
}

/// The last of some members that is in a group and usable.
pub fn last_usable<U: Fn(Handle) -> bool>(members: &[Member], id: u8, usable: &U) -> Option<Handle>
    requires { U.IsAlwaysCallable usable.now }
    ensures { (test : Object → Bool) → ((h : Object) (r : Bool) → U.post usable.now h r → r ≡ test h) →
        result ≡ find test (reverse (members_of id members.now)) }
{
    let mut rest = members;
    'rest: while let Some((member, others)) = rest.split_last() {
        if member.group == id && usable(member.h) {
            return Some(member.h);
        }
        rest = others;
    }
    None
}

/// Where an object stands that is a member of a group.
fn place_of(members: &[Member], id: u8, h: Handle) -> Option<usize>
    ensures { result ≡ position (λ member. is_member id member && is_object h member) members.now }
{
    members
        .iter()
        .position(|member| member.group == id && member.h == h)
}

/// The members before the one that has the focus of a group, and those after it. If none has it, all stand
/// before.
pub fn around(members: &[Member], id: u8, focused: Option<Handle>) -> (&[Member], &[Member])
    ensures { turned focused (members_of id members.now)
        ≡ members_of id result.1.now ++ members_of id result.0.now }
{
    let Some(h) = focused else {
        return members.split_at(members.len());
    };
    match place_of(members, id, h) {
        None => members.split_at(members.len()),
        Some(place) => (members.split_at(place).0, members.split_at(place + 1).1),
    }
}
