//! Focus groups.
ghost use Rattle.std.specs.Prelude.{◌≡◌, ◌+◌, ◌<◌, ◌==◌, Bool, [], length, map, filter, not, find, is_some};
ghost use Rattle.std.specs.Prelude.{if◌then◌else◌, option_map, IfOk, OnOk, OnErr};
ghost use Rattle.gui_base.specs.declared.Handle.{Handle as Object};
ghost use Rattle.play_defs.specs.Focus.{no_groups, group_at, has_group, group_of, focused_in, is_editing};
ghost use Rattle.play_defs.specs.Focus.{is_object, in_place_of, released_by, next_member, previous_member};
ghost use Rattle.gui_event.specs.Groups.{spare, group_answer, with_group, join_answer, joined};
ghost use Rattle.gui_event.specs.Groups.{leave_answer, left, with_focused, with_editing, with_put};
ghost use Rattle.gui_event.specs.Groups.{with_released, without_member};

use crate::members::{around, first_usable, last_usable};
use gui_base::{Handle, NoMemory, Pool, Refusal};
use play_defs::{Group, Member};
use std::alloc::Global;
use std::marker::Model;

/// Focus groups and their members. An object is in one group at most.
///
/// A contract sees the groups in the order of making, the members of all groups in the order of joining, and
/// how many groups and members fit in all. A call takes time in proportion to the number of groups and members.
#[derive(Drop)]
pub struct Groups {
    groups: Vec<Group>,
    // Of all groups, in the order of joining.
    members: Vec<Member>,
    size: u32,
    objects: u32,
}

impl Model for Groups {
    ghost use Rattle.gui_event.specs.Groups.{FocusGroups};

    ghost Value = { FocusGroups };

    ghost use Rattle.std.specs.Prelude.{length, vec_capacity};
    ghost use Rattle.gui_event.specs.Kept.{groups_in, HasRoom};

    ghost view = { λ s. groups_in s.groups.items s.members.items s.size s.objects };

    ghost invariant = { λ s. HasRoom (length s.groups.items) s.size (vec_capacity s.groups)
        × HasRoom (length s.members.items) s.objects (vec_capacity s.members) };
}

/// The group of a number.
fn group_in(groups: &[Group], id: u8) -> Option<Group>
    ensures { result ≡ find (λ group. group.id == id) groups.now }
{
    groups.iter().copied().find(|group| group.id == id)
}

/// One group in place of another of the same number, which otherwise stays.
fn in_place_of(other: Group, group: Group) -> Group
    ensures { result ≡ in_place_of group other }
{
    if other.id == group.id { group } else { other }
}

/// Puts a group in place of the one of its number.
fn put_in(groups: &mut [Group], group: Group)
    ensures { groups.new ≡ map (in_place_of group) groups.old }
{
    'groups: for other in groups.iter_mut() {
        *other = in_place_of(*other, group);
    }
}

/// The member that an object is.
fn member_in(members: &[Member], h: Handle) -> Option<Member>
    ensures { result ≡ find (is_object h) members.now }
{
    members.iter().copied().find(|member| member.h == h)
}

/// A group in which an object has the focus no more.
fn released_by(h: Handle, group: Group) -> Group
    ensures { result ≡ released_by h group }
{
    match group.focused {
        Some(k) if k == h => Group {
            focused: None,
            editing: false,
            ..group
        },
        _ => group,
    }
}

impl Groups {
    /// No groups, and room for so many groups, and for so many members in all. `NoMemory` if there is no memory
    /// for them. No later call takes memory.
    pub fn open(alloc: Global, groups: u32, objects: u32) -> Result<Groups, NoMemory>
        ensures none { IfOk result (λ s. s.all ≡ no_groups) }
        ensures size { IfOk result (λ s. s.size ≡ groups) }
        ensures objects { IfOk result (λ s. s.objects ≡ objects) }
    {
        let size = groups;
        let Ok(groups) = Vec::with_capacity(alloc, size as usize) else {
            return Err(NoMemory);
        };
        let Ok(members) = Vec::with_capacity(alloc, objects as usize) else {
            return Err(NoMemory);
        };
        Ok(Groups {
            groups,
            members,
            size,
            objects,
        })
    }

    /// How many more groups fit.
    pub fn spare(&self) -> u32
        ensures value { result ≡ spare self.now }
        ensures sum { length self.now.all.groups + result ≡ self.now.size }
    {
        self.size - self.groups.len() as u32
    }

    /// How many more members fit.
    pub fn spare_members(&self) -> u32
        ensures { length self.now.all.members + result ≡ self.now.objects }
    {
        self.objects - self.members.len() as u32
    }

    /// The group of a number.
    fn at(&self, id: u8) -> Option<Group>
        ensures { result ≡ group_at self.now.all id }
    {
        group_in(&self.groups, id)
    }

    /// Puts a group in place of the one of its number.
    fn put(&mut self, group: Group)
        ensures { self.new ≡ with_put self.old group }
    {
        put_in(&mut self.groups, group);
    }

    /// Makes a group without members.
    ///
    /// # Errors
    ///
    /// `Taken` if the group is there, and then `Full` of groups if no more fit. All is then as before.
    pub fn group(&mut self, id: u8) -> Result<(), Refusal>
        ensures answer { result ≡ group_answer self.old id }
        ensures ok { OnOk result (self.new ≡ with_group self.old id) }
        ensures refused { OnErr result (self.new ≡ self.old) }
    {
        if self.has(id) {
            return Err(Refusal::Taken);
        }
        if self.spare() == 0 {
            return Err(Refusal::Full(Pool::Groups));
        }
        self.groups.push_reserved(Group {
            id,
            focused: None,
            editing: false,
        });
        Ok(())
    }

    /// Makes an object the last member of a group. There must be room for a member more, as
    /// [`Groups::spare_members`] tells.
    ///
    /// # Errors
    ///
    /// `Unknown` if there is no such group, and then `Taken` if the object is in a group. All is then as
    /// before.
    pub fn join(&mut self, id: u8, h: Handle) -> Result<(), Refusal>
        requires { length self.old.all.members < self.old.objects }
        ensures answer { result ≡ join_answer self.old id h }
        ensures ok { OnOk result (self.new ≡ joined self.old id h) }
        ensures refused { OnErr result (self.new ≡ self.old) }
    {
        if !self.has(id) {
            return Err(Refusal::Unknown);
        }
        if self.group_of(h).is_some() {
            return Err(Refusal::Taken);
        }
        self.members.push_reserved(Member { group: id, h });
        Ok(())
    }

    /// Takes the focus of a group from an object, if it has it.
    fn release(&mut self, id: u8, h: Handle)
        ensures { self.new ≡ with_released self.old id h }
    {
        if let Some(group) = self.at(id) {
            self.put(released_by(h, group));
        }
    }

    /// Drops a member.
    fn drop_member(&mut self, h: Handle)
        ensures { self.new ≡ without_member self.old h }
    {
        self.members.retain(|member| member.h != h);
    }

    /// Takes an object out of its group. If it had the focus, no member has it then, and the group is not
    /// editing.
    ///
    /// # Errors
    ///
    /// `Place` if the object is in no group. All is then as before.
    pub fn leave(&mut self, h: Handle) -> Result<(), Refusal>
        ensures answer { result ≡ leave_answer self.old h }
        ensures ok { OnOk result (self.new ≡ left self.old h) }
        ensures refused { OnErr result (self.new ≡ self.old) }
    {
        let Some(id) = self.group_of(h) else {
            return Err(Refusal::Place);
        };
        self.release(id, h);
        self.drop_member(h);
        Ok(())
    }

    /// Whether a group is there.
    pub fn has(&self, id: u8) -> bool
        ensures { result ≡ has_group self.now.all id }
    {
        self.at(id).is_some()
    }

    /// The group that an object is in: `None` exactly if it is in none.
    pub fn group_of(&self, h: Handle) -> Option<u8>
        ensures { result ≡ group_of self.now.all h }
    {
        match member_in(&self.members, h) {
            None => None,
            Some(member) => Some(member.group),
        }
    }

    /// The member that has the focus of a group: `None` exactly if there is no such group or no member has it.
    pub fn focused(&self, id: u8) -> Option<Handle>
        ensures { result ≡ focused_in (group_at self.now.all id) }
    {
        self.at(id)?.focused
    }

    /// Gives the focus of a group to a member, or to none. Nothing changes if there is no such group.
    pub fn set_focused(&mut self, id: u8, h: Option<Handle>)
        ensures { self.new ≡ with_focused self.old id h }
    {
        if let Some(group) = self.at(id) {
            self.put(Group {
                focused: h,
                ..group
            });
        }
    }

    /// Whether a group is there and editing.
    pub fn editing(&self, id: u8) -> bool
        ensures { result ≡ is_editing (group_at self.now.all id) }
    {
        match self.at(id) {
            None => false,
            Some(group) => group.editing,
        }
    }

    /// Begins or ends editing in a group. Nothing changes if there is no such group.
    pub fn set_editing(&mut self, id: u8, on: bool)
        ensures { self.new ≡ with_editing self.old id on }
    {
        if let Some(group) = self.at(id) {
            self.put(Group {
                editing: on,
                ..group
            });
        }
    }

    /// The member of a group to which the focus moves forwards: the first usable one after the focused member,
    /// and then from the first member on. `None` exactly if no other member is usable.
    pub fn focus_next<U: Fn(Handle) -> bool>(&self, id: u8, usable: U) -> Option<Handle>
        requires { U.IsAlwaysCallable usable }
        ensures { (test : Object → Bool) → ((h : Object) (r : Bool) → U.post usable h r → r ≡ test h) →
            result ≡ next_member test self.now.all id }
    {
        let (before, after) = around(&self.members, id, self.focused(id));
        match first_usable(after, id, &usable) {
            Some(h) => Some(h),
            None => first_usable(before, id, &usable),
        }
    }

    /// The member of a group to which the focus moves backwards: the last usable one before the focused member,
    /// and then from the last member on. `None` exactly if no other member is usable.
    pub fn focus_prev<U: Fn(Handle) -> bool>(&self, id: u8, usable: U) -> Option<Handle>
        requires { U.IsAlwaysCallable usable }
        ensures { (test : Object → Bool) → ((h : Object) (r : Bool) → U.post usable h r → r ≡ test h) →
            result ≡ previous_member test self.now.all id }
    {
        let (before, after) = around(&self.members, id, self.focused(id));
        match last_usable(before, id, &usable) {
            Some(h) => Some(h),
            None => last_usable(after, id, &usable),
        }
    }
}
