ghost use Rattle.std.specs.Prelude.{◌≡◌, ◌≤◌, ◌↔◌, length, IsTrue};
ghost use Rattle.dr_history.specs.History.{view_of};

use crate::members::members_of;
use arrayvec::ArrayVec;
use dr_entry::{Entry, MAX_MEMBERS};
use std::marker::Model;

/// A view of the group: its age, its number within the age, and its members, ascending.
#[derive(Debug, Drop)]
pub struct GroupView {
    age: u16,
    number: u8,
    members: ArrayVec<u8, MAX_MEMBERS>,
}

impl Model for GroupView {
    ghost use Rattle.dr_history.specs.History.{GroupView};

    ghost Value = { GroupView };

    ghost view = { λ v. record { age = v.age; number = v.number; members = v.members.items } };
}

impl GroupView {
    ghost use Rattle.dr_history.specs.Members.{members_of};
    ghost use Rattle.dr_history.specs.Order.{ContinuesAge};

    /// The view with this age and number and the members of this mask.
    pub fn new(age: u16, number: u8, members: u16) -> GroupView
        ensures { result ≡ record { age = age; number = number; members = members_of members } }
    {
        GroupView {
            age,
            number,
            members: members_of(members),
        }
    }

    /// The age of the view.
    pub fn age(&self) -> u16
        ensures { result ≡ self.now.age }
    {
        self.age
    }

    /// The number of the view within its age.
    pub fn number(&self) -> u8
        ensures { result ≡ self.now.number }
    {
        self.number
    }

    /// The members, ascending. They are at most [`MAX_MEMBERS`].
    pub fn members(&self) -> &[u8]
        ensures same { result.now ≡ self.now.members }
        ensures few { length result.now ≤ MAX_MEMBERS }
    {
        self.members.as_slice()
    }

    /// Whether both are one view.
    pub fn is_same(&self, other: &GroupView) -> bool
        ensures { IsTrue result ↔ (self.now ≡ other.now) }
    {
        self.age == other.age
            && self.number == other.number
            && self.members.as_slice() == other.members.as_slice()
    }

    /// Whether a View of this age and number, with the members of this mask, goes on in the view's age.
    pub fn may_be_followed_by(&self, age: u16, number: u8, members: u16) -> bool
        ensures { IsTrue result ↔ ContinuesAge self.now age number members }
    {
        if age != self.age || u16::from(number) != u16::from(self.number) + 1 {
            return false;
        }
        members_of(members).as_slice() != self.members.as_slice()
    }
}

/// The view that a history is in: that of its last View.
pub fn view_of(history: &[Entry]) -> Option<GroupView>
    ensures { result ≡ view_of history.now }
{
    let mut view = None;
    for entry in history {
        if let Entry::View {
            age,
            number,
            members,
        } = entry
        {
            view = Some(GroupView::new(*age, *number, *members));
        }
    }
    view
}
