//! The ends of the members of an age.
ghost use Rattle.std.specs.Prelude.{◌≡◌, ◌≤◌, IsTrue, All, [], length, map, vec_capacity};
ghost use Rattle.dr_program.specs.Program.{absent_end, end_at, has_ended};

use dr_entry::{End, MemberEnd, Seq};
use dr_member::Member;
use std::alloc::Global;

/// How whoever is absent ended.
fn absent_end(alloc: Global) -> MemberEnd
    ensures { result ≡ absent_end }
{
    MemberEnd {
        end: End::Absent,
        turns: 0,
        sent: Seq::of(Vec::new(alloc)),
        history: Seq::of(Vec::new(alloc)),
        logged: 0,
        durable: 0,
    }
}

/// How these members ended, by number, in a list that has room for them; a place without a member is that of one
/// that is absent.
pub fn ends_of(
    alloc: Global,
    members: Vec<Option<Member>>,
    mut ends: Vec<MemberEnd>,
) -> Vec<MemberEnd>
    requires ended { All (λ place. IsTrue (has_ended place)) members.items }
    requires none { ends.items ≡ [] }
    requires room { length members.items ≤ vec_capacity ends }
    ensures { result.items ≡ map end_at members.items }
{
    for place in members {
        let end = match place {
            Some(member) => member.into_end(),
            None => absent_end(alloc),
        };
        ends.push(end).unwrap();
    }
    ends
}
