//! What came of a run in threads.

use crate::groups::members::mixed;
use dr_entry::{AgeEnd, End, Entry, MemberEnd};

/// How many members ended as done, how many have the history of the first one, how many entries all
/// histories have, and a number made of them in whatever order they are.
#[derive(Clone, Copy, Debug, PartialEq, Eq)]
pub struct Ends {
    pub done: u64,
    pub agreed: u64,
    pub entries: u64,
    pub checksum: u64,
}

/// What came of an age.
pub fn ends_of(age: &AgeEnd) -> Ends {
    let mut ends = Ends {
        done: 0,
        agreed: 0,
        entries: 0,
        checksum: 0,
    };
    let members = age.members.as_slice();
    for member in members {
        let is_done = matches!(member.end, End::Done);
        let has_agreed = member.history == members[0].history;
        ends.done = ends.done.wrapping_add(u64::from(is_done));
        ends.agreed = ends.agreed.wrapping_add(u64::from(has_agreed));
        let count = member.history.as_slice().len() as u64;
        ends.entries = ends.entries.wrapping_add(count);
        ends.checksum = ends.checksum.wrapping_add(number_of_member(member));
    }
    ends
}

fn number_of_member(member: &MemberEnd) -> u64 {
    let mut sum = mixed(member.logged, member.durable);
    for entry in member.history.as_slice() {
        sum = sum.wrapping_add(number_of(entry));
    }
    sum
}

/// A View counts by its members, a message by its sender, its index, its length and its first byte.
fn number_of(entry: &Entry) -> u64 {
    match entry {
        Entry::View { members, .. } => u64::from(*members),
        Entry::Msg {
            sender,
            index,
            bytes,
        } => {
            let bytes = bytes.bytes();
            let sum = mixed(u64::from(*sender), u64::from(*index));
            let sum = mixed(sum, bytes.len() as u64);
            mixed(sum, bytes.first().map_or(0, |byte| u64::from(*byte)))
        }
    }
}
