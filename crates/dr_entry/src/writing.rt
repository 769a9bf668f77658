ghost use Rattle.std.specs.{Int.{w32, to_be_bytes}, List.flat_map, Prelude.{◌≡◌, ◌≤◌, ◌+◌, ◌*◌, ◌++◌, [], length}};
ghost use Rattle.dr_entry.specs.Spelling.{IsValid, IsValidEntry, IsValidVote, Fits, FitsEntry, FitsVote, entry_spelling, spelling, vote_spelling};

use crate::record::{AGE_VOTE, CUT, MESSAGE, UPGRADE, VIEW, VOTE};
use crate::{Entry, Record, Vote};
use arrayvec::ArrayVec;

/// The room that [`encode`] wants: that of the longest record, and some for what is put behind it.
pub const RECORD_ROOM: usize = 96;

/// The greatest number of bytes of a record.
pub const MAX_RECORD: usize = 72;

/// Writes the one spelling of a valid record in the place of what stood there.
pub fn encode(r: &Record, into: &mut ArrayVec<u8, RECORD_ROOM>)
    requires { IsValid r.now }
    ensures spelled { into.new.items ≡ spelling r.now }
    ensures short { length into.new.items ≤ MAX_RECORD }
    // The premise of the laws on spellings, which range over all numbers.
    ensures fits { Fits r.now }
{
    into.clear();
    match r {
        Record::Entry(entry) => encode_entry(entry, into),
        Record::Vote(vote) => put_vote(into, vote),
        Record::AgeVote(vote) => {
            into.push(AGE_VOTE);
            put(into, &vote.age.to_be_bytes());
            put(into, &vote.members.to_be_bytes());
        }
        Record::Cut { keep } => {
            into.push(CUT);
            put(into, &keep.to_be_bytes());
        }
        Record::Upgrade => into.push(UPGRADE),
    }
}

/// Writes the one spelling of the record of a valid entry in the place of what stood there.
pub fn encode_entry(entry: &Entry, into: &mut ArrayVec<u8, RECORD_ROOM>)
    requires valid { IsValidEntry entry.now }
    ensures spelled { into.new.items ≡ entry_spelling entry.now }
    ensures short { length into.new.items ≤ MAX_RECORD }
    ensures fits { FitsEntry entry.now }
{
    into.clear();
    match entry {
        Entry::View {
            age,
            number,
            members,
        } => {
            into.push(VIEW);
            put(into, &age.to_be_bytes());
            into.push(*number);
            put(into, &members.to_be_bytes());
        }
        Entry::Msg {
            sender,
            index,
            bytes,
        } => {
            into.push(MESSAGE);
            into.push(*sender);
            put(into, &index.to_be_bytes());
            into.push(bytes.bytes().len() as u8);
            put(into, bytes.bytes());
        }
    }
}

fn put_vote(into: &mut ArrayVec<u8, RECORD_ROOM>, vote: &Vote)
    requires empty { into.old.items ≡ [] }
    requires valid { IsValidVote vote.now }
    ensures spelled { into.new.items ≡ vote_spelling vote.now }
    ensures short { length into.new.items ≤ MAX_RECORD }
    ensures fits { FitsVote vote.now }
{
    let trim = vote.value.trim.as_slice();
    into.push(VOTE);
    put(into, &vote.age.to_be_bytes());
    into.push(vote.view);
    into.push(vote.ballot);
    put(into, &vote.value.leavers.to_be_bytes());
    into.push(vote.members);
    put_counts(into, &trim[..usize::from(vote.members)]);
}

fn put(into: &mut ArrayVec<u8, RECORD_ROOM>, bytes: &[u8])
    requires { length into.old.items + length bytes.now ≤ RECORD_ROOM }
    ensures { into.new.items ≡ into.old.items ++ bytes.now }
{
    into.try_extend_from_slice(bytes).unwrap();
}

fn put_counts(into: &mut ArrayVec<u8, RECORD_ROOM>, counts: &[u32])
    requires { length into.old.items + 4 * length counts.now ≤ RECORD_ROOM }
    ensures { into.new.items ≡ into.old.items ++ flat_map (to_be_bytes w32) counts.now }
{
    for count in counts {
        put(into, &count.to_be_bytes());
    }
}
