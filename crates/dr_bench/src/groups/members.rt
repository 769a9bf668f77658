ghost use Rattle.std.specs.Prelude.{◌≡◌, ℕ, ◌+◌, ◌<◌, ◌≤◌, [], All, IfOk, length, slice_index_or};
ghost use Rattle.dr_script.specs.{Ranges.HasRanges, declared.script.{Fault.Fault, What.TheVariants.Suspect}};
ghost use Rattle.dr_bench.specs.Groups.{IsBounded, first_suspected};

use crate::groups::first::start_with;
use dr_disk::CalmDisk;
use dr_entry::{AgeEnd, Entry, MAX_MESSAGE_LENGTH, MemberEnd, Message, Seq, Vote};
use dr_fresh::logs_of;
use dr_log::Log;
use dr_script::{Fault, Schedule, Script, What};
use dr_sim::sim_age;
use std::alloc::{AllocError, Global};

/// The most members of a group, and the slots of a ring.
pub const MEMBERS: u8 = 16;

const WINDOW: u8 = 8;

/// The most turns that a member may take: so many that none comes to them.
pub const TURNS: u32 = 1_000_000;

/// The most messages that a member may have.
const MOST_MESSAGES: u32 = 4096;

/// The letters in their order, again and again: so many that each may be the first of a message.
const LETTERS: &[u8] =
    b"abcdefghijklmnopqrstuvwxyzabcdefghijklmnopqrstuvwxyzabcdefghijklmnopqrstuvwxyzabcdefghijk";

/// What came of a run: how many entries all histories have, and a number made of how the members ended
/// and of their votes.
#[derive(Clone, Copy, Debug, PartialEq, Eq)]
pub struct Tally {
    pub count: u64,
    pub checksum: u64,
}

/// A group to run.
#[derive(Clone, Copy, Debug, PartialEq, Eq)]
pub struct Group {
    pub schedule: Schedule,
    pub members: u8,
    /// How many members have messages, the first ones, and how many each of these.
    pub senders: u8,
    pub messages: u32,
    /// The bytes of a message.
    pub size: usize,
    /// How many members, the last ones, member 0 suspects, or wishes for where they are late, and in which turn.
    pub suspected: u8,
    pub from: u32,
    /// The most turns of each member.
    pub turns: u32,
    /// How many members, the last ones, are late.
    pub late: u8,
}

/// Runs a group from its opening to the ends of all members, over logs in memory.
#[inline(never)]
pub fn members(alloc: Global, group: Group) -> Result<Tally, AllocError> {
    let group = bounded(group);
    let script = script_of(alloc, group)?;
    let start = start_with(alloc, &script, group.late);
    let mut logs = logs_of(alloc, &script, &start)?;
    let age = sim_age(alloc, &script, &start, 0, logs.as_mut_slice())?;
    Ok(tally_of(&age, &logs))
}

/// The group within the bounds of a script, in which those that aren't suspected are a majority, and somebody
/// isn't late.
pub fn bounded(group: Group) -> Group
    ensures { IsBounded result }
{
    let members = group.members.max(1).min(MEMBERS);
    let turns = group.turns.max(1).min(TURNS);
    Group {
        members,
        messages: group.messages.min(MOST_MESSAGES),
        size: group.size.min(MAX_MESSAGE_LENGTH),
        suspected: group.suspected.min((members - 1) / 2),
        from: group.from.max(1).min(turns),
        turns,
        late: group.late.min(members - 1),
        ..group
    }
}

/// The script of such a group.
pub fn script_of(alloc: Global, group: Group) -> Result<Script, AllocError>
    requires { IsBounded group }
    ensures ranges { IfOk result HasRanges }
    ensures members { IfOk result (λ script. script.members ≡ group.members) }
{
    Ok(Script {
        members: group.members,
        window: WINDOW,
        turns: group.turns,
        patience: 0,
        ages: 1,
        messages: Seq::of(lists_of(alloc, group)?),
        faults: Seq::of(faults_of(alloc, group)?),
        schedule: group.schedule,
    })
}

/// The suspicions of member 0, ascending.
fn faults_of(alloc: Global, group: Group) -> Result<Vec<Fault>, AllocError>
    requires { IsBounded group }
    ensures count { IfOk result (λ faults. length faults.items ≡ group.suspected) }
    ensures each { IfOk result (λ faults. (k : ℕ) (d : Fault) → k < group.suspected
        → slice_index_or faults.items k d
        ≡ record { age = 0; member = 0; what = Suspect group.from (first_suspected group + k) }) }
{
    let mut faults = Vec::with_capacity(alloc, usize::from(group.suspected))?;
    for k in 0..group.suspected {
        faults.push(Fault {
            age: 0,
            member: 0,
            what: What::Suspect {
                turn: group.from,
                other: group.members - group.suspected + k,
            },
        })?;
    }
    Ok(faults)
}

/// The messages of all members.
fn lists_of(alloc: Global, group: Group) -> Result<Vec<Seq<Message>>, AllocError>
    requires { IsBounded group }
    ensures count { IfOk result (λ lists. length lists.items ≡ group.members) }
    ensures senders { IfOk result (λ lists. (m : ℕ) → m < group.members → m < group.senders
        → length (slice_index_or lists.items m []) ≡ group.messages) }
    ensures others { IfOk result (λ lists. (m : ℕ) → m < group.members → group.senders ≤ m
        → length (slice_index_or lists.items m []) ≡ 0) }
    ensures few { IfOk result (λ lists. All (λ list. length list ≤ 4096) lists.items) }
    ensures short { IfOk result (λ lists. All (All (λ bytes. length bytes ≤ 64)) lists.items) }
    ensures bytes { IfOk result (λ lists. All (All (All (λ byte. byte < 256))) lists.items) }
{
    let mut lists = Vec::with_capacity(alloc, usize::from(group.members))?;
    for me in 0..group.members {
        let count = if me < group.senders {
            group.messages
        } else {
            0
        };
        lists.push(Seq::of(messages_of(alloc, me, count, group.size)?))?;
    }
    Ok(lists)
}

/// The messages of one member.
fn messages_of(
    alloc: Global,
    me: u8,
    messages: u32,
    size: usize,
) -> Result<Vec<Message>, AllocError>
    requires { size ≤ 64 }
    ensures count { IfOk result (λ list. length list.items ≡ messages) }
    ensures short { IfOk result (λ list. All (λ bytes. length bytes ≤ 64) list.items) }
    ensures bytes { IfOk result (λ list. All (All (λ byte. byte < 256)) list.items) }
{
    let mut list = Vec::with_capacity(alloc, messages as usize)?;
    for index in 0..messages {
        list.push(numbered(me, index, size))?;
    }
    Ok(list)
}

/// The message of a member with this index: letters that follow one another, from another one on each
/// time.
fn numbered(me: u8, index: u32, size: usize) -> Message
    requires { size ≤ 64 }
    ensures short { length result ≤ 64 }
    ensures bytes { All (λ byte. byte < 256) result }
{
    let first = ((31 * u32::from(me) + 7 * (index % 26)) % 26) as usize;
    message_of(&LETTERS[first..first + size])
}

/// The message of these bytes.
fn message_of(bytes: &[u8]) -> Message
    requires { length bytes.now ≤ 64 }
    ensures short { length result ≤ 64 }
    ensures bytes { All (λ byte. byte < 256) result }
{
    Message::of(bytes).unwrap()
}

/// The entries of all histories, and a number made of how all members ended, and of their logs.
fn tally_of(age: &AgeEnd, logs: &[Option<Log<CalmDisk>>]) -> Tally {
    let mut tally = Tally {
        count: 0,
        checksum: 0,
    };
    for (member, place) in age.members.as_slice().iter().zip(logs) {
        let entries = member.history.as_slice();
        tally.count = tally.count.wrapping_add(entries.len() as u64);
        tally.checksum = mixed_member(tally.checksum, member);
        if let Some(log) = place {
            for vote in log.votes() {
                tally.checksum = mixed_vote(tally.checksum, vote);
            }
        }
    }
    tally
}

fn mixed_member(sum: u64, member: &MemberEnd) -> u64 {
    let entries = member.history.as_slice();
    let mut sum = mixed(sum, entries.len() as u64);
    sum = mixed(sum, member.logged);
    sum = mixed(sum, member.durable);
    sum = mixed(sum, u64::from(member.turns));
    for entry in entries {
        sum = mixed_entry(sum, entry);
    }
    sum
}

/// A message counts by its sender, its index, its length and its first byte.
fn mixed_entry(sum: u64, entry: &Entry) -> u64 {
    match entry {
        Entry::View { members, .. } => mixed(sum, u64::from(*members)),
        Entry::Msg {
            sender,
            index,
            bytes,
        } => {
            let bytes = bytes.bytes();
            let sum = mixed(mixed(sum, u64::from(*sender)), u64::from(*index));
            let sum = mixed(sum, bytes.len() as u64);
            mixed(sum, bytes.first().map_or(0, |byte| u64::from(*byte)))
        }
    }
}

/// A vote counts by its ballot, its leavers and its trims.
fn mixed_vote(sum: u64, vote: &Vote) -> u64 {
    let mut sum = mixed(sum, u64::from(vote.ballot));
    sum = mixed(sum, u64::from(vote.value.leavers));
    for count in vote.value.trim {
        sum = mixed(sum, u64::from(count));
    }
    sum
}

/// A number made of numbers, in their order.
pub fn mixed(sum: u64, word: u64) -> u64 {
    sum.wrapping_mul(31).wrapping_add(word)
}
