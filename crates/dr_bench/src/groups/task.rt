//! What the program was told to do.
use crate::groups::members::{Group, MEMBERS, TURNS};
use dr_entry::MAX_MESSAGE_LENGTH;
use dr_script::Schedule;

/// The seed of seeded groups.
const SEED: u64 = 7;

/// The turn in which member 0 suspects or wishes for others, where no word tells it.
const FROM: u32 = 2;

/// Who takes the members' deeds, and what a thread does between turns.
#[derive(Clone, Copy, Debug, PartialEq, Eq)]
pub enum Mode {
    /// One thread for all members, which take their turns one after another.
    Sim,
    /// A thread for each member, which goes on at once after each turn.
    Free,
    /// The same, but it spins between turns.
    Spin,
    /// The same, but it spins as long, and then yields its processor.
    Yield,
}

/// A group to run, and how.
#[derive(Clone, Copy, Debug, PartialEq, Eq)]
pub enum Task {
    /// By its schedule, which is to be tallied with its votes.
    Scheduled(Group),
    /// In this mode, and whether to tell how long turns took, and what came between them.
    Threads(Group, Mode, bool),
}

/// The task in these words; `None` where they are none.
pub fn task_of(words: &[String]) -> Option<Task> {
    let (first, more) = words.split_first()?;
    match first.as_str() {
        "lockstep" => Some(Task::Scheduled(group_of(Schedule::Lockstep, more)?)),
        "seeded" => Some(Task::Scheduled(group_of(Schedule::Seed(SEED), more)?)),
        _ => threads_of(words),
    }
}

/// The group that these words tell. A number that no word tells is that of the largest group, in which nobody
/// is suspected or late.
fn group_of(schedule: Schedule, words: &[String]) -> Option<Group> {
    if words.is_empty() || words.len() > 7 {
        return None;
    }
    Some(Group {
        schedule,
        messages: large_or(words, 0, 0)?,
        size: MAX_MESSAGE_LENGTH,
        senders: small_or(words, 1, MEMBERS)?,
        suspected: small_or(words, 2, 0)?,
        turns: large_or(words, 3, TURNS)?,
        members: small_or(words, 4, MEMBERS)?,
        from: large_or(words, 5, FROM)?,
        late: small_or(words, 6, 0)?,
    })
}

/// The number in the word at this place, or this one where there is no word.
fn large_or(words: &[String], at: usize, default: u32) -> Option<u32> {
    match words.get(at) {
        Some(word) => word.as_str().parse().ok(),
        None => Some(default),
    }
}

/// The same of smaller numbers.
fn small_or(words: &[String], at: usize, default: u8) -> Option<u8> {
    u8::try_from(large_or(words, at, u32::from(default))?).ok()
}

/// A group in which all have as many messages, and how to run it.
fn threads_of(words: &[String]) -> Option<Task> {
    let has_times = match words.get(4) {
        Some(word) => word.as_str() == "times",
        None => false,
    };
    if words.len() != 4 + usize::from(has_times) {
        return None;
    }
    let members = small_or(words, 0, MEMBERS)?;
    let group = Group {
        schedule: Schedule::Lockstep,
        messages: large_or(words, 1, 0)?,
        size: large_or(words, 2, 0)? as usize,
        senders: members,
        suspected: 0,
        turns: TURNS,
        members,
        from: FROM,
        late: 0,
    };
    let mode = mode_in(words[3].as_str())?;
    Some(Task::Threads(group, mode, has_times))
}

fn mode_in(word: &str) -> Option<Mode> {
    match word {
        "sim" => Some(Mode::Sim),
        "free" => Some(Mode::Free),
        "spin" => Some(Mode::Spin),
        "yield" => Some(Mode::Yield),
        _ => None,
    }
}
