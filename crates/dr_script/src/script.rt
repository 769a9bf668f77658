use dr_entry::{Message, Seq};

/// What a group is to do: its members, what they send, and which of them fail.
#[derive(Debug, PartialEq, Eq, Drop)]
pub struct Script {
    /// The number of members, 1 to `MAX_MEMBERS`.
    pub members: u8,
    /// How many items of a member its ring holds, 1 to 8.
    pub window: u8,
    /// How many turns a member takes at most in an age, 1 to 1,000,000.
    pub turns: u32,
    /// After how many turns without a sign of life a member is suspected, 3 to 1,000,000; or 0,
    /// where nobody is.
    pub patience: u32,
    /// The number of ages of the run, 1 to 16.
    pub ages: u8,
    /// For each member, ascending, its messages in order: at most `MAX_MESSAGES` of them.
    pub messages: Seq<Seq<Message>>,
    /// The failures, at most 256, in the order of the text.
    pub faults: Seq<Fault>,
    /// The order in which the members take their steps.
    pub schedule: Schedule,
}

/// One failure that a script asks for.
#[derive(Clone, Copy, Debug, PartialEq, Eq)]
pub struct Fault {
    /// The age, counted from 0, below the number of ages.
    pub age: u8,
    /// The member that fails or suspects, below the number of members.
    pub member: u8,
    /// What happens to it.
    pub what: What,
}

/// What a scripted failure is.
#[derive(Clone, Copy, Debug, PartialEq, Eq)]
pub enum What {
    /// The member crashes in the turn `turn`, from 1 to the script's turns, just before its push
    /// numbered `push` of that turn, 0 to 65,535 counted from 0, or after the last where there
    /// are fewer.
    Crash { turn: u32, push: u32 },
    /// The member suspects the member `other`, another one, in the turn `turn`, from 1 to the
    /// script's turns, or wishes for it where it is late.
    Suspect { turn: u32, other: u8 },
}

/// In which order the members of a group take their steps.
#[derive(Clone, Copy, Debug, PartialEq, Eq)]
pub enum Schedule {
    /// A turn of each member, ascending, again and again.
    Lockstep,
    /// Steps drawn by a generator that starts from this seed.
    Seed(u64),
}
