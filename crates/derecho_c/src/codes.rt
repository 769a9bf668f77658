//! What calls answer, as numbers.

/// It was done.
pub const OK: u32 = 0;
/// The packet is an older one, or tells nothing new.
pub const OLD: u32 = 1;
/// The handle is closed.
pub const CLOSED: u32 = 2;
/// The handle is open already.
pub const OPEN: u32 = 3;
/// That is not due.
pub const NOT_DUE: u32 = 4;
/// A buffer is too short.
pub const ROOM: u32 = 5;
/// Memory is wanting.
pub const MEMORY: u32 = 6;
/// The bytes are no plan.
pub const PLAN: u32 = 7;
/// The plan has planned faults: it is for tests.
pub const TEST_PLAN: u32 = 8;
/// The group has no such member.
pub const NO_MEMBER: u32 = 9;
/// There is no such entry.
pub const NO_ENTRY: u32 = 10;
/// The bytes are no card.
pub const NO_CARD: u32 = 11;
/// The log is lost.
pub const EMPTY: u32 = 12;
/// The log is damaged.
pub const DAMAGED: u32 = 13;
/// The log is of the older format.
pub const OLD_FORMAT: u32 = 14;
/// The packet is of another group.
pub const OTHER_GROUP: u32 = 15;
/// The packet, or the card, is of another plan.
pub const OTHER_PLAN: u32 = 16;
/// The packet's words are of an age that doesn't run here.
pub const OTHER_AGE: u32 = 17;
/// The packet is too short, or begins otherwise.
pub const SHORT: u32 = 18;
/// The packet was changed on its way.
pub const SUM: u32 = 19;
/// The packet is for another member, or by none of the group.
pub const NOT_MINE: u32 = 20;
/// The packet says nothing that a packet says.
pub const KIND: u32 = 21;
/// A word is for no place of its sender's.
pub const PLACE: u32 = 22;
/// A word is not in form.
pub const FORM: u32 = 23;
/// A word has not grown: something false came before. Stop.
pub const GROWTH: u32 = 24;
/// The others are too few.
pub const NO_QUORUM: u32 = 25;
/// The seat has ended.
pub const ENDED: u32 = 26;
/// A struct has another size than in this library.
pub const VERSION: u32 = 27;
