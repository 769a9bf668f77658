//! The limits of a group.

/// The greatest number of members of a roster. A member's number is below it.
pub const MAX_MEMBERS: usize = 16;

/// The greatest number of bytes of a message.
pub const MAX_MESSAGE_LENGTH: usize = 64;

/// The greatest number of messages that a script gives a member.
pub const MAX_MESSAGES: usize = 4096;
