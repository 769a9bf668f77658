use dr_entry::{Seq, Text};

/// What was found where the log of a member is to be.
#[derive(Debug, Drop)]
pub enum LogFile {
    /// No file. A run makes one, and takes it for an empty log.
    Missing,
    /// A file that can't be read, or something else, for this reason. A run stops at it.
    Unread { why: Text },
    /// A file of these bytes.
    Bytes(Seq<u8>),
}
