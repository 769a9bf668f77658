/// Why an append to a member's log failed.
#[derive(Clone, Copy, Debug, PartialEq, Eq)]
pub enum LogWhy {
    /// The log's disk failed.
    DiskFault,
    /// The log, `len` bytes long, would have become longer than its limit.
    LogFull { len: u64 },
}

/// How an append to a member's log went.
#[derive(Clone, Copy, Debug, PartialEq, Eq)]
pub enum Outcome {
    /// The record stands on the log.
    Ok,
    /// It was refused.
    Failed(LogWhy),
}
