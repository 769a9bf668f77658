use std::rt::Env;
use std::{env, io};

/// Which of the calls to do.
#[derive(Clone, Copy, Debug, PartialEq, Eq)]
pub enum Work {
    /// Looks at the words of others, and pushes of the own words.
    Looks,
    /// Puts of items into the own slots.
    Puts,
    /// Readies of items in the slots of others.
    Readies,
    /// Commands to a store, and looks at its values.
    Stores,
}

/// What a log is put to.
#[derive(Clone, Copy, Debug, PartialEq, Eq)]
pub enum Logging {
    /// Appends to new logs.
    Append,
    /// Mounts of one log.
    Mount,
}

/// On which disk.
#[derive(Clone, Copy, Debug, PartialEq, Eq)]
pub enum Kind {
    /// A `CalmDisk`, which keeps each call beside its bytes.
    Calm,
    /// One that keeps its bytes alone.
    Bytes,
}

/// What the program was told to do, and how often.
#[derive(Clone, Copy, Debug, PartialEq, Eq)]
pub enum Task {
    Calls {
        work: Work,
        rounds: u32,
    },
    /// With so many records on each log.
    Logs {
        logging: Logging,
        kind: Kind,
        records: u32,
        rounds: u32,
    },
    /// The report of members with so many messages each.
    Report {
        messages: u32,
        rounds: u32,
    },
}

/// The words behind the program's name.
pub fn read_words(rt: &(impl Env + AllocGlobal)) -> io::Result<Vec<String>> {
    let mut words = Vec::new(rt.alloc());
    for word in env::args(rt)?.skip(1) {
        words.push(word)?;
    }
    Ok(words)
}

/// The task in these words; `None` where they are none.
pub fn task_of(words: &[String]) -> Option<Task> {
    match words {
        [work, rounds] => Some(Task::Calls {
            work: work_of(work.as_str())?,
            rounds: number(rounds)?,
        }),
        [report, messages, rounds] if report.as_str() == "report" => Some(Task::Report {
            messages: number(messages)?,
            rounds: number(rounds)?,
        }),
        [logging, kind, records, rounds] => Some(Task::Logs {
            logging: logging_of(logging.as_str())?,
            kind: kind_of(kind.as_str())?,
            records: number(records)?,
            rounds: number(rounds)?,
        }),
        _ => None,
    }
}

fn number(word: &String) -> Option<u32> {
    word.as_str().parse().ok()
}

fn work_of(word: &str) -> Option<Work> {
    match word {
        "looks" => Some(Work::Looks),
        "puts" => Some(Work::Puts),
        "readies" => Some(Work::Readies),
        "stores" => Some(Work::Stores),
        _ => None,
    }
}

fn logging_of(word: &str) -> Option<Logging> {
    match word {
        "append" => Some(Logging::Append),
        "mount" => Some(Logging::Mount),
        _ => None,
    }
}

fn kind_of(word: &str) -> Option<Kind> {
    match word {
        "calm" => Some(Kind::Calm),
        "bytes" => Some(Kind::Bytes),
        _ => None,
    }
}
