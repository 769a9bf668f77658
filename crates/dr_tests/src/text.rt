//! This part prints reports of made-up ages, and every last line. What it has to print was worked
//! out by hand.
use anyhow::anyhow;
use dr_entry::{AgeEnd, End, Entry, MemberEnd, Message, Seq, Text};
use dr_io::OutputSink;
use dr_text::{Clause, Last, Report};
use std::alloc::{AllocError, Global};

/// Prints them.
pub(crate) fn show(rt: &HostRuntime) -> anyhow::Result<()> {
    let alloc = rt.alloc();
    print(rt, &ages_that_differ(alloc)?, &Last::Unfinished)?;
    print(rt, &[each_end(alloc)?], &Last::Unfinished)?;
    for last in each_last_line(alloc)?.iter() {
        print(rt, &[], last)?;
    }
    Ok(())
}

/// Prints the report of these ages and this last line.
fn print(rt: &HostRuntime, ages: &[AgeEnd], last: &Last) -> anyhow::Result<()> {
    Report::of(rt.alloc(), ages, last)?
        .write_to(&mut OutputSink::new(rt.stdout()))
        .map_err(|_| anyhow!("the output failed"))
}

fn view(age: u16, number: u8, members: u16) -> Entry {
    Entry::View {
        age,
        number,
        members,
    }
}

/// A first message, which is empty where it would be too long.
fn message(sender: u8, bytes: &[u8]) -> Entry {
    Entry::Msg {
        sender,
        index: 0,
        bytes: Message::of(bytes).unwrap_or(Message::of(b"").unwrap()),
    }
}

/// A member with this end and history, all of it logged, and all but the last entry durable.
fn member(alloc: Global, end: End, history: Vec<Entry>) -> MemberEnd {
    let logged = history.len() as u64;
    MemberEnd {
        end,
        turns: 12,
        sent: Seq::of(Vec::new(alloc)),
        history: Seq::of(history),
        logged,
        durable: logged.saturating_sub(1),
    }
}

/// Of the second age the first member has less than the second, and the third has another message in the
/// midst.
fn ages_that_differ(alloc: Global) -> Result<[AgeEnd; 2], AllocError> {
    let first = vec![in alloc; view(0, 0, 1)]?;
    let start = vec![in alloc; view(0, 0, 7), message(1, b"")]?;
    let members = vec![in alloc;
        member(alloc, End::Crashed, behind(alloc)?),
        member(alloc, End::Done, on_with(alloc, &[0, 10, 171, 255])?),
        member(
            alloc,
            End::Spent { turns: 9 },
            on_with(alloc, &[0, 10, 171])?
        ),
    ]?;
    Ok([
        AgeEnd {
            age: 0,
            start: Seq::of(Vec::new(alloc)),
            members: Seq::of(vec![in alloc; member(alloc, End::Done, first)]?),
        },
        AgeEnd {
            age: 1,
            start: Seq::of(start),
            members: Seq::of(members),
        },
    ])
}

/// A history with one View behind the start of the second age.
fn behind(alloc: Global) -> Result<Vec<Entry>, AllocError> {
    Ok(vec![in alloc; view(0, 0, 7), message(1, b""), view(1, 0, 7)]?)
}

/// The same with this message and another View behind it.
fn on_with(alloc: Global, bytes: &[u8]) -> Result<Vec<Entry>, AllocError> {
    let mut history = behind(alloc)?;
    history.push(message(0, bytes))?;
    history.push(view(1, 1, 5))?;
    Ok(history)
}

/// An age with a member for each end.
fn each_end(alloc: Global) -> Result<AgeEnd, AllocError> {
    let mut members = Vec::new(alloc);
    for end in [
        End::Done,
        End::Crashed,
        End::Suspected { by: 15 },
        End::Excluded { view: 2 },
        End::NoMajority { mask: 0x8005 },
        End::DiskFault,
        End::LogFull { len: 2_147_483_600 },
        End::Spent { turns: 1_000_000 },
        End::Absent,
    ] {
        members.push(member(alloc, end, Vec::new(alloc)))?;
    }
    Ok(AgeEnd {
        age: 65_535,
        start: Seq::of(Vec::new(alloc)),
        members: Seq::of(members),
    })
}

/// Each last line that there is.
fn each_last_line(alloc: Global) -> Result<[Last; 23], AllocError> {
    let path = Text::of(String::from_str(alloc, "/messages/2/0")?);
    Ok([
        Last::Done,
        Last::Usage,
        Last::TooLong,
        Last::NotJson,
        Last::Rule { rule: 10, path },
        Last::SourceFault,
        Last::DiskFault { member: 0 },
        Last::Damaged {
            member: 15,
            at: 2_147_483_647,
        },
        Last::Foreign {
            member: 1,
            place: 30,
        },
        Last::Disagree {
            a: 0,
            b: 12,
            place: 4,
        },
        Last::NoQuorum {
            view: None,
            have: 1,
            need: 2,
        },
        Last::NoQuorum {
            view: Some(0),
            have: 1,
            need: 2,
        },
        Last::AgesUsedUp,
        Last::Unfinished,
        Last::NoMajority,
        Last::LogFull { member: 10 },
        Last::NoShard {
            shards: 5,
            members: 4,
        },
        Last::ManyAges { ages: 2 },
        Last::Crosses { fault: 0 },
        Last::NotCheck,
        Last::NoReport { line: 17 },
        Last::Right,
        Last::Wrong {
            clause: Clause::Bytes,
            line: 15,
        },
    ])
}
