ghost use Rattle.std.specs.Prelude.{◌≡◌, ◌++◌, OnOk, string_bytes};
ghost use Rattle.dr_text.specs.{Report.{last_text, rule_text, clause_word}, declared.last.Last.Last};

use dr_entry::Text;
use std::alloc::AllocError;
use std::fmt::Write;

/// What the last line of a report says of the run.
#[derive(Debug, PartialEq, Eq, Drop)]
pub enum Last {
    /// Every age ran to its end, and nothing is to be said of it.
    Done,
    /// The words are not those of a command, or name all members of the script that take part as late: the line
    /// says which commands run a group.
    Usage,
    /// The script is longer than a script may be.
    TooLong,
    /// The script is not JSON.
    NotJson,
    /// The script breaks the rule with this number, first at the place with this path.
    Rule {
        rule: u8,
        path: Text,
    },
    /// The source failed.
    SourceFault,
    /// The disk of this member failed.
    DiskFault {
        member: u8,
    },
    /// The log of this member is damaged at the byte `at`.
    Damaged {
        member: u8,
        at: u64,
    },
    /// The log of this member is not one of this script: the entry `place` is the first that is not.
    Foreign {
        member: u8,
        place: u64,
    },
    /// The logs of two members differ, first at the entry `place`.
    Disagree {
        a: u8,
        b: u8,
        place: u64,
    },
    /// Fewer logs were handed in than a majority of the roster needs, or of the view with this number.
    NoQuorum {
        view: Option<u8>,
        have: u8,
        need: u8,
    },
    /// The logs have come to the last age that there is a number for.
    AgesUsedUp,
    /// A member had spent all its turns.
    Unfinished,
    /// A member ended without a majority of its view.
    NoMajority,
    /// The log of this member would have grown beyond its limit.
    LogFull {
        member: u8,
    },
    /// There are more shards than members.
    NoShard {
        shards: u8,
        members: u8,
    },
    /// The script has more ages than the one that a shard has.
    ManyAges {
        ages: u8,
    },
    /// The fault with this number, counted from 0, is a suspicion of a member of another shard.
    Crosses {
        fault: u16,
    },
    /// What was read is JSON, and not a script with a text to be checked.
    NotCheck,
    /// The text that is to be checked is no report: this line, counted from 1, is the first that is none.
    NoReport {
        line: u64,
    },
    /// All clauses hold of the report.
    Right,
    /// This clause does not hold of the report, first at this line, counted from 1.
    Wrong {
        clause: Clause,
        line: u64,
    },
}

/// What is asked of a report that is checked.
#[derive(Clone, Copy, Debug, PartialEq, Eq)]
pub enum Clause {
    /// What an age starts with.
    Start,
    /// The views of a history.
    View,
    /// The sender of a message is in the last view.
    Sender,
    /// The indices of each sender count from 0.
    Index,
    /// The bytes of a message are those of the script.
    Bytes,
    /// Of two histories of an age one is a prefix of the other.
    Prefix,
    /// What is durable stands on enough logs.
    Durable,
    /// What was durable in an age is kept by the next one.
    Kept,
}

/// Appends the last line.
///
/// # Errors
///
/// Want of memory alone.
pub fn push_last(out: &mut String, last: &Last) -> Result<(), AllocError>
    ensures { OnOk result (string_bytes out.new ≡ string_bytes out.old ++ last_text last.now) }
{
    match last {
        Last::Done => out.push_str("ok\n"),
        Last::Usage => out.push_str("usage: derecho (sim|run) [--logs FOLDER]\n"),
        Last::TooLong => out.push_str("refused: too long\n"),
        Last::NotJson => out.push_str("refused: not json\n"),
        Last::Rule { rule, path } => push_rule(out, *rule, path.as_str()),
        Last::SourceFault => out.push_str("fault: source\n"),
        Last::DiskFault { member } => writeln!(out, "fault: disk of member {member}"),
        Last::Damaged { member, at } => push_damaged(out, *member, *at),
        Last::Foreign { member, place } => push_foreign(out, *member, *place),
        Last::Disagree { a, b, place } => push_disagree(out, *a, *b, *place),
        Last::NoQuorum { view, have, need } => push_no_quorum(out, *view, *have, *need),
        Last::AgesUsedUp => out.push_str("refused: ages used up\n"),
        Last::Unfinished => out.push_str("unfinished\n"),
        Last::NoMajority => out.push_str("no majority\n"),
        Last::LogFull { member } => writeln!(out, "fault: log full of member {member}"),
        Last::NoShard { shards, members } => push_no_shard(out, *shards, *members),
        Last::ManyAges { ages } => writeln!(out, "refused: {ages} ages"),
        Last::Crosses { fault } => writeln!(out, "refused: fault {fault} crosses shards"),
        Last::NotCheck => out.push_str("refused: not a check\n"),
        Last::NoReport { line } => writeln!(out, "refused: no report at line {line}"),
        Last::Right => out.push_str("yes\n"),
        Last::Wrong { clause, line } => push_wrong(out, *clause, *line),
    }
}

fn push_rule(out: &mut String, rule: u8, path: &str) -> Result<(), AllocError>
    ensures { OnOk result
        (string_bytes out.new ≡ string_bytes out.old ++ rule_text rule path.now) }
{
    writeln!(out, "refused: rule {rule} at {path}")
}

fn push_damaged(out: &mut String, member: u8, at: u64) -> Result<(), AllocError>
    ensures { OnOk result
        (string_bytes out.new ≡ string_bytes out.old ++ last_text (Last.Damaged member at)) }
{
    writeln!(out, "refused: damaged log of member {member} at {at}")
}

fn push_foreign(out: &mut String, member: u8, place: u64) -> Result<(), AllocError>
    ensures { OnOk result
        (string_bytes out.new ≡ string_bytes out.old ++ last_text (Last.Foreign member place)) }
{
    writeln!(
        out,
        "refused: foreign log of member {member} at entry {place}"
    )
}

fn push_disagree(out: &mut String, a: u8, b: u8, place: u64) -> Result<(), AllocError>
    ensures { OnOk result
        (string_bytes out.new ≡ string_bytes out.old ++ last_text (Last.Disagree a b place)) }
{
    writeln!(
        out,
        "refused: logs of members {a} and {b} disagree at entry {place}"
    )
}

fn push_no_quorum(out: &mut String, view: Option<u8>, have: u8, need: u8) -> Result<(), AllocError>
    ensures { OnOk result
        (string_bytes out.new ≡ string_bytes out.old ++ last_text (Last.NoQuorum view have need)) }
{
    match view {
        None => writeln!(out, "refused: quorum of roster has {have} of {need}"),
        Some(view) => writeln!(out, "refused: quorum of view {view} has {have} of {need}"),
    }
}

fn push_no_shard(out: &mut String, shards: u8, members: u8) -> Result<(), AllocError>
    ensures { OnOk result
        (string_bytes out.new ≡ string_bytes out.old ++ last_text (Last.NoShard shards members)) }
{
    writeln!(out, "refused: {shards} shards of {members} members")
}

fn push_wrong(out: &mut String, clause: Clause, line: u64) -> Result<(), AllocError>
    ensures { OnOk result
        (string_bytes out.new ≡ string_bytes out.old ++ last_text (Last.Wrong clause line)) }
{
    let word = clause_word(clause);
    writeln!(out, "no: {word} at line {line}")
}

/// The word for a clause.
fn clause_word(clause: Clause) -> &'static str
    ensures { result.now ≡ clause_word clause }
{
    match clause {
        Clause::Start => "start",
        Clause::View => "view",
        Clause::Sender => "sender",
        Clause::Index => "index",
        Clause::Bytes => "bytes",
        Clause::Prefix => "prefix",
        Clause::Durable => "durable",
        Clause::Kept => "kept",
    }
}
