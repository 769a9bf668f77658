//! The lines of ages and words, and what the lines of deeds share.
ghost use Rattle.std.specs.Option.{option_map_or};
ghost use Rattle.std.specs.Prelude.{◌≡◌, ◌<◌, ◌++◌, OnOk, [], codes, is_some, string_bytes, true, unwrap_or};
ghost use Rattle.dr_machine.specs.World.{no_vote};
ghost use Rattle.dr_program.specs.Replica.{me};
ghost use Rattle.dr_text.specs.Report.{end_text};
ghost use Rattle.dr_seeing.specs.Lines.{age_line, look_text, told, value_text, vote_text, with_number, word_text};

use crate::values::push_value;
use dr_entry::{End, Value};
use dr_replica::Replica;
use dr_text::push_end;
use std::alloc::AllocError;
use std::fmt::Write;

/// Appends the line of an age, by its number and its number of entries.
pub(crate) fn push_age(out: &mut String, age: u16, entries: usize) -> Result<(), AllocError>
    ensures { OnOk result (string_bytes out.new ≡ string_bytes out.old ++ age_line age entries) }
{
    writeln!(out, "age {age} start {entries}")
}

/// Appends the line of a look that finds this word, where it shows something new.
pub(crate) fn push_look(
    out: &mut String,
    replica: &Replica,
    row: u8,
    column: usize,
    word: u64,
) -> Result<(), AllocError>
    requires row { row < replica.now.roster }
    requires column { column < replica.now.rows.columns }
    ensures { OnOk result (string_bytes out.new ≡ string_bytes out.old
        ++ option_map_or (told (me replica.now)) (look_text replica.now row column word) []) }
{
    if word == replica.seen(row, column) {
        return Ok(());
    }
    push_word(out, replica.me(), "look ", row, column, word)
}

/// Appends the line of a word of a row and a column, which a member does this with.
pub(crate) fn push_word(
    out: &mut String,
    me: u8,
    kind: &str,
    row: u8,
    column: usize,
    word: u64,
) -> Result<(), AllocError>
    ensures { OnOk result (string_bytes out.new
        ≡ string_bytes out.old ++ told me (word_text kind.now row column word)) }
{
    writeln!(out, "{me} {kind}{row} {column} 0x{word:x}")
}

/// Appends the line of an append.
pub(crate) fn push_appended(out: &mut String, replica: &Replica) -> Result<(), AllocError>
    ensures { OnOk result (string_bytes out.new ≡ string_bytes out.old
        ++ told (me replica.now) (with_number (codes "append ") replica.now.logged)) }
{
    let me = replica.me();
    let logged = replica.logged();
    writeln!(out, "{me} append {logged}")
}

/// Appends the line of a vote for a value.
pub(crate) fn push_voted(
    out: &mut String,
    replica: &Replica,
    value: Value,
) -> Result<(), AllocError>
    ensures { OnOk result (string_bytes out.new ≡ string_bytes out.old
        ++ told (me replica.now) (vote_text replica.now value)) }
{
    let me = replica.me();
    let vote = replica.vote_of(value);
    let ballot = vote.ballot;
    write!(out, "{me} vote {ballot} ")?;
    push_value(out, vote.members, &vote.value)?;
    out.push_str("\n")
}

/// Appends the line of a letter for a late member.
pub(crate) fn push_welcome(out: &mut String, replica: &Replica, late: u8) -> Result<(), AllocError>
    ensures { OnOk result (string_bytes out.new ≡ string_bytes out.old
        ++ told (me replica.now) (with_number (codes "welcome ") late)) }
{
    let me = replica.me();
    writeln!(out, "{me} welcome {late}")
}

/// Appends a number behind a word.
pub(crate) fn push_number(out: &mut String, word: &str, number: u64) -> Result<(), AllocError>
    ensures { OnOk result (string_bytes out.new ≡ string_bytes out.old ++ with_number word.now number) }
{
    write!(out, "{word}{number}")
}

/// Appends the value of the vote that waits behind a word.
pub(crate) fn push_waiting(
    out: &mut String,
    word: &str,
    replica: &Replica,
) -> Result<(), AllocError>
    requires { is_some replica.now.pending ≡ true }
    ensures { OnOk result (string_bytes out.new ≡ string_bytes out.old ++ (word.now
        ++ value_text replica.now.roster (unwrap_or replica.now.pending no_vote).value)) }
{
    let vote = replica.waiting_vote().unwrap();
    out.push_str(word)?;
    push_value(out, replica.shape().members, &vote.value)
}

/// Appends how a member ended.
pub(crate) fn push_ended(out: &mut String, end: End) -> Result<(), AllocError>
    ensures { OnOk result (string_bytes out.new ≡ string_bytes out.old ++ (codes "end " ++ end_text end)) }
{
    out.push_str("end ")?;
    push_end(out, end)
}
