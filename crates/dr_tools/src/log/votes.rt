ghost use Rattle.std.specs.{List.{enumerate_from, flat_map}, Prelude.{◌≡◌, ◌++◌, OnOk, string_bytes, take}};
ghost use Rattle.dr_entry.specs.Spelling.{FitsVote, IsValidVote};
ghost use Rattle.dr_tools.specs.LogText.{ballot_text, naming_text, place_text, taken_text, trim_text, vote_text};

use dr_entry::Vote;
use dr_text::push_mask;
use std::alloc::AllocError;
use std::fmt::Write;

/// Appends a vote.
pub(crate) fn push_vote(out: &mut String, vote: &Vote) -> Result<(), AllocError>
    requires valid { IsValidVote vote.now }
    requires fits { FitsVote vote.now }
    ensures { OnOk result (string_bytes out.new ≡ string_bytes out.old ++ vote_text vote.now) }
{
    push_place(out, vote)?;
    push_value(out, vote)
}

/// Appends the age and the view of a vote.
fn push_place(out: &mut String, vote: &Vote) -> Result<(), AllocError>
    ensures { OnOk result (string_bytes out.new ≡ string_bytes out.old ++ place_text vote.now) }
{
    let age = vote.age;
    let view = vote.view;
    write!(out, " vote  age {age} view {view}")
}

/// Appends its ballot and what it is for.
fn push_value(out: &mut String, vote: &Vote) -> Result<(), AllocError>
    requires valid { IsValidVote vote.now }
    requires fits { FitsVote vote.now }
    ensures { OnOk result
        (string_bytes out.new ≡ string_bytes out.old ++ (ballot_text vote.now ++ trim_text vote.now)) }
{
    push_ballot(out, vote)?;
    push_trim(out, vote)
}

/// Appends the ballot of a vote, and whom it names.
fn push_ballot(out: &mut String, vote: &Vote) -> Result<(), AllocError>
    ensures { OnOk result (string_bytes out.new ≡ string_bytes out.old ++ ballot_text vote.now) }
{
    let ballot = vote.ballot;
    write!(out, " ballot {ballot} naming ")?;
    push_naming(out, vote.value.leavers)
}

/// Appends the trim of a vote.
fn push_trim(out: &mut String, vote: &Vote) -> Result<(), AllocError>
    requires valid { IsValidVote vote.now }
    requires fits { FitsVote vote.now }
    ensures { OnOk result (string_bytes out.new ≡ string_bytes out.old ++ trim_text vote.now) }
{
    out.push_str("; items")?;
    push_taken(out, trims_of(vote))?;
    out.push_str("\n")
}

/// What is taken of each member of the roster.
fn trims_of(vote: &Vote) -> &[u32]
    requires valid { IsValidVote vote.now }
    requires fits { FitsVote vote.now }
    ensures { result.now ≡ take vote.now.members vote.now.value.trim }
{
    let trim = vote.value.trim.as_slice();
    &trim[..usize::from(vote.members)]
}

/// Appends the members that a vote names, or that it names nobody.
fn push_naming(out: &mut String, names: u16) -> Result<(), AllocError>
    ensures { OnOk result (string_bytes out.new ≡ string_bytes out.old ++ naming_text names) }
{
    if names == 0 {
        out.push_str("nobody")
    } else {
        push_mask(out, names)
    }
}

/// Appends these numbers of items, and of whom they are.
fn push_taken(out: &mut String, counts: &[u32]) -> Result<(), AllocError>
    ensures { OnOk result (string_bytes out.new ≡ string_bytes out.old
        ++ flat_map (λ t. taken_text t.0 t.1) (enumerate_from 0 counts.now)) }
{
    for (number, count) in counts.iter().enumerate() {
        push_taken_of(out, number, count)?;
    }
    Ok(())
}

fn push_taken_of(out: &mut String, number: usize, count: &u32) -> Result<(), AllocError>
    ensures { OnOk result
        (string_bytes out.new ≡ string_bytes out.old ++ taken_text number count.now) }
{
    let count = *count;
    out.push_str(if number == 0 { " " } else { ", " })?;
    write!(out, "{count} of {number}")
}
