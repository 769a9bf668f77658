ghost use Rattle.std.specs.Prelude.{◌≡◌, ◌++◌, IfOk, OnOk, string_bytes};
ghost use Rattle.dr_summary.specs.Table.{before_dashes, label_text, rule_text};

use crate::columns::{push_aligned, push_dashes};
use dr_entry::Entry;
use dr_quote::push_message;
use dr_text::push_mask;
use std::alloc::{AllocError, Global};
use std::fmt::Write;

/// How many characters the number of an entry takes at least.
const NUMBER_WIDTH: usize = 5;

/// How many characters the rule of a view takes at least.
const RULE_WIDTH: usize = 38;

/// How many bytes a label has room for at first.
const LABEL_ROOM: usize = 128;

/// The label of the row of an entry with this number.
pub(crate) fn label_of(alloc: Global, number: usize, entry: &Entry) -> Result<String, AllocError>
    ensures { IfOk result (λ label. string_bytes label ≡ label_text number entry.now) }
{
    let mut label = String::with_capacity(alloc, LABEL_ROOM)?;
    push_aligned(&mut label, NUMBER_WIDTH, number)?;
    match entry {
        Entry::View {
            number,
            members,
            ..
        } => push_rule(&mut label, *number, *members)?,
        Entry::Msg {
            sender,
            index,
            bytes,
        } => {
            write!(label, "  {sender}.{index} ")?;
            push_message(alloc, &mut label, bytes)?;
        }
    }
    Ok(label)
}

/// Appends the rule that a view is.
fn push_rule(label: &mut String, number: u8, members: u16) -> Result<(), AllocError>
    ensures { OnOk result (string_bytes label.new
        ≡ before_dashes 38 (string_bytes label.old ++ rule_text number members)) }
{
    write!(label, "  -- view {number}: ")?;
    push_mask(label, members)?;
    label.push_str(" --")?;
    let width = label.as_str().len();
    push_dashes(label, RULE_WIDTH.saturating_sub(width))
}
