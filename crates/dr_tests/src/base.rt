//! This part reads calls of the crates at the base, a line each, and prints what they answer. What it has
//! to print was worked out by hand.
//!
//! A line is the name of its case, what is called, and what it is called with: `front COUNT..`,
//! `merge_next FROM COUNT..`, `null_due RANK COUNT..`, `place RANKS RANK ITEM`, `frozen MEMBERS ME ROW` and
//! `next_rest FROM MEMBERS TRIM..` with numbers; `merge COUNT..`, `agreed HISTORY HISTORY` and
//! `in_order HISTORY` with histories; `least WORD..`, `count_equal TO WORD..` and `match_mask TO WORD..` with
//! words; `mask BITS` prints a mask, and `script TEXT` what is read of a script; `next`, `newcomers`,
//! `welcomer`, `may_wish`, `views` and `letter_end` are those of joins; `watch KIND WORD WORD` polls a watch;
//! `reader` and `writer` are called with one that is interrupted and fails. A line that begins with `#` says
//! what those behind it show.
mod histories;
mod joins;
mod lanes;
mod numbers;
mod outside;
mod watches;

use crate::base::histories::told_of_histories;
use crate::base::joins::told_of_joins;
use crate::base::lanes::answer_over;
use crate::base::numbers::answer_to;
use crate::base::outside::{told_of_reader, told_of_writer};
use crate::base::watches::told_of_watch;
use anyhow::anyhow;
use dr_script::read_script;
use dr_words::Mask;
use std::alloc::Global;

/// Prints what becomes of these lines.
pub(crate) fn show(rt: &HostRuntime, lines: &str) -> anyhow::Result<()> {
    let alloc = rt.alloc();
    for line in lines.lines() {
        if line.starts_with('#') {
            println!(rt; "{line}")?;
        } else {
            println!(rt; "{line}: {}", told_of(alloc, line)?)?;
        }
    }
    Ok(())
}

/// What the call of a line answers.
fn told_of(alloc: Global, line: &str) -> anyhow::Result<String> {
    let (_, call) = line.split_once(' ').unwrap_or((line, ""));
    let (name, rest) = call.split_once(' ').unwrap_or((call, ""));
    Ok(match name {
        "script" => match read_script(alloc, rest.as_bytes()) {
            Ok(script) => format!(in alloc; "{script:?}")?,
            Err(_) => return Err(anyhow!("{rest} was refused")),
        },
        "mask" => format!(in alloc; "{:?}", Mask::of(rest.parse()?))?,
        "reader" => told_of_reader(alloc)?,
        "writer" => told_of_writer(alloc)?,
        "merge" | "agreed" | "in_order" => told_of_histories(alloc, name, rest)?,
        "next" | "newcomers" | "welcomer" | "may_wish" | "views" | "letter_end" => {
            told_of_joins(alloc, name, rest)?
        }
        "least" | "count_equal" | "match_mask" => {
            format!(in alloc; "{:?}", answer_over(alloc, name, rest)?)?
        }
        "watch" => told_of_watch(alloc, rest)?,
        _ => format!(in alloc; "{:?}", answer_to(alloc, name, rest)?)?,
    })
}
