ghost use Rattle.std.specs.Prelude.{IfOk, string_bytes};
ghost use Rattle.dr_ages.specs.Ages.{HaveSomebodyPrompt, all_with};
ghost use Rattle.dr_progress.specs.Progress.{Waits};
ghost use Rattle.dr_script.specs.Ranges.{HasRanges};
ghost use Rattle.dr_tools.specs.{Rows.IsTally, SweepAnswer.IsSweep};
ghost use Rattle.dr_tools.specs.Variants.{AreSound, first_variant, variant, variants_in};

use crate::sweeps::rows::{Row, count_run, push_rows};
use crate::sweeps::runs::outcome_of;
use crate::sweeps::variants::Variants;
use dr_io::Sink;
use dr_progress::{Progress, Timer};
use dr_script::Script;
use dr_words::Mask;
use std::alloc::{AllocError, Global};
use std::thread::Threads;

/// The table of how these variants of a script end where these members are late.
pub(crate) fn sweep_of<R: Threads + Sync, T: Timer, E: Sink>(
    rt: &R,
    alloc: Global,
    script: &Script,
    variants: &Variants,
    late: Mask,
    progress: &mut Progress<T, E>,
) -> Result<String, AllocError>
    requires ranges { HasRanges script.now }
    requires some { HaveSomebodyPrompt script.now (all_with late) }
    requires sound { AreSound script.now variants.now }
    ensures text { IfOk result (λ text. IsSweep variants.now late script.now (string_bytes text)) }
    ensures waits { Waits progress.old progress.new }
{
    let rows = rows_of(rt, alloc, script, variants, late, progress)?;
    let mut text = String::new(alloc);
    push_rows(&mut text, variants, rows.as_slice())?;
    Ok(text)
}

fn rows_of<R: Threads + Sync, T: Timer, E: Sink>(
    rt: &R,
    alloc: Global,
    script: &Script,
    variants: &Variants,
    late: Mask,
    progress: &mut Progress<T, E>,
) -> Result<Vec<Row>, AllocError>
    requires ranges { HasRanges script.now }
    requires some { HaveSomebodyPrompt script.now (all_with late) }
    requires sound { AreSound script.now variants.now }
    ensures rows { IfOk result (λ rows. IsTally (variant variants.now script.now) late
        (first_variant variants.now) (variants_in variants.now) rows.items) }
    ensures waits { Waits progress.old progress.new }
{
    progress.count(variants.count());
    let mut rows = Vec::new(alloc);
    for number in 0..variants.count() {
        let varied = variants.script(alloc, script, number)?;
        let line = outcome_of(rt, alloc, &varied, late, progress)?;
        count_run(&mut rows, variants.row_number(script, number), line)?;
    }
    Ok(rows)
}
