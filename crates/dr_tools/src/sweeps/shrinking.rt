ghost use Rattle.std.specs.Prelude.{◌≡◌, IfOk, MatchOption, string_bytes, true};
ghost use Rattle.dr_json.specs.Json.{script_json};
ghost use Rattle.dr_progress.specs.Progress.{Waits};
ghost use Rattle.dr_script.specs.Ranges.{HasRanges};
ghost use Rattle.dr_tools.specs.{Outcomes.TextEndsSo, Shrinking.{EndsSoWith, IsLess, IsShrunk, NoneEndsSo}};
ghost use Rattle.dr_tools.specs.{Parts.kept_parts, Variants.{AreSound, variant, variants_in}};

use crate::sweeps::lessening::least_limits;
use crate::sweeps::limits::limited;
use crate::sweeps::parts::{all_parts, with_parts};
use crate::sweeps::runs::{text_of, whole_ends_so};
use crate::sweeps::variants::Variants;
use dr_io::Sink;
use dr_progress::{Progress, Timer};
use dr_script::Script;
use dr_words::Mask;
use std::alloc::{AllocError, Global};
use std::thread::Threads;

/// The text of a smaller script, of the first of these variants that ends as wanted where these members are late: under
/// least limits, if it is to be.
pub(crate) fn shrunk<R: Threads + Sync, T: Timer, E: Sink>(
    rt: &R,
    alloc: Global,
    script: &Script,
    variants: &Variants,
    late: Mask,
    wanted: &str,
    least: bool,
    progress: &mut Progress<T, E>,
) -> Result<Option<String>, AllocError>
    requires ranges { HasRanges script.now }
    requires sound { AreSound script.now variants.now }
    ensures ends { IfOk result (λ found. MatchOption found
        (NoneEndsSo (variant variants.now script.now) late (variants_in variants.now) wanted.now)
        (λ text. IsShrunk least (variant variants.now script.now) late (variants_in variants.now) wanted.now
        (string_bytes text))) }
    ensures waits { Waits progress.old progress.new }
{
    progress.count(variants.count());
    for number in 0..variants.count() {
        let varied = variants.script(alloc, script, number)?;
        let ends_so = whole_ends_so(rt, alloc, &varied, late, wanted, progress)?;
        if ends_so {
            let text = less(rt, alloc, &varied, late, wanted, least, progress)?;
            return Ok(Some(text));
        }
    }
    Ok(None)
}

/// The text of a script that ends as wanted, without faults and messages that can be left out, and under least limits, if
/// it is to be.
#[tactic(auto, using(dr_progress::proofs::Besides::waits_at_rest))]
fn less<R: Threads + Sync, T: Timer, E: Sink>(
    rt: &R,
    alloc: Global,
    script: &Script,
    late: Mask,
    wanted: &str,
    least: bool,
    progress: &mut Progress<T, E>,
) -> Result<String, AllocError>
    requires { TextEndsSo (script_json script.now) late wanted.now true }
    ensures ends { IfOk result (λ text. IsLess least script.now late wanted.now (string_bytes text)) }
    ensures waits { Waits progress.old progress.new }
{
    progress.count(0);
    let all = all_parts(alloc, script)?;
    let keeps = fewest_parts(rt, alloc, script, late, wanted, all, progress)?;
    let fewer = with_parts(alloc, script, keeps.as_slice())?;
    if least {
        let limits = least_limits(rt, alloc, &fewer, late, wanted, progress)?;
        let cut = limited(alloc, &fewer, limits.as_slice())?;
        return text_of(alloc, &cut);
    }
    text_of(alloc, &fewer)
}

/// Leaves out large pieces, then smaller ones, and then part by part, until none can be left out any more.
fn fewest_parts<R: Threads + Sync, T: Timer, E: Sink>(
    rt: &R,
    alloc: Global,
    script: &Script,
    late: Mask,
    wanted: &str,
    keeps: Vec<bool>,
    progress: &mut Progress<T, E>,
) -> Result<Vec<bool>, AllocError>
    requires { EndsSoWith script.now late wanted.now keeps.items }
    ensures ends { IfOk result (λ v. EndsSoWith script.now late wanted.now v.items) }
    ensures waits { Waits progress.old progress.new }
{
    let mut keeps = keeps;
    let count = keeps.len();
    for halvings in 0..usize::BITS {
        let length = count >> halvings;
        keeps = leave_out_large(rt, alloc, script, late, wanted, keeps, length, progress)?;
    }
    for _ in 0..count {
        let before = kept_count(keeps.as_slice());
        keeps = leave_out(rt, alloc, script, late, wanted, keeps, 1, progress)?;
        if kept_count(keeps.as_slice()) == before {
            return Ok(keeps);
        }
    }
    Ok(keeps)
}

/// Leaves out each piece of so many parts that can be, where they are several.
#[tactic(auto, using(dr_progress::proofs::Besides::waits_at_rest))]
fn leave_out_large<R: Threads + Sync, T: Timer, E: Sink>(
    rt: &R,
    alloc: Global,
    script: &Script,
    late: Mask,
    wanted: &str,
    keeps: Vec<bool>,
    length: usize,
    progress: &mut Progress<T, E>,
) -> Result<Vec<bool>, AllocError>
    requires { EndsSoWith script.now late wanted.now keeps.items }
    ensures ends { IfOk result (λ v. EndsSoWith script.now late wanted.now v.items) }
    ensures waits { Waits progress.old progress.new }
{
    if length <= 1 {
        return Ok(keeps);
    }
    leave_out(rt, alloc, script, late, wanted, keeps, length, progress)
}

/// How many parts stay.
fn kept_count(keeps: &[bool]) -> usize {
    keeps.iter().filter(|keep| **keep).count()
}

/// Leaves out each piece of so many parts that can be.
fn leave_out<R: Threads + Sync, T: Timer, E: Sink>(
    rt: &R,
    alloc: Global,
    script: &Script,
    late: Mask,
    wanted: &str,
    keeps: Vec<bool>,
    length: usize,
    progress: &mut Progress<T, E>,
) -> Result<Vec<bool>, AllocError>
    requires { EndsSoWith script.now late wanted.now keeps.items }
    ensures ends { IfOk result (λ v. EndsSoWith script.now late wanted.now v.items) }
    ensures waits { Waits progress.old progress.new }
{
    let mut keeps = keeps;
    let length = length.max(1);
    for piece in 0..keeps.len().div_ceil(length) {
        let start = piece.saturating_mul(length);
        keeps = without_piece(
            rt, alloc, script, late, wanted, keeps, start, length, progress,
        )?;
    }
    Ok(keeps)
}

/// Leaves out the piece of so many parts from the start on, if the script still ends as wanted.
#[tactic(auto, using(dr_progress::proofs::Besides::waits_at_rest))]
fn without_piece<R: Threads + Sync, T: Timer, E: Sink>(
    rt: &R,
    alloc: Global,
    script: &Script,
    late: Mask,
    wanted: &str,
    keeps: Vec<bool>,
    start: usize,
    length: usize,
    progress: &mut Progress<T, E>,
) -> Result<Vec<bool>, AllocError>
    requires { EndsSoWith script.now late wanted.now keeps.items }
    ensures ends { IfOk result (λ v. EndsSoWith script.now late wanted.now v.items) }
    ensures waits { Waits progress.old progress.new }
{
    let fewer = cleared(alloc, keeps.as_slice(), start, length)?;
    if kept_count(fewer.as_slice()) == kept_count(keeps.as_slice()) {
        return Ok(keeps);
    }
    let ends_so = ends_so_with(rt, alloc, script, late, wanted, fewer.as_slice(), progress)?;
    if ends_so {
        return Ok(fewer);
    }
    Ok(keeps)
}

/// The same parts but for those of a piece.
fn cleared(
    alloc: Global,
    keeps: &[bool],
    start: usize,
    length: usize,
) -> Result<Vec<bool>, AllocError> {
    let mut fewer = Vec::new(alloc);
    for (index, keep) in keeps.iter().enumerate() {
        let is_inside = start <= index && index - start < length;
        fewer.push(*keep && !is_inside)?;
    }
    Ok(fewer)
}

/// Whether the script with these of its parts ends as wanted.
#[tactic(auto, using(dr_progress::proofs::Besides::waits_at_rest))]
fn ends_so_with<R: Threads + Sync, T: Timer, E: Sink>(
    rt: &R,
    alloc: Global,
    script: &Script,
    late: Mask,
    wanted: &str,
    keeps: &[bool],
    progress: &mut Progress<T, E>,
) -> Result<bool, AllocError>
    ensures ends { IfOk result
        (TextEndsSo (script_json (kept_parts keeps.now script.now)) late wanted.now) }
    ensures waits { Waits progress.old progress.new }
{
    let fewer = with_parts(alloc, script, keeps)?;
    whole_ends_so(rt, alloc, &fewer, late, wanted, progress)
}
