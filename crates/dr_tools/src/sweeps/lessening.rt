//! Limits under which a script still ends as wanted.
ghost use Rattle.std.specs.List.{sum};
ghost use Rattle.std.specs.Prelude.{◌≡◌, ◌-◌, ◌<◌, ◌≤◌, IfOk, IfSome, MatchOption, false, get_or, length, slice_set, true};
ghost use Rattle.dr_json.specs.Json.{script_json};
ghost use Rattle.dr_progress.specs.Progress.{Waits};
ghost use Rattle.dr_tools.specs.{Outcomes.TextEndsSo, Shrinking.{AreLeast, EndsUnder, IsLeastAt}};

use crate::sweeps::limits::{limited, limits_of};
use crate::sweeps::runs::whole_ends_so;
use dr_io::Sink;
use dr_progress::{Progress, Timer};
use dr_script::Script;
use dr_words::Mask;
use std::alloc::{AllocError, Global};
use std::thread::Threads;

/// By so much limits are lessened first, then by half of it, and so on.
const STEP: u64 = 1 << 63;

/// Least limits under which a script ends as wanted that does so whole.
#[tactic(auto, using(dr_progress::proofs::Besides::waits_at_rest))]
pub(crate) fn least_limits<R: Threads + Sync, T: Timer, E: Sink>(
    rt: &R,
    alloc: Global,
    script: &Script,
    late: Mask,
    wanted: &str,
    progress: &mut Progress<T, E>,
) -> Result<Vec<u64>, AllocError>
    requires { TextEndsSo (script_json script.now) late wanted.now true }
    ensures ends { IfOk result (λ v. EndsUnder script.now late wanted.now v.items true) }
    ensures least { IfOk result (λ v. AreLeast script.now late wanted.now v.items) }
    ensures waits { Waits progress.old progress.new }
{
    let whole = limits_of(alloc, script)?;
    let mut limits = lessened(rt, alloc, script, late, wanted, whole, progress)?;
    while let Some(less) = lesser(rt, alloc, script, late, wanted, limits.as_slice(), progress)? {
        limits = lessened(rt, alloc, script, late, wanted, less, progress)?;
    }
    Ok(limits)
}

/// Lessens limits by large steps, then by smaller ones, and at last by one, wherever the script still ends as wanted.
fn lessened<R: Threads + Sync, T: Timer, E: Sink>(
    rt: &R,
    alloc: Global,
    script: &Script,
    late: Mask,
    wanted: &str,
    limits: Vec<u64>,
    progress: &mut Progress<T, E>,
) -> Result<Vec<u64>, AllocError>
    requires { EndsUnder script.now late wanted.now limits.items true }
    ensures ends { IfOk result (λ v. EndsUnder script.now late wanted.now v.items true) }
    ensures no_more { IfOk result (λ v. sum v.items ≤ sum limits.items) }
    ensures waits { Waits progress.old progress.new }
{
    let mut less = limits;
    for halvings in 0..u64::BITS {
        less = lessened_by(
            rt,
            alloc,
            script,
            late,
            wanted,
            less,
            STEP >> halvings,
            progress,
        )?;
    }
    Ok(less)
}

/// Lessens each limit that is greater by so much, where the script still ends as wanted.
fn lessened_by<R: Threads + Sync, T: Timer, E: Sink>(
    rt: &R,
    alloc: Global,
    script: &Script,
    late: Mask,
    wanted: &str,
    limits: Vec<u64>,
    step: u64,
    progress: &mut Progress<T, E>,
) -> Result<Vec<u64>, AllocError>
    requires { EndsUnder script.now late wanted.now limits.items true }
    ensures ends { IfOk result (λ v. EndsUnder script.now late wanted.now v.items true) }
    ensures no_more { IfOk result (λ v. sum v.items ≤ sum limits.items) }
    ensures waits { Waits progress.old progress.new }
{
    let mut less = limits;
    for place in 0..less.len() {
        less = lessened_at(rt, alloc, script, late, wanted, less, place, step, progress)?;
    }
    Ok(less)
}

/// The same of the limit at this place, if there is one.
#[tactic(auto, using(dr_progress::proofs::Besides::waits_at_rest))]
fn lessened_at<R: Threads + Sync, T: Timer, E: Sink>(
    rt: &R,
    alloc: Global,
    script: &Script,
    late: Mask,
    wanted: &str,
    limits: Vec<u64>,
    place: usize,
    step: u64,
    progress: &mut Progress<T, E>,
) -> Result<Vec<u64>, AllocError>
    requires { EndsUnder script.now late wanted.now limits.items true }
    ensures ends { IfOk result (λ v. EndsUnder script.now late wanted.now v.items true) }
    ensures no_more { IfOk result (λ v. sum v.items ≤ sum limits.items) }
    ensures waits { Waits progress.old progress.new }
{
    if place >= limits.len() {
        return Ok(limits);
    }
    let less = less_at(
        rt,
        alloc,
        script,
        late,
        wanted,
        limits.as_slice(),
        place,
        step,
        progress,
    )?;
    match less {
        Some(less) => Ok(less),
        None => Ok(limits),
    }
}

/// Limits of which the one at this place is less by so much, if it isn't nothing then, and under which the script still
/// ends as wanted.
#[tactic(auto, using(dr_progress::proofs::Besides::waits_at_rest))]
fn less_at<R: Threads + Sync, T: Timer, E: Sink>(
    rt: &R,
    alloc: Global,
    script: &Script,
    late: Mask,
    wanted: &str,
    limits: &[u64],
    place: usize,
    step: u64,
    progress: &mut Progress<T, E>,
) -> Result<Option<Vec<u64>>, AllocError>
    requires { place < length limits.now }
    ensures ends { IfOk result (λ found. IfSome found
        (λ v. EndsUnder script.now late wanted.now v.items true × (sum v.items < sum limits.now))) }
    ensures waits { Waits progress.old progress.new }
{
    let limit = limits[place];
    let number = limit.saturating_sub(step);
    if number == 0 || number == limit {
        return Ok(None);
    }
    with_limit(
        rt, alloc, script, late, wanted, limits, place, number, progress,
    )
}

/// Limits of which one is less, and under which the script still ends as wanted; none where these are least.
fn lesser<R: Threads + Sync, T: Timer, E: Sink>(
    rt: &R,
    alloc: Global,
    script: &Script,
    late: Mask,
    wanted: &str,
    limits: &[u64],
    progress: &mut Progress<T, E>,
) -> Result<Option<Vec<u64>>, AllocError>
    ensures ends { IfOk result (λ found. MatchOption found (AreLeast script.now late wanted.now limits.now)
        (λ v. EndsUnder script.now late wanted.now v.items true × (sum v.items < sum limits.now))) }
    ensures waits { Waits progress.old progress.new }
{
    for place in 0..limits.len() {
        let found = lesser_at(rt, alloc, script, late, wanted, limits, place, progress)?;
        match found {
            Some(less) => return Ok(Some(less)),
            None => {}
        }
    }
    Ok(None)
}

/// The same of the limit at this place: it is 0, or one less.
#[tactic(auto, using(dr_progress::proofs::Besides::waits_at_rest))]
fn lesser_at<R: Threads + Sync, T: Timer, E: Sink>(
    rt: &R,
    alloc: Global,
    script: &Script,
    late: Mask,
    wanted: &str,
    limits: &[u64],
    place: usize,
    progress: &mut Progress<T, E>,
) -> Result<Option<Vec<u64>>, AllocError>
    requires { place < length limits.now }
    ensures ends { IfOk result (λ found. MatchOption found (IsLeastAt script.now late wanted.now limits.now place)
        (λ v. EndsUnder script.now late wanted.now v.items true × (sum v.items < sum limits.now))) }
    ensures waits { Waits progress.old progress.new }
{
    let limit = limits[place];
    if limit == 0 {
        return Ok(None);
    }
    let without = with_limit(rt, alloc, script, late, wanted, limits, place, 0, progress)?;
    match without {
        Some(less) => Ok(Some(less)),
        None => with_limit(
            rt,
            alloc,
            script,
            late,
            wanted,
            limits,
            place,
            limit - 1,
            progress,
        ),
    }
}

/// The limits with this lesser one at this place, if under them the script ends as wanted.
#[tactic(auto, using(dr_progress::proofs::Besides::waits_at_rest))]
fn with_limit<R: Threads + Sync, T: Timer, E: Sink>(
    rt: &R,
    alloc: Global,
    script: &Script,
    late: Mask,
    wanted: &str,
    limits: &[u64],
    place: usize,
    limit: u64,
    progress: &mut Progress<T, E>,
) -> Result<Option<Vec<u64>>, AllocError>
    requires place { place < length limits.now }
    requires lesser { limit < get_or limits.now place 0 }
    ensures ends { IfOk result (λ found. MatchOption found
        (EndsUnder script.now late wanted.now (slice_set limits.now place limit) false)
        (λ v. EndsUnder script.now late wanted.now v.items true × (sum v.items < sum limits.now))) }
    ensures waits { Waits progress.old progress.new }
{
    let less = replaced(alloc, limits, place, limit)?;
    let ends_so = ends_under(rt, alloc, script, late, wanted, less.as_slice(), progress)?;
    if ends_so { Ok(Some(less)) } else { Ok(None) }
}

/// The limits with this one at this place.
fn replaced(alloc: Global, limits: &[u64], place: usize, limit: u64) -> Result<Vec<u64>, AllocError>
    requires { place < length limits.now }
    ensures { IfOk result (λ v. v.items ≡ slice_set limits.now place limit) }
{
    let mut replaced = Vec::new(alloc);
    replaced.extend_from_slice(limits)?;
    replaced[place] = limit;
    Ok(replaced)
}

/// Whether the script under these limits ends as wanted.
#[tactic(auto, using(dr_progress::proofs::Besides::waits_at_rest))]
fn ends_under<R: Threads + Sync, T: Timer, E: Sink>(
    rt: &R,
    alloc: Global,
    script: &Script,
    late: Mask,
    wanted: &str,
    limits: &[u64],
    progress: &mut Progress<T, E>,
) -> Result<bool, AllocError>
    ensures ends { IfOk result (EndsUnder script.now late wanted.now limits.now) }
    ensures waits { Waits progress.old progress.new }
{
    let fewer = limited(alloc, script, limits)?;
    whole_ends_so(rt, alloc, &fewer, late, wanted, progress)
}
