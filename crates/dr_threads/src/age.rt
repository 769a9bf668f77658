//! The run of the members of a hand.
ghost use Rattle.std.specs.Prelude.{◌≡◌, ◌<◌, ◌≤◌, ◌+◌, ◌++◌, IfErr, IfOk, List, length, vec_capacity, Option};
ghost use Rattle.std.specs.Thread.{IsSync};
ghost use Rattle.dr_log.specs.State.{LogState};
ghost use Rattle.dr_program.specs.Running.{Running};
ghost use Rattle.dr_threads.specs.{Answers.{IsHandAnswer, logs_of, room_of}, Logs.AreFor};

use crate::member::run_member;
use dr_disk::Disk;
use dr_log::Log;
use dr_pace::Pace;
use dr_table::{Board, Hand, gather_hands};
use std::alloc::{AllocError, Global};
use std::thread;
use std::thread::Threads;

/// Runs the members of a hand to their ends, each in a thread, with the log at its place; `pace` is told
/// of their turns. It answers a hand of the same board, with the same members in the same order, all of
/// which have ended, and their logs.
///
/// # Errors
///
/// Want of memory alone. The hand is given up then; each log has what it had, and maybe more.
pub fn run_age<R: Threads + Sync, D: Disk, P: Pace + Sync>(
    rt: &R,
    alloc: Global,
    board: &Board,
    hand: Hand,
    logs: Vec<Option<Log<D>>>,
    pace: &P,
) -> Result<(Hand, Vec<Option<Log<D>>>), (Vec<Option<Log<D>>>, AllocError)>
    requires board { hand.table ≡ board.now.table }
    requires some { 0 < length hand.members }
    requires logs { AreFor logs.items hand.members }
    ensures run { IsHandAnswer D.told D.faults board.now.table hand.members logs.items result }
    ensures room { vec_capacity logs ≤ room_of result }
{
    if hand.len() == 1 {
        return run_one(board, hand, logs, pace);
    }
    let ((left, logs), (right, more)) = halve(alloc, board, hand, logs)?;
    let (first, second) = thread::join(
        rt,
        move || -> Result<(Hand, Vec<Option<Log<D>>>), (Vec<Option<Log<D>>>, AllocError)>
            requires { IsSync R.row × IsSync P.row × (left.table ≡ board.now.table)
                × (0 < length left.members) × AreFor logs.items left.members }
            ensures { IsHandAnswer D.told D.faults board.entry.now.table left.members logs.items result
                × (vec_capacity logs ≤ room_of result) }
        { run_age(rt, alloc, board, left, logs, pace) },
        move || -> Result<(Hand, Vec<Option<Log<D>>>), (Vec<Option<Log<D>>>, AllocError)>
            requires { IsSync R.row × IsSync P.row × (right.table ≡ board.now.table)
                × (0 < length right.members) × AreFor more.items right.members }
            ensures { IsHandAnswer D.told D.faults board.entry.now.table right.members more.items result }
        { run_age(rt, alloc, board, right, more, pace) },
    );
    gather_ends(board, first, second)
}

/// Runs the one member of a hand to its end, with its log, once that has room for all that the member may
/// append. Where the place is that of a member that is absent there is nothing to run.
fn run_one<D: Disk, P: Pace>(
    board: &Board,
    hand: Hand,
    mut logs: Vec<Option<Log<D>>>,
    pace: &P,
) -> Result<(Hand, Vec<Option<Log<D>>>), (Vec<Option<Log<D>>>, AllocError)>
    requires board { hand.table ≡ board.now.table }
    requires one { length hand.members ≡ 1 }
    requires logs { AreFor logs.items hand.members }
    ensures run { IsHandAnswer D.told D.faults board.now.table hand.members logs.items result }
    ensures room { vec_capacity logs ≤ room_of result }
{
    let mut seated = match hand.seated() {
        Ok(seated) => seated,
        Err(empty) => return Ok((empty, logs)),
    };
    let Some(log) = &mut logs[0] else {
        unreachable!()
    };
    let member = seated.member();
    if let Err(error) = log.reserve(member.appends_left(), member.votes_left()) {
        return Err((logs, error));
    }
    run_member(board, &mut seated, log, pace);
    Ok((seated.into_hand(), logs))
}

/// Cuts a hand of several members, and their logs, in two halves. The first list of logs keeps its room.
fn halve<D: Disk>(
    alloc: Global,
    board: &Board,
    hand: Hand,
    mut logs: Vec<Option<Log<D>>>,
) -> Result<
    ((Hand, Vec<Option<Log<D>>>), (Hand, Vec<Option<Log<D>>>)),
    (Vec<Option<Log<D>>>, AllocError),
>
    requires board { hand.table ≡ board.now.table }
    requires several { 1 < length hand.members }
    requires logs { AreFor logs.items hand.members }
    ensures tables { IfOk result (λ r. (r.0.0.table ≡ board.now.table) × (r.1.0.table ≡ board.now.table)) }
    ensures some { IfOk result (λ r. (0 < length r.0.0.members) × (0 < length r.1.0.members)) }
    ensures less { IfOk result (λ r. (length r.0.0.members < length hand.members)
        × (length r.1.0.members < length hand.members)) }
    ensures logs { IfOk result (λ r. AreFor r.0.1.items r.0.0.members × AreFor r.1.1.items r.1.0.members) }
    ensures members { IfOk result (λ r. r.0.0.members ++ r.1.0.members ≡ hand.members) }
    ensures parts { IfOk result (λ r. r.0.1.items ++ r.1.1.items ≡ logs.items) }
    ensures room { IfOk result (λ r. (vec_capacity logs ≤ vec_capacity r.0.1)
        × (length r.0.1.items + length r.1.1.items ≤ vec_capacity r.0.1)) }
    ensures error { IfErr result (λ r. r.0 ≡ logs) }
{
    let half = hand.len() / 2;
    let (left, right) = match hand.split(alloc, board, half) {
        Ok(halves) => halves,
        Err((_, error)) => return Err((logs, error)),
    };
    match logs.split_off(half) {
        Ok(more) => Ok(((left, logs), (right, more))),
        Err(error) => Err((logs, error)),
    }
}

/// The answers of two halves as one: the hand of both, where both have run, and their logs in one list,
/// for which the first has room.
fn gather_ends<D: Disk>(
    board: &Board,
    first: Result<(Hand, Vec<Option<Log<D>>>), (Vec<Option<Log<D>>>, AllocError)>,
    second: Result<(Hand, Vec<Option<Log<D>>>), (Vec<Option<Log<D>>>, AllocError)>,
) -> Result<(Hand, Vec<Option<Log<D>>>), (Vec<Option<Log<D>>>, AllocError)>
    requires first { IfOk first (λ r. r.0.table ≡ board.now.table) }
    requires second { IfOk second (λ r. r.0.table ≡ board.now.table) }
    requires room { length (logs_of first) + length (logs_of second) ≤ room_of first }
    ensures run { (before after : List (Option Running)) (logs more : List (Option (LogState D)))
        → AreFor logs before → AreFor more after
        → IsHandAnswer D.told D.faults board.now.table before logs first
        → IsHandAnswer D.told D.faults board.now.table after more second
        → IsHandAnswer D.told D.faults board.now.table (before ++ after) (logs ++ more) result }
    ensures room { room_of first ≤ room_of result }
{
    // The first list has room for both, so each append answers Ok.
    match (first, second) {
        (Ok((a, mut logs)), Ok((b, mut more))) => {
            let _room = logs.append(&mut more);
            Ok((gather_hands(board, a, b), logs))
        }
        (Ok((_, mut logs)), Err((mut more, error))) => {
            let _room = logs.append(&mut more);
            Err((logs, error))
        }
        (Err((mut logs, error)), Ok((_, mut more))) => {
            let _room = logs.append(&mut more);
            Err((logs, error))
        }
        (Err((mut logs, error)), Err((mut more, _))) => {
            let _room = logs.append(&mut more);
            Err((logs, error))
        }
    }
}
