//! The run of one member.
ghost use Rattle.std.specs.Prelude.{◌≡◌, ◌<◌, length, true, None};
ghost use Rattle.dr_machine.specs.{Effects.{one_more}, declared.step.Step.TheVariants.{Append}};
ghost use Rattle.dr_play.specs.Persisted.{HasPersisted};
ghost use Rattle.dr_served.specs.Served.{IsReady, entries_due};
ghost use Rattle.dr_member.specs.Deeds.{is_append};
ghost use Rattle.dr_program.specs.Running.{next_deed, next_step};
ghost use Rattle.dr_table.specs.Cards.{IsAtEnd};
ghost use Rattle.dr_threads.specs.Course.{HasGone};
ghost use Rattle.dr_turn.specs.Work.{deeds_left};

use dr_disk::Disk;
use dr_log::Log;
use dr_member::{Deed, LogWhy, Member};
use dr_pace::Pace;
use dr_play::{Together, append_due, append_together};
use dr_served::why_of;
use dr_table::{Board, SeatedMember};

/// Runs a member to its end, with its log.
pub(crate) fn run_member<D: Disk, P: Pace>(
    board: &Board,
    seated: &mut SeatedMember,
    log: &mut Log<D>,
    pace: &P,
)
    requires board { seated.old.table ≡ board.now.table }
    requires ready { IsReady log.old seated.old.member }
    ensures table { seated.new.table ≡ seated.old.table }
    ensures ended { IsAtEnd seated.new.member }
    ensures gone { HasGone D.told D.faults seated.old.member log.old seated.new.member log.new }
{
    let begun = seated.member();
    let mut next_act = begun.acts_after();
    while seated.member().end().is_none() {
        take(board, seated, log);
        let member = seated.member();
        if member.is_between_turns() {
            next_act = tell_turn(pace, member, next_act);
        }
    }
    pace.rest(seated.member().me());
}

/// Tells the pace of the turn that the member has taken, before which its next act had this number. Answers the
/// number of its next act now.
fn tell_turn<P: Pace>(pace: &P, member: &Member, before: u64) -> u64
    ensures { result ≡ one_more 64 member.now.replica.acts }
{
    let next_act = member.acts_after();
    // The beat is an act of each turn.
    if next_act <= before.saturating_add(1) {
        pace.idle(member.me(), member.turns());
    } else {
        pace.turn(member.me(), member.turns());
    }
    next_act
}

/// A member that has not ended takes its next deed.
#[inline(always)]
fn take<D: Disk>(board: &Board, seated: &mut SeatedMember, log: &mut Log<D>)
    requires board { seated.old.table ≡ board.now.table }
    requires going { seated.old.member.replica.end ≡ None }
    requires ready { IsReady log.old seated.old.member }
    ensures table { seated.new.table ≡ seated.old.table }
    ensures gone { HasGone D.told D.faults seated.old.member log.old seated.new.member log.new }
    ensures falls { deeds_left seated.new.member < deeds_left seated.old.member }
{
    match seated.member().next() {
        Deed::Look(_) => seated.look_row(board),
        Deed::Push(_, _) => seated.push_row(board),
        Deed::Act(word, new) => seated.act(board, word, new),
        Deed::Append(_) => append_all(board, seated, log),
        Deed::Give { late } => seated.give(board, late),
        Deed::Take => seated.take(board),
        Deed::Rest(_) => {}
    }
}

/// A member whose next deed is an append does it. Where all entries that are due go to its log together, it does with
/// it those behind it, and the acts between them.
#[inline(never)]
fn append_all<D: Disk>(board: &Board, seated: &mut SeatedMember, log: &mut Log<D>)
    requires board { seated.old.table ≡ board.now.table }
    requires deed { is_append (next_deed seated.old.member) ≡ true }
    requires ready { IsReady log.old seated.old.member }
    ensures table { seated.new.table ≡ seated.old.table }
    ensures gone { HasGone D.told D.faults seated.old.member log.old seated.new.member log.new }
    ensures falls { deeds_left seated.new.member < deeds_left seated.old.member }
{
    match append_together(log, seated.member()) {
        Together::Appended => persist(board, seated),
        Together::Failed => seated.append_failed(&LogWhy::DiskFault),
        Together::Apart => append(seated, log),
    }
}

/// The member takes note of all entries that are due, which are on its log, and publishes each.
fn persist(board: &Board, seated: &mut SeatedMember)
    requires board { seated.old.table ≡ board.now.table }
    requires going { seated.old.member.replica.end ≡ None }
    requires due { next_step seated.old.member ≡ Append }
    ensures table { seated.new.table ≡ seated.old.table }
    ensures persisted { HasPersisted (length (entries_due seated.old.member.replica)) seated.old.member
        seated.new.member }
    ensures falls { deeds_left seated.new.member < deeds_left seated.old.member }
{
    for _ in 0..seated.member().entries_due().len() {
        seated.appended();
        let Deed::Act(word, new) = seated.member().next() else {
            unreachable!()
        };
        seated.act(board, word, new);
    }
}

/// A member whose next deed is an append does it.
#[inline(never)]
fn append<D: Disk>(seated: &mut SeatedMember, log: &mut Log<D>)
    requires deed { is_append (next_deed seated.old.member) ≡ true }
    requires ready { IsReady log.old seated.old.member }
    ensures table { seated.new.table ≡ seated.old.table }
    ensures gone { HasGone D.told D.faults seated.old.member log.old seated.new.member log.new }
    ensures falls { deeds_left seated.new.member < deeds_left seated.old.member }
{
    match append_due(log, seated.member()) {
        Ok(()) => seated.appended(),
        Err(fault) => seated.append_failed(&why_of(fault)),
    }
}
