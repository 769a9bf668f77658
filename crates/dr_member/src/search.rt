//! The search for the next place of a turn at which there is something to do.
ghost use Rattle.std.specs.Prelude.{length, ◌≡◌, ℕ, ◌<◌, ◌≤◌, ◌||◌, true, false, MatchOption, None, Some};
ghost use Rattle.dr_program.specs.declared.place.Part.TheVariants as parts;
ghost use Rattle.dr_program.specs.declared.place.Place.{Place};
ghost use Rattle.dr_program.specs.declared.place.TheConstants.{TURN};
ghost use Rattle.dr_program.specs.Replica.{is_inside, value_due};
ghost use Rattle.dr_program.specs.Running.{applies, crashes_now, end_by, goes, settled, step_of};
ghost use Rattle.dr_program.specs.Turn.{IsIn, after, columns_in, part_of, rows_in};
ghost use Rattle.dr_program.specs.Form.{HasForm};
ghost use Rattle.dr_machine.specs.declared.event.Act.TheVariants.{Crash};
ghost use Rattle.dr_words.specs.Columns.{columns_of};
ghost use Rattle.dr_rows.specs.Words.{changed};
ghost use Rattle.dr_turn.specs.Search.{IsUnderway};
ghost use Rattle.dr_member.specs.{Fate.IsTimely, Ready.KeepsReady};
ghost use Rattle.dr_member.specs.Search.{IsFirstDue, IsIdleTo, is_calm, next_row, standing, step_by};
ghost use Rattle.dr_member.specs.declared.search.Due.TheVariants as dues;

use crate::fate::{Fate, end_by};
use crate::judge::{judged, may_judge};
use dr_entry::End;
use dr_machine::{Act, Step};
use dr_program::{LogWhy, Part, PartName, Place, TURN, TURN_ENDS};
use dr_replica::Replica;
use dr_words::Shape;

/// The numbers of the parts of a turn that have the looks and the pushes, of those whose acts come up most, of
/// the part behind the letters, and of the part before a turn.
pub(crate) const LOOKS: u8 = PartName::Look as u8;

pub(crate) const RECEIVES: u8 = PartName::Receive as u8;

pub(crate) const SENDS: u8 = PartName::Send as u8;

pub(crate) const DELIVERS: u8 = PartName::Deliver as u8;

pub(crate) const PUBLISHES: u8 = PartName::Publish as u8;

pub(crate) const REPORTS: u8 = PartName::Report as u8;

pub(crate) const PUSHES: u8 = PartName::Push as u8;

pub(crate) const SPENT: u8 = PartName::Spent as u8;

pub(crate) const BEAT: u8 = PartName::Beat as u8;

/// Goes on to the first place of the turn, from this one on, at which there is something to do. Stays,
/// where the member has ended. Where nothing of a vote is due, it goes past the parts of votes at once, and where
/// nobody has come into the view, past the letters. Whoever calls it says whether the member is in its view, and
/// at which part this place is.
#[inline(always)]
pub(crate) fn settle(
    replica: &Replica,
    fate: &Fate,
    place: &mut Place,
    ready: &mut u16,
    inside: bool,
    part: u8,
)
    requires underway { IsUnderway (standing replica.now fate.now place.old) }
    requires fate { IsTimely fate.now replica.now.turns }
    requires ready { KeepsReady replica.now place.old ready.old }
    requires inside { inside ≡ is_inside replica.now }
    requires part { part ≡ place.old.part }
    ensures place { standing replica.now fate.now place.new
        ≡ settled (standing replica.now fate.now place.old) }
    ensures ready { KeepsReady replica.now place.new ready.new }
{
    if replica.end().is_some() {
        return;
    }
    if inside {
        settle_inside(replica, fate, place, ready, part);
    } else {
        settle_outside(replica, fate, place, ready);
    }
}

/// The same of a member that has not ended, and is in its view: no place asks that again. Behind most acts there
/// is more of the same to do, so that is asked first.
#[inline(always)]
fn settle_inside(replica: &Replica, fate: &Fate, place: &mut Place, ready: &mut u16, part: u8)
    requires underway { IsUnderway (standing replica.now fate.now place.old) }
    requires fate { IsTimely fate.now replica.now.turns }
    requires ready { KeepsReady replica.now place.old ready.old }
    requires going { replica.now.end ≡ None }
    requires inside { is_inside replica.now ≡ true }
    requires part { part ≡ place.old.part }
    ensures place { standing replica.now fate.now place.new
        ≡ settled (standing replica.now fate.now place.old) }
    ensures ready { KeepsReady replica.now place.new ready.new }
{
    let here = Place {
        part,
        row: place.row,
        column: place.column,
    };
    if applies_inside(replica, fate, here, *ready) {
        return;
    }
    loop {
        match *part_of(*place) {
            Part::Take => place.part = LOOKS,
            Part::Vote if is_calm(replica, fate) => place.part = PUSHES,
            Part::Give if replica.has_no_newcomers() => {
                place.row = 0;
                place.part = SPENT;
            }
            _ => {
                if let Some(column) = first_inside(replica, fate, *place, *ready) {
                    place.column = column;
                    return;
                }
                enter_row(replica, place, ready);
            }
        }
    }
}

/// The same of a late member that hasn't joined. Out of line, as few members are late.
#[inline(never)]
fn settle_outside(replica: &Replica, fate: &Fate, place: &mut Place, ready: &mut u16)
    requires underway { IsUnderway (standing replica.now fate.now place.old) }
    requires fate { IsTimely fate.now replica.now.turns }
    requires ready { KeepsReady replica.now place.old ready.old }
    requires going { replica.now.end ≡ None }
    requires outside { is_inside replica.now ≡ false }
    ensures place { standing replica.now fate.now place.new
        ≡ settled (standing replica.now fate.now place.old) }
    ensures ready { KeepsReady replica.now place.new ready.new }
{
    loop {
        if let Some(column) = first_outside(replica, fate, *place) {
            place.column = column;
            return;
        }
        enter_row(replica, place, ready);
    }
}

/// Whether nothing of a vote is due: no append has failed, the member suspects nobody, and no value that it
/// has committed names it.
#[inline(always)]
fn is_calm(replica: &Replica, fate: &Fate) -> bool
    ensures { result ≡ is_calm replica.now fate.now }
{
    fate.failed.is_none() && !replica.is_wedged() && !replica.is_named()
}

/// Goes on from what comes after the row to the first place at which there is something to do, for a member that
/// is in its view, as who looks and pushes is. Out of line, it leaves looks and pushes a small loop.
#[inline(never)]
pub(crate) fn leave_row(replica: &Replica, fate: &Fate, place: &mut Place, ready: &mut u16)
    requires place { IsIn replica.now.roster (columns_of replica.now.roster replica.now.window) place.old }
    requires underway { IsUnderway (standing replica.now fate.now (next_row replica.now.roster place.old)) }
    requires fate { IsTimely fate.now replica.now.turns }
    requires inside { is_inside replica.now ≡ true }
    ensures place { standing replica.now fate.now place.new
        ≡ settled (standing replica.now fate.now (next_row replica.now.roster place.old)) }
    ensures ready { KeepsReady replica.now place.new ready.new }
{
    enter_row(replica, place, ready);
    let part = place.part;
    settle(replica, fate, place, ready, true, part);
}

/// Goes on to what comes after the row. Where items of another member are received there, it sweeps the ring
/// of that one, once for all of them.
#[inline(always)]
fn enter_row(replica: &Replica, place: &mut Place, ready: &mut u16)
    requires place { IsIn replica.now.roster (columns_of replica.now.roster replica.now.window) place.old }
    requires next { IsIn replica.now.roster (columns_of replica.now.roster replica.now.window)
        (next_row replica.now.roster place.old) }
    ensures place { place.new ≡ next_row replica.now.roster place.old }
    ensures ready { KeepsReady replica.now place.new ready.new }
{
    next_row(&replica.shape(), place);
    match *part_of(*place) {
        Part::Receive if replica.is_other(place.row) => *ready = replica.ready_items(place.row),
        _ => {}
    }
}

/// The first column of the row, from this place on, at which there is something to do for a member that is in
/// its view.
#[inline(always)]
fn first_inside(replica: &Replica, fate: &Fate, place: Place, ready: u16) -> Option<usize>
    requires underway { IsUnderway (standing replica.now fate.now place) }
    requires fate { IsTimely fate.now replica.now.turns }
    requires ready { KeepsReady replica.now place ready }
    requires inside { is_inside replica.now ≡ true }
    ensures { MatchOption result
        (IsIdleTo (standing replica.now fate.now place) place
        (columns_in (columns_of replica.now.roster replica.now.window) (part_of place)))
        (IsFirstDue (standing replica.now fate.now place) place) }
{
    match *part_of(place) {
        Part::Push => first_push(replica, fate, place),
        _ => applies_inside(replica, fate, place, ready).then_some(place.column),
    }
}

/// The same for a late member that hasn't joined.
#[inline(always)]
fn first_outside(replica: &Replica, fate: &Fate, place: Place) -> Option<usize>
    requires underway { IsUnderway (standing replica.now fate.now place) }
    requires fate { IsTimely fate.now replica.now.turns }
    requires outside { is_inside replica.now ≡ false }
    ensures { MatchOption result
        (IsIdleTo (standing replica.now fate.now place) place
        (columns_in (columns_of replica.now.roster replica.now.window) (part_of place)))
        (IsFirstDue (standing replica.now fate.now place) place) }
{
    match *part_of(place) {
        Part::Push => first_push(replica, fate, place),
        _ => applies_outside(replica, fate, place).then_some(place.column),
    }
}

/// The first column of the row, from this place on, of which there is a push to do, or a crash just before it.
#[inline(always)]
fn first_push(replica: &Replica, fate: &Fate, place: Place) -> Option<usize>
    requires part { part_of place ≡ parts.Push }
    requires underway { IsUnderway (standing replica.now fate.now place) }
    requires fate { IsTimely fate.now replica.now.turns }
    ensures { MatchOption result
        (IsIdleTo (standing replica.now fate.now place) place
        (columns_in (columns_of replica.now.roster replica.now.window) (part_of place)))
        (IsFirstDue (standing replica.now fate.now place) place) }
{
    if !replica.is_other(place.row) {
        return None;
    }
    if !has_pushes(replica, fate) {
        return None;
    }
    let columns = replica.shape().columns();
    let next = next_changed(replica, columns, place.row, place.column);
    if next < columns { Some(next) } else { None }
}

/// Whether the member is in its view, where it pushes, or crashes just before its next push.
#[inline(always)]
fn has_pushes(replica: &Replica, fate: &Fate) -> bool
    requires { IsTimely fate.now replica.now.turns }
    ensures { (place : Place) → result
        ≡ (is_inside replica.now || crashes_now (standing replica.now fate.now place)) }
{
    replica.is_inside() || fate.crashes_now()
}

/// Whether there is something to do at a place for a member that is in its view.
#[inline(always)]
fn applies_inside(replica: &Replica, fate: &Fate, place: Place, ready: u16) -> bool
    requires underway { IsUnderway (standing replica.now fate.now place) }
    requires fate { IsTimely fate.now replica.now.turns }
    requires ready { KeepsReady replica.now place ready }
    requires inside { is_inside replica.now ≡ true }
    ensures { result ≡ applies (standing replica.now fate.now place) place }
{
    let Place { row, column, .. } = place;
    match *part_of(place) {
        Part::Look => replica.is_other(row) && !replica.is_suspected(row),
        Part::Judge => may_judge(replica, fate),
        Part::Receive => replica.takes_from(row) && ready & 1 == 1,
        Part::Do(act) => replica.may(act),
        Part::Append => fate.failed.is_some() || replica.may_append(),
        Part::Vote => fate.failed.is_some() || replica.votes(),
        Part::Excluded => replica.is_named(),
        Part::Push => replica.is_other(row) && replica.has_changed(row, column),
        Part::Crash => fate.crashes_in_turn(),
        Part::Done => replica.may(Act::Halt { end: End::Done }),
        Part::Give => replica.may_give(row),
        Part::Spent => replica.turns() == fate.limit,
        Part::Take => false,
    }
}

/// Whether there is something to do at a place for a late member that hasn't joined: it takes its letter, begins
/// turns and crashes.
#[inline(always)]
fn applies_outside(replica: &Replica, fate: &Fate, place: Place) -> bool
    requires underway { IsUnderway (standing replica.now fate.now place) }
    requires fate { IsTimely fate.now replica.now.turns }
    requires outside { is_inside replica.now ≡ false }
    ensures { result ≡ applies (standing replica.now fate.now place) place }
{
    let Place { row, column, .. } = place;
    match *part_of(place) {
        Part::Take => true,
        Part::Do(act) => replica.allows(Step::Do(act)),
        Part::Append | Part::Vote => fate.failed.is_some(),
        Part::Push => {
            replica.is_other(row) && (replica.has_changed(row, column) && fate.crashes_now())
        }
        Part::Crash => fate.crashes_in_turn(),
        Part::Spent => replica.turns() == fate.limit,
        Part::Look | Part::Judge | Part::Receive | Part::Excluded | Part::Done | Part::Give =>
            false,
    }
}

/// The part of a place.
#[inline(always)]
pub(crate) fn part_of(place: Place) -> &'static Part
    requires { place.part < length TURN }
    ensures { result.now ≡ part_of place }
{
    &TURN[usize::from(place.part)]
}

/// What is due at a place: the kind of its step, and the act that it does. The step itself would have the
/// value of a vote in it, which is large.
#[derive(Clone, Copy)]
pub(crate) enum Due {
    /// The look at the place's row and column.
    Look,
    /// The push to the place's row of its column.
    Push,
    /// The append of the next entry.
    Append,
    /// The append of the vote that is due.
    Vote,
    /// The letter for the member of the place's row.
    Give,
    /// The take of the own letter.
    Take,
    /// An act.
    Act(Act),
}

/// What is due at a place.
#[inline(always)]
pub(crate) fn due_at(replica: &Replica, fate: &Fate, place: Place) -> Due
    requires place { place.part < length TURN }
    requires fate { IsTimely fate.now replica.now.turns }
    ensures { step_by result place (value_due replica.now)
        ≡ step_of (standing replica.now fate.now place) place }
{
    match *part_of(place) {
        Part::Look => Due::Look,
        Part::Give => Due::Give,
        Part::Take => Due::Take,
        Part::Judge => Due::Act(judged(replica, fate)),
        Part::Receive => Due::Act(Act::Receive { sender: place.row }),
        Part::Append => unless_failed(Due::Append, fate.failed),
        Part::Vote => unless_failed(Due::Vote, fate.failed),
        Part::Excluded => Due::Act(Act::Halt {
            end: End::Excluded {
                view: replica.next_view(),
            },
        }),
        Part::Push if fate.crashes_now() => Due::Act(Act::Crash { end: End::Crashed }),
        Part::Push => Due::Push,
        Part::Crash => Due::Act(Act::Crash { end: End::Crashed }),
        Part::Done => Due::Act(Act::Halt { end: End::Done }),
        Part::Spent => Due::Act(Act::Crash {
            end: End::Spent {
                turns: replica.turns(),
            },
        }),
        Part::Do(act) => Due::Act(act),
    }
}

/// This, or the end of a member whose append has failed.
fn unless_failed(due: Due, failed: Option<LogWhy>) -> Due
    ensures none { failed ≡ None → result ≡ due }
    ensures some { (why : LogWhy) → failed ≡ Some why → result ≡ dues.Act (Crash (end_by why)) }
{
    match failed {
        Some(why) => Due::Act(Act::Crash { end: end_by(why) }),
        None => due,
    }
}

/// The next column, from this one on, whose own word differs from the one last pushed to a member, or
/// the number of columns where there is none.
pub(crate) fn next_changed(replica: &Replica, columns: usize, to: u8, from: usize) -> usize
    requires form { HasForm replica.now }
    requires columns { columns ≡ columns_of replica.now.roster replica.now.window }
    requires to { to < replica.now.roster }
    requires from { from ≤ columns_of replica.now.roster replica.now.window }
    ensures from { from ≤ result }
    ensures within { result ≤ columns_of replica.now.roster replica.now.window }
    ensures unchanged { (c : ℕ) → from ≤ c → c < result → changed replica.now.rows to c ≡ false }
    ensures changed { result < columns_of replica.now.roster replica.now.window
        → changed replica.now.rows to result ≡ true }
{
    for column in from..columns {
        if replica.has_changed(to, column) {
            return column;
        }
    }
    columns
}

/// Goes on to what comes after the row.
#[inline(always)]
fn next_row(shape: &Shape, place: &mut Place)
    requires { IsIn shape.now.members (columns_of shape.now.members shape.now.window) place.old }
    ensures { place.new ≡ next_row shape.now.members place.old }
{
    place.column = 0;
    if place.row + 1 < rows_in(shape, *part_of(*place)) {
        place.row += 1;
        return;
    }
    place.row = 0;
    place.part = if usize::from(place.part) + 1 < TURN.len() {
        place.part + 1
    } else {
        0
    };
}

/// Goes on to the next place.
#[inline(always)]
fn step_on(shape: &Shape, place: &mut Place)
    requires { IsIn shape.now.members (columns_of shape.now.members shape.now.window) place.old }
    ensures { place.new ≡ after shape.now.members (columns_of shape.now.members shape.now.window) place.old }
{
    let next = place.column + 1;
    if next < columns_in(shape, *part_of(*place)) {
        place.column = next;
    } else {
        next_row(shape, place);
    }
}

/// How many rows a part has.
#[inline(always)]
fn rows_in(shape: &Shape, part: Part) -> u8
    ensures { result ≡ rows_in shape.now.members part }
{
    match part {
        Part::Look | Part::Receive | Part::Push | Part::Give => shape.members,
        _ => 1,
    }
}

/// How many columns a row of a part has.
#[inline(always)]
fn columns_in(shape: &Shape, part: Part) -> usize
    ensures { result ≡ columns_in (columns_of shape.now.members shape.now.window) part }
{
    match part {
        Part::Look | Part::Push => shape.columns(),
        _ => 1,
    }
}

/// Goes on to where the member stands after the deed of this place.
#[inline(always)]
pub(crate) fn go(shape: &Shape, place: &mut Place)
    requires { IsIn shape.now.members (columns_of shape.now.members shape.now.window) place.old }
    ensures { place.new ≡ goes shape.now.members (columns_of shape.now.members shape.now.window)
        (part_of place.old) place.old }
{
    match *part_of(*place) {
        Part::Look | Part::Push => step_on(shape, place),
        Part::Append | Part::Vote => next_row(shape, place),
        Part::Take => {
            *place = Place {
                part: TURN_ENDS,
                row: 0,
                column: 0,
            }
        }
        Part::Do(Act::Publish) => place.part = place.part.saturating_sub(1),
        _ if place.part == BEAT => next_row(shape, place),
        _ => {}
    }
}
