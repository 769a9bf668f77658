//! What there is to tell of a deed that a member is about to do: its line, and its news.
ghost use Rattle.std.specs.Prelude.{◌≡◌, ◌||◌, ◌<◌, ◌≤◌, ◌++◌, None, OnOk, length, string_bytes, true};
ghost use Rattle.dr_machine.specs.declared.event.Act.TheVariants as acts;
ghost use Rattle.dr_member.specs.Deeds.{table_size};
ghost use Rattle.dr_program.specs.{Acts.{is_outside_act, may}, Form.IsRunningMember};
ghost use Rattle.dr_program.specs.Replica.{is_inside, may_deliver, may_send, me};
ghost use Rattle.dr_seeing.specs.Lines.{act_text, line_of, told};

use crate::lines::{
    push_appended, push_ended, push_look, push_number, push_voted, push_waiting, push_welcome,
    push_word,
};
use crate::news::{Change, News};
use crate::values::{push_item, push_message, push_value};
use dr_entry::{Item, MAX_MEMBERS, Value};
use dr_machine::{Act, Step};
use dr_member::{Deed, Member};
use dr_replica::Replica;
use dr_words::Mask;
use std::alloc::AllocError;
use std::fmt::Write;

/// Appends the line of the deed that is due to a member, which has not ended, over these words of the
/// table. A look that shows nothing new has no line, and no take has one.
///
/// # Errors
///
/// Want of memory alone.
pub fn push_line(out: &mut String, member: &Member, table: &[u64]) -> Result<(), AllocError>
    requires going { member.now.replica.end ≡ None }
    requires form { IsRunningMember member.now }
    requires size { table_size member.now ≤ length table.now }
    ensures { OnOk result (string_bytes out.new ≡ string_bytes out.old ++ line_of member.now table.now) }
{
    let replica = member.replica();
    let me = replica.me();
    match member.step() {
        Step::Do(act) => push_done(out, replica, act),
        Step::Look { row, column } => match member.next() {
            Deed::Look(index) => push_look(out, replica, row, column, table[index]),
            _ => Ok(()),
        },
        Step::Push { to, column } => push_word(out, me, "push ", to, column, replica.own(column)),
        Step::Append => push_appended(out, replica),
        Step::LogVote { value } => push_voted(out, replica, value),
        Step::Welcome { late } => push_welcome(out, replica, late),
        Step::Join => Ok(()),
    }
}

/// Appends the line of an act that a replica may do.
fn push_done(out: &mut String, replica: &Replica, act: Act) -> Result<(), AllocError>
    requires place { (is_outside_act act || is_inside replica.now) ≡ true }
    requires may { may replica.now act ≡ true }
    ensures { OnOk result
        (string_bytes out.new ≡ string_bytes out.old ++ told (me replica.now) (act_text replica.now act)) }
{
    let me = replica.me();
    write!(out, "{me} ")?;
    push_act(out, replica, act)?;
    out.push_str("\n")
}

/// Appends an act that a replica may do.
fn push_act(out: &mut String, replica: &Replica, act: Act) -> Result<(), AllocError>
    requires place { (is_outside_act act || is_inside replica.now) ≡ true }
    requires may { may replica.now act ≡ true }
    ensures { OnOk result (string_bytes out.new ≡ string_bytes out.old ++ act_text replica.now act) }
{
    match act {
        Act::Beat => push_number(out, "turn ", u64::from(replica.turns().saturating_add(1))),
        Act::Receive { sender } => push_take(out, replica, sender),
        Act::Send => push_put(out, replica),
        Act::Null => push_number(out, "null ", u64::from(replica.count(replica.me()))),
        Act::Deliver => push_delivery(out, replica),
        Act::Publish => push_number(out, "publish ", replica.logged()),
        Act::Report => push_number(out, "report ", replica.least_logged()),
        Act::Mark => out.push_str("mark"),
        Act::Suspect { other } => push_number(out, "suspect ", u64::from(other)),
        Act::Propose => push_waiting(out, "propose ", replica),
        Act::Accept => push_waiting(out, "accept ", replica),
        Act::Commit => push_commit(out, replica),
        Act::Finish => push_number(out, "finish ", u64::from(replica.next_view())),
        Act::Halt { end } => push_ended(out, end),
        Act::Crash { end } => push_ended(out, end),
    }
}

fn push_take(out: &mut String, replica: &Replica, sender: u8) -> Result<(), AllocError>
    requires { sender < replica.now.roster }
    ensures { OnOk result
        (string_bytes out.new ≡ string_bytes out.old ++ act_text replica.now (acts.Receive sender)) }
{
    let count = replica.count(sender);
    write!(out, "take {sender} {count}")
}

fn push_put(out: &mut String, replica: &Replica) -> Result<(), AllocError>
    requires { may_send replica.now ≡ true }
    ensures { OnOk result
        (string_bytes out.new ≡ string_bytes out.old ++ act_text replica.now acts.Send) }
{
    let count = replica.count(replica.me());
    write!(out, "put {count} ")?;
    push_message(out, replica.next_message().bytes())
}

fn push_delivery(out: &mut String, replica: &Replica) -> Result<(), AllocError>
    requires inside { is_inside replica.now ≡ true }
    requires may { may_deliver replica.now ≡ true }
    ensures { OnOk result
        (string_bytes out.new ≡ string_bytes out.old ++ act_text replica.now acts.Deliver) }
{
    let place = replica.next_place();
    write!(out, "deliver {place} ")?;
    push_item(out, replica, replica.next_sender(), replica.next_item())
}

fn push_commit(out: &mut String, replica: &Replica) -> Result<(), AllocError>
    ensures { OnOk result
        (string_bytes out.new ≡ string_bytes out.old ++ act_text replica.now acts.Commit) }
{
    out.push_str("commit ")?;
    push_value(out, replica.shape().members, &replica.accepted_value())
}

/// The news of the deed that is due to a member, which has not ended, where there is some.
pub fn news_of(member: &Member) -> Option<News<'_>>
    requires going { member.now.replica.end ≡ None }
    requires form { IsRunningMember member.now }
{
    match member.step() {
        Step::Do(act) => news_of_act(member.replica(), act),
        Step::LogVote { .. } => Some(News::Vote),
        Step::Welcome { late } => Some(News::Letter(late)),
        Step::Join => Some(News::Letterbox),
        _ => None,
    }
}

/// The news of an act that a replica may do, where there is some.
fn news_of_act(replica: &Replica, act: Act) -> Option<News<'_>>
    requires place { (is_outside_act act || is_inside replica.now) ≡ true }
    requires may { may replica.now act ≡ true }
{
    match act {
        Act::Beat => Some(News::Turn(replica.turns().saturating_add(1))),
        Act::Receive { sender } => Some(News::Taking {
            sender,
            count: replica.count(sender),
        }),
        Act::Send => Some(News::Put(replica.next_message())),
        Act::Null => Some(News::Filler),
        Act::Deliver => delivery(replica),
        Act::Publish => Some(News::Logged(replica.logged())),
        Act::Report => Some(News::Durable(replica.least_logged())),
        Act::Mark => None,
        Act::Suspect { other } => Some(suspicion(replica, other)),
        Act::Propose => proposal_news(replica),
        Act::Accept => Some(News::Acceptance),
        Act::Commit => Some(News::Commitment(change(replica, replica.accepted_value()))),
        Act::Finish => Some(next_view(replica)),
        Act::Halt { end } | Act::Crash { end } => Some(News::End(end)),
    }
}

/// The news of a proposal.
fn proposal_news(replica: &Replica) -> Option<News<'_>> {
    let vote = replica.waiting_vote()?;
    Some(News::Proposal(change(replica, vote.value)))
}

/// The news of a delivery: a null has none.
fn delivery(replica: &Replica) -> Option<News<'_>>
    requires inside { is_inside replica.now ≡ true }
    requires may { may_deliver replica.now ≡ true }
{
    let sender = replica.next_sender();
    match replica.next_item() {
        Item::Null => None,
        Item::Text(message) => Some(News::Delivery {
            sender,
            index: replica.messages_from(sender),
            message,
        }),
    }
}

/// The news that a replica suspects another one of its view, or wishes for one that isn't in it.
fn suspicion(replica: &Replica, other: u8) -> News<'_> {
    if other < MAX_MEMBERS as u8 && replica.members().has(other) {
        News::Suspicion(other)
    } else {
        News::Wish(other)
    }
}

/// What a value says of the view of a replica.
fn change(replica: &Replica, value: Value) -> Change {
    let names = Mask::of(value.leavers);
    let newcomers = names.without(replica.members());
    let trim = value.trim;
    Change {
        leavers: names.without(newcomers).bits(),
        newcomers: newcomers.bits(),
        trim,
    }
}

/// The news that a replica goes on to its next view.
fn next_view(replica: &Replica) -> News<'_> {
    let places = match replica.committed_value() {
        Some(value) => sum_of(value.trim.as_slice()),
        None => 0,
    };
    News::NextView {
        number: replica.next_view(),
        coming: places.saturating_sub(replica.next_place()),
    }
}

/// The sum of these numbers.
fn sum_of(numbers: &[u32]) -> u64 {
    let mut sum = 0u64;
    for number in numbers {
        sum = sum.saturating_add(u64::from(*number));
    }
    sum
}
