//! What a member waited for until its turns were spent.
ghost use Rattle.std.specs.Prelude.{◌≡◌, ◌<◌, ◌≤◌, true};

use crate::lines::push_number;
use dr_entry::End;
use dr_member::Member;
use dr_replica::Replica;
use dr_text::{push_end, push_mask};
use dr_words::{
    DONE_COLUMN, LOGGED_COLUMN, Mask, RECEIVED_COLUMN, SUSPECTED_COLUMN, unpack_accept,
};
use std::alloc::AllocError;
use std::fmt::Write;

/// Appends a line for each thing that a member waits for and each member that it waits for, where its turns
/// were spent: by what it has seen of that member, by what is true of that one, and by how it has ended.
///
/// # Errors
///
/// Want of memory alone.
pub fn push_waits(
    out: &mut String,
    member: &Member,
    members: &[Option<Member>],
) -> Result<(), AllocError> {
    let Some(End::Spent { .. }) = member.end() else {
        return Ok(());
    };
    let replica = member.replica();
    if !replica.is_inside() {
        return push_outside(out, replica);
    }
    if replica.is_wedged() {
        return push_change(out, replica, members);
    }
    if replica.own(DONE_COLUMN) == 1 {
        return push_missing(out, replica, members, Kind::Done, 0);
    }
    push_unlogged(out, replica, members)?;
    push_item_wait(out, replica, members)
}

/// Whether all that a member has delivered is durable.
fn is_durable(replica: &Replica) -> bool {
    replica.durable() >= replica.history().len() as u64
}

/// Appends that a member waits for its entries to be on the logs of others, where not all are durable.
fn push_unlogged(
    out: &mut String,
    replica: &Replica,
    members: &[Option<Member>],
) -> Result<(), AllocError> {
    if is_durable(replica) {
        return Ok(());
    }
    push_missing(out, replica, members, Kind::Logged, replica.durable())
}

/// Appends that a member waits for the item of the next place: for others to have received it, where it has,
/// and else for it to be put. A member some entries of which aren't durable waits for those instead.
fn push_item_wait(
    out: &mut String,
    replica: &Replica,
    members: &[Option<Member>],
) -> Result<(), AllocError> {
    // With its number it tells that it has its form, and so how many columns its rows have.
    let _ = replica.me();
    let place = replica.next_place();
    if replica.own(RECEIVED_COLUMN) > place {
        return push_missing(out, replica, members, Kind::Received, place);
    }
    if !is_durable(replica) {
        return Ok(());
    }
    push_put(out, replica, members)
}

/// Appends that a late member waits for its letter.
fn push_outside(out: &mut String, replica: &Replica) -> Result<(), AllocError> {
    let me = replica.me();
    writeln!(
        out,
        "member {me} waits for: a letter, with which it comes into the view"
    )
}

/// The member of a number, if it is there.
fn member_at(members: &[Option<Member>], number: u8) -> Option<&Member> {
    members.get(usize::from(number))?.as_ref()
}

/// Appends that a member waits for another one, and how that one has ended.
fn push_awaited(out: &mut String, me: u8, number: u8, end: Option<End>) -> Result<(), AllocError> {
    write!(out, "member {me} waits for: member {number}")?;
    push_fate(out, end)
}

/// Appends that a member waits for the item of the next place to be put.
fn push_put(
    out: &mut String,
    replica: &Replica,
    members: &[Option<Member>],
) -> Result<(), AllocError> {
    let sender = replica.next_sender();
    let Some(other) = member_at(members, sender) else {
        let me = replica.me();
        let place = replica.next_place();
        return writeln!(
            out,
            "member {me} waits for: member {sender} to put what stands at place {place}"
        );
    };
    push_awaited(out, replica.me(), sender, other.end())?;
    push_place(out, replica, sender, other)
}

/// Appends what is waited for of the member that is to put the item of the next place: how many items of it
/// are taken, and how many it has put.
fn push_place(
    out: &mut String,
    replica: &Replica,
    sender: u8,
    other: &Member,
) -> Result<(), AllocError> {
    let place = replica.next_place();
    if sender >= replica.shape().members || sender >= other.replica().shape().members {
        return writeln!(out, " to put what stands at place {place}");
    }
    push_puts(
        out,
        place,
        replica.count(sender),
        other.replica().count(sender),
        view_elsewhere(replica, other),
    )
}

/// Appends that one is to put the item of a place, or to be seen to, where more are put than taken, and ends
/// the line.
fn push_puts(
    out: &mut String,
    place: u64,
    taken: u32,
    put: u32,
    elsewhere: Option<u8>,
) -> Result<(), AllocError> {
    out.push_str(if taken < put { " to be seen to" } else { " to" })?;
    write!(
        out,
        " put what stands at place {place} (taken: {taken}, put: {put}"
    )?;
    push_elsewhere(out, elsewhere)?;
    out.push_str(")\n")
}

/// What members are waited for to have.
#[derive(Clone, Copy)]
enum Kind {
    /// The item at a place.
    Received,
    /// An entry on their logs.
    Logged,
    /// Everything, durably.
    Done,
}

impl Kind {
    /// The column whose word tells it.
    fn column(self) -> usize
        ensures { result ≤ 4 }
    {
        match self {
            Kind::Received => RECEIVED_COLUMN,
            Kind::Logged => LOGGED_COLUMN,
            Kind::Done => DONE_COLUMN,
        }
    }
}

/// What is missing: the words of a column that are no more than this.
#[derive(Clone, Copy)]
struct Missing {
    kind: Kind,
    least: u64,
}

/// Appends a line for a member that is wedged, and what of the change of its view is missing.
fn push_change(
    out: &mut String,
    replica: &Replica,
    members: &[Option<Member>],
) -> Result<(), AllocError> {
    push_wedged(out, replica)?;
    let leader = replica.members().without(replica.suspects()).least();
    for number in 0..16u8 {
        if let Some(other) = member_at(members, number) {
            if is_with(replica, number) && !replica.suspects().has(number) {
                push_step(out, replica, leader, number, other)?;
            }
        }
    }
    Ok(())
}

/// Whom one suspects, which are members of its view, and for whom it wishes, which aren't.
#[derive(Clone, Copy)]
struct Named {
    suspects: u16,
    wishes: u16,
}

/// Those that a replica suspects, and those that it wishes for, of these.
fn named_of(replica: &Replica, names: Mask) -> Named {
    let wishes = names.without(replica.members());
    Named {
        suspects: names.without(wishes).bits(),
        wishes: wishes.bits(),
    }
}

/// Appends that a member waits for the change of its view, whom it suspects, and for whom it wishes.
fn push_wedged(out: &mut String, replica: &Replica) -> Result<(), AllocError> {
    let me = replica.me();
    write!(out, "member {me} waits for: the change of its view, as it ")?;
    push_suspecting(out, named_of(replica, replica.suspects()))?;
    out.push_str("\n")
}

/// Appends whom one suspects, and for whom it wishes.
fn push_suspecting(out: &mut String, named: Named) -> Result<(), AllocError> {
    match (named.suspects, named.wishes) {
        (suspects, 0) => push_titled(out, "suspects ", suspects),
        (0, wishes) => push_titled(out, "wishes for ", wishes),
        (suspects, wishes) => {
            push_titled(out, "suspects ", suspects)?;
            push_titled(out, " and wishes for ", wishes)
        }
    }
}

/// Appends members behind a title.
fn push_titled(out: &mut String, title: &str, names: u16) -> Result<(), AllocError> {
    out.push_str(title)?;
    push_mask(out, names)
}

/// Appends what is missing of a change of view at a member of it that nobody suspects: that it suspects or
/// wishes for whom this one suspects or wishes for, that it proposes, as the least of them, or that it accepts.
fn push_step(
    out: &mut String,
    replica: &Replica,
    leader: Option<u8>,
    number: u8,
    other: &Member,
) -> Result<(), AllocError>
    requires { number < replica.now.roster }
{
    if accepted_tag(replica) != 0 {
        push_acceptance(out, replica, number, other)
    } else if leader == Some(replica.me()) {
        push_suspicions(out, replica, number, other)
    } else if leader == Some(number) {
        push_proposal(out, replica, number, other)
    } else {
        Ok(())
    }
}

/// The tag of what a member has accepted in its view, or 0.
fn accepted_tag(replica: &Replica) -> u8 {
    // As in `push_item_wait`.
    let _ = replica.me();
    unpack_accept(replica.own(replica.shape().leavers_column())).1
}

/// Whether this is another member of its view.
fn is_with(replica: &Replica, number: u8) -> bool
    ensures { result ≡ true → number < replica.now.roster }
{
    number < replica.shape().members && replica.members().has(number) && number != replica.me()
}

/// Appends that a member of the view is to accept what this one has accepted, where that is not seen.
fn push_acceptance(
    out: &mut String,
    replica: &Replica,
    number: u8,
    other: &Member,
) -> Result<(), AllocError>
    requires { number < replica.now.roster }
{
    let me = replica.me();
    let tag = accepted_tag(replica);
    let column = replica.shape().leavers_column();
    if unpack_accept(replica.seen(number, column)).1 == tag {
        return Ok(());
    }
    push_awaited(out, me, number, other.end())?;
    let is_there = other.replica().view() == replica.view();
    out.push_str(if is_there && accepted_tag(other.replica()) != tag {
        " to accept the value\n"
    } else {
        " to be seen to accept the value, which it has\n"
    })
}

/// Appends that a member of the view is to propose a value, or to be seen to have proposed one.
fn push_proposal(
    out: &mut String,
    replica: &Replica,
    number: u8,
    other: &Member,
) -> Result<(), AllocError> {
    push_awaited(out, replica.me(), number, other.end())?;
    let is_there = other.replica().view() == replica.view();
    out.push_str(if is_there && accepted_tag(other.replica()) == 0 {
        " to propose a value\n"
    } else {
        " to be seen to propose the value that it has\n"
    })
}

/// Appends that a member of the view is to suspect or wish for whom this one suspects or wishes for, where
/// that is not seen.
fn push_suspicions(
    out: &mut String,
    replica: &Replica,
    number: u8,
    other: &Member,
) -> Result<(), AllocError>
    requires { number < replica.now.roster }
{
    let me = replica.me();
    let seen = Mask::of((replica.seen(number, SUSPECTED_COLUMN) & u64::from(u16::MAX)) as u16);
    let missing = replica.suspects().without(seen);
    if missing.bits() == 0 {
        return Ok(());
    }
    push_awaited(out, me, number, other.end())?;
    push_unnamed(
        out,
        named_of(replica, missing),
        named_of(replica, seen),
        named_of(other.replica(), other.replica().suspects()),
        view_elsewhere(replica, other),
    )?;
    out.push_str("\n")
}

/// Appends that one is to suspect the same, or to wish for the same, where this is missing.
fn push_unnamed(
    out: &mut String,
    missing: Named,
    seen: Named,
    has: Named,
    elsewhere: Option<u8>,
) -> Result<(), AllocError> {
    match (missing.suspects, missing.wishes) {
        (_, 0) => push_suspected(out, seen, has, elsewhere),
        (0, _) => push_wished(out, seen, has, elsewhere),
        _ => {
            push_suspected(out, seen, has, None)?;
            out.push_str(" and")?;
            push_wished(out, seen, has, elsewhere)
        }
    }
}

/// Appends whom one is seen to suspect, and whom it suspects.
fn push_suspected(
    out: &mut String,
    seen: Named,
    has: Named,
    elsewhere: Option<u8>,
) -> Result<(), AllocError> {
    out.push_str(" to suspect the same (seen to suspect: ")?;
    push_members(out, seen.suspects)?;
    out.push_str(", suspects: ")?;
    push_members(out, has.suspects)?;
    push_elsewhere(out, elsewhere)?;
    out.push_str(")")
}

/// Appends for whom one is seen to wish, and for whom it wishes.
fn push_wished(
    out: &mut String,
    seen: Named,
    has: Named,
    elsewhere: Option<u8>,
) -> Result<(), AllocError> {
    out.push_str(" to wish for the same (seen to wish for: ")?;
    push_members(out, seen.wishes)?;
    out.push_str(", wishes for: ")?;
    push_members(out, has.wishes)?;
    push_elsewhere(out, elsewhere)?;
    out.push_str(")")
}

/// Appends the members of a mask, or that there are none.
fn push_members(out: &mut String, mask: u16) -> Result<(), AllocError> {
    if mask == 0 {
        return out.push_str("-");
    }
    push_mask(out, mask)
}

/// Appends a line for each member of the view of which something is missing.
fn push_missing(
    out: &mut String,
    replica: &Replica,
    members: &[Option<Member>],
    kind: Kind,
    least: u64,
) -> Result<(), AllocError> {
    let column = kind.column();
    let missing = Missing { kind, least };
    // As in `push_item_wait`.
    let _ = replica.me();
    for number in 0..16u8 {
        if let Some(other) = member_at(members, number) {
            if is_with(replica, number) {
                let seen = replica.seen(number, column);
                if seen <= least {
                    push_wait(out, replica, number, other, missing, seen)?;
                }
            }
        }
    }
    Ok(())
}

/// Appends the line of one that is waited for: what is seen of it, and what it has.
fn push_wait(
    out: &mut String,
    replica: &Replica,
    number: u8,
    other: &Member,
    missing: Missing,
    seen: u64,
) -> Result<(), AllocError> {
    push_awaited(out, replica.me(), number, other.end())?;
    let has = other.replica().own(missing.kind.column());
    match missing.kind {
        Kind::Done if has == 1 => out.push_str(" to be seen to have everything, which it has\n"),
        Kind::Done => out.push_str(" to have everything\n"),
        _ => {
            push_lack(out, missing)?;
            push_seen(
                out,
                replica.view(),
                seen,
                has,
                view_elsewhere(replica, other),
            )
        }
    }
}

/// Appends how many items or entries one that is waited for is to have.
fn push_lack(out: &mut String, missing: Missing) -> Result<(), AllocError> {
    let wanted = missing.least.saturating_add(1);
    match missing.kind {
        Kind::Received => push_lacking_items(out, wanted),
        _ => push_lacking_entries(out, wanted),
    }
}

/// Appends how many items one is to have received.
fn push_lacking_items(out: &mut String, wanted: u64) -> Result<(), AllocError> {
    push_number(out, " to have received ", wanted)?;
    out.push_str(if wanted == 1 {
        " item in order"
    } else {
        " items in order"
    })
}

/// Appends how many entries one is to have on its log.
fn push_lacking_entries(out: &mut String, wanted: u64) -> Result<(), AllocError> {
    push_number(out, " to have logged ", wanted)?;
    out.push_str(if wanted == 1 { " entry" } else { " entries" })
}

/// Appends what is seen of one that is waited for, in this view, and what it has, and ends the line.
fn push_seen(
    out: &mut String,
    view: u8,
    seen: u64,
    has: u64,
    elsewhere: Option<u8>,
) -> Result<(), AllocError> {
    out.push_str(" (seen")?;
    push_later_view(out, view)?;
    write!(out, ": {seen}, has: {has}")?;
    push_elsewhere(out, elsewhere)?;
    out.push_str(")\n")
}

/// Appends in which view something is seen: the first one isn't named.
fn push_later_view(out: &mut String, view: u8) -> Result<(), AllocError> {
    match view {
        0 => Ok(()),
        _ => push_number(out, " in view ", u64::from(view)),
    }
}

/// The view that one is in, where that is another.
fn view_elsewhere(replica: &Replica, other: &Member) -> Option<u8> {
    let view = other.replica().view();
    (view != replica.view()).then_some(view)
}

/// Appends the view that one is in, where that is another.
fn push_elsewhere(out: &mut String, elsewhere: Option<u8>) -> Result<(), AllocError> {
    match elsewhere {
        None => Ok(()),
        Some(view) => push_number(out, ", in view ", u64::from(view)),
    }
}

/// Appends how one that is waited for has ended, where that is not by its turns alone.
fn push_fate(out: &mut String, end: Option<End>) -> Result<(), AllocError> {
    match end {
        None | Some(End::Spent { .. }) => Ok(()),
        Some(End::Crashed) => out.push_str(", which crashed,"),
        Some(end) => push_ended_as(out, end),
    }
}

fn push_ended_as(out: &mut String, end: End) -> Result<(), AllocError> {
    out.push_str(", which ended as ")?;
    push_end(out, end)?;
    out.push_str(",")
}
