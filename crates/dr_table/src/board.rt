//! The board of an age: its words and slots, dealt and closed.
ghost use Rattle.std.specs.{Mem.Slots.IsFull, Prelude.{◌≡◌, ◌≤◌, All, IfOk, ℕ, List, Some, Option, length}};
ghost use Rattle.dr_entry.specs.declared.entry.Entry.{Entry};
ghost use Rattle.dr_program.specs.{Form.IsRunningMember, Presence.present_at, Program.{IsRanFrom, begun_program}};
ghost use Rattle.dr_program.specs.Running.{Running};
ghost use Rattle.dr_table.specs.{Cards.{AreAtEnd, AreOf, AreSame, opened}, Rule.IsDealt, Slots.IsBlankSlot};

use crate::hand::Hand;
use crate::rule::{Ruled, Slot, View};
use atomic_table::{Closed, Table};
use dr_member::Member;
use std::alloc::{AllocError, Global};
use std::marker::Model;

/// The words of an age, over which its members take their deeds, and the slots for the letters of its late members.
/// Contracts see it as the table with the members that were dealt.
#[derive(Drop)]
pub struct Board {
    pub(crate) table: Table<Slot, View, Vec<Option<Member>>, Ruled, Global>,
}

impl Model for Board {
    ghost use Rattle.std.specs.Prelude.{length};
    ghost use Rattle.dr_table.specs.Cards.{AreOf, Cards};

    ghost Value = { Cards };

    ghost view = { λ b. record {
      table = record { id = b.table.shared.table_id; places = length b.table.shared.key.items };
      members = b.table.shared.key.items;
    } };

    ghost invariant = { λ b. AreOf b.table.shared.table_id.words b.table.shared.key.items };
}

/// The board of an age, with the members of its group before their first deeds, and the hand of all of
/// them.
///
/// # Errors
///
/// Want of memory alone; the members are given up then.
pub fn deal(alloc: Global, members: Vec<Option<Member>>) -> Result<(Board, Hand), AllocError>
    requires dealt { IsDealt members.items }
    ensures board { IfOk result (λ r. r.0.members ≡ members.items) }
    ensures opened { IfOk result (λ r. (d : IsDealt members.items)
        → opened r.0 ≡ begun_program d.group d.setups) }
    ensures hand { IfOk result (λ r. (r.1.table ≡ r.0.table) × (r.1.members ≡ members.items)) }
{
    let places = members.len();
    let first = first_present(&members);
    let words = vec![in alloc; 0u64; first.table_words() + places]?;
    let slots = blank_slots(alloc, first.late().count(), most_room(&members))?;
    let Ok((table, seat)) = Table::new(alloc, words.as_slice(), slots, &members) else {
        return Err(AllocError);
    };
    Ok((
        Board { table },
        Hand {
            seat,
            places,
            members,
        },
    ))
}

/// Ends an age: the hand holds all members of the board, in the order in which they were dealt, and all
/// have ended. They are those of a program that has come from the board's by some deeds.
pub fn close(board: Board, hand: Hand) -> Vec<Option<Member>>
    requires board { hand.table ≡ board.table }
    requires all { AreSame board.members hand.members }
    requires ended { AreAtEnd hand.members }
    ensures members { result.items ≡ hand.members }
    ensures ran { (words : List ℕ) × (letters : List (Option (List Entry)))
        × IsRanFrom (opened board) (record { members = result.items; table = words; letters = letters }) }
{
    let Board { table } = board;
    let Hand { seat, members, .. } = hand;
    give_up(table.close_with(seat));
    members
}

/// Gives up what is in the slots.
fn give_up(mut closed: Closed<Slot, Global>)
    requires { IsFull closed.slots }
{
    let mut i = 0;
    while i < closed.slot_count() {
        drop(closed.take(i));
        i += 1;
    }
    closed.free();
}

/// The first member that is there, where somebody is.
fn first_present(members: &[Option<Member>]) -> &Member
    requires { (k : ℕ) × (r : Running) × (present_at members.now k ≡ Some r) }
    ensures { (k : ℕ) × (present_at members.now k ≡ Some result.now) }
{
    for place in members {
        if let Some(member) = place {
            return member;
        }
    }
    unreachable!()
}

/// The room of the member that has the most for its history.
fn most_room(members: &[Option<Member>]) -> usize
    requires { (m : ℕ) (r : Running) → present_at members.now m ≡ Some r → IsRunningMember r }
    ensures { (m : ℕ) (r : Running) → present_at members.now m ≡ Some r → r.replica.room ≤ result }
{
    let mut most = 0;
    for place in members {
        if let Some(member) = place {
            most = most.max(room_of(member));
        }
    }
    most
}

/// How many entries the history of a member has room for.
fn room_of(member: &Member) -> usize
    requires { IsRunningMember member.now }
    ensures { result ≡ member.now.replica.room }
{
    member.appends_left() + member.logged() as usize
}

/// So many slots, each with a blank list with so much room.
fn blank_slots(alloc: Global, count: u8, room: usize) -> Result<Vec<Slot>, AllocError>
    ensures count { IfOk result (λ slots. length slots.items ≡ count) }
    ensures blank { IfOk result (λ slots. All (IsBlankSlot room) slots.items) }
{
    let mut slots = Vec::with_capacity(alloc, usize::from(count))?;
    for _ in 0..count {
        slots.push(Some(Vec::with_capacity(alloc, room)?)).unwrap();
    }
    Ok(slots)
}
