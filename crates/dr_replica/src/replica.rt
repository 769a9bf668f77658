mod acts;
mod asking;
mod finish;
mod guards;
mod joining;
mod judging;
mod opening;
mod state;
mod votes;

use crate::history::History;
use crate::items::Items;
use crate::left::Left;
use crate::spot::Spot;
use dr_entry::{End, Message, SentItem, Value, ViewSent, Vote};
use dr_rows::Rows;
use dr_suspect::Suspects;
use dr_words::{Mask, Shape};
use std::marker::Model;

/// The state of one member of a group in one age: what it has, what it has seen of the others and whom
/// of them it suspects, and how far it has come.
///
/// A method that tells what a member may do is named after the act. The acts count themselves: each
/// raises the number of acts, and the member's own beat word takes it.
#[derive(Drop)]
pub struct Replica {
    shape: Shape,
    messages: Vec<Message>,
    totals: [u32; 16],
    rows: Rows,
    view: u8,
    members: Mask,
    suspects: Suspects,
    /// The late members of the age.
    late: Mask,
    /// The members of the view that it came from, and those to which it has given a letter in this one.
    came_from: Mask,
    given: Mask,
    items: Items,
    base: u32,
    sent: Vec<SentItem>,
    /// What it keeps of each view that it has left.
    left: Vec<Left>,
    /// The memory for those that it has yet to leave, and for what it tells at its end.
    spares: Vec<Left>,
    past: Vec<ViewSent>,
    next: Spot,
    /// Every member of the view was seen to have received the places below this one. That stays so, as
    /// received words only rise; it is asked anew once the next place has come to it.
    received: u64,
    history: History,
    logged: usize,
    durable: u64,
    turns: u32,
    acts: u64,
    end: Option<End>,
    age: u16,
    /// What it has accepted: the tag and the value of its accept words.
    tag: u8,
    value: Value,
    committed: Option<Value>,
    /// The vote on its log that it has not yet acted on.
    pending: Option<Vote>,
    votes: Vec<Vote>,
}

impl Model for Replica {
    ghost use Rattle.dr_program.specs.Replica as machine;

    ghost Value = { machine.Replica };

    ghost use Rattle.dr_replica.specs.Inside.{IsInsideReplica, replica_inside};

    ghost view = { replica_inside };

    ghost invariant = { IsInsideReplica };
}
