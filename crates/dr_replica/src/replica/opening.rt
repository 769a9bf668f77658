//! How a replica begins and how it is told at its end.
ghost use Rattle.std.specs.Prelude.{◌≡◌, IfOk};
ghost use Rattle.dr_machine.specs.World.{no_value};
ghost use Rattle.dr_program.specs.{Form.{CanBegin, HasForm}, Program.member_end, Replica.begun_replica};

use super::Replica;
use crate::history::History;
use crate::items::{Items, greatest};
use crate::left::spares;
use crate::spot::Spot;
use dr_entry::{End, Entry, MAX_MEMBERS, MemberEnd, Seq, Value, ViewSent};
use dr_program::Setup;
use dr_rows::Rows;
use dr_suspect::Suspects;
use dr_words::{LOGGED_COLUMN, Mask};
use std::alloc::{AllocError, Global};

impl Replica {
    /// A replica as its age opens. All memory of the age is taken here.
    pub fn begin(alloc: Global, setup: Setup) -> Result<Replica, AllocError>
        requires { CanBegin setup }
        ensures begun { IfOk result (λ replica. replica ≡ begun_replica setup) }
        ensures form { IfOk result HasForm }
    {
        let shape = setup.shape;
        let most = greatest(&setup.totals);
        let places = most as usize * usize::from(shape.members);
        let room = setup.start.as_slice().len() + usize::from(shape.banks) + places + 1;
        let view = Entry::View {
            age: setup.age,
            number: 0,
            members: setup.members.bits(),
        };
        let history = History::begin(alloc, setup.start, view, shape.members, room)?;
        let logged = history.entries().len();
        let mut rows = Rows::new(alloc, shape.members, shape.columns(), setup.me)?;
        let shown = if setup.members.has(setup.me) {
            logged
        } else {
            0
        };
        rows.set_own(LOGGED_COLUMN, shown as u64);
        let messages = setup.messages.into_vec();
        Ok(Replica {
            shape,
            totals: setup.totals,
            rows,
            view: 0,
            members: setup.members,
            suspects: Suspects::new(setup.me, setup.members),
            late: setup.late,
            came_from: Mask::empty(),
            given: Mask::empty(),
            items: Items::begin(alloc, setup.members, shape.members, most)?,
            base: history.messages_from(setup.me),
            sent: Vec::with_capacity(alloc, most as usize)?,
            left: Vec::with_capacity(alloc, usize::from(shape.banks))?,
            spares: spares(
                alloc,
                usize::from(shape.banks) - 1,
                shape.columns(),
                shape.members,
                most,
            )?,
            past: Vec::with_capacity(alloc, usize::from(shape.banks))?,
            votes: Vec::with_capacity(
                alloc,
                usize::from(shape.banks) * usize::from(shape.members),
            )?,
            messages,
            next: Spot::first(),
            received: 0,
            history,
            logged,
            durable: logged as u64,
            turns: 0,
            acts: 0,
            end: None,
            age: setup.age,
            tag: 0,
            value: no_value(),
            committed: None,
            pending: None,
        })
    }

    /// How the member ended; as done, where it hasn't ended yet. Takes no memory.
    pub fn into_end(self) -> MemberEnd
        ensures { result ≡ member_end self }
    {
        let mut sent = self.past;
        for left in self.left {
            sent.push(ViewSent {
                number: sent.len() as u8,
                items: Seq::of(left.sent),
            })
            .unwrap();
        }
        sent.push(ViewSent {
            number: self.view,
            items: Seq::of(self.sent),
        })
        .unwrap();
        MemberEnd {
            end: self.end.unwrap_or(End::Done),
            turns: self.turns,
            sent: Seq::of(sent),
            history: self.history.into_entries(),
            logged: self.logged as u64,
            durable: self.durable,
        }
    }
}

/// The value that nobody votes for: nobody leaves, and no item is taken.
pub(super) fn no_value() -> Value
    ensures { result ≡ no_value }
{
    Value {
        leavers: 0,
        trim: [0; MAX_MEMBERS],
    }
}
