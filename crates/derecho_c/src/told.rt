//! What is told to C, as structs.
ghost use Rattle.std.specs.Prelude.{◌≡◌};
ghost use Rattle.derecho_c.specs.Answers.{HaveRoom};
ghost use Rattle.derecho_c.specs.Told.{
  due_bytes,
  due_told,
  end_numbers,
  item_bytes,
  item_told,
  plain_due,
  stage_number,
  view_number,
  where_told,
  why_numbers,
};

use crate::codes::{OK, ROOM};
use dr_entry::{End, Entry};
use dr_quorum::ChooseFault;
use dr_seat::{Due, Stage, Standing};

/// The version of these structs and calls.
pub const VERSION_NUMBER: u32 = 1;

/// How many bytes the structs have.
pub const DUE_SIZE: usize = 48;

pub const WHERE_SIZE: usize = 72;

pub const ITEM_SIZE: usize = 24;

pub const NEED_SIZE: usize = 48;

pub const WAIT: u32 = 0;

pub const WRITE: u32 = 1;

pub const SYNC: u32 = 2;

pub const SEND: u32 = 3;

pub const END: u32 = 4;

/// What is due.
#[repr(C)]
#[derive(Clone, Copy, Debug)]
pub struct CDue {
    pub kind: u32,
    /// The member that a packet goes to.
    pub to: u32,
    pub number: u64,
    /// The place in the log's file that bytes go to.
    pub at: u64,
    /// How many bytes there are.
    pub length: u64,
    /// How the member ended, and the number that its end tells.
    pub end: u32,
    pub spare: u32,
    pub detail: u64,
}

/// Where a seat stands.
#[repr(C)]
#[derive(Clone, Copy, Debug)]
pub struct CWhere {
    pub stage: u32,
    pub me: u32,
    pub age: u32,
    pub members: u32,
    pub turns: u32,
    /// Why the gathered logs make no start, with its three numbers.
    pub why: u32,
    pub entries: u64,
    pub logged: u64,
    pub durable: u64,
    pub first: u64,
    pub second: u64,
    pub third: u64,
}

/// An entry of a history.
#[repr(C)]
#[derive(Clone, Copy, Debug)]
pub struct CItem {
    /// 0 for a view, 1 for a message.
    pub kind: u32,
    /// The number of the view, or the sender.
    pub number: u32,
    /// The index of the message.
    pub index: u32,
    /// The age of the view, and its members.
    pub age: u32,
    pub members: u32,
    /// How many bytes the message has.
    pub length: u32,
}

/// What a plan needs.
#[repr(C)]
#[derive(Clone, Copy, Debug)]
pub struct CNeed {
    pub members: u32,
    pub window: u32,
    /// The most bytes of a packet, of a write, and of a log.
    pub packet: u64,
    pub write: u64,
    pub log: u64,
    pub card: u64,
    pub fresh: u64,
}

/// Something with this kind and number, of which nothing else is told.
fn plain(kind: u32, number: u64) -> CDue
    ensures { result ≡ plain_due kind number }
{
    CDue {
        kind,
        to: 0,
        number,
        at: 0,
        length: 0,
        end: 0,
        spare: 0,
        detail: 0,
    }
}

/// Copies bytes to the front of others, where there is room.
pub(crate) fn copied(from: &[u8], into: &mut [u8]) -> u32
    ensures { HaveRoom from.now into.old into.new result }
{
    if into.len() < from.len() {
        return ROOM;
    }
    into[..from.len()].copy_from_slice(from);
    OK
}

/// Tells what is due; bytes go into `bytes`. Where these are too few `length` tells how many are needed.
pub(crate) fn due_of(due: &Due, into: &mut CDue, bytes: &mut [u8]) -> u32
    ensures told { into.new ≡ due_told due.now }
    ensures bytes { HaveRoom (due_bytes due.now) bytes.old bytes.new result }
{
    match due {
        Due::Wait => {
            *into = plain(WAIT, 0);
            OK
        }
        Due::Write {
            number,
            at,
            bytes: from,
        } => {
            *into = CDue {
                at: *at,
                length: from.len() as u64,
                ..plain(WRITE, *number)
            };
            copied(from, bytes)
        }
        Due::Sync { number } => {
            *into = plain(SYNC, *number);
            OK
        }
        Due::Send { number, to, packet } => {
            *into = CDue {
                to: u32::from(*to),
                length: packet.len() as u64,
                ..plain(SEND, *number)
            };
            copied(packet, bytes)
        }
        Due::End { number, end } => {
            let (code, detail) = end_of(end);
            *into = CDue {
                end: code,
                detail,
                ..plain(END, *number)
            };
            OK
        }
    }
}

/// How a member ended, as two numbers.
fn end_of(end: &End) -> (u32, u64)
    ensures { result ≡ end_numbers end.now }
{
    match end {
        End::Done => (0, 0),
        End::Crashed => (1, 0),
        End::Suspected { by } => (2, u64::from(*by)),
        End::Excluded { view } => (3, u64::from(*view)),
        End::NoMajority { mask } => (4, u64::from(*mask)),
        End::DiskFault => (5, 0),
        End::LogFull { len } => (6, *len),
        End::Spent { turns } => (7, u64::from(*turns)),
        End::Absent => (8, 0),
    }
}

/// One more than the number of a view, or 0.
fn number_of(view: Option<u8>) -> u64
    ensures { result ≡ view_number view }
{
    match view {
        Some(number) => u64::from(number) + 1,
        None => 0,
    }
}

/// Why logs make no start, as four numbers.
fn why_of(why: &Option<ChooseFault>) -> (u32, u64, u64, u64)
    ensures { result ≡ why_numbers why.now }
{
    match why {
        None => (0, 0, 0, 0),
        Some(ChooseFault::OutOfMemory) => (1, 0, 0, 0),
        Some(ChooseFault::Foreign { member, place }) => (2, u64::from(*member), *place, 0),
        Some(ChooseFault::NoQuorum { view, have, need }) => {
            (3, number_of(*view), u64::from(*have), u64::from(*need))
        }
        Some(ChooseFault::Disagree { a, b, place }) => (4, u64::from(*a), u64::from(*b), *place),
        Some(ChooseFault::AgesUsedUp) => (5, 0, 0, 0),
    }
}

/// What a seat is about, as a number.
fn stage_of(stage: Stage) -> u32
    ensures { result ≡ stage_number stage }
{
    match stage {
        Stage::Gathers => 0,
        Stage::Tries => 1,
        Stage::Runs => 2,
        Stage::Ended => 3,
        Stage::Broken => 4,
    }
}

/// Tells where a seat stands.
pub(crate) fn where_of(standing: &Standing) -> CWhere
    ensures { result ≡ where_told standing.now }
{
    let (why, first, second, third) = why_of(&standing.why);
    CWhere {
        stage: stage_of(standing.stage),
        me: u32::from(standing.me),
        age: u32::from(standing.age),
        members: u32::from(standing.members),
        turns: standing.turns,
        why,
        entries: standing.entries,
        logged: standing.logged,
        durable: standing.durable,
        first,
        second,
        third,
    }
}

/// Tells an entry; the bytes of a message go into `bytes`.
pub(crate) fn item_of(entry: &Entry, into: &mut CItem, bytes: &mut [u8]) -> u32
    ensures told { into.new ≡ item_told entry.now }
    ensures bytes { HaveRoom (item_bytes entry.now) bytes.old bytes.new result }
{
    match entry {
        Entry::View {
            age,
            number,
            members,
        } => {
            *into = CItem {
                kind: 0,
                number: u32::from(*number),
                index: 0,
                age: u32::from(*age),
                members: u32::from(*members),
                length: 0,
            };
            OK
        }
        Entry::Msg {
            sender,
            index,
            bytes: message,
        } => {
            let said = message.bytes();
            *into = CItem {
                kind: 1,
                number: u32::from(*sender),
                index: *index,
                age: 0,
                members: 0,
                length: said.len() as u32,
            };
            copied(said, bytes)
        }
    }
}
