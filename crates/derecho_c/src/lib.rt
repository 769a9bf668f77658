//! The seat of a group for C: handles that hold a seat, and the calls on them. `c/derecho.h` declares them.
//!
//! A call takes the seat out of its handle, works on it, and puts it back. No call has a `requires`: each tests its
//! handle and what is due, and answers a number. What becomes of a handle that holds a seat is said of that seat:
//! `IfSome handle.old.value.seat`. Each handle that `dr_open` has opened holds one (`opened`, then `kept`).
#![tactic(auto)]

ghost use Rattle.std.specs.Prelude.{◌≡◌, ◌≢◌, ◌↔◌, ◌<◌, ◌≤◌, ◌^◌, ◌⊎◌, true, IfSome, IsSome, length, slice_get, take};
ghost use Rattle.dr_history.specs.Members.{has};
ghost use Rattle.sha2.specs.Sha256.{sha256};
ghost use Rattle.dr_seat.specs.Cards.{card_of, new_log};
ghost use Rattle.dr_seat.specs.Seats.{Gathers, IsDue, IsFree, IsTaken, KeepsDue, MayFail, MayGoWithout, MayTellAgain};
ghost use Rattle.dr_seat.specs.Seats.{history_of};
ghost use Rattle.dr_seat.specs.Seats.{IsOpen as IsWhole};
ghost use Rattle.derecho_c.specs.Answers.{
  HasFailed,
  HaveRoom,
  IsDone,
  IsNeedOf,
  IsOpenedByText,
  IsRefusedBy,
  IsUnopened,
  TellsEntry,
  TellsNext,
  TellsWhere,
  failure,
};
ghost use Rattle.derecho_c.specs.Owned.{IsClosed, IsOpen, handle_owns, held_coded};
ghost use Rattle.derecho_c.specs.declared.codes.TheConstants.{NOT_DUE, NO_QUORUM, OLD};
ghost use Rattle.dr_seat.specs.declared.Held.{Held};

mod calls;
mod codes;
mod parts;
mod told;

use codes::{CLOSED, MEMORY, NO_MEMBER, OK, OPEN, ROOM, VERSION};
use dr_packet::PACKET_ROOM;
use dr_seat::{CARD, Held, Seat, fresh, plan_digest, read_plan};
use parts::Parts;
use std::alloc::Global;
use std::marker::Model;
use std::mem::replace;
use std::ptr::null_mut;
pub use told::{CDue, CItem, CNeed, CWhere};
use told::{DUE_SIZE, ITEM_SIZE, NEED_SIZE, VERSION_NUMBER, WHERE_SIZE, copied};

/// A handle: closed, as one whose bytes are all 0 is, or the holder of a seat.
#[repr(C)]
#[derive(Drop)]
pub struct Handle {
    pub at: *mut u8,
    alloc: Global,
    pub ghost value: { Held } by { held_coded },
}

impl Model for Handle {
    ghost also_owns = { λ h. handle_owns h.alloc h.at h.value };
}

// It goes from thread to thread, one call at a time.
unsafe impl Send for Handle {}

impl Handle {
    fn of_parts(parts: Parts<Held, Global>) -> Handle
        ensures { (result.value ≡ parts.value) × IsOpen result.at }
    {
        let Parts { ptr, alloc } = parts;
        Handle {
            at: ptr as *mut u8,
            alloc,
        }
    }

    fn into_parts(self) -> Parts<Held, Global>
        requires { IsOpen self.at }
        ensures { result.value ≡ self.value }
    {
        let Handle { at, alloc } = self;
        Parts {
            ptr: at as *mut Held,
            alloc,
        }
    }

    /// A handle that is closed.
    fn closed(alloc: Global) -> Handle
        ensures { (result.alloc ≡ alloc) × IsClosed result.at }
    {
        Handle {
            at: null_mut(),
            alloc,
        }
    }

    /// Whether a handle is open, beside it.
    fn told(self) -> (bool, Handle)
        ensures { (result.1 ≡ self) × ((result.0 ≡ true) ↔ IsOpen self.at) }
    {
        let open = self.at != null_mut();
        (open, self)
    }

    fn of(value: Box<Held>) -> Handle
        ensures { (result.value ≡ value.value) × IsOpen result.at }
    {
        Handle::of_parts(Parts::of(value))
    }

    fn into_box(self) -> Box<Held>
        requires { IsOpen self.at }
        ensures { result.value ≡ self.value }
    {
        self.into_parts().into_box()
    }
}

/// Takes the seat out of a handle, which is closed from then on; `None` where it was so before.
fn take(alloc: Global, handle: &mut Handle) -> Option<Box<Held>>
    ensures value { IfSome result (λ b. b.value ≡ handle.old.value) }
    ensures open { IsSome result ↔ IsOpen handle.old.at }
    ensures closed { IsClosed handle.new.at }
{
    let (open, held) = replace(handle, Handle::closed(alloc)).told();
    if open { Some(held.into_box()) } else { None }
}

/// The version of this library.
#[unsafe(no_mangle)]
pub extern "C" fn dr_version() -> u32
    ensures { result ≡ VERSION_NUMBER }
{
    VERSION_NUMBER
}

/// The digest of a plan's text: 32 bytes.
#[unsafe(no_mangle)]
pub extern "C" fn dr_digest(plan: &[u8], into: &mut [u8]) -> u32
    ensures { HaveRoom (sha256 plan.now) into.old into.new result }
{
    let digest = plan_digest(plan);
    copied(&digest, into)
}

/// What a plan needs.
#[unsafe(no_mangle)]
pub extern "C" fn dr_need(alloc: Global, plan: &[u8], into: &mut CNeed, size: usize) -> u32
    ensures version { size ≢ NEED_SIZE → result ≡ VERSION }
    ensures told { result ≡ OK → IsNeedOf plan.now into.new }
    ensures refused { result ≢ OK → into.new ≡ into.old }
{
    if size != NEED_SIZE {
        return VERSION;
    }
    match read_plan(alloc, plan) {
        Ok(plan) => {
            let (members, window) = plan.sizes();
            *into = CNeed {
                members: u32::from(members),
                window: u32::from(window),
                packet: PACKET_ROOM as u64,
                write: plan.longest_write(),
                log: 1 << 31,
                card: CARD as u64,
                fresh: 10,
            };
            OK
        }
        Err(fault) => calls::plan_code(&fault),
    }
}

/// The card and the log of a member that never was.
#[unsafe(no_mangle)]
pub extern "C" fn dr_fresh(
    alloc: Global,
    plan: &[u8],
    group: &[u8],
    me: u32,
    card: &mut [u8],
    log: &mut [u8],
) -> u32
    ensures room { (length group.now ≢ 16) ⊎ (length card.old ≢ CARD) ⊎ (length log.old ≢ 10) → result ≡ ROOM }
    ensures card { result ≡ OK
        → take (length (card_of group.now (sha256 plan.now) me)) card.new ≡ card_of group.now (sha256 plan.now) me }
    ensures log { result ≡ OK → log.new ≡ new_log }
    ensures refused { result ≢ OK → (card.new ≡ card.old) × (log.new ≡ log.old) }
{
    if group.len() != 16 || card.len() != CARD || log.len() != 10 {
        return ROOM;
    }
    let mut name = [0u8; 16];
    name.copy_from_slice(group);
    let Ok(me) = u8::try_from(me) else {
        return NO_MEMBER;
    };
    let plan = match read_plan(alloc, plan) {
        Ok(plan) => plan,
        Err(fault) => return calls::plan_code(&fault),
    };
    let made = match fresh(&plan, name, me) {
        Ok(made) => made,
        Err(_) => return NO_MEMBER,
    };
    let told = copied(made.0.as_slice(), card);
    if told == OK {
        let new_log = made.1;
        log.copy_from_slice(&new_log);
    }
    told
}

/// Opens the seat of a member, by its card and its log.
#[unsafe(no_mangle)]
pub extern "C" fn dr_open(
    alloc: Global,
    handle: &mut Handle,
    plan: &[u8],
    card: &[u8],
    log: &[u8],
) -> u32
    ensures open { IsOpen handle.old.at
        → (result ≡ OPEN) × IsOpen handle.new.at × (handle.new.value ≡ handle.old.value) }
    ensures opened { ¬ IsOpen handle.old.at → result ≡ OK → IsOpen handle.new.at × IsSome handle.new.value.seat }
    ensures seat { ¬ IsOpen handle.old.at → result ≡ OK
        → IfSome handle.new.value.seat (IsOpenedByText plan.now card.now log.now) }
    ensures refused { ¬ IsOpen handle.old.at → result ≢ OK
        → IsClosed handle.new.at × IsUnopened plan.now card.now log.now result }
{
    if let Some(held) = take(alloc, handle) {
        *handle = Handle::of(held);
        return OPEN;
    }
    let plan = match read_plan(alloc, plan) {
        Ok(plan) => plan,
        Err(fault) => return calls::plan_code(&fault),
    };
    let seat = match Seat::open(alloc, plan, card, log) {
        Ok(seat) => seat,
        Err(fault) => return calls::open_code(&fault),
    };
    match Box::new(alloc, Held { seat: Some(seat) }) {
        Ok(held) => {
            *handle = Handle::of(held);
            OK
        }
        Err(_) => MEMORY,
    }
}

/// An opening begins anew, which goes without these members.
#[unsafe(no_mangle)]
pub extern "C" fn dr_without(alloc: Global, handle: &mut Handle, missing: u32) -> u32
    ensures closed { ¬ IsOpen handle.old.at → result ≡ CLOSED }
    ensures stays { IsOpen handle.new.at ↔ IsOpen handle.old.at }
    ensures may { IsOpen handle.old.at
        → IfSome handle.old.value.seat (λ s. missing < 2 ^ 16 → MayGoWithout s missing → result ≡ OK) }
    ensures may_not { IsOpen handle.old.at
        → IfSome handle.old.value.seat (λ s. missing < 2 ^ 16 → ¬ MayGoWithout s missing → result ≡ NO_QUORUM) }
    ensures no_member { IsOpen handle.old.at
        → IfSome handle.old.value.seat (λ _. 2 ^ 16 ≤ missing → result ≡ NO_MEMBER) }
    ensures gathers { result ≡ OK → IfSome handle.new.value.seat Gathers }
    ensures refused { IsOpen handle.old.at → result ≢ OK → handle.new.value ≡ handle.old.value }
    ensures kept { IsOpen handle.old.at → IsSome handle.new.value.seat ↔ IsSome handle.old.value.seat }
{
    let Some(mut held) = take(alloc, handle) else {
        return CLOSED;
    };
    let answer = calls::without(&mut held, missing);
    *handle = Handle::of(held);
    answer
}

/// Tells what is due; its bytes go into `bytes`.
#[unsafe(no_mangle)]
pub extern "C" fn dr_next(
    alloc: Global,
    handle: &mut Handle,
    due: &mut CDue,
    size: usize,
    bytes: &mut [u8],
) -> u32
    ensures version { size ≢ DUE_SIZE → (result ≡ VERSION) × (handle.new ≡ handle.old) }
    ensures closed { size ≡ DUE_SIZE → ¬ IsOpen handle.old.at → result ≡ CLOSED }
    ensures stays { IsOpen handle.new.at ↔ IsOpen handle.old.at }
    ensures next { size ≡ DUE_SIZE → IsOpen handle.old.at → IfSome handle.old.value.seat (λ old.
        IfSome handle.new.value.seat (λ new. TellsNext old new due.new bytes.old bytes.new result)) }
    ensures kept { IsOpen handle.old.at → IsSome handle.new.value.seat ↔ IsSome handle.old.value.seat }
{
    if size != DUE_SIZE {
        return VERSION;
    }
    let Some(mut held) = take(alloc, handle) else {
        return CLOSED;
    };
    let answer = calls::next(&mut held, due, bytes);
    *handle = Handle::of(held);
    answer
}

/// Takes note that what has this number is done.
#[unsafe(no_mangle)]
pub extern "C" fn dr_did(alloc: Global, handle: &mut Handle, number: u64) -> u32
    ensures closed { ¬ IsOpen handle.old.at → result ≡ CLOSED }
    ensures stays { IsOpen handle.new.at ↔ IsOpen handle.old.at }
    ensures due { IsOpen handle.old.at → IfSome handle.old.value.seat (λ s. IsDue s number → result ≡ OK) }
    ensures not_due { IsOpen handle.old.at → IfSome handle.old.value.seat (λ s. ¬ IsDue s number → result ≡ NOT_DUE) }
    ensures free { result ≡ OK → IfSome handle.new.value.seat IsFree }
    ensures done { result ≡ OK
        → IfSome handle.old.value.seat (λ old. IfSome handle.new.value.seat (IsDone old)) }
    ensures refused { IsOpen handle.old.at → result ≢ OK → handle.new.value ≡ handle.old.value }
    ensures kept { IsOpen handle.old.at → IsSome handle.new.value.seat ↔ IsSome handle.old.value.seat }
{
    let Some(mut held) = take(alloc, handle) else {
        return CLOSED;
    };
    let answer = calls::did(&mut held, number);
    *handle = Handle::of(held);
    answer
}

/// Takes note that what has this number failed: as its disk did, where `full` is 0, or as the log's file, `length`
/// bytes long, is full.
#[unsafe(no_mangle)]
pub extern "C" fn dr_failed(
    alloc: Global,
    handle: &mut Handle,
    number: u64,
    full: u32,
    length: u64,
) -> u32
    ensures closed { ¬ IsOpen handle.old.at → result ≡ CLOSED }
    ensures stays { IsOpen handle.new.at ↔ IsOpen handle.old.at }
    ensures due { IsOpen handle.old.at
        → IfSome handle.old.value.seat (λ s. MayFail s number → result ≡ OK) }
    ensures not_due { IsOpen handle.old.at
        → IfSome handle.old.value.seat (λ s. ¬ MayFail s number → result ≡ NOT_DUE) }
    ensures free { result ≡ OK → IfSome handle.new.value.seat IsFree }
    ensures broken { result ≡ OK → IfSome handle.old.value.seat (λ old.
        IfSome handle.new.value.seat (HasFailed (failure full length) old)) }
    ensures refused { IsOpen handle.old.at → result ≢ OK → handle.new.value ≡ handle.old.value }
    ensures kept { IsOpen handle.old.at → IsSome handle.new.value.seat ↔ IsSome handle.old.value.seat }
{
    let Some(mut held) = take(alloc, handle) else {
        return CLOSED;
    };
    let why = calls::why_by(full, length);
    let answer = calls::failed(&mut held, number, why);
    *handle = Handle::of(held);
    answer
}

/// Takes a packet, whoever sent it.
#[unsafe(no_mangle)]
pub extern "C" fn dr_came(alloc: Global, handle: &mut Handle, packet: &[u8]) -> u32
    ensures closed { ¬ IsOpen handle.old.at → result ≡ CLOSED }
    ensures stays { IsOpen handle.new.at ↔ IsOpen handle.old.at }
    ensures taken { (result ≡ OK) ⊎ (result ≡ OLD) → IfSome handle.old.value.seat (λ s. IsTaken s packet.now) }
    ensures refused { IsOpen handle.old.at → result ≢ OK → result ≢ OLD
        → IfSome handle.old.value.seat (λ s. IsRefusedBy s packet.now result) }
    ensures same { IsOpen handle.old.at → result ≢ OK → result ≢ OLD → result ≢ MEMORY
        → handle.new.value ≡ handle.old.value }
    ensures due { IsOpen handle.old.at
        → IfSome handle.old.value.seat (λ old. IfSome handle.new.value.seat (KeepsDue old)) }
    ensures kept { IsOpen handle.old.at → IsSome handle.new.value.seat ↔ IsSome handle.old.value.seat }
{
    let Some(mut held) = take(alloc, handle) else {
        return CLOSED;
    };
    let answer = calls::came(&mut held, packet);
    *handle = Handle::of(held);
    answer
}

/// All last words for a member are due once more.
#[unsafe(no_mangle)]
pub extern "C" fn dr_again(alloc: Global, handle: &mut Handle, to: u32) -> u32
    ensures closed { ¬ IsOpen handle.old.at → result ≡ CLOSED }
    ensures stays { IsOpen handle.new.at ↔ IsOpen handle.old.at }
    ensures member { IsOpen handle.old.at → IfSome handle.old.value.seat (λ _. to < 16 → result ≡ OK) }
    ensures owed { IsOpen handle.old.at → IfSome handle.old.value.seat (λ old. to < 16 → MayTellAgain old to
        → IfSome handle.new.value.seat (λ new. has new.post.words to ≡ true)) }
    ensures no_member { IsOpen handle.old.at → IfSome handle.old.value.seat (λ _. 16 ≤ to → result ≡ NO_MEMBER) }
    ensures refused { IsOpen handle.old.at → result ≢ OK → handle.new.value ≡ handle.old.value }
    ensures kept { IsOpen handle.old.at → IsSome handle.new.value.seat ↔ IsSome handle.old.value.seat }
{
    let Some(mut held) = take(alloc, handle) else {
        return CLOSED;
    };
    let answer = calls::again(&mut held, to);
    *handle = Handle::of(held);
    answer
}

/// A turn begins, or an opening asks again.
#[unsafe(no_mangle)]
pub extern "C" fn dr_tick(alloc: Global, handle: &mut Handle) -> u32
    ensures closed { ¬ IsOpen handle.old.at → result ≡ CLOSED }
    ensures stays { IsOpen handle.new.at ↔ IsOpen handle.old.at }
    ensures open { result ≡ OK → IfSome handle.old.value.seat IsWhole }
    ensures free { result ≡ OK → IfSome handle.new.value.seat IsFree }
    ensures not_due { IsOpen handle.old.at → result ≢ OK → IfSome handle.old.value.seat (λ old. IsWhole old
        → IfSome handle.new.value.seat (λ new. ¬ IsFree new)) }
    ensures kept { IsOpen handle.old.at → IsSome handle.new.value.seat ↔ IsSome handle.old.value.seat }
{
    let Some(mut held) = take(alloc, handle) else {
        return CLOSED;
    };
    let answer = calls::tick(&mut held);
    *handle = Handle::of(held);
    answer
}

/// Tells where a seat stands.
#[unsafe(no_mangle)]
pub extern "C" fn dr_standing(
    alloc: Global,
    handle: &mut Handle,
    into: &mut CWhere,
    size: usize,
) -> u32
    ensures version { size ≢ WHERE_SIZE → (result ≡ VERSION) × (handle.new ≡ handle.old) }
    ensures closed { size ≡ WHERE_SIZE → ¬ IsOpen handle.old.at → result ≡ CLOSED }
    ensures stays { IsOpen handle.new.at ↔ IsOpen handle.old.at }
    ensures ok { size ≡ WHERE_SIZE → IsOpen handle.old.at → IfSome handle.old.value.seat (λ _. result ≡ OK) }
    ensures told { size ≡ WHERE_SIZE → IsOpen handle.old.at
        → IfSome handle.old.value.seat (λ s. TellsWhere s into.new) }
    ensures same { IsOpen handle.old.at → handle.new.value ≡ handle.old.value }
{
    if size != WHERE_SIZE {
        return VERSION;
    }
    let Some(held) = take(alloc, handle) else {
        return CLOSED;
    };
    let answer = calls::standing(&held, into);
    *handle = Handle::of(held);
    answer
}

/// Tells the entry of this number of the history; the bytes of a message go into `bytes`.
#[unsafe(no_mangle)]
pub extern "C" fn dr_entry(
    alloc: Global,
    handle: &mut Handle,
    number: u64,
    into: &mut CItem,
    size: usize,
    bytes: &mut [u8],
) -> u32
    ensures version { size ≢ ITEM_SIZE → (result ≡ VERSION) × (handle.new ≡ handle.old) }
    ensures closed { size ≡ ITEM_SIZE → ¬ IsOpen handle.old.at → result ≡ CLOSED }
    ensures stays { IsOpen handle.new.at ↔ IsOpen handle.old.at }
    ensures told { size ≡ ITEM_SIZE → IsOpen handle.old.at → IfSome handle.old.value.seat (λ s.
        TellsEntry (slice_get (history_of s) number) into.old into.new bytes.old bytes.new result) }
    ensures same { IsOpen handle.old.at → handle.new.value ≡ handle.old.value }
{
    if size != ITEM_SIZE {
        return VERSION;
    }
    let Some(held) = take(alloc, handle) else {
        return CLOSED;
    };
    let answer = calls::entry(&held, number, into, bytes);
    *handle = Handle::of(held);
    answer
}

/// Frees the seat. The handle is closed from then on.
#[unsafe(no_mangle)]
pub extern "C" fn dr_close(alloc: Global, handle: &mut Handle) -> u32
    ensures open { (result ≡ OK) ↔ IsOpen handle.old.at }
    ensures shut { (result ≡ CLOSED) ↔ ¬ IsOpen handle.old.at }
    ensures closed { IsClosed handle.new.at }
{
    match take(alloc, handle) {
        Some(_held) => OK,
        None => CLOSED,
    }
}
