//! The senders of a group.
ghost use Rattle.std.specs.Prelude.{◌≡◌, ◌≤◌, All, IfOk, List, ℕ, length, map};
ghost use Rattle.dr_entry.specs.Messages.{IsMessage};
ghost use Rattle.dr_entry.specs.declared.limits.TheConstants.{MAX_MESSAGES};
ghost use Rattle.dr_senders.specs.{Pushing.given_by, Senders.{HaveGrown, given_in, taken_in}};

use crate::app::App;
use crate::sender::Sender;
use dr_entry::{Message, Seq};
use std::alloc::{AllocError, Global};
use std::marker::Model;
use std::thread::Threads;

/// The messages of apps on their way through rings, one for each app.
#[derive(Drop)]
pub struct Senders<A: App> {
    senders: Vec<Sender<A>>,
}

impl<A: App> Model for Senders<A> {
    ghost use Rattle.dr_senders.specs.Senders.{SendersState, given_in, taken_in};

    ghost Value = { SendersState };

    ghost view = { λ s. record {
      given = given_in A.left s.senders.items;
      taken = taken_in s.senders.items;
    } };
}

impl<A: App + 'static> Senders<A> {
    /// Begins to push all messages of these apps: each has a thread of its own, and a ring. Where the thread
    /// of an app can't be started all its messages are pushed first.
    ///
    /// # Errors
    ///
    /// Want of memory alone: then none of the messages is handed on. Threads that were started end by
    /// themselves, since each ring has room for all that its app gives.
    pub fn begin<R: Threads>(rt: &R, alloc: Global, apps: Vec<A>) -> Result<Senders<A>, AllocError>
        requires few { All (λ a. length (A.left a) ≤ MAX_MESSAGES) apps.items }
        ensures given { IfOk result (λ s. s.given ≡ map A.left apps.items) }
        ensures all { IfOk result (λ s. length s.taken ≡ length s.given) }
    {
        let senders = begin_all(rt, alloc, apps)?;
        Ok(Senders { senders })
    }

    /// Takes what it finds in the rings.
    ///
    /// # Errors
    ///
    /// Want of memory alone: then what was taken so far stands, and what is left can be taken later.
    pub fn take(&mut self) -> Result<(), AllocError>
        ensures given { self.new.given ≡ self.old.given }
        ensures grown { HaveGrown self.old.taken self.new.taken }
    {
        take_all(self.senders.as_mut_slice())
    }

    /// Copies of what was taken of each ring so far.
    ///
    /// # Errors
    ///
    /// Want of memory alone: nothing has changed.
    pub fn taken(&self, alloc: Global) -> Result<Seq<Seq<Message>>, AllocError>
        ensures same { IfOk result (λ lists. lists ≡ self.now.taken) }
        ensures few { IfOk result (λ lists. All (λ list. length list ≤ MAX_MESSAGES) lists) }
        ensures fit { IfOk result (λ lists. All (λ list. All IsMessage list) lists) }
    {
        let lists = copies(alloc, self.senders.as_slice())?;
        Ok(Seq::of(lists))
    }

    /// Waits until all messages were pushed, takes the rest of them, and answers all.
    ///
    /// # Errors
    ///
    /// Want of memory alone: then the messages are lost.
    pub fn finish<R: Threads>(self, rt: &R, alloc: Global) -> Result<Seq<Seq<Message>>, AllocError>
        requires few { All (λ list. length list ≤ MAX_MESSAGES) self.given }
        ensures all { IfOk result (λ lists. lists ≡ self.given) }
        ensures grown { IfOk result (λ lists. HaveGrown self.taken lists) }
        ensures fit { IfOk result (λ lists. All (λ list. All IsMessage list) lists) }
    {
        let lists = finish_all(rt, alloc, self.senders)?;
        Ok(Seq::of(lists))
    }
}

/// Begins to push all messages of these apps.
fn begin_all<R: Threads, A: App + 'static>(
    rt: &R,
    alloc: Global,
    apps: Vec<A>,
) -> Result<Vec<Sender<A>>, AllocError>
    requires few { All (λ a. length (A.left a) ≤ MAX_MESSAGES) apps.items }
    ensures { IfOk result (λ v. given_in A.left v.items ≡ map A.left apps.items) }
{
    let mut senders = Vec::with_capacity(alloc, apps.len())?;
    for app in apps {
        senders.push(Sender::begin(rt, alloc, app)?)?;
    }
    Ok(senders)
}

/// Takes what is found in the rings of these senders.
fn take_all<A: App + 'static>(senders: &mut [Sender<A>]) -> Result<(), AllocError>
    ensures given { given_in A.left senders.new ≡ given_in A.left senders.old }
    ensures grown { HaveGrown (taken_in senders.old) (taken_in senders.new) }
{
    for m in 0..senders.len() {
        senders[m].take()?;
    }
    Ok(())
}

/// What was taken of each of them.
fn copies<A: App + 'static>(
    alloc: Global,
    senders: &[Sender<A>],
) -> Result<Vec<Seq<Message>>, AllocError>
    ensures same { IfOk result (λ v. v.items ≡ taken_in senders.now) }
    ensures few { IfOk result (λ v. All (λ list. length list ≤ MAX_MESSAGES) v.items) }
    ensures fit { IfOk result (λ v. All (λ list. All IsMessage list) v.items) }
{
    let mut lists = Vec::with_capacity(alloc, senders.len())?;
    for sender in senders {
        lists.push(copy_of(alloc, sender.messages())?)?;
    }
    Ok(lists)
}

/// Waits until all messages were pushed, and takes the rest of them.
fn finish_all<R: Threads, A: App + 'static>(
    rt: &R,
    alloc: Global,
    senders: Vec<Sender<A>>,
) -> Result<Vec<Seq<Message>>, AllocError>
    requires few { All (λ s. length (given_by A.left s.pushing) ≤ MAX_MESSAGES) senders.items }
    ensures all { IfOk result (λ v. v.items ≡ given_in A.left senders.items) }
    ensures grown { IfOk result (λ v. HaveGrown (taken_in senders.items) v.items) }
    ensures fit { IfOk result (λ v. All (λ list. All IsMessage list) v.items) }
{
    let mut lists = Vec::with_capacity(alloc, senders.len())?;
    for sender in senders {
        lists.push(Seq::of(sender.finish(rt)?))?;
    }
    Ok(lists)
}

/// Equal messages.
fn copy_of(alloc: Global, messages: &[Message]) -> Result<Seq<Message>, AllocError>
    ensures { IfOk result (λ copy. copy ≡ messages.now) }
{
    let mut copy = Vec::with_capacity(alloc, messages.len())?;
    for message in messages {
        copy.push(message.copy())?;
    }
    Ok(Seq::of(copy))
}
