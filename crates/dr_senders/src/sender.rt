//! One sender.
ghost use Rattle.std.specs.Prelude.{◌≡◌, ◌≤◌, All, IfOk, length};
ghost use Rattle.dr_entry.specs.Messages.{IsMessage};
ghost use Rattle.dr_entry.specs.declared.limits.TheConstants.{MAX_MESSAGES};
ghost use Rattle.dr_history.specs.History.{IsPrefixOf};
ghost use Rattle.rtrb.specs.Ring.{IsPair};
ghost use Rattle.dr_senders.specs.Pushing.{producer_of, given_by};

use crate::app::App;
use crate::inbox::Inbox;
use crate::pushing::Pushing;
use dr_entry::Message;
use std::alloc::{AllocError, Global};
use std::thread::Threads;

/// The messages of an app on their way through a ring.
#[derive(Drop)]
pub(crate) struct Sender<A: App> {
    pushing: Pushing<A>,
    inbox: Inbox,
    ghost pair: { IsPair (producer_of pushing) inbox.ring },
}

impl<A: App + 'static> Sender<A> {
    /// Begins to push all messages of an app into a ring.
    pub(crate) fn begin<R: Threads>(rt: &R, alloc: Global, app: A) -> Result<Sender<A>, AllocError>
        requires few { length (A.left app) ≤ MAX_MESSAGES }
        ensures { IfOk result (λ s. given_by A.left s.pushing ≡ A.left app) }
    {
        let (producer, inbox) = Inbox::new(alloc)?;
        let pushing = Pushing::begin(rt, app, producer);
        Ok(Sender { pushing, inbox })
    }

    /// What was taken of the ring.
    pub(crate) fn messages(&self) -> &[Message]
        ensures same { result.now ≡ self.now.inbox.messages.items }
        ensures few { length result.now ≤ MAX_MESSAGES }
        ensures fit { All IsMessage result.now }
    {
        self.inbox.messages()
    }

    /// Takes what it finds in the ring.
    ///
    /// # Errors
    ///
    /// Want of memory alone.
    pub(crate) fn take(&mut self) -> Result<(), AllocError>
        ensures given { given_by A.left self.new.pushing ≡ given_by A.left self.old.pushing }
        ensures grown { IsPrefixOf self.old.inbox.messages.items self.new.inbox.messages.items }
    {
        self.inbox.take()
    }

    /// Waits until all messages were pushed, and takes the rest of them.
    ///
    /// # Errors
    ///
    /// Want of memory alone.
    pub(crate) fn finish<R: Threads>(self, rt: &R) -> Result<Vec<Message>, AllocError>
        requires few { length (given_by A.left self.pushing) ≤ MAX_MESSAGES }
        ensures all { IfOk result (λ v. v.items ≡ given_by A.left self.pushing) }
        ensures grown { IfOk result (λ v. IsPrefixOf self.inbox.messages.items v.items) }
        ensures fit { IfOk result (λ v. All IsMessage v.items) }
    {
        let Sender { pushing, mut inbox } = self;
        let mut producer = pushing.finish(rt);
        inbox.take_rest(&mut producer)?;
        Ok(inbox.into_messages())
    }
}
