//! The threads that push.
ghost use Rattle.std.specs.Prelude.{◌≡◌, ◌≤◌, [], length};
ghost use Rattle.rtrb.specs.Ring.{SameProducer, known_free, sent};
ghost use Rattle.dr_senders.specs.Pushing.{producer_of, given_by};

use crate::app::App;
use dr_entry::Message;
use rtrb::Producer;
use std::snapshot::Snapshot;
use std::thread::{self, Promise, PromisedHandle, Threads};

/// That a thread hands back the producer that it was given, through which it has pushed all messages of an
/// app.
#[derive(Drop)]
pub(crate) struct Pushes<A: App> {
    app: Snapshot<A>,
    producer: Snapshot<Producer<Message>>,
}

impl<A: App> Promise<Producer<Message>> for Pushes<A> {
    ghost kept_by = { λ p r. SameProducer p.producer.value r × (sent r ≡ A.left p.app.value) };
}

/// The messages of an app on their way into a ring.
#[derive(Drop)]
pub(crate) enum Pushing<A: App> {
    /// A thread pushes them.
    Begun(PromisedHandle<Producer<Message>, Pushes<A>>),
    /// All of them were pushed.
    Over(Producer<Message>),
}

impl<A: App + 'static> Pushing<A> {
    /// Begins to push all messages of an app. Where no thread can be started it pushes them first.
    pub(crate) fn begin<R: Threads>(rt: &R, app: A, producer: Producer<Message>) -> Pushing<A>
        requires none { sent producer ≡ [] }
        requires room { length (A.left app) ≤ known_free producer }
        ensures given { given_by A.left result ≡ A.left app }
        ensures ring { SameProducer producer (producer_of result) }
    {
        let promise = Pushes {
            app: Snapshot::of(&app),
            producer: Snapshot::of(&producer),
        };
        let push = move || -> Producer<Message>
            requires { (sent producer ≡ []) × (length (A.left app) ≤ known_free producer) }
            ensures { SameProducer producer result × (sent result ≡ A.left app) }
        { push_all(app, producer) };
        match thread::spawn_with(rt, promise, push) {
            Ok(thread) => Pushing::Begun(thread),
            Err(refused) => Pushing::Over((refused.value)()),
        }
    }

    /// Waits until all messages were pushed, and answers the producer.
    pub(crate) fn finish<R: Threads>(self, rt: &R) -> Producer<Message>
        ensures all { sent result ≡ given_by A.left self }
        ensures ring { SameProducer (producer_of self) result }
    {
        match self {
            Pushing::Begun(thread) => thread.join(rt),
            Pushing::Over(producer) => producer,
        }
    }
}

/// Pushes all messages of an app.
fn push_all<A: App>(app: A, producer: Producer<Message>) -> Producer<Message>
    requires none { sent producer ≡ [] }
    requires room { length (A.left app) ≤ known_free producer }
    ensures ring { SameProducer producer result }
    ensures all { sent result ≡ A.left app }
{
    let mut app = app;
    let mut producer = producer;
    while let Some(message) = app.next() {
        producer.push_reserved(message);
    }
    producer
}
