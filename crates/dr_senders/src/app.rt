//! Who gives a member its messages.

ghost use Rattle.std.specs.Prelude.{◌≡◌};

use dr_entry::Message;
use std::marker::Model;
use std::vec::IntoIter;

/// Gives the messages of one member, one after the other.
pub trait App: Send + Drop {
    ghost use Rattle.std.specs.Prelude.{◌≡◌, ◌∷◌, ℕ, List, [], IfNone, IfSome};

    // The messages that it still gives.
    ghost left: { Self → List (List ℕ) };

    /// The next message, as long as there is one.
    fn next(&mut self) -> Option<Message>
        ensures some { IfSome result (λ m. left self.old ≡ m ∷ left self.new) }
        ensures none { IfNone result (left self.old ≡ []) };
}

/// Gives the messages of a list.
#[derive(Drop)]
pub struct ListApp {
    messages: IntoIter<Message>,
}

impl Model for ListApp {
    ghost use Rattle.std.specs.Prelude.{ℕ, List};
    ghost use Rattle.std.specs.Vec.Iter.{into_iter_items};

    ghost Value = { List (List ℕ) };

    ghost view = { λ a. into_iter_items a.messages };
}

impl ListApp {
    /// An app that gives these messages.
    pub fn new(messages: Vec<Message>) -> ListApp
        ensures { result ≡ messages.items }
    {
        ListApp {
            messages: messages.into_iter(),
        }
    }
}

impl App for ListApp {
    ghost left = { λ a. a };

    fn next(&mut self) -> Option<Message> {
        self.messages.next()
    }
}
