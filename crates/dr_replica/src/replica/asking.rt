//! What a replica's next acts will come to.
ghost use Rattle.std.specs.Prelude.{◌≡◌, ◌<◌, [], length, slice_index_or, true};
ghost use Rattle.dr_history.specs.Order.{messages_from};
ghost use Rattle.dr_program.specs.Replica.{is_inside, item_of_place, least_seen, may_deliver, may_send, next_index, sender_of_place};
ghost use Rattle.dr_words.specs.declared.column.TheConstants.{LOGGED_COLUMN, RECEIVED_COLUMN};

use super::Replica;
use dr_entry::{Item, Message, Value, Vote};
use dr_words::{LOGGED_COLUMN, Mask, RECEIVED_COLUMN};

impl Replica {
    /// The message that it puts next.
    pub fn next_message(&self) -> &Message
        requires { may_send self.now ≡ true }
        ensures { result.now ≡ slice_index_or self.now.messages (next_index self.now) [] }
    {
        &self.messages[self.next_index()]
    }

    /// The place that it delivers next.
    pub fn next_place(&self) -> u64
        ensures { result ≡ self.now.next }
    {
        self.next.place
    }

    /// The member whose item stands at the place that it delivers next.
    pub fn next_sender(&self) -> u8
        ensures sender { result ≡ sender_of_place self.now self.now.next }
        ensures member { result < self.now.roster }
    {
        self.items.sender_at(self.next)
    }

    /// The item at the place that it delivers next.
    pub fn next_item(&self) -> &Item
        requires may { may_deliver self.now ≡ true }
        requires inside { is_inside self.now ≡ true }
        ensures { result.now ≡ item_of_place self.now self.now.next }
    {
        self.items.item_at(self.next)
    }

    /// How many messages of a member its history has.
    pub fn messages_from(&self, member: u8) -> u32
        requires { member < self.now.roster }
        ensures { result ≡ length (messages_from member self.now.history) }
    {
        self.history.messages_from(member)
    }

    /// How many places every member of its view is seen to have received.
    pub fn least_received(&self) -> u64
        ensures { result ≡ least_seen self.now RECEIVED_COLUMN }
    {
        self.least_seen(RECEIVED_COLUMN)
    }

    /// How many entries every member of its view is seen to have logged.
    pub fn least_logged(&self) -> u64
        ensures { result ≡ least_seen self.now LOGGED_COLUMN }
    {
        self.least_seen(LOGGED_COLUMN)
    }

    /// The members that it suspects or wishes for.
    pub fn suspects(&self) -> Mask
        ensures { result ≡ self.now.suspects }
    {
        self.suspects.mask()
    }

    /// The value that it has accepted.
    pub fn accepted_value(&self) -> Value
        ensures { result ≡ self.now.value }
    {
        self.value
    }

    /// The value that it has committed, if it has.
    pub fn committed_value(&self) -> Option<Value>
        ensures { result ≡ self.now.committed }
    {
        self.committed
    }

    /// The vote on its log that it has not yet acted on.
    pub fn waiting_vote(&self) -> Option<Vote>
        ensures { result ≡ self.now.pending }
    {
        self.pending
    }
}
