ghost use Rattle.std.specs.Prelude.{◌≡◌};
ghost use Rattle.dr_history.specs.History.{sent_of, messages_of, entry_of};

use dr_entry::{Entry, MemberEnd, Message, SentItem};
use dr_history::Opening;

/// The items that the member put in the view of this number.
pub(crate) fn items_of(ends: &[MemberEnd], member: u8, number: u8) -> &[SentItem]
    ensures { result.now ≡ sent_of ends.now member number }
{
    let Some(end) = ends.get(usize::from(member)) else {
        return &[];
    };
    for sent in end.sent.as_slice() {
        if sent.number == number {
            return sent.items.as_slice();
        }
    }
    &[]
}

/// The messages that the script gives the member.
pub(crate) fn messages_of(opening: &Opening, member: u8) -> &[Message]
    ensures { result.now ≡ messages_of opening.now member }
{
    match opening.messages.as_slice().get(usize::from(member)) {
        Some(messages) => messages.as_slice(),
        None => &[],
    }
}

/// The entry of an item of the member: none for a null, and none where the script has no such
/// message.
pub(crate) fn entry_of(opening: &Opening, member: u8, item: SentItem) -> Option<Entry>
    ensures { result ≡ entry_of opening.now member item }
{
    let SentItem::Index(index) = item else {
        return None;
    };
    let bytes = messages_of(opening, member).get(index as usize)?;
    Some(Entry::Msg {
        sender: member,
        index,
        bytes: bytes.copy(),
    })
}
