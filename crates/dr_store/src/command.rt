ghost use Rattle.std.specs.Prelude.{◌≡◌, ◌≤◌, length, option_map};
ghost use Rattle.dr_store.specs.Commands.{command_in, put_in, removal_in};

use dr_entry::Message;

/// The first byte of a message that puts a value.
const PUT: u8 = 0x50;

/// The first byte of a message that removes a key.
const REMOVAL: u8 = 0x44;

/// The most bytes of a key.
const MAX_KEY: usize = 62;

/// A command: from now on its key has this value, or none.
#[derive(Debug, Drop)]
pub(crate) struct StoreCommand<'a> {
    pub key: &'a [u8],
    pub value: Option<Message>,
}

/// The command of a message, if it is one.
pub(crate) fn command_in(message: &Message) -> Option<StoreCommand<'_>>
    ensures { option_map (λ c. (c.key.now, c.value)) result ≡ command_in message.now }
{
    match message.bytes() {
        [PUT, k, bytes @ ..] => put_in(usize::from(*k), bytes),
        [REMOVAL, k, bytes @ ..] => removal_in(usize::from(*k), bytes),
        _ => None,
    }
}

/// The command that puts the bytes behind the first `k` as the value of a key, which is these `k`.
fn put_in(k: usize, bytes: &[u8]) -> Option<StoreCommand<'_>>
    requires { length bytes.now ≤ 64 }
    ensures { option_map (λ c. (c.key.now, c.value)) result ≡ put_in k bytes.now }
{
    if k == 0 || k > MAX_KEY || k > bytes.len() {
        return None;
    }
    let (key, value) = bytes.split_at(k);
    let value = Message::of(value).unwrap();
    Some(StoreCommand {
        key,
        value: Some(value),
    })
}

/// The command that removes a key: all these bytes, of which there are `k`.
fn removal_in(k: usize, bytes: &[u8]) -> Option<StoreCommand<'_>>
    ensures { option_map (λ c. (c.key.now, c.value)) result ≡ removal_in k bytes.now }
{
    if k == 0 || k > MAX_KEY || k != bytes.len() {
        return None;
    }
    Some(StoreCommand {
        key: bytes,
        value: None,
    })
}
