use crate::group::{Tally, mixed};
use dr_entry::{Entry, Message};
use dr_store::Store;
use std::alloc::{AllocError, Global};

/// How many commands a store is given.
const COMMANDS: u32 = 4096;

/// How many values are looked up in it.
const LOOKUPS: u32 = 10_000;

/// How many keys there are.
const KEYS: u32 = 512;

/// Gives a new store commands and looks up values in it at versions, so many times.
#[inline(never)]
pub fn stores(alloc: Global, rounds: u32) -> Result<Tally, AllocError> {
    let history = history_of_commands(alloc)?;
    let mut tally = Tally {
        count: 0,
        checksum: 0,
    };
    for _ in 0..rounds {
        let store = Store::of(alloc, history.as_slice())?;
        tally = look_up(&store, tally);
    }
    Ok(tally)
}

/// Counts the values that are found, and mixes the first byte of each into the sum.
fn look_up(store: &Store, before: Tally) -> Tally {
    let Tally {
        mut count,
        mut checksum,
    } = before;
    for number in 0..LOOKUPS {
        let key = key_of(number.wrapping_mul(11) % KEYS);
        let version = u64::from(number.wrapping_mul(31) % (COMMANDS + 1));
        if let Ok(Some([first, ..])) = store.get_at(&key, version) {
            count = count.wrapping_add(1);
            checksum = mixed(checksum, u64::from(*first));
        }
    }
    Tally { count, checksum }
}

fn history_of_commands(alloc: Global) -> Result<Vec<Entry>, AllocError> {
    let mut history = Vec::with_capacity(alloc, COMMANDS as usize)?;
    for number in 0..COMMANDS {
        history.push(Entry::Msg {
            sender: 0,
            index: number,
            bytes: command(number),
        })?;
    }
    Ok(history)
}

/// Each eighth command removes a key, the others put a value of 24 bytes.
fn command(number: u32) -> Message {
    let [.., last] = number.to_be_bytes();
    let mut bytes = [b'a' + last % 26; 34];
    bytes[1] = 8;
    bytes[2..10].copy_from_slice(&key_of(number.wrapping_mul(7) % KEYS));
    if number % 8 == 7 {
        bytes[0] = b'D';
        return Message::of(&bytes[..10]).unwrap();
    }
    bytes[0] = b'P';
    Message::of(&bytes).unwrap()
}

fn key_of(number: u32) -> [u8; 8] {
    let [_, _, high, low] = number.to_be_bytes();
    [b'k', b'e', b'y', 0, 0, 0, high, low]
}
