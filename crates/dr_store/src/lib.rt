//! A versioned store: what the messages of a history, as commands on a map from keys to values, have made of it
//! at each version. Old versions are forgotten when it is told to.
//!
//! A message whose first byte is hexadecimal 50 puts a value: its second byte is the length of the key, 1 to
//! 62, and behind it come the key and the value. One whose first byte is hexadecimal 44 removes a key: its
//! second byte is the length of the key, and behind it comes the key alone. Any other message changes
//! nothing. A version is a number of messages: views don't count.
//!
//! A store is the changes of each key, its version and its oldest version; which history it stands for is a
//! relation (`IsStoreOf`). `apply` takes the allocator and answers `AllocError`; [`Store::of`] is the store
//! of a whole history. Values stand in their changes, as the arrays that messages are, so a command on a
//! known key takes memory only where its list grows, which begins with room for one. To forget drops of each
//! key the changes before the last one up to the version, and that one, too, where it removes the key; no
//! contract says that anything is dropped, as memory is nothing that contracts see. A refusal takes no
//! memory, so it never tells want of memory in its place.
#![tactic(auto)]

mod changes;
mod command;
mod fault;
mod laws;
mod store;

pub use fault::AtFault;
pub use laws::replicas_agree;
pub use store::Store;
