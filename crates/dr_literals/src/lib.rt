//! What words write: numbers in decimal, keys in hexadecimal, lists of members, and options.
//!
//! An option is read by one function in both spellings, `--NAME VALUE` and `--NAME=VALUE`. A value that is a
//! word of its own doesn't begin with a dash, so a forgotten one isn't taken from the next option.
#![tactic(auto)]

mod keys;
mod masks;
mod numbers;
mod options;

pub use keys::key_word;
pub use masks::mask_word;
pub use numbers::number_word;
pub use options::{late_named, option_members, option_of, value_word};
