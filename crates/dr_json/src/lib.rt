//! Messages and scripts as JSON texts, to be read by programs.
#![tactic(auto)]

mod script;
mod text;

pub use script::push_script;
pub use text::{push_comma, push_text};
