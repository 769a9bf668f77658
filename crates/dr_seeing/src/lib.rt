//! What can be told of a run as it goes on: the line of each deed and its news, a chart, and a text that is
//! written piece by piece.
#![tactic(auto)]

mod chart;
mod deeds;
mod lines;
mod news;
mod output;
mod turn;
mod values;
mod waits;

pub use chart::Chart;
pub use deeds::{news_of, push_line};
pub use news::{Change, News};
pub use output::{Output, Trouble};
pub use turn::push_counts;
pub use waits::push_waits;
