//! Passes over words.
use dr_lane::{count_equal, least, match_mask};
use std::alloc::Global;

/// What a pass over these words answers, behind the word that it looks for; `None` too where they are not
/// those that it takes.
pub(crate) fn answer_over(alloc: Global, name: &str, words: &str) -> anyhow::Result<Option<u64>> {
    let mut numbers: Vec<u64> = Vec::new(alloc);
    for word in words.split_whitespace() {
        numbers.push(word.parse()?)?;
    }
    Ok(match (name, numbers.as_slice()) {
        ("least", words) if !words.is_empty() => Some(least(words)),
        ("count_equal", [to, words @ ..]) => Some(count_equal(words, *to) as u64),
        ("match_mask", [to, words @ ..]) if words.len() <= 64 => Some(match_mask(words, *to)),
        _ => None,
    })
}
