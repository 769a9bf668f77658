//! Joins: who comes into a view that wasn't in the one before, who gives them their letters, and the memory for
//! these.
#![tactic(auto)]

ghost use Rattle.std.specs.Prelude.{◌≡◌, ℕ, ◌≤◌, ◌&&◌, not, None, Some, false, true};
ghost use Rattle.dr_history.specs.Members.{has};
ghost use Rattle.dr_words.specs.Masks.{without};

mod letters;

use dr_words::Mask;
pub use letters::Letters;

/// Those of a view that weren't in the one before.
pub fn newcomers(before: Mask, after: Mask) -> Mask
    ensures members { (i : ℕ) → has result i ≡ (has after i && not (has before i)) }
    ensures value { result ≡ without after before }
{
    after.without(before)
}

/// The least member of both views, who gives the newcomers their letters.
pub fn welcomer(before: Mask, after: Mask) -> Option<u8>
    ensures none { result ≡ None → (i : ℕ) → has before i ≡ true → has after i ≡ false }
    ensures both { (m : ℕ) → result ≡ Some m → (has before m ≡ true) × (has after m ≡ true) }
    ensures least { (m i : ℕ) → result ≡ Some m → has before i ≡ true → has after i ≡ true → m ≤ i }
{
    after.without(newcomers(before, after)).least()
}
