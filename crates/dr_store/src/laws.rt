ghost use Rattle.std.specs.Prelude.{◌≡◌, ℕ, List, ◌++◌, None};
ghost use Rattle.dr_store.specs.Stock.{IsStoreOf, refusal_at, value_at, values_at};

use crate::store::Store;
use dr_entry::Entry;

/// A law: two stores, of which one stands for a history and the other for what has become of it since, answer
/// alike at each version that both have and neither has forgotten.
pub fn replicas_agree(one: &Store, other: &Store, h: &[Entry], more: &[Entry], version: u64)
    requires one { IsStoreOf one.now h.now }
    requires other { IsStoreOf other.now (h.now ++ more.now) }
    requires one_has { refusal_at one.now version ≡ None }
    requires other_has { refusal_at other.now version ≡ None }
    ensures values { (key : List ℕ) → value_at one.now key version ≡ value_at other.now key version }
    ensures scans { (prefix : List ℕ)
        → values_at one.now prefix version ≡ values_at other.now prefix version }
{}
