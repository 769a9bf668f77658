ghost use Rattle.std.specs.Prelude.{◌≡◌, ◌↔◌, IsTrue};
ghost use Rattle.dr_history.specs.History.{IsPrefixOf};

use dr_entry::Entry;

/// Whether the first list of entries is the front part of the second, or all of it.
pub fn is_prefix(entries: &[Entry], of: &[Entry]) -> bool
    ensures { IsTrue result ↔ IsPrefixOf entries.now of.now }
{
    of.starts_with(entries)
}

/// Whether two lists of entries are equal.
pub(crate) fn same_entries(a: &[Entry], b: &[Entry]) -> bool
    ensures { IsTrue result ↔ (a.now ≡ b.now) }
{
    a == b
}
