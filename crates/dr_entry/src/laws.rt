ghost use Rattle.std.specs.Prelude.{◌≡◌, List, ℕ, [], ◌++◌};
ghost use Rattle.dr_entry.specs.{Spelling.{IsValid, Fits, spelling}, declared.record.Record.Record};

use crate::{MAX_MEMBERS, MAX_MESSAGE_LENGTH, MAX_MESSAGES};

/// A law: no spelling of a valid record begins that of another.
pub fn one_spelling()
    ensures same_record { (a b : Record) → IsValid a → Fits a → IsValid b → Fits b → spelling a
        ≡ spelling b → a ≡ b }
    ensures no_prefix { (a b : Record) (rest : List ℕ) → IsValid a → Fits a → IsValid b → Fits b
        → spelling a ≡ spelling b ++ rest → rest ≡ [] }
{}

/// A law: the limits in numbers.
pub fn limits_law()
    ensures members { MAX_MEMBERS ≡ 16 }
    ensures message_length { MAX_MESSAGE_LENGTH ≡ 64 }
    ensures messages { MAX_MESSAGES ≡ 4096 }
{}
