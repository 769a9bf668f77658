//! Laws of the bytes of a log.
ghost use Rattle.std.specs.Prelude.{◌≡◌, ℕ, Bool, List};
ghost use Rattle.dr_entry.specs.declared.record.Record.{Record};
ghost use Rattle.dr_log_bytes.specs.{Content.OnLog, Grammar.{IsDamaged, IsLog, StandFor}};

/// A law: bytes stand for one thing at most, are damaged at most at one place, and never both. Those that are a log
/// are one of one format, and of one list of records.
pub fn bytes_have_one_meaning()
    ensures content { (bytes : List ℕ) (first second : OnLog)
        → StandFor bytes first → StandFor bytes second → first ≡ second }
    ensures place { (bytes : List ℕ) (first second : ℕ)
        → IsDamaged bytes first → IsDamaged bytes second → first ≡ second }
    ensures either { (bytes : List ℕ) (c : OnLog) (at : ℕ)
        → StandFor bytes c → IsDamaged bytes at → ⊥ }
    ensures records { (bytes : List ℕ) (a b : Bool) (first second : List Record)
        → IsLog bytes a first → IsLog bytes b second → (a ≡ b) × (first ≡ second) }
{}
