//! Laws of growth.
ghost use Rattle.std.specs.Prelude.{ℕ, ◌≤◌, Bool, List};
ghost use Rattle.dr_words.specs.{Grown.Grown, Masks.IsPartOf};

/// What stays as it is counts as grown, and what has grown twice has grown. A mask that has grown is no
/// smaller a number.
pub fn growth_laws()
    ensures reflexive { (members : ℕ) (rows : List (List ℕ)) (frozen : List Bool)
        → Grown members rows rows frozen frozen }
    ensures transitive { (members : ℕ) (a b c : List (List ℕ)) (x y z : List Bool)
        → Grown members a b x y → Grown members b c y z → Grown members a c x z }
    ensures masks { (part whole : ℕ) → IsPartOf part whole → part ≤ whole }
{}
