ghost use Rattle.std.specs.Prelude.{◌≡◌, List, All};
ghost use Rattle.dr_entry.specs.declared.end.MemberEnd.{MemberEnd};
ghost use Rattle.dr_history.specs.{History.IsPrefixOf, declared.opening.Opening.Opening};
ghost use Rattle.dr_summary.specs.{Histories.longest, Summary.HaveAgreed};

/// A law: of members that agree each has a front of the longest history, or all of it.
pub fn histories_are_fronts()
    ensures { (o : Opening) (members : List MemberEnd) → HaveAgreed o members
        → All (λ (m : MemberEnd). IsPrefixOf m.history (longest members)) members }
{}
