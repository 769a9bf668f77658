//! Laws of reports.
ghost use Rattle.std.specs.Prelude.{◌≡◌, ◌≤◌, suc, All, List, Some, slice_get, ℕ};
ghost use Rattle.dr_entry.specs.declared.end.AgeEnd.{AgeEnd as AgeEndOf};
ghost use Rattle.dr_text.specs.{Report.report_text, declared.last.Last.Last as LastOf};
ghost use Rattle.dr_check.specs.{Agreeing.{AreAgreed, IsKeptBy}, Flaws.{IsFirstFlaw, IsRight}, Lines.LastFits};
ghost use Rattle.dr_check.specs.{Grammar.{IsNoReportAt, IsReport, IsWholeAge}, declared.flaw.Flaw.Flaw as FlawOf};
ghost use Rattle.dr_check.specs.Values.{HasSmallNumbers, HasValues, IsAgreed, IsTellableAge, KeepEachOther};
ghost use Rattle.dr_check.specs.declared.report.{Report.Report as ReportOf, ReportAge.ReportAge as AgeOf};
ghost use Rattle.dr_script.specs.{Ranges.HasGroupRanges, declared.script.Script.Script as ScriptOf};

use crate::report::Report;
use dr_entry::AgeEnd;
use dr_script::Script;

/// A report that has the values of ages whose members agree, those that aren't in an age's View 0 being late
/// ones, and each of which keeps what the one before it had, keeps every clause.
pub fn report_passes(_script: &Script, _ages: &[AgeEnd], _report: &Report)
    requires ranges { HasGroupRanges _script.now }
    requires values { HasValues _ages.now _report.now }
    requires agreed { All (IsAgreed _script.now) _ages.now }
    requires kept { KeepEachOther _script.now _ages.now }
    ensures { IsRight _script.now _report.now }
{}

/// What follows of a report that keeps every clause: the members of each age agree, and each age keeps what
/// the one before it had.
pub fn right_reports_agree(_script: &Script, _report: &Report)
    requires right { IsRight _script.now _report.now }
    requires whole { All (IsWholeAge _script.now.members) _report.now.ages }
    ensures agreed { All (AreAgreed _script.now) _report.now.ages }
    ensures kept { (i : ℕ) (a next : AgeOf) → slice_get _report.now.ages i ≡ Some a
        → slice_get _report.now.ages (suc i) ≡ Some next → IsKeptBy a next }
{}

/// A report that keeps every clause has no flaw. So `judge` finds none in it.
pub fn right_reports_are_flawless()
    ensures { (script : ScriptOf) (r : ReportOf) (flaw : FlawOf) → IsRight script r
        → IsFirstFlaw script r flaw → ⊥ }
{}

/// A text that is a report is none at no line. So `parse` refuses no report, unless memory is wanting.
pub fn reports_are_read()
    ensures { (members line : ℕ) (text : List ℕ) (r : ReportOf) → IsReport members text r
        → IsNoReportAt members text line → ⊥ }
{}

/// A text is one report at most. So what `parse` reads are the only values that it has.
pub fn texts_are_one_report()
    ensures { (members : ℕ) (text : List ℕ) (r other : ReportOf) → IsReport members text r
        → IsReport members text other → r ≡ other }
{}

/// What is printed of ages that have ended is a report, with their values.
pub fn printed_ages_are_reports()
    ensures { (members : ℕ) (ages : List AgeEndOf) (last : LastOf) → members ≤ 16
        → All (IsTellableAge members) ages → LastFits last
        → (r : ReportOf) × IsReport members (report_text ages last) r × HasValues ages r }
{}

/// What is printed of ages whose members agree, those that aren't in an age's View 0 being late ones, and each
/// of which keeps what the one before it had, is a report that keeps every clause.
pub fn printed_ages_are_right(_script: &Script, _ages: &[AgeEnd])
    requires ranges { HasGroupRanges _script.now }
    requires agreed { All (IsAgreed _script.now) _ages.now }
    requires kept { KeepEachOther _script.now _ages.now }
    requires small { All HasSmallNumbers _ages.now }
    ensures { (last : LastOf) → LastFits last → (r : ReportOf)
        × IsReport _script.now.members (report_text _ages.now last) r × IsRight _script.now r }
{}
