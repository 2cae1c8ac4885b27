//! A law of the definition of reports.
ghost use Rattle.std.specs.Prelude.{◌≡◌, ◌↔◌};
ghost use Rattle.tla_report.specs.declared.checked.Checked.{Checked};
ghost use Rattle.tla_report.specs.Laws.{SaysNoError, TellsStatus};
ghost use Rattle.tla_report.specs.Status.{status_of};

/// Reports with the same bytes have the same status, and a report says `No error.` exactly if the status is 0.
pub fn reports_tell()
    ensures status { (a b : Checked) → TellsStatus a b }
    ensures no_error { (checked : Checked) → SaysNoError checked ↔ (status_of checked ≡ 0) }
{}
