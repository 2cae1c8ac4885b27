//! Laws of the definitions of the right answer for two texts and of its report.
ghost use Rattle.std.specs.Prelude.{◌≡◌, ◌↔◌, List, ℕ};
ghost use Rattle.tla_check.specs.Laws.{ComeOutAlike, ReportsKept, SaysTruly};

/// If the report of two texts says `No error.`, they denote exactly one model, and it is kept: every assumption is TRUE
/// and, at every reachable state, every invariant is TRUE and, if deadlock is checked and every constraint is TRUE,
/// there is a successor. Conversely, the report of a model that is kept says `No error.` if there are no more states
/// than the limit, and neither reading Init and Next nor a constraint faults.
pub fn no_error_means_kept()
    ensures truly { (text config : List ℕ) → SaysTruly text config }
    ensures exactly { (text config : List ℕ) → ReportsKept text config }
{}

/// Two calls for the same texts and limit, neither of which ran out of memory or workers, end with the same status,
/// whatever their workers, cuts and schedules. They end with the same report if the texts denote a model, if the module
/// has no tokens, or if one of them is a refusal for a name, an item of CONSTANT or the behaviour.
pub fn two_calls_alike()
    ensures { (text config : List ℕ) → ComeOutAlike text config }
{}
