//! Progress lines of a long search, on standard error, and the summary of a long run.
//!
//! A gate is called for pieces, not for states, so the numbers of states are bounds.
#![tactic(auto)]

mod greatest;
mod memory;
mod progress;
mod progress_line;
mod run_summary;

pub use greatest::{Greatest, GreatestLevel};
pub use memory::{Memory, NoMemory, ProcessMemory};
pub use progress::Progress;
pub use progress_line::ProgressLine;
pub use run_summary::RunSummary;
