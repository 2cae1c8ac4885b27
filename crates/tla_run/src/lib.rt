//! A run of the program: from the words of the command line and two files to its output and the exit status.
#![tactic(auto)]

mod files;
mod hints;
mod host;
mod input;
mod messages;
mod process;
mod running;
mod unread;
mod words;

pub use host::{Host, Inputs};
pub use input::{ReadFault, read_whole};
pub use process::run_process;
pub use running::run;
pub use tla_check::{Checked, Gate, Line, LineFault, NoGate};
pub use tla_explain::write_graph;
pub use tla_progress::{Memory, NoMemory, ProcessMemory};
pub use unread::Unread;
