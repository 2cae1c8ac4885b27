//! A check of a module and its configuration: the stages, and the answer.
#![tactic(auto)]

mod carried;
mod checking;
pub mod laws;

pub use checking::{check, check_and_report};
pub use tla_config::Source;
pub use tla_line::{Line, LineFault, read_line};
pub use tla_report::{
    Answered, Checked, Names, Refusal, RefusalCode, RefusalName, WriteFault, refusal_code_text,
    write_report,
};
pub use tla_search::{
    Answer, Counts, Gate, GatePlace, NoGate, Options, Part, Pass, SearchError, Trace,
};
