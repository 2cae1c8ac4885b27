//! The result of a check, the bytes of its report, and the exit status.
#![tactic(auto)]

mod checked;
pub mod laws;
mod report;
mod status;

pub use checked::{Answered, Checked, Names, Refusal, RefusalCode, RefusalName};
pub use report::{WriteFault, refusal_code_text, write_report};
