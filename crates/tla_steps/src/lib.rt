//! The parts of an action and of a state predicate: which of them a step makes TRUE, which leave a variable without a
//! next value, which decide that the whole is FALSE, which stop an action, and which fault; and which updates of EXCEPT
//! change nothing.
//!
//! The parts of an action are the disjuncts and bodies under its disjunctions and `\E`, as TLC names its actions. If
//! only one conjunct of a conjunction has such parts, they are the parts of the conjunction.
#![tactic(auto)]

mod action;
mod blocked;
mod chosen;
mod culprit;
mod initial;
mod lacking;
mod missed;
mod reading;
mod reason;
mod stray;
mod taken;
mod walk;

pub use action::{Action, ActionPart, action_parts};
pub use blocked::{Blocked, blocked_parts};
pub use chosen::{Chosen, Taken};
pub use culprit::{Culprit, culprit_in};
pub use initial::{initial_states, is_false_in_all};
pub use lacking::{LackingPart, lacking_part, lacking_parts, may_set};
pub use missed::{Missed, add_missed, has_update};
pub use reading::culprit_of_reading;
pub use reason::{Operand, Reason, Verdict, reasons_against};
pub use stray::Stray;
pub use taken::{next_values, taken_parts};
