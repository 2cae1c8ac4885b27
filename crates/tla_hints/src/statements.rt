//! The statements of a configuration.

use crate::table::{Entry, entry_of};

/// The words that begin a statement of a configuration.
pub const STATEMENTS: [&str; 10] = [
    "SPECIFICATION",
    "INIT",
    "NEXT",
    "INVARIANT",
    "INVARIANTS",
    "CONSTANT",
    "CONSTANTS",
    "CONSTRAINT",
    "CONSTRAINTS",
    "CHECK_DEADLOCK",
];

/// The words that begin a statement that isn't supported.
pub const LEFT_OUT: [&str; 8] = [
    "PROPERTY",
    "PROPERTIES",
    "SYMMETRY",
    "VIEW",
    "ACTION_CONSTRAINT",
    "ACTION_CONSTRAINTS",
    "ALIAS",
    "POSTCONDITION",
];

const PROPERTY: &str =
    "remove it: only invariants and deadlock are checked. For [][A]_v keep the old value of v in a history variable, and write an INVARIANT about both";

const ACTION_CONSTRAINT: &str =
    "make it a conjunct: define Bounded == Next /\\ Limit, and write NEXT Bounded";

/// Statements that aren't supported, and the `[` of `c <- [M]Op`.
static CURES: [Entry; 9] = [
    ("PROPERTY", PROPERTY),
    ("PROPERTIES", PROPERTY),
    (
        "SYMMETRY",
        "remove it: all states are checked, which finds the same errors",
    ),
    ("VIEW", "remove it: states are compared whole"),
    ("ACTION_CONSTRAINT", ACTION_CONSTRAINT),
    ("ACTION_CONSTRAINTS", ACTION_CONSTRAINT),
    ("ALIAS", "remove it: a trace shows the variables"),
    (
        "POSTCONDITION",
        "remove it, and write what must hold as an INVARIANT",
    ),
    ("[", "write c <- Op: there is one module"),
];

/// What to do about a statement that isn't supported.
pub fn statement_cure(word: &str) -> Option<&'static str> {
    entry_of(&CURES, word)
}
