//! The calls by their names, and their inputs.

use crate::call::{Call, OnModel};

/// Pieces of a text, each with how often it is repeated there.
pub type Pieces = &'static [(&'static str, u64)];

/// A call, and the formula that the module assumes for b = 7, or the definitions of its action.
#[derive(Clone, Copy)]
pub struct Subject {
    pub call: Call,
    pub formula: Pieces,
}

const TRUE: Pieces = &[("TRUE", 1)];

/// Each call by its name. One that is refused has the name of its code.
static SUBJECTS: [(&str, Call, Pieces); 33] = [
    ("insert", Call::Insert, TRUE),
    ("V1", Call::Power, TRUE),
    ("V2", Call::InsertDeep, TRUE),
    (
        "eval",
        Call::On(OnModel::Evaluate),
        &[("{b + i : i \\in 1..3}", 1)],
    ),
    (
        "member",
        Call::On(OnModel::Member),
        &[("{b} \\cup {i + 1 : i \\in 1..7}", 1)],
    ),
    (
        "E2",
        Call::On(OnModel::Evaluate),
        &[("{b, b + 9223372036854775807}", 1)],
    ),
    (
        "E3",
        Call::On(OnModel::Evaluate),
        &[("<<b, 1 \\div 0>>", 1)],
    ),
    ("E10", Call::On(OnModel::Evaluate), &[("SUBSET (1..20)", 1)]),
    (
        "E11",
        Call::On(OnModel::Evaluate),
        &[("{", 65), ("b", 1), ("}", 65)],
    ),
    ("initials", Call::On(OnModel::Initials), TRUE),
    ("successors", Call::On(OnModel::Successors), TRUE),
    ("search", Call::On(OnModel::Search(1, 100)), TRUE),
    ("search_by_two", Call::On(OnModel::Search(2, 100)), TRUE),
    ("limit", Call::On(OnModel::Search(2, 2)), TRUE),
    ("one_hash", Call::On(OnModel::SearchOfOneHash), TRUE),
    (
        "places_of_unchanged",
        Call::On(OnModel::Places),
        &[("A == UNCHANGED <<x, y>>", 1)],
    ),
    (
        "places_of_nothing_unchanged",
        Call::On(OnModel::Places),
        &[("A == UNCHANGED <<>>", 1)],
    ),
    (
        "places_of_a_name_unchanged",
        Call::On(OnModel::Places),
        &[("B == <<x>>\nA == UNCHANGED B", 1)],
    ),
    (
        "places_of_a_box",
        Call::On(OnModel::Places),
        &[("A == [x' = 1]_<<y>>", 1)],
    ),
    (
        "places_of_an_angle",
        Call::On(OnModel::Places),
        &[("A == <<x' = 1>>_(y)", 1)],
    ),
    (
        "one_name_fits",
        Call::On(OnModel::FitsNames(1)),
        &[("\\E c \\in {b} : b = c", 1)],
    ),
    (
        "no_name_fits",
        Call::On(OnModel::FitsNames(0)),
        &[("\\E c \\in {b} : b = c", 1)],
    ),
    ("values_fit", Call::On(OnModel::FitsValues(true)), TRUE),
    ("no_values_fit", Call::On(OnModel::FitsValues(false)), TRUE),
    ("tokens_cut_short", Call::ParseCut, TRUE),
    ("build", Call::On(OnModel::Build), TRUE),
    ("L2", Call::On(OnModel::Build), &[("b ? b", 1)]),
    (
        "L5",
        Call::On(OnModel::Build),
        &[("9223372036854775808", 1)],
    ),
    ("P1", Call::On(OnModel::Build), &[("b +", 1)]),
    (
        "P4",
        Call::On(OnModel::Build),
        &[("(", 200), ("TRUE", 1), (")", 200)],
    ),
    ("C1", Call::Configure, TRUE),
    ("C2", Call::On(OnModel::Build), &[("b = d", 1)]),
    (
        "C11",
        Call::On(OnModel::Build),
        &[
            ("LET half == ", 1),
            ("~ ", 150),
            ("TRUE IN ", 1),
            ("~ ", 150),
            ("half", 1),
        ],
    ),
];

/// The subject of this name.
pub fn subject_of(name: &str) -> Option<Subject> {
    for &(known, call, formula) in &SUBJECTS {
        if known == name {
            return Some(Subject { call, formula });
        }
    }
    None
}
