//! Reserved words, and names of the modules that can be extended.

/// Reserved words that a module may have.
pub const RESERVED: [&str; 27] = [
    "ASSUME",
    "BOOLEAN",
    "CASE",
    "CHOOSE",
    "CONSTANT",
    "CONSTANTS",
    "DOMAIN",
    "ELSE",
    "EXCEPT",
    "EXTENDS",
    "FALSE",
    "IF",
    "IN",
    "LET",
    "LOCAL",
    "MODULE",
    "OTHER",
    "STRING",
    "SUBSET",
    "THEN",
    "THEOREM",
    "TRUE",
    "UNCHANGED",
    "UNION",
    "VARIABLE",
    "VARIABLES",
    "ENABLED",
];

/// Modules that can be extended.
pub const MODULES: [&str; 5] = ["Naturals", "Integers", "Sequences", "FiniteSets", "TLC"];

/// Operators with names, of the modules that can be extended.
pub const LIBRARY: [&str; 11] = [
    "Nat",
    "Int",
    "Seq",
    "Len",
    "Append",
    "Head",
    "Tail",
    "SubSeq",
    "IsFiniteSet",
    "Cardinality",
    "Assert",
];

/// Operators that are written with a backslash, without it.
pub const BACKSLASHED: [&str; 21] = [
    "in",
    "notin",
    "subseteq",
    "cup",
    "cap",
    "union",
    "intersect",
    "times",
    "div",
    "circ",
    "leq",
    "geq",
    "equiv",
    "land",
    "lor",
    "lnot",
    "neg",
    "X",
    "o",
    "A",
    "E",
];
