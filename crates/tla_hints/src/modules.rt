//! The operators of the modules that can be extended.

use crate::table::{Entry, entry_of};

/// The operators with arguments, as they are written.
static FORMS: [Entry; 9] = [
    ("Seq", "Seq(S)"),
    ("Len", "Len(s)"),
    ("Head", "Head(s)"),
    ("Tail", "Tail(s)"),
    ("Append", "Append(s, e)"),
    ("SubSeq", "SubSeq(s, m, n)"),
    ("IsFiniteSet", "IsFiniteSet(S)"),
    ("Cardinality", "Cardinality(S)"),
    ("Assert", "Assert(p, \"text\")"),
];

/// The module to extend for an operator; none if no module has it.
pub fn module_with(name: &[u8]) -> Option<&'static str> {
    let integers: [&[u8]; 16] = [
        b"+", b"-", b"*", b"\\div", b"%", b"^", b"<", b">", b"<=", b"=<", b"\\leq", b">=",
        b"\\geq", b"..", b"Nat", b"Int",
    ];
    let sequences: [&[u8]; 8] = [
        b"Seq", b"Len", b"\\o", b"\\circ", b"Append", b"Head", b"Tail", b"SubSeq",
    ];
    let finite_sets: [&[u8]; 2] = [b"IsFiniteSet", b"Cardinality"];
    let tlc: [&[u8]; 3] = [b":>", b"@@", b"Assert"];
    if integers.contains(&name) {
        Some("Integers")
    } else if sequences.contains(&name) {
        Some("Sequences")
    } else if finite_sets.contains(&name) {
        Some("FiniteSets")
    } else if tlc.contains(&name) {
        Some("TLC")
    } else {
        None
    }
}

/// How many arguments an operator of this name takes, in the modules that can be extended.
pub fn library_arity(name: &str) -> Option<usize> {
    match name.as_bytes() {
        b"Nat" | b"Int" => Some(0),
        b"Seq" | b"Len" | b"Head" | b"Tail" | b"IsFiniteSet" | b"Cardinality" => Some(1),
        b"Append" | b"Assert" => Some(2),
        b"SubSeq" => Some(3),
        _ => None,
    }
}

/// How an operator of this name is written with its arguments, in the modules that can be extended.
pub fn library_form(name: &str) -> Option<&'static str> {
    entry_of(&FORMS, name)
}
