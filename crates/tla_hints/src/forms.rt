//! Forms that tlacheck doesn't support.

use crate::table::{Entry, entry_of};

/// Forms by the word that begins them.
static FORMS: [Entry; 14] = [
    (
        "CHOOSE",
        "write CHOOSE x \\in S : p; for a value outside every set declare CONSTANT NoOne, and write CONSTANT NoOne = NoOne in the configuration",
    ),
    ("\\A", "give the names a set: \\A x \\in S : p"),
    ("\\E", "give the names a set: \\E x \\in S : p"),
    (
        "ENABLED",
        "write the condition of the action as a definition without primes, and use that",
    ),
    (
        "INSTANCE",
        "copy the definitions of that module into this one, with parameters for what WITH replaces",
    ),
    (
        "LAMBDA",
        "an operator takes no operator as an argument: write out what it does with this one",
    ),
    (
        "RECURSIVE",
        "write a definition for each depth (F0, F1, ..), or let a variable carry the result from step to step",
    ),
    (
        "WITH",
        "copy the definitions of that module into this one, with what WITH replaces put in",
    ),
    (
        "MODULE",
        "a file has one module: copy the definitions of the inner one into it",
    ),
    (
        "--",
        "a comment begins with \\*; a line between units has four dashes or more",
    ),
    ("-+->", "remove the formula: only safety is checked"),
    ("\\AA", "remove the formula: only safety is checked"),
    ("\\EE", "remove the formula: only safety is checked"),
    (
        "\\cdot",
        "write the two actions as one, which goes straight to the last state",
    ),
];

/// Words of proofs and of claims.
static PROOFS: [Entry; 13] = [
    ("LEMMA", "write THEOREM, which is read and not checked"),
    ("COROLLARY", "write THEOREM, which is read and not checked"),
    (
        "PROPOSITION",
        "write THEOREM, which is read and not checked",
    ),
    ("PROOF", "remove the proof; THEOREM itself may stay"),
    ("BY", "remove the proof; THEOREM itself may stay"),
    ("OBVIOUS", "remove the proof; THEOREM itself may stay"),
    ("OMITTED", "remove the proof; THEOREM itself may stay"),
    ("QED", "remove the proof; THEOREM itself may stay"),
    ("USE", "remove it: there are no proofs"),
    ("HIDE", "remove it: there are no proofs"),
    ("PROVE", "remove the claim: there are no proofs"),
    ("SUFFICES", "remove the proof; THEOREM itself may stay"),
    ("NEW", "remove the claim: there are no proofs"),
];

const COMMUNITY: &str =
    "remove it: where one of its operators is used, the hint says what to write";

/// Community modules, which can't be extended.
static COMMUNITY_MODULES: [Entry; 8] = [
    ("SequencesExt", COMMUNITY),
    ("FiniteSetsExt", COMMUNITY),
    ("Functions", COMMUNITY),
    ("Folds", COMMUNITY),
    ("BagsExt", COMMUNITY),
    ("Relation", COMMUNITY),
    ("Graphs", COMMUNITY),
    ("Combinatorics", COMMUNITY),
];

/// Modules that can't be extended.
static MODULES: [Entry; 9] = [
    (
        "Bags",
        "a bag is a function to numbers: SetToBag(S) is [x \\in S |-> 1]; copy the other definitions that are used",
    ),
    ("Reals", "write Integers: numbers are whole"),
    ("TLAPS", "remove it: there are no proofs"),
    ("TLCExt", "remove it, and what is used of it"),
    ("Toolbox", "remove it, and what is used of it"),
    (
        "RealTime",
        "a variable can count the time, by an action of its own",
    ),
    ("Randomization", "write x' \\in S: each element is tried"),
    ("Json", "remove it, and what is used of it"),
    ("IOUtils", "remove it, and what is used of it"),
];

/// What to write instead of a form that isn't supported, by its first word.
pub fn form_cure(word: &str) -> Option<&'static str> {
    entry_of(&FORMS, word).or(entry_of(&PROOFS, word))
}

/// What to write instead of a module that can't be extended.
pub fn module_cure(name: &str) -> Option<&'static str> {
    entry_of(&MODULES, name).or(entry_of(&COMMUNITY_MODULES, name))
}
