//! Operators of the community modules, which tlacheck doesn't read.

use crate::table::{Entry, entry_of};

/// Of modules of sequences and functions.
static SEQUENCES: [Entry; 17] = [
    ("TupleOf", "define TupleOf(S, n) == [1..n -> S]"),
    (
        "IsStrictPrefix",
        "define IsStrictPrefix(s, t) == Len(s) < Len(t) /\\ SubSeq(t, 1, Len(s)) = s",
    ),
    (
        "IsStrictSuffix",
        "define IsStrictSuffix(s, t) == Len(s) < Len(t) /\\ SubSeq(t, Len(t) - Len(s) + 1, Len(t)) = s",
    ),
    (
        "Prefixes",
        "define Prefixes(s) == {SubSeq(s, 1, n) : n \\in 0..Len(s)}",
    ),
    (
        "Suffixes",
        "define Suffixes(s) == {SubSeq(s, n, Len(s)) : n \\in 1..(Len(s) + 1)}",
    ),
    (
        "SubSeqs",
        "define SubSeqs(s) == {SubSeq(s, m, n) : m \\in 1..(Len(s) + 1), n \\in 0..Len(s)}",
    ),
    (
        "ReplaceAll",
        "define ReplaceAll(s, old, new) == [i \\in DOMAIN s |-> IF s[i] = old THEN new ELSE s[i]]",
    ),
    (
        "RemoveFirst",
        "write LET i == CHOOSE i \\in 1..Len(s) : s[i] = e IN SubSeq(s, 1, i - 1) \\o SubSeq(s, i + 1, Len(s))",
    ),
    (
        "SelectLastInSeq",
        "write CHOOSE i \\in 1..Len(s) : Test(s[i]) /\\ \\A j \\in 1..Len(s) : Test(s[j]) => j <= i",
    ),
    (
        "SetToSortSeq",
        "write CHOOSE q \\in [1..Cardinality(S) -> S] : p, where p says that q is in order",
    ),
    (
        "FlattenSeq",
        "write s[1] \\o s[2], or let a variable carry the result from step to step",
    ),
    (
        "IsRestriction",
        "define IsRestriction(f, g) == DOMAIN f \\subseteq DOMAIN g /\\ \\A x \\in DOMAIN f : f[x] = g[x]",
    ),
    ("Pointwise", "write [x \\in DOMAIN f |-> f[x] + g[x]]"),
    (
        "IsSurjective",
        "define IsSurjective(f, T) == \\A t \\in T : \\E x \\in DOMAIN f : f[x] = t",
    ),
    (
        "ExistsInjection",
        "write Cardinality(S) <= Cardinality(T), for finite sets",
    ),
    (
        "ExistsSurjection",
        "write Cardinality(S) >= Cardinality(T), for finite sets with elements",
    ),
    (
        "ExistsBijection",
        "write Cardinality(S) = Cardinality(T), for finite sets",
    ),
];

/// Of modules of sets and relations, and sets as other languages call them.
static SETS: [Entry; 17] = [
    ("SymDiff", "define SymDiff(A, B) == (A \\ B) \\cup (B \\ A)"),
    (
        "Choices",
        "define Choices(S) == {f \\in [S -> UNION S] : \\A A \\in S : f[A] \\in A}",
    ),
    (
        "ProductSet",
        "let a variable carry the product from step to step",
    ),
    (
        "TransitiveClosure",
        "the nodes that a reaches are CHOOSE T \\in SUBSET Node : a \\in T /\\ \\A u \\in T : \\A v \\in Node : R[u, v] => v \\in T",
    ),
    (
        "ReflexiveTransitiveClosure",
        "the nodes that a reaches are CHOOSE T \\in SUBSET Node : a \\in T /\\ \\A u \\in T : \\A v \\in Node : R[u, v] => v \\in T",
    ),
    (
        "IsReflexive",
        "define IsReflexive(R, S) == \\A x \\in S : R[x, x]",
    ),
    (
        "IsIrreflexive",
        "define IsIrreflexive(R, S) == \\A x \\in S : ~ R[x, x]",
    ),
    (
        "IsSymmetric",
        "define IsSymmetric(R, S) == \\A x, y \\in S : R[x, y] <=> R[y, x]",
    ),
    (
        "IsTransitive",
        "define IsTransitive(R, S) == \\A x, y, z \\in S : R[x, y] /\\ R[y, z] => R[x, z]",
    ),
    ("Domain", "write DOMAIN f"),
    ("domain", "write DOMAIN f"),
    ("Dom", "write DOMAIN f"),
    ("dom", "write DOMAIN f"),
    ("Card", "write Cardinality(S)"),
    ("card", "write Cardinality(S)"),
    (
        "Size",
        "write Cardinality(S) of a set, Len(s) of a sequence",
    ),
    (
        "size",
        "write Cardinality(S) of a set, Len(s) of a sequence",
    ),
];

/// Of modules about the tool itself, and of bags.
static TOOLS: [Entry; 11] = [
    (
        "TLCDefer",
        "leave it out: nothing is done while steps are taken",
    ),
    ("PickSuccessor", "leave it out: each step is tried"),
    (
        "AssertError",
        "leave it out: a fault is reported with its place",
    ),
    (
        "TLCGetOrDefault",
        "leave it out: a CONSTRAINT bounds the search, and --max-states the number of states",
    ),
    (
        "TLCGetAndSet",
        "leave it out: what is to be remembered belongs in a variable",
    ),
    ("TLCCache", "write its first argument alone"),
    (
        "RandomSetOfSubsets",
        "write \\E T \\in SUBSET S: each subset is tried",
    ),
    (
        "RandomSubsetSet",
        "write \\E T \\in SUBSET S: each subset is tried",
    ),
    (
        "BagAdd",
        "define BagAdd(B, x) == [y \\in {x} \\cup DOMAIN B |-> (IF y \\in DOMAIN B THEN B[y] ELSE 0) + (IF y = x THEN 1 ELSE 0)]",
    ),
    (
        "BagRemoveAll",
        "define BagRemoveAll(B, x) == [y \\in DOMAIN B \\ {x} |-> B[y]]",
    ),
    (
        "BagRemove",
        "write IF B[x] = 1 THEN [y \\in DOMAIN B \\ {x} |-> B[y]] ELSE [B EXCEPT ![x] = @ - 1]",
    ),
];

/// Operators that write or read files.
static FILES: [&str; 18] = [
    "ToJson",
    "ToJsonArray",
    "ToJsonObject",
    "JsonSerialize",
    "JsonDeserialize",
    "ndJsonSerialize",
    "ndJsonDeserialize",
    "Serialize",
    "Deserialize",
    "IOSerialize",
    "IODeserialize",
    "IOExec",
    "IOEnvExec",
    "IOExecTemplate",
    "IOEnvExecTemplate",
    "CSVWrite",
    "CSVRecords",
    "CSVRead",
];

/// What to write instead of an operator of a community module.
pub fn community_cure(name: &str) -> Option<&'static str> {
    if FILES.contains(&name) {
        return Some("leave it out: no file is written or read in a formula");
    }
    entry_of(&SEQUENCES, name)
        .or(entry_of(&SETS, name))
        .or(entry_of(&TOOLS, name))
}
