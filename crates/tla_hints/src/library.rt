//! Operators of modules that tlacheck doesn't read.

use crate::community::community_cure;
use crate::table::{Entry, entry_of};

/// Of the module TLC and its like.
static TLC: [Entry; 12] = [
    (
        "Print",
        "leave it out: a trace shows the values, and Assert(p, text) stops where p is FALSE",
    ),
    (
        "PrintT",
        "leave it out: a trace shows the values, and Assert(p, text) stops where p is FALSE",
    ),
    (
        "TLCGet",
        "leave it out: a CONSTRAINT bounds the search, and --max-states the number of states",
    ),
    (
        "TLCSet",
        "leave it out: what is to be remembered belongs in a variable",
    ),
    ("TLCEval", "write its argument alone"),
    (
        "ToString",
        "compare the values themselves: a trace shows them as they are",
    ),
    ("RandomElement", "write x' \\in S: each element is tried"),
    (
        "Permutations",
        "for SYMMETRY remove both; else define Permutations(S) == {f \\in [S -> S] : \\A a, b \\in S : f[a] = f[b] => a = b}",
    ),
    (
        "SortSeq",
        "write CHOOSE q \\in [1..Len(s) -> S] : p, where p says that q is in order",
    ),
    (
        "TLCModelValue",
        "declare a CONSTANT, and give it a value in the configuration",
    ),
    (
        "RandomSubset",
        "write \\E T \\in SUBSET S: each subset is tried",
    ),
    ("AssertEq", "write Assert(a = b, text)"),
];

/// Of modules of sequences and functions.
static SEQUENCES: [Entry; 17] = [
    (
        "SelectSeq",
        "write LET K == {i \\in 1..Len(s) : Test(s[i])} IN [n \\in 1..Cardinality(K) |-> s[CHOOSE i \\in K : Cardinality({j \\in K : j <= i}) = n]]",
    ),
    ("Range", "define Range(f) == {f[x] : x \\in DOMAIN f}"),
    ("ToSet", "define ToSet(s) == {s[i] : i \\in DOMAIN s}"),
    (
        "Contains",
        "define Contains(s, e) == \\E i \\in DOMAIN s : s[i] = e",
    ),
    (
        "Reverse",
        "define Reverse(s) == [i \\in 1..Len(s) |-> s[Len(s) + 1 - i]]",
    ),
    ("Last", "define Last(s) == s[Len(s)]"),
    ("Front", "define Front(s) == SubSeq(s, 1, Len(s) - 1)"),
    (
        "RemoveAt",
        "define RemoveAt(s, i) == SubSeq(s, 1, i - 1) \\o SubSeq(s, i + 1, Len(s))",
    ),
    (
        "InsertAt",
        "define InsertAt(s, i, e) == SubSeq(s, 1, i - 1) \\o <<e>> \\o SubSeq(s, i, Len(s))",
    ),
    (
        "ReplaceAt",
        "define ReplaceAt(s, i, e) == [s EXCEPT ![i] = e]",
    ),
    ("Cons", "define Cons(e, s) == <<e>> \\o s"),
    (
        "IsPrefix",
        "define IsPrefix(s, t) == Len(s) <= Len(t) /\\ SubSeq(t, 1, Len(s)) = s",
    ),
    (
        "SetToSeq",
        "define SetToSeq(S) == CHOOSE q \\in [1..Cardinality(S) -> S] : {q[i] : i \\in DOMAIN q} = S",
    ),
    ("Restrict", "define Restrict(f, S) == [x \\in S |-> f[x]]"),
    (
        "IsInjective",
        "define IsInjective(f) == \\A a, b \\in DOMAIN f : f[a] = f[b] => a = b",
    ),
    (
        "Injection",
        "define Injection(S, T) == {f \\in [S -> T] : \\A a, b \\in S : f[a] = f[b] => a = b}",
    ),
    (
        "Inverse",
        "define Inverse(f, S, T) == [t \\in T |-> CHOOSE x \\in S : f[x] = t]",
    ),
];

/// More of modules of sequences and functions.
static MORE_SEQUENCES: [Entry; 16] = [
    (
        "Remove",
        "define Remove(s, e) == LET K == {i \\in 1..Len(s) : s[i] # e} IN [n \\in 1..Cardinality(K) |-> s[CHOOSE i \\in K : Cardinality({j \\in K : j <= i}) = n]]",
    ),
    (
        "IsSuffix",
        "define IsSuffix(s, t) == Len(s) <= Len(t) /\\ SubSeq(t, Len(t) - Len(s) + 1, Len(t)) = s",
    ),
    (
        "SeqOf",
        "define SeqOf(S, n) == UNION {[1..m -> S] : m \\in 0..n}",
    ),
    (
        "BoundedSeq",
        "define BoundedSeq(S, n) == UNION {[1..m -> S] : m \\in 0..n}",
    ),
    (
        "SetToSeqs",
        "define SetToSeqs(S) == {q \\in [1..Cardinality(S) -> S] : {q[i] : i \\in DOMAIN q} = S}",
    ),
    (
        "SelectInSeq",
        "write IF \\E i \\in 1..Len(s) : Test(s[i]) THEN CHOOSE i \\in 1..Len(s) : Test(s[i]) ELSE 0",
    ),
    (
        "Zip",
        "define Zip(s, t) == [i \\in DOMAIN s |-> <<s[i], t[i]>>], for sequences of one length",
    ),
    (
        "Bijection",
        "define Bijection(S, T) == {f \\in [S -> T] : {f[a] : a \\in S} = T /\\ \\A a, b \\in S : f[a] = f[b] => a = b}",
    ),
    (
        "Surjection",
        "define Surjection(S, T) == {f \\in [S -> T] : {f[a] : a \\in S} = T}",
    ),
    (
        "IsBijection",
        "define IsBijection(f, S, T) == DOMAIN f = S /\\ {f[a] : a \\in S} = T /\\ \\A a, b \\in S : f[a] = f[b] => a = b",
    ),
    (
        "AntiFunction",
        "define AntiFunction(f) == [t \\in {f[x] : x \\in DOMAIN f} |-> CHOOSE x \\in DOMAIN f : f[x] = t]",
    ),
    (
        "RestrictDomain",
        "write [x \\in {y \\in DOMAIN f : Test(y)} |-> f[x]]",
    ),
    (
        "RestrictValues",
        "write [x \\in {y \\in DOMAIN f : Test(f[y])} |-> f[x]]",
    ),
    ("Abs", "define Abs(n) == IF n < 0 THEN -n ELSE n"),
    ("length", "write Len"),
    ("Length", "write Len"),
];

const SUM: &str =
    "a sum counts pairs: Cardinality({<<x, i>> \\in S \\X (1..Most) : i <= f[x]}) is the sum of f over S, where no value is above Most";

/// Of modules that fold over the elements of a set.
static FOLDS: [Entry; 20] = [
    ("FoldSet", SUM),
    ("FoldFunction", SUM),
    ("FoldFunctionOnSet", SUM),
    ("FoldSeq", SUM),
    ("FoldLeft", SUM),
    ("FoldRight", SUM),
    ("MapThenFoldSet", SUM),
    ("MapThenSumSet", SUM),
    ("SumSet", SUM),
    ("Sum", SUM),
    (
        "Max",
        "define Max(S) == CHOOSE m \\in S : \\A x \\in S : x <= m",
    ),
    (
        "Min",
        "define Min(S) == CHOOSE m \\in S : \\A x \\in S : m <= x",
    ),
    ("Quantify", "write Cardinality({x \\in S : Test(x)})"),
    (
        "kSubset",
        "define kSubset(k, S) == {T \\in SUBSET S : Cardinality(T) = k}",
    ),
    ("ChooseUnique", "write CHOOSE x \\in S : Test(x)"),
    ("FlattenSet", "write UNION S"),
    ("ReduceSet", SUM),
    ("ReduceSeq", SUM),
    (
        "Maximum",
        "define Maximum(S) == CHOOSE m \\in S : \\A x \\in S : x <= m",
    ),
    (
        "Minimum",
        "define Minimum(S) == CHOOSE m \\in S : \\A x \\in S : m <= x",
    ),
];

/// Of the module Bags.
static BAGS: [Entry; 9] = [
    ("SetToBag", "define SetToBag(S) == [x \\in S |-> 1]"),
    ("BagToSet", "define BagToSet(B) == DOMAIN B"),
    ("BagIn", "define BagIn(x, B) == x \\in DOMAIN B"),
    (
        "CopiesIn",
        "define CopiesIn(x, B) == IF x \\in DOMAIN B THEN B[x] ELSE 0",
    ),
    (
        "IsABag",
        "define IsABag(B) == \\A x \\in DOMAIN B : B[x] \\in Nat",
    ),
    (
        "BagCardinality",
        "define BagCardinality(B) == Cardinality({<<x, i>> \\in (DOMAIN B) \\X (1..Most) : i <= B[x]}), where no count is above Most",
    ),
    (
        "SubBag",
        "write the set of the functions that are meant, from elements to counts",
    ),
    (
        "BagUnion",
        "write the function that is meant, from each element to its count",
    ),
    (
        "BagOfAll",
        "write the function that is meant, from each element to its count",
    ),
];

/// Names without arguments, of modules that aren't read; and names of sets in other languages.
static PLAIN: [Entry; 12] = [
    ("JavaTime", "leave it out: no value may depend on the time"),
    ("Any", "leave the condition out"),
    ("EmptyBag", "define EmptyBag == << >>"),
    ("Real", "write Int: numbers are whole"),
    (
        "Infinity",
        "write a number that is greater than all that are met",
    ),
    ("Natural", "write Nat"),
    ("Naturals", "write Nat"),
    ("Integer", "write Int"),
    ("Integers", "write Int"),
    ("Bool", "write BOOLEAN"),
    ("Boolean", "write BOOLEAN"),
    ("String", "write STRING"),
];

/// Names for the absence of a value.
static NOTHING: [Entry; 7] = [
    (
        "None",
        "declare CONSTANT None, and write CONSTANT None = None in the configuration",
    ),
    (
        "NONE",
        "declare CONSTANT NONE, and write CONSTANT NONE = NONE in the configuration",
    ),
    (
        "Null",
        "declare CONSTANT Null, and write CONSTANT Null = Null in the configuration",
    ),
    (
        "NULL",
        "declare CONSTANT NULL, and write CONSTANT NULL = NULL in the configuration",
    ),
    (
        "null",
        "declare CONSTANT null, and write CONSTANT null = null in the configuration",
    ),
    (
        "Nil",
        "declare CONSTANT Nil, and write CONSTANT Nil = Nil in the configuration",
    ),
    (
        "nil",
        "declare CONSTANT nil, and write CONSTANT nil = nil in the configuration",
    ),
];

/// What to write instead of a name without arguments, of a module that isn't read or of another language.
pub fn plain_cure(name: &str) -> Option<&'static str> {
    entry_of(&PLAIN, name).or(entry_of(&NOTHING, name))
}

/// What to write instead of an operator with arguments, of a module that isn't read.
pub fn library_cure(name: &str) -> Option<&'static str> {
    entry_of(&TLC, name)
        .or(entry_of(&SEQUENCES, name))
        .or(entry_of(&MORE_SEQUENCES, name))
        .or(entry_of(&FOLDS, name))
        .or(entry_of(&BAGS, name))
        .or(community_cure(name))
}
