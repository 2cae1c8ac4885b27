//! The texts of the codes of a report.

/// What a code means: its rule, an example with the first line of its report, and the cure. The same texts are in
/// `crates/acceptance/data/CODES.md`.
#[derive(Clone, Copy, Debug)]
pub struct CodeText {
    pub code: &'static str,
    pub rule: &'static str,
    /// Empty if no report shows the code.
    pub example: &'static str,
    /// Empty if there is none.
    pub cure: &'static str,
}

const L1: CodeText = CodeText {
    code: "L1",
    rule: "The module is not UTF-8.",
    example: "A byte FF as second byte of line 2 → `Module refused: L1 at line 2, column 2.`",
    cure: "Save the file as UTF-8.",
};

const L2: CodeText = CodeText {
    code: "L2",
    rule: "A character or escape that the language doesn't have, outside comments and strings.",
    example: "`Init == x = 0 ? 1` → `Module refused: L2 at line 4, column 15.`",
    cure: "Remove it. Operators are written in ASCII: `/\\`, not `∧`. In strings the escapes are `\\\"` `\\\\` `\\t` `\\n` `\\f` `\\r`.",
};

const L3: CodeText = CodeText {
    code: "L3",
    rule: "A string that isn't closed on its line; the place is its opening quote.",
    example: "`Init == x = \"zero` → `Module refused: L3 at line 4, column 13.`",
    cure: "Close it on the same line.",
};

const L4: CodeText = CodeText {
    code: "L4",
    rule: "A comment that is never closed; the place is where it opens.",
    example: "`(* not closed` → `Module refused: L4 at line 6, column 1.`",
    cure: "Close it. Comments nest, so each `(*` inside needs a `*)` too.",
};

const L5: CodeText = CodeText {
    code: "L5",
    rule: "A number above 9223372036854775807.",
    example: "`Init == x = 9223372036854775808` → `Module refused: L5 at line 4, column 13.`",
    cure: "Use smaller numbers.",
};

const L6: CodeText = CodeText {
    code: "L6",
    rule: "No header.",
    example: "A file that begins with `VARIABLE x` and has none → `Module refused: L6 at line 1, column 1.`",
    cure: "Write `---- MODULE Name ----`, four dashes or more and a blank before MODULE.",
};

const L7: CodeText = CodeText {
    code: "L7",
    rule: "No closing line; the place is the end of the text.",
    example: "The module above without its last line → `Module refused: L7 at line 6, column 1.`",
    cure: "End it with `====`.",
};

const L8: CodeText = CodeText {
    code: "L8",
    rule: "Memory ran out; the report says `Out of memory.` and status 22.",
    example: "",
    cure: "",
};

const P1: CodeText = CodeText {
    code: "P1",
    rule: "A token that can't be there.",
    example: "`Init == x = = 0` → `Module refused: P1 at line 4, column 13.`",
    cure: "Look at this token and the one before it.",
};

const P2: CodeText = CodeText {
    code: "P2",
    rule: "Two neighbouring operators, neither of which binds tighter.",
    example: "`Inv == x = 0 \\/ x = 1 /\\ x < 2` → `Module refused: P2 at line 6, column 23.`",
    cure: "Write parentheses.",
};

const P3: CodeText = CodeText {
    code: "P3",
    rule: "A token at or left of its junction list's column, where the item must go on.",
    example: "`Inv == /\\ x \\in {0,` and in the next line `1}` in column 3 → `Module refused: P3 at line 7, column 3.`",
    cure: "Indent it to the right of the bullet.",
};

const P4: CodeText = CodeText {
    code: "P4",
    rule: "An expression nested more than 200 deep.",
    example: "`Inv == `, 201 times `~`, and `TRUE` → `Module refused: P4 at line 6, column 208.`",
    cure: "Give parts of it names.",
};

const P5: CodeText = CodeText {
    code: "P5",
    rule: "A form that tlacheck doesn't support; its name follows the colon.",
    example: "`Least == CHOOSE n : n > x` → `Module refused: P5 at line 6, column 10: CHOOSE.`",
    cure: "The explanation says what to write in its place.",
};

const P6: CodeText = CodeText {
    code: "P6",
    rule: "Memory ran out, as L8.",
    example: "",
    cure: "",
};

const C1: CodeText = CodeText {
    code: "C1",
    rule: "A syntax error in the configuration: an unexpected token, an empty list of names, or a second CHECK_DEADLOCK.",
    example: "Configuration: `CHECK_DEADLOCK FALSE` and again `CHECK_DEADLOCK TRUE` → `Configuration refused: C1 at line 4, column 1.`",
    cure: "Look at this token and the one before it.",
};

const C2: CodeText = CodeText {
    code: "C2",
    rule: "An unknown name.",
    example: "`Inv == Len(<<1>>) = 1` → `Module refused: C2 at line 6, column 8: Len.`; configuration: `INVARIANT TypeOK` → `Configuration refused: C2 at line 3, column 11: TypeOK.`",
    cure: "Define or declare it, above its use; an operator of a module needs that module under EXTENDS (Len needs Sequences). A configuration can name only what the module defines.",
};

const C3: CodeText = CodeText {
    code: "C3",
    rule: "A name that is defined or bound where it has a meaning already, a field named twice, or a second item of CONSTANT for a name.",
    example: "`Inv == \\A x \\in {1} : x = 1` → `Module refused: C3 at line 6, column 11: x.`",
    cure: "Take another name; a bound name can't hide one.",
};

const C4: CodeText = CodeText {
    code: "C4",
    rule: "The wrong number of arguments.",
    example: "`Twice(n) == 2 * n`, `Inv == Twice(x, 1) = 0` → `Module refused: C4 at line 7, column 8: Twice.`",
    cure: "Give as many as the definition has.",
};

const C5: CodeText = CodeText {
    code: "C5",
    rule: "A level that is too high: a prime in Init, an invariant or a constraint, or on what is primed already; a variable in an assumption; or a temporal formula.",
    example: "`Inv == x' = x` → `Module refused: C5 at line 6, column 8.`",
    cure: "Only Next may use next values, with one prime; an ASSUME may use no variable.",
};

const C6: CodeText = CodeText {
    code: "C6",
    rule: "A constant without a value.",
    example: "`CONSTANT N` → `Module refused: C6 at line 6, column 10: N.`",
    cure: "Give it one in the configuration: `CONSTANT N = 3`.",
};

const C7: CodeText = CodeText {
    code: "C7",
    rule: "An item `c <- Op` that leads back to c.",
    example: "`CONSTANT A`, `B == A + 1`; configuration: `CONSTANT A <- B` → `Configuration refused: C7 at line 3, column 10: A.`",
    cure: "Define Op without c.",
};

const C8: CodeText = CodeText {
    code: "C8",
    rule: "SPECIFICATION is not of the form `Init /\\ [][Next]_vars`, with fairness or without.",
    example: "`Spec == Init /\\ Next`; configuration: `SPECIFICATION Spec` alone → `Configuration refused: C8 at line 1, column 1.`",
    cure: "The subscript has to cover all variables.",
};

const C9: CodeText = CodeText {
    code: "C9",
    rule: "INIT and NEXT, or SPECIFICATION, missing or given too often.",
    example: "Configuration: `INIT Init` alone → `Configuration refused: C9 at line 2, column 1.`",
    cure: "Give INIT and NEXT, or SPECIFICATION alone.",
};

const C10: CodeText = CodeText {
    code: "C10",
    rule: "An unsupported statement where a statement may begin, or the `[` of `c <- [`; the word or `[` follows the colon. Such a word or bracket elsewhere is C1.",
    example: "Configuration: `PROPERTY Live` → `Configuration refused: C10 at line 3, column 1: PROPERTY.`",
    cure: "Remove it, or write what the explanation says.",
};

const C11: CodeText = CodeText {
    code: "C11",
    rule: "A formula of more than 200,000 nodes, or more than 300 on a path, once its definitions are expanded (reported at its first token); or a value in the configuration beyond the limits of values.",
    example: "`CONSTANT N`; configuration: `CONSTANT N = 9223372036854775808` → `Configuration refused: C11 at line 3, column 10.`",
    cure: "Definitions and LET are expanded at each use, so a chain in which each definition uses the one before twice doubles at each link: bind what is used twice, as in `\\E v \\in {e} : p`.",
};

const C12: CodeText = CodeText {
    code: "C12",
    rule: "Memory ran out, as L8.",
    example: "",
    cure: "",
};

const E1: CodeText = CodeText {
    code: "E1",
    rule: "A value of the wrong kind, or an element that doesn't fit its tuple pattern; also an assumption, Init, Next, an invariant or a constraint that is no truth value.",
    example: "`Init == x = 1 + \"a\"` → `Fault E1 at line 4, column 13 in the initial predicate.`; `Inv == x + 1` → `Fault E1 at line 6, column 8 in invariant Inv.`",
    cure: "Read the trace: its last state has the value in question.",
};

const E2: CodeText = CodeText {
    code: "E2",
    rule: "A number beyond 64 bits.",
    example: "`Init == x = 2 ^ 63` → `Fault E2 at line 4, column 13 in the initial predicate.`",
    cure: "Bound it.",
};

const E3: CodeText = CodeText {
    code: "E3",
    rule: "`\\div` or `%` by a number below 1.",
    example: "`Next == x' = 1 \\div x` → `Fault E3 at line 5, column 14 in the next-state action.`",
    cure: "Guard it with IF, or earlier in a conjunction.",
};

const E4: CodeText = CodeText {
    code: "E4",
    rule: "A negative exponent.",
    example: "`Init == x = 2 ^ (-1)` → `Fault E4 at line 4, column 13 in the initial predicate.`",
    cure: "Guard it.",
};

const E5: CodeText = CodeText {
    code: "E5",
    rule: "An argument outside a function's domain, or items of a sequence that aren't there.",
    example: "`Init == x = <<7, 8>>[3]` → `Fault E5 at line 4, column 13 in the initial predicate.`",
    cure: "Check `\\in DOMAIN f` first.",
};

const E6: CodeText = CodeText {
    code: "E6",
    rule: "A field that the record doesn't have.",
    example: "`Init == x = [a |-> 1].b` → `Fault E6 at line 4, column 13 in the initial predicate.`",
    cure: "Look for the field's spelling, or check `\"b\" \\in DOMAIN r` first.",
};

const E7: CodeText = CodeText {
    code: "E7",
    rule: "CHOOSE finds nothing.",
    example: "`Init == x = CHOOSE v \\in 1..3 : v > 5` → `Fault E7 at line 4, column 13 in the initial predicate.`",
    cure: "Guard it with `\\E v \\in S : p`.",
};

const E8: CodeText = CodeText {
    code: "E8",
    rule: "No arm of CASE is TRUE.",
    example: "`Next == x' = CASE x > 0 -> 1 [] x < 0 -> 2` → `Fault E8 at line 5, column 14 in the next-state action.`",
    cure: "Add OTHER.",
};

const E9: CodeText = CodeText {
    code: "E9",
    rule: "A set that can't be enumerated: Nat, Int, STRING, `Seq(S)`.",
    example: "`Init == x \\in Nat` → `Fault E9 at line 4, column 15 in the initial predicate.`",
    cure: "Give a finite set, or in the configuration `CONSTANT Nat <- Small`. `x \\in Nat` in an invariant is fine.",
};

const E10: CodeText = CodeText {
    code: "E10",
    rule: "A set or function of more than 1,000,000 parts.",
    example: "`Inv == 1..1000001 # {}` → `Fault E10 at line 6, column 8 in invariant Inv.`",
    cure: "For a range, write `a <= x /\\ x <= b`. Membership in `SUBSET S`, `[S -> T]`, `[a : S]` and `S \\X T` builds no set.",
};

const E11: CodeText = CodeText {
    code: "E11",
    rule: "A value nested more than 64 deep.",
    example: "`Wrap(v) == {{{{v}}}}`, `More(v) == Wrap(Wrap(Wrap(Wrap(v))))`, `Inv == More(More(More(More({})))) = {}` → `Fault E11 at line 6, column 12 in invariant Inv.`",
    cure: "Bound the depth.",
};

const E12: CodeText = CodeText {
    code: "E12",
    rule: "Head or Tail of the empty sequence.",
    example: "`EXTENDS Integers, Sequences`, `Init == x = Head(<< >>)` → `Fault E12 at line 4, column 13 in the initial predicate.`",
    cure: "Guard it.",
};

const E13: CodeText = CodeText {
    code: "E13",
    rule: "A next value is used before it is set.",
    example: "`Next == x' > 0 /\\ x' = x + 1` → `Fault E13 at line 5, column 9 in the next-state action.`",
    cure: "Put `x' = ..` or `x' \\in ..` first.",
};

const E14: CodeText = CodeText {
    code: "E14",
    rule: "The first argument of Assert is FALSE.",
    example: "`EXTENDS Integers, TLC`, `Inv == Assert(x > 0, \"x is not positive\")` → `Fault E14 at line 6, column 8 in invariant Inv.`",
    cure: "The specification itself asked for this stop.",
};

const E15: CodeText = CodeText {
    code: "E15",
    rule: "A variable is left without a value.",
    example: "`VARIABLES x, y`, `Init == x = 0 /\\ y = 0`, `Next == x' = x` → `Fault E15 for variable y in the next-state action.`",
    cure: "In Next add `UNCHANGED y`, in Init `y = ..` or `y \\in ..`.",
};

const E16: CodeText = CodeText {
    code: "E16",
    rule: "Memory ran out, as L8.",
    example: "",
    cure: "",
};

// A table for each stage or half a stage: a function that mentions fewer texts is proved faster.
static TOKENS: [CodeText; 8] = [L1, L2, L3, L4, L5, L6, L7, L8];

static TREES: [CodeText; 6] = [P1, P2, P3, P4, P5, P6];

static NAMES: [CodeText; 6] = [C1, C2, C3, C4, C5, C6];

static MODELS: [CodeText; 6] = [C7, C8, C9, C10, C11, C12];

static OPERATIONS: [CodeText; 8] = [E1, E2, E3, E4, E5, E6, E7, E8];

static VALUES: [CodeText; 8] = [E9, E10, E11, E12, E13, E14, E15, E16];

fn tokens() -> &'static [CodeText] {
    &TOKENS
}

fn trees() -> &'static [CodeText] {
    &TREES
}

fn names() -> &'static [CodeText] {
    &NAMES
}

fn models() -> &'static [CodeText] {
    &MODELS
}

fn operations() -> &'static [CodeText] {
    &OPERATIONS
}

fn values() -> &'static [CodeText] {
    &VALUES
}

/// The codes in tables, in the order of the stages of a check.
pub fn code_tables() -> [&'static [CodeText]; 6] {
    [tokens(), trees(), names(), models(), operations(), values()]
}

/// What this code means.
pub fn text_of(code: &str) -> Option<&'static CodeText> {
    match code.as_bytes() {
        [b'L', ..] => find(tokens(), code),
        [b'P', ..] => find(trees(), code),
        [b'C', ..] => find(names(), code).or(find(models(), code)),
        _ => find(operations(), code).or(find(values(), code)),
    }
}

fn find(texts: &'static [CodeText], code: &str) -> Option<&'static CodeText> {
    for text in texts {
        if text.code == code {
            return Some(text);
        }
    }
    None
}
