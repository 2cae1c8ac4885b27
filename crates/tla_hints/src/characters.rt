//! Characters that begin no token, and words of other languages.

use crate::table::{Entry, entry_of};

/// Characters of Unicode, each with its ASCII form.
static SYMBOLS: [Entry; 45] = [
    ("∧", "/\\"),
    ("∨", "\\/"),
    ("¬", "~"),
    ("⇒", "=>"),
    ("⇔", "<=>"),
    ("≡", "<=>"),
    ("∈", "\\in"),
    ("∉", "\\notin"),
    ("⊆", "\\subseteq"),
    ("∪", "\\cup"),
    ("∩", "\\cap"),
    ("∖", "\\"),
    ("×", "\\X"),
    ("∀", "\\A"),
    ("∃", "\\E"),
    ("≤", "<="),
    ("≥", ">="),
    ("≠", "#"),
    ("≜", "=="),
    ("⟨", "<<"),
    ("⟩", ">>"),
    ("〈", "<<"),
    ("〉", ">>"),
    ("→", "->"),
    ("↦", "|->"),
    ("←", "<-"),
    ("□", "[]"),
    ("◇", "<>"),
    ("↝", "~>"),
    ("∘", "\\o"),
    ("÷", "\\div"),
    ("′", "'"),
    ("’", "'"),
    ("‘", "'"),
    ("“", "\""),
    ("”", "\""),
    ("–", "-"),
    ("—", "-"),
    ("−", "-"),
    ("…", ".."),
    ("‥", ".."),
    ("ℕ", "Nat"),
    ("ℤ", "Int"),
    ("∅", "{}"),
    ("\u{a0}", "a blank"),
];

/// More characters of Unicode, each with its ASCII form.
static MORE_SYMBOLS: [Entry; 25] = [
    ("⊂", "\\subseteq"),
    ("⇐", "=>, with the sides turned round"),
    ("⟹", "=>"),
    ("⟺", "<=>"),
    ("↔", "<=>"),
    ("⟶", "->"),
    ("⟼", "|->"),
    ("≔", "=="),
    ("⩽", "<="),
    ("⩾", ">="),
    ("⋃", "UNION"),
    ("⋅", "*"),
    ("·", "*"),
    ("∗", "*"),
    ("«", "<<"),
    ("»", ">>"),
    ("„", "\""),
    ("‚", "'"),
    ("ℝ", "Int, since numbers are whole,"),
    ("𝔹", "BOOLEAN"),
    ("∄", "~ \\E"),
    ("⊕", "an operator with a name, as Plus(a, b),"),
    ("\u{2003}", "a blank"),
    ("\u{202f}", "a blank"),
    ("\u{200b}", "nothing"),
];

/// Characters of ASCII that begin no token. A longer entry comes before a shorter one with which it begins.
static SIGNS: [Entry; 11] = [
    ("//", "a comment begins with \\*"),
    ("/*", "a comment begins with \\*, or is written (* .. *)"),
    ("||", "write \\/ for or"),
    ("&", "write /\\ for and"),
    (
        "|",
        "write \\/ for or, : before the condition of a set {x \\in S : p}, and [] between the arms of CASE",
    ),
    (";", "remove it: nothing ends a definition or a statement"),
    ("/", "write a \\div b, which divides whole numbers"),
    ("?", "write IF p THEN a ELSE b"),
    ("`", "write a text as \"..\""),
    ("$", "a name has letters, digits and _"),
    ("_", "a name has a letter, as a_1 has"),
];

/// Words of other languages, and operators that tlacheck doesn't support.
static WORDS: [Entry; 40] = [
    ("and", "/\\"),
    ("or", "\\/"),
    ("not", "~"),
    ("in", "\\in"),
    ("notin", "\\notin"),
    ("mod", "%"),
    ("div", "\\div"),
    ("implies", "=>"),
    ("true", "TRUE"),
    ("false", "FALSE"),
    ("True", "TRUE"),
    ("False", "FALSE"),
    ("forall", "\\A"),
    ("exists", "\\E"),
    ("union", "\\cup"),
    ("intersect", "\\cap"),
    ("emptyset", "{}"),
    ("setminus", "\\"),
    ("subset", "\\subseteq"),
    ("supseteq", "\\subseteq, with the sides turned round"),
    ("supset", "\\subseteq, with the sides turned round"),
    ("wedge", "/\\"),
    ("vee", "\\/"),
    ("ne", "#"),
    ("neq", "#"),
    ("le", "<="),
    ("ge", ">="),
    ("rightarrow", "->"),
    ("mapsto", "|->"),
    ("setof", "{e : x \\in S}"),
    ("elseif", "ELSE IF"),
    ("elsif", "ELSE IF"),
    ("elif", "ELSE IF"),
    ("ELSEIF", "ELSE IF"),
    ("ELSIF", "ELSE IF"),
    ("AND", "/\\"),
    ("OR", "\\/"),
    ("NOT", "~"),
    ("powerset", "SUBSET"),
    ("POWERSET", "SUBSET"),
];

/// Words of LaTeX, without the backslash.
static LATEX: [Entry; 19] = [
    ("cross", "\\X"),
    ("nin", "\\notin"),
    ("iff", "<=>"),
    ("to", "->"),
    ("Rightarrow", "=>"),
    ("Leftrightarrow", "<=>"),
    ("leadsto", "~>"),
    ("Box", "[]"),
    ("Diamond", "<>"),
    ("square", "[]"),
    ("langle", "<<"),
    ("rangle", ">>"),
    ("bigcup", "UNION S, or a \\cup b"),
    ("ldots", ".."),
    ("dots", ".."),
    ("triangleq", "=="),
    (
        "sqsubseteq",
        "\\A x \\in DOMAIN a : x \\in DOMAIN b /\\ a[x] <= b[x], where a and b are bags",
    ),
    (
        "oplus",
        "[x \\in DOMAIN a \\cup DOMAIN b |-> Count(a, x) + Count(b, x)], where a and b are bags, with Count(f, x) == IF x \\in DOMAIN f THEN f[x] ELSE 0",
    ),
    (
        "ominus",
        "[x \\in {y \\in DOMAIN a : a[y] > Count(b, y)} |-> a[x] - Count(b, x)], where a and b are bags, with Count(f, x) == IF x \\in DOMAIN f THEN f[x] ELSE 0",
    ),
];

/// The known characters of Unicode, each with its ASCII form, in two tables.
pub fn symbols() -> [&'static [(&'static str, &'static str)]; 2] {
    [&SYMBOLS, &MORE_SYMBOLS]
}

/// The entry of `SIGNS` with which a text begins: the characters, and what to write instead.
pub fn sign_cure(text: &str) -> Option<(&'static str, &'static str)> {
    for entry in &SIGNS {
        if text.starts_with(entry.0) {
            return Some(*entry);
        }
    }
    None
}

/// How TLA+ writes a word of another language.
pub fn word_meant(word: &str) -> Option<&'static str> {
    entry_of(&WORDS, word)
}

/// How TLA+ writes an operator of LaTeX or another language, given without its backslash.
pub fn command_meant(word: &str) -> Option<&'static str> {
    entry_of(&WORDS, word).or(entry_of(&LATEX, word))
}
