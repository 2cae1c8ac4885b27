//! The words that begin statements.

ghost use Rattle.std.specs.Prelude.{◌≡◌, map};
ghost use Rattle.tla_config.specs.Private.Keywords as spec;

/// What a word begins.
#[derive(Clone, Copy)]
pub enum Keyword {
    Specification,
    Init,
    Next,
    Invariants,
    Constraints,
    Constants,
    CheckDeadlock,
    LeftOut,
}

const KEYWORDS: [(&[u8], Keyword); 16] = [
    (b"SPECIFICATION", Keyword::Specification),
    (b"INIT", Keyword::Init),
    (b"NEXT", Keyword::Next),
    (b"INVARIANT", Keyword::Invariants),
    (b"INVARIANTS", Keyword::Invariants),
    (b"CONSTRAINT", Keyword::Constraints),
    (b"CONSTRAINTS", Keyword::Constraints),
    (b"CHECK_DEADLOCK", Keyword::CheckDeadlock),
    (b"PROPERTY", Keyword::LeftOut),
    (b"PROPERTIES", Keyword::LeftOut),
    (b"SYMMETRY", Keyword::LeftOut),
    (b"VIEW", Keyword::LeftOut),
    (b"ACTION_CONSTRAINT", Keyword::LeftOut),
    (b"ACTION_CONSTRAINTS", Keyword::LeftOut),
    (b"ALIAS", Keyword::LeftOut),
    (b"POSTCONDITION", Keyword::LeftOut),
];

/// What a word of a table begins.
fn lookup(table: &[(&[u8], Keyword)], word: &[u8]) -> Option<Keyword>
    ensures { result ≡ spec.lookup (map (λ e. (e.0.now, e.1)) table.now) word.now }
{
    let mut left = table;
    while let [entry, rest @ ..] = left {
        if word == entry.0 {
            return Some(entry.1);
        }
        left = rest;
    }
    None
}

/// What a word begins, if it is no name.
pub fn keyword_of(word: &[u8]) -> Option<Keyword>
    ensures { result ≡ spec.lookup spec.keywords word.now }
{
    lookup(&KEYWORDS, word)
}
