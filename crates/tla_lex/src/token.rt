//! Tokens, with their kinds and places.

ghost use Rattle.std.specs.Prelude.{◌≡◌};
ghost use Rattle.tla_lex.specs.SameKind as kinds;

/// A line and a column, both from 1. A column counts characters, and a tab leads to the next column of the form 8n + 1.
#[derive(Clone, Copy, Debug, PartialEq, Eq)]
pub struct Place {
    pub line: u64,
    pub column: u128,
}

impl Place {
    /// The place of the first byte.
    pub const FIRST: Place = Place { line: 1, column: 1 };
}

/// A token: its kind, its slice of the text in bytes, from `start` up to `end`, and the place of its first character.
#[derive(Clone, Copy, Debug, PartialEq, Eq)]
pub struct Token {
    pub kind: Kind,
    pub start: usize,
    pub end: usize,
    pub place: Place,
}

/// What a token is. Spellings that mean the same are one kind.
#[derive(Clone, Copy, Debug, PartialEq, Eq)]
pub enum Kind {
    /// An identifier, which is no reserved word.
    Name,
    /// Digits of a module, with their value, at most 9223372036854775807.
    Number(u64),
    /// Digits of a configuration, of any length.
    Digits,
    /// A string, with its quotes.
    Text,
    /// `_`
    Underscore,
    /// Four or more dashes.
    Separator,
    /// The closing line of a module, four or more `=`.
    Closing,
    /// `WF_`
    WeakFairness,
    /// `SF_`
    StrongFairness,

    // Brackets and punctuation.
    /// `(`
    LeftParen,
    /// `)`
    RightParen,
    /// `[`
    LeftBracket,
    /// `]`
    RightBracket,
    /// `]_`
    RightBracketSubscript,
    /// `{`
    LeftBrace,
    /// `}`
    RightBrace,
    /// `<<`
    LeftTuple,
    /// `>>`
    RightTuple,
    /// `>>_`
    RightTupleSubscript,
    /// `,`
    Comma,
    /// `:`
    Colon,
    /// `.`
    Dot,
    /// `!`
    Bang,
    /// `@`
    At,
    /// `'`
    Prime,
    /// `==`
    Define,
    /// `|->`
    MapsTo,
    /// `->`
    Arrow,
    /// `<-`
    Substitute,

    // Operators.
    /// `[]`
    Box,
    /// `<>`
    Diamond,
    /// `~>`
    LeadsTo,
    /// `=>`
    Implies,
    /// `<=>`, `\equiv`
    Equivalent,
    /// `/\`, `\land`
    And,
    /// `\/`, `\lor`
    Or,
    /// `~`, `\lnot`, `\neg`
    Not,
    /// `=`
    Equal,
    /// `#`, `/=`
    NotEqual,
    /// `<`
    Less,
    /// `>`
    Greater,
    /// `<=`, `=<`, `\leq`
    AtMost,
    /// `>=`, `\geq`
    AtLeast,
    /// `\in`
    Member,
    /// `\notin`
    NotMember,
    /// `\subseteq`
    SubsetEqual,
    /// `\cup`, `\union`
    Cup,
    /// `\cap`, `\intersect`
    Cap,
    /// `\`
    Difference,
    /// `\X`, `\times`
    Product,
    /// `@@`
    Override,
    /// `:>`
    Pair,
    /// `..`
    Range,
    /// `+`
    Plus,
    /// `-`
    Minus,
    /// `*`
    Times,
    /// `\div`
    Quotient,
    /// `%`
    Remainder,
    /// `^`
    Power,
    /// `\o`, `\circ`
    Concatenation,
    /// `\A`
    ForAll,
    /// `\E`
    Exists,

    // Operators that are left out of the language.
    /// `\AA`
    TemporalForAll,
    /// `\EE`
    TemporalExists,
    /// `\cdot`
    Composition,
    /// `--`
    MinusMinus,
    /// `-+->`
    Guarantees,

    // Reserved words.
    /// `ASSUME`, `ASSUMPTION`, `AXIOM`
    Assume,
    Boolean,
    Case,
    Choose,
    /// `CONSTANT`, `CONSTANTS`
    Constant,
    Domain,
    Else,
    Except,
    Extends,
    False,
    If,
    In,
    Let,
    Local,
    Module,
    Other,
    String,
    Subset,
    Then,
    Theorem,
    True,
    Unchanged,
    Union,
    /// `VARIABLE`, `VARIABLES`
    Variable,

    // Reserved words that are left out of the language.
    Enabled,
    Instance,
    Lambda,
    Recursive,
    With,
    Proof,
    By,
    Obvious,
    Omitted,
}

/// Whether two kinds are the same, for kinds that separate the parts of forms, units and statements. For any other kind
/// it is false, even if both are that kind.
pub fn same_kind(wanted: Kind, kind: Kind) -> bool
    ensures { result ≡ kinds.same_kind wanted kind }
{
    match (wanted, kind) {
        (Kind::Name, Kind::Name) => true,
        (Kind::Separator, Kind::Separator) => true,
        (Kind::Closing, Kind::Closing) => true,
        (Kind::LeftParen, Kind::LeftParen) => true,
        (Kind::RightParen, Kind::RightParen) => true,
        (Kind::LeftBracket, Kind::LeftBracket) => true,
        (Kind::RightBracket, Kind::RightBracket) => true,
        (Kind::RightBrace, Kind::RightBrace) => true,
        (Kind::RightTuple, Kind::RightTuple) => true,
        (Kind::Underscore, Kind::Underscore) => true,
        (Kind::Comma, Kind::Comma) => true,
        (Kind::Colon, Kind::Colon) => true,
        (Kind::Prime, Kind::Prime) => true,
        (Kind::Define, Kind::Define) => true,
        (Kind::Module, Kind::Module) => true,
        (Kind::Member, Kind::Member) => true,
        (Kind::Then, Kind::Then) => true,
        (Kind::Else, Kind::Else) => true,
        (Kind::In, Kind::In) => true,
        (Kind::Box, Kind::Box) => true,
        (Kind::Arrow, Kind::Arrow) => true,
        (Kind::MapsTo, Kind::MapsTo) => true,
        (Kind::Other, Kind::Other) => true,
        (Kind::Equal, Kind::Equal) => true,
        (Kind::RightBracketSubscript, Kind::RightBracketSubscript) => true,
        (Kind::RightTupleSubscript, Kind::RightTupleSubscript) => true,
        (Kind::Except, Kind::Except) => true,
        (Kind::Bang, Kind::Bang) => true,
        (Kind::Dot, Kind::Dot) => true,
        (Kind::LeftTuple, Kind::LeftTuple) => true,
        (Kind::Extends, Kind::Extends) => true,
        (Kind::Choose, Kind::Choose) => true,
        (Kind::Product, Kind::Product) => true,
        (Kind::Substitute, Kind::Substitute) => true,
        (Kind::LeftBrace, Kind::LeftBrace) => true,
        (Kind::Minus, Kind::Minus) => true,
        _ => false,
    }
}
