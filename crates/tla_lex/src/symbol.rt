//! Symbols, and operators that begin with a backslash.

ghost use Rattle.std.specs.Prelude.{◌≡◌, ◌≤◌, ◌<◌, ◌+◌, length, map};
ghost use Rattle.std.specs.List.{prefix_len};
ghost use Rattle.tla_lex.specs.Bytes.{is_letter};
ghost use Rattle.tla_lex.specs.Symbols as spec;
ghost use Rattle.tla_lex.specs.Words.{lookup as lookup_in};
ghost use Rattle.tla_lex.specs.Private.LexemeSize.{Fits};

use crate::bytes::{first, is_letter};
use crate::error::LexCode;
use crate::lexeme::Lexeme;
use crate::token::Kind;
use crate::word::lookup;

pub const SYMBOLS: [(&[u8], Kind); 47] = [
    (b"(", Kind::LeftParen),
    (b")", Kind::RightParen),
    (b"[", Kind::LeftBracket),
    (b"]", Kind::RightBracket),
    (b"]_", Kind::RightBracketSubscript),
    (b"{", Kind::LeftBrace),
    (b"}", Kind::RightBrace),
    (b"<<", Kind::LeftTuple),
    (b">>", Kind::RightTuple),
    (b">>_", Kind::RightTupleSubscript),
    (b",", Kind::Comma),
    (b":", Kind::Colon),
    (b".", Kind::Dot),
    (b"!", Kind::Bang),
    (b"@", Kind::At),
    (b"'", Kind::Prime),
    (b"==", Kind::Define),
    (b"|->", Kind::MapsTo),
    (b"->", Kind::Arrow),
    (b"<-", Kind::Substitute),
    (b"[]", Kind::Box),
    (b"<>", Kind::Diamond),
    (b"~>", Kind::LeadsTo),
    (b"=>", Kind::Implies),
    (b"<=>", Kind::Equivalent),
    (b"/\\", Kind::And),
    (b"\\/", Kind::Or),
    (b"~", Kind::Not),
    (b"=", Kind::Equal),
    (b"#", Kind::NotEqual),
    (b"/=", Kind::NotEqual),
    (b"<", Kind::Less),
    (b">", Kind::Greater),
    (b"=<", Kind::AtMost),
    (b"<=", Kind::AtMost),
    (b">=", Kind::AtLeast),
    (b"\\", Kind::Difference),
    (b"@@", Kind::Override),
    (b":>", Kind::Pair),
    (b"..", Kind::Range),
    (b"+", Kind::Plus),
    (b"%", Kind::Remainder),
    (b"-", Kind::Minus),
    (b"*", Kind::Times),
    (b"^", Kind::Power),
    (b"--", Kind::MinusMinus),
    (b"-+->", Kind::Guarantees),
];

pub const OPERATORS: [(&[u8], Kind); 24] = [
    (b"\\in", Kind::Member),
    (b"\\notin", Kind::NotMember),
    (b"\\subseteq", Kind::SubsetEqual),
    (b"\\cup", Kind::Cup),
    (b"\\union", Kind::Cup),
    (b"\\cap", Kind::Cap),
    (b"\\intersect", Kind::Cap),
    (b"\\X", Kind::Product),
    (b"\\times", Kind::Product),
    (b"\\div", Kind::Quotient),
    (b"\\o", Kind::Concatenation),
    (b"\\circ", Kind::Concatenation),
    (b"\\leq", Kind::AtMost),
    (b"\\geq", Kind::AtLeast),
    (b"\\equiv", Kind::Equivalent),
    (b"\\land", Kind::And),
    (b"\\lor", Kind::Or),
    (b"\\lnot", Kind::Not),
    (b"\\neg", Kind::Not),
    (b"\\A", Kind::ForAll),
    (b"\\E", Kind::Exists),
    (b"\\AA", Kind::TemporalForAll),
    (b"\\EE", Kind::TemporalExists),
    (b"\\cdot", Kind::Composition),
];

fn found_len(best: Lexeme) -> usize
    ensures { result ≡ spec.found_len best }
{
    match best {
        Lexeme::Found(_, n) => n,
        Lexeme::Fault(..) => 0,
    }
}

fn pick(text: &[u8], best: Lexeme, spelling: &[u8], kind: Kind) -> Lexeme
    requires { Fits (length text.now) best }
    ensures value { result ≡ spec.pick text.now best (spelling.now, kind) }
    ensures within { Fits (length text.now) result }
{
    if text.starts_with(spelling) && found_len(best) < spelling.len() {
        Lexeme::Found(kind, spelling.len())
    } else {
        best
    }
}

/// The longest spelling of a table at the front of a text, or an unknown character.
fn longest(text: &[u8], table: &[(&[u8], Kind)]) -> Lexeme
    requires { 0 < length text.now }
    ensures value { result
        ≡ spec.longest text.now (Lexeme.Fault LexCode.Unknown 0)
        (map (λ e. (e.0.now, e.1)) table.now) }
    ensures within { Fits (length text.now) result }
{
    let mut best = Lexeme::Fault(LexCode::Unknown, 0);
    let mut left = table;
    while let [entry, rest @ ..] = left {
        best = pick(text, best, entry.0, entry.1);
        left = rest;
    }
    best
}

#[tactic(auto, using(crate::proofs::Slices::rest_slice))]
fn letters(text: &[u8]) -> usize
    ensures value { result ≡ prefix_len is_letter text.now }
    ensures within { result ≤ length text.now }
{
    text.iter().take_while(|b| is_letter(**b)).count()
}

/// The length of the first byte and the letters after it.
fn letters_len(text: &[u8]) -> usize
    requires { 0 < length text.now }
    ensures value { result ≡ spec.letters_len text.now }
    ensures within { result ≤ length text.now }
{
    letters(&text[1..]) + 1
}

fn operator(word: &[u8]) -> Option<Kind>
    ensures { result ≡ lookup_in spec.operators word.now }
{
    lookup(&OPERATORS, word)
}

fn longest_symbol(text: &[u8]) -> Lexeme
    requires { 0 < length text.now }
    ensures value { result ≡ spec.longest text.now (Lexeme.Fault LexCode.Unknown 0) spec.symbols }
    ensures within { Fits (length text.now) result }
{
    longest(text, &SYMBOLS)
}

/// The lexeme at the front of a text that begins with no word, string or separator.
#[tactic(auto, unfolding(crate::specs::Symbols::symbol))]
pub fn symbol(text: &[u8]) -> Lexeme
    requires { 0 < length text.now }
    ensures value { result ≡ spec.symbol text.now }
    ensures within { Fits (length text.now) result }
{
    if first(text) == b'\\' {
        let n = letters_len(text);
        if let Some(kind) = operator(&text[..n]) {
            return Lexeme::Found(kind, n);
        }
    }
    longest_symbol(text)
}
