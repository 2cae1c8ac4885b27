//! Names, reserved words and numbers.

ghost use Rattle.std.specs.Prelude.{◌≡◌, ◌≤◌, ◌<◌, ◌^◌, length, map, IsTrue};
ghost use Rattle.std.specs.List.{list_all, list_any};
ghost use Rattle.tla_lex.specs.Bytes as bytes;
ghost use Rattle.tla_lex.specs.Words as spec;
ghost use Rattle.tla_lex.specs.Private.LexemeSize.{Fits};

use crate::bytes::{is_digit, is_letter};
use crate::error::LexCode;
use crate::lexeme::{Lexeme, Source};
use crate::token::Kind;

pub const RESERVED_WORDS: [(&[u8], Kind); 37] = [
    (b"ASSUME", Kind::Assume),
    (b"ASSUMPTION", Kind::Assume),
    (b"AXIOM", Kind::Assume),
    (b"BOOLEAN", Kind::Boolean),
    (b"CASE", Kind::Case),
    (b"CHOOSE", Kind::Choose),
    (b"CONSTANT", Kind::Constant),
    (b"CONSTANTS", Kind::Constant),
    (b"DOMAIN", Kind::Domain),
    (b"ELSE", Kind::Else),
    (b"EXCEPT", Kind::Except),
    (b"EXTENDS", Kind::Extends),
    (b"FALSE", Kind::False),
    (b"IF", Kind::If),
    (b"IN", Kind::In),
    (b"LET", Kind::Let),
    (b"LOCAL", Kind::Local),
    (b"MODULE", Kind::Module),
    (b"OTHER", Kind::Other),
    (b"STRING", Kind::String),
    (b"SUBSET", Kind::Subset),
    (b"THEN", Kind::Then),
    (b"THEOREM", Kind::Theorem),
    (b"TRUE", Kind::True),
    (b"UNCHANGED", Kind::Unchanged),
    (b"UNION", Kind::Union),
    (b"VARIABLE", Kind::Variable),
    (b"VARIABLES", Kind::Variable),
    (b"ENABLED", Kind::Enabled),
    (b"INSTANCE", Kind::Instance),
    (b"LAMBDA", Kind::Lambda),
    (b"RECURSIVE", Kind::Recursive),
    (b"WITH", Kind::With),
    (b"PROOF", Kind::Proof),
    (b"BY", Kind::By),
    (b"OBVIOUS", Kind::Obvious),
    (b"OMITTED", Kind::Omitted),
];

/// The kind of a spelling in a table.
pub fn lookup(table: &[(&[u8], Kind)], word: &[u8]) -> Option<Kind>
    ensures { result ≡ spec.lookup (map (λ e. (e.0.now, e.1)) table.now) word.now }
{
    let mut left = table;
    while let [entry, rest @ ..] = left {
        if entry.0 == word {
            return Some(entry.1);
        }
        left = rest;
    }
    None
}

fn name_kind(w: &[u8]) -> Kind
    ensures { result ≡ spec.name_kind (spec.lookup spec.reserved_words w.now) }
{
    match lookup(&RESERVED_WORDS, w) {
        Some(reserved) => reserved,
        None => Kind::Name,
    }
}

const LIMIT: u128 = 9223372036854775808;

/// What the digits say, where it is below 2 ^ 63.
fn value(digits: &[u8]) -> Option<u64>
    requires { IsTrue (list_all bytes.is_digit digits.now) }
    ensures { result ≡ spec.small (spec.value 0 digits.now) }
{
    let mut n: u64 = 0;
    for b in digits {
        let longer = u128::from(n) * 10 + u128::from(*b - b'0');
        if longer >= LIMIT {
            return None;
        }
        n = longer as u64;
    }
    Some(n)
}

fn number(source: Source, w: &[u8]) -> Lexeme
    requires digits { IsTrue (list_all bytes.is_digit w.now) }
    requires some { 0 < length w.now }
    ensures value { result ≡ spec.number source w.now }
    ensures within { Fits (length w.now) result }
{
    match source {
        Source::Configuration => Lexeme::Found(Kind::Digits, w.len()),
        Source::Module => match value(w) {
            Some(n) => Lexeme::Found(Kind::Number(n), w.len()),
            None => Lexeme::Fault(LexCode::NumberTooLarge, 0),
        },
    }
}

fn has_letter(w: &[u8]) -> bool
    ensures { result ≡ list_any bytes.is_letter w.now }
{
    w.iter().any(|b| is_letter(*b))
}

fn is_digits(w: &[u8]) -> bool
    ensures { result ≡ list_all bytes.is_digit w.now }
{
    w.iter().all(|b| is_digit(*b))
}

/// The lexeme at the front of a whole run of letters, digits and `_`.
#[tactic(auto, unfolding(crate::specs::Words::word))]
pub fn word(source: Source, w: &[u8]) -> Lexeme
    requires { 0 < length w.now }
    ensures value { result ≡ spec.word source w.now }
    ensures within { Fits (length w.now) result }
{
    if w.starts_with(b"WF_") {
        Lexeme::Found(Kind::WeakFairness, 3)
    } else if w.starts_with(b"SF_") {
        Lexeme::Found(Kind::StrongFairness, 3)
    } else if has_letter(w) {
        Lexeme::Found(name_kind(w), w.len())
    } else if is_digits(w) {
        number(source, w)
    } else if w == b"_".as_slice() {
        Lexeme::Found(Kind::Underscore, 1)
    } else {
        Lexeme::Fault(LexCode::Unknown, 0)
    }
}
