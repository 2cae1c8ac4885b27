//! Refusals of a module's tokens.

ghost use Rattle.std.specs.Prelude.{◌≡◌};

use tla_lex::Place;
use tla_tree::Word;

/// What is wrong with a module's tokens.
#[derive(Clone, Copy, Debug, PartialEq, Eq)]
pub enum ParseCode {
    /// P1: a token that has no place there.
    Unexpected,
    /// P2: two operators that may not be beside each other without parentheses.
    Precedence,
    /// P3: a token at or left of its junction list's column, although the item isn't complete.
    Column,
    /// P4: a form nested more than 200 deep.
    Nesting,
    /// P5: a form that is left out of the language.
    LeftOut,
    /// Memory ran out. A report has no code for it.
    NoMemory,
}

/// Why a module has no tree, and where, unless memory ran out. For a form that is left out, it has its word or symbol,
/// or the module's name.
#[derive(Drop)]
pub struct ParseError {
    pub code: ParseCode,
    pub place: Option<Place>,
    pub name: Option<Word>,
}

impl ParseError {
    /// Memory ran out.
    pub(crate) const NO_MEMORY: ParseError = ParseError {
        code: ParseCode::NoMemory,
        place: None,
        name: None,
    };

    /// A refusal at a place, with no name.
    pub(crate) fn at(code: ParseCode, place: Place) -> ParseError
        ensures { result ≡ record { code = code; place = Some place; name = None } }
    {
        ParseError {
            code,
            place: Some(place),
            name: None,
        }
    }
}
