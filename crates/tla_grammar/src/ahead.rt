//! What follows an opening bracket, and an entry of a binder that begins there.

ghost use Rattle.std.specs.Prelude.{◌≡◌, ◌≤◌, ◌<◌, ◌+◌, ◌^◌, drop, length, IfSome};
ghost use Rattle.tla_grammar.specs.Ahead as spec;
ghost use Rattle.tla_grammar.specs.Kinds as kinds;

use crate::tokens::{is_kind, seen};
use tla_lex::{Kind, Token};

/// What a token does to the parts of a bracket.
#[derive(Clone, Copy)]
pub enum Role {
    Plain,
    /// Opens a bracket.
    Opens,
    /// Closes a bracket.
    Closes,
    /// A quantifier or CHOOSE, which has a colon of its own.
    Binds,
    Colon,
    /// A comma, `|->` or EXCEPT.
    Separates,
}

/// What a bracket opens, by the tokens after it.
#[derive(Clone, Copy)]
pub enum Opened {
    /// `a |->`
    Record,
    /// `a :`
    RecordSet,
    /// `x, ..`, or `x \in S` or `<<x, y>> \in S` before `|->` or a comma
    Binders,
    Expression,
}

/// What a token of this kind does to the parts of a bracket.
pub fn role_of(kind: Kind) -> Role
    ensures { result ≡ kinds.role_of kind }
{
    match kind {
        Kind::LeftParen | Kind::LeftBracket | Kind::LeftBrace | Kind::LeftTuple => Role::Opens,
        Kind::RightParen
        | Kind::RightBracket
        | Kind::RightBracketSubscript
        | Kind::RightBrace
        | Kind::RightTuple
        | Kind::RightTupleSubscript => Role::Closes,
        Kind::ForAll | Kind::Exists | Kind::Choose => Role::Binds,
        Kind::Colon => Role::Colon,
        Kind::Comma | Kind::MapsTo | Kind::Except => Role::Separates,
        _ => Role::Plain,
    }
}

/// How many brackets are open after a token in this role, and how many colons still belong to quantifiers; None if it
/// ends a part of the open bracket.
fn behind(deep: usize, bound: usize, role: Role) -> Option<(usize, usize)>
    requires deep { deep < 2 ^ 62 }
    requires bound { bound < 2 ^ 62 }
    ensures value { result ≡ spec.behind deep bound role }
    ensures slow { IfSome result (λ x. (x.0 ≤ deep + 1) × (x.1 ≤ bound + 1)) }
{
    match role {
        Role::Plain => Some((deep, bound)),
        Role::Opens => Some((deep + 1, bound)),
        Role::Closes => {
            if deep == 0 {
                None
            } else {
                Some((deep - 1, bound))
            }
        }
        Role::Binds => {
            if deep == 0 {
                Some((0, bound + 1))
            } else {
                Some((deep, bound))
            }
        }
        Role::Colon => {
            if deep > 0 {
                Some((deep, bound))
            } else if bound > 0 {
                Some((0, bound - 1))
            } else {
                None
            }
        }
        Role::Separates => {
            if deep == 0 && bound == 0 {
                None
            } else {
                Some((deep, bound))
            }
        }
    }
}

/// The first token, from this number on, that ends a part of the open bracket.
fn ending(tokens: &[Token], from: usize) -> Option<Token>
    ensures { result ≡ spec.ending 0 0 (drop from tokens.now) }
{
    let mut deep = 0;
    let mut bound = 0;
    for at in from..tokens.len() {
        let t = tokens[at];
        match behind(deep, bound, role_of(t.kind)) {
            None => return Some(t),
            Some((inside, waiting)) => {
                deep = inside;
                bound = waiting;
            }
        }
    }
    None
}

/// The token after names with commas between them and `>>`.
#[tactic(auto, using(crate::proofs::TupleEnds::tuple_more, crate::proofs::TupleEnds::tuple_last, crate::proofs::TupleEnds::tuple_open, crate::proofs::TupleEnds::tuple_none, crate::proofs::TupleEnds::tuple_full))]
fn tuple_end(tokens: &[Token], column: u128, from: usize) -> Option<usize>
    requires { from ≤ length tokens.now }
    ensures { result ≡ spec.tuple_end tokens.now column (length tokens.now) from }
{
    let mut at = from;
    for _turn in 0..tokens.len() {
        if !is_kind(Kind::Name, seen(tokens, column, at)) {
            return None;
        }
        if !is_kind(Kind::Comma, seen(tokens, column, at + 1)) {
            return if is_kind(Kind::RightTuple, seen(tokens, column, at + 1)) {
                Some(at + 2)
            } else {
                None
            };
        }
        at += 2;
    }
    None
}

/// The token after one name, or after a tuple of names.
fn single_end(tokens: &[Token], column: u128, at: usize) -> Option<usize>
    requires { at ≤ length tokens.now }
    ensures { result ≡ spec.single_end tokens.now column at }
{
    if is_kind(Kind::Name, seen(tokens, column, at)) {
        return Some(at + 1);
    }
    if is_kind(Kind::LeftTuple, seen(tokens, column, at)) {
        tuple_end(tokens, column, at + 1)
    } else {
        None
    }
}

/// The `\in` after one name or a tuple of names.
pub fn binds(tokens: &[Token], column: u128, at: usize) -> Option<usize>
    requires { at ≤ length tokens.now }
    ensures value { result ≡ spec.binds tokens.now column at }
    ensures within { IfSome result (λ m. m < length tokens.now) }
{
    let end = single_end(tokens, column, at)?;
    if is_kind(Kind::Member, seen(tokens, column, end)) {
        Some(end)
    } else {
        None
    }
}

/// Whether an entry of one element is followed by a colon.
pub fn filters(tokens: &[Token], column: u128, at: usize) -> bool
    requires { at ≤ length tokens.now }
    ensures { result ≡ spec.filters tokens.now column at }
{
    match binds(tokens, column, at) {
        None => false,
        Some(member) => is_kind(Kind::Colon, ending(tokens, member + 1)),
    }
}

/// Whether an entry of one element is followed by `|->` or a comma.
pub fn maps(tokens: &[Token], column: u128, at: usize) -> bool
    requires { at ≤ length tokens.now }
    ensures { result ≡ spec.maps tokens.now column at }
{
    match binds(tokens, column, at) {
        None => false,
        Some(member) => {
            let end = ending(tokens, member + 1);
            is_kind(Kind::MapsTo, end) || is_kind(Kind::Comma, end)
        }
    }
}

/// What the bracket before this token opens.
pub fn opened_by(tokens: &[Token], column: u128, at: usize) -> Opened
    requires { at ≤ length tokens.now }
    ensures { result ≡ spec.opened_by tokens.now column at }
{
    if is_kind(Kind::Name, seen(tokens, column, at)) {
        if is_kind(Kind::MapsTo, seen(tokens, column, at + 1)) {
            return Opened::Record;
        }
        if is_kind(Kind::Colon, seen(tokens, column, at + 1)) {
            return Opened::RecordSet;
        }
        if is_kind(Kind::Comma, seen(tokens, column, at + 1)) {
            return Opened::Binders;
        }
    }
    if maps(tokens, column, at) {
        Opened::Binders
    } else {
        Opened::Expression
    }
}
