//! Tokens as the grammar reads them: by their number in the list, and only right of a column.

ghost use Rattle.std.specs.Prelude.{◌≡◌, ℕ, ◌+◌, ◌^◌, ◌<◌, ◌≤◌, ◌↔◌, length, slice_get, IfOk, IfErr, IfSome, OnSome, IsTrue, Some, None};
ghost use Rattle.tla_lex.specs.Strings.{IsTextOf};
ghost use Rattle.tla_grammar.specs.Tokens as spec;
ghost use Rattle.tla_tree.specs.Words as words;
ghost use Rattle.tla_grammar.specs.Kinds as kinds;
ghost use Rattle.tla_grammar.specs.Ending as ending;
ghost use Rattle.std.specs.List.{list_all};
ghost use Rattle.tla_lex.specs.Bytes as bytes;
ghost use Rattle.tla_grammar.specs.LeftOut as left_out;
ghost use Rattle.tla_grammar.specs.OperatorParameters as parameters;
ghost use Rattle.tla_grammar.specs.Private.Open as open_brackets;
ghost use Rattle.tla_grammar.specs.Marks as marks;
ghost use Rattle.tla_grammar.specs.Refusals.{Refuses, RefusesUnit};

use crate::ahead::{Role, role_of};
use crate::operators::{bullet_of, infix_of, low, prefix_of};
use crate::refusal::Refusal;
use std::alloc::Global;
use tla_lex::{Kind, Token, is_space_or_tab, same_kind, string_text};
use tla_tree::{Brackets, Bullet, Infix, Word, slice_of};

/// What separates the items of a list.
#[derive(Clone, Copy)]
pub enum Between {
    Comma,
    /// This bullet, in the list's column.
    Bullet(Bullet),
    /// `[]`, before an arm of CASE that is no OTHER.
    Arm,
    /// `\X`
    Product,
    /// Nothing, before a step of a path.
    Key,
    /// Nothing, before a definition, which begins with a name.
    Nothing,
}

/// A postfix form, by what begins it.
#[derive(Clone, Copy)]
pub enum Postfix {
    /// `'`
    Prime,
    /// `[`
    Index,
    /// `.`
    Field,
}

/// The brackets' closing token.
pub fn closing(brackets: Brackets) -> Kind
    ensures { result ≡ kinds.closing brackets }
{
    match brackets {
        Brackets::Set => Kind::RightBrace,
        Brackets::Tuple => Kind::RightTuple,
    }
}

/// The token with this number, if it is right of the column.
pub fn seen(tokens: &[Token], column: u128, at: usize) -> Option<Token>
    ensures value { result ≡ spec.seen tokens.now column at }
    ensures within { OnSome result (at < length tokens.now) }
{
    match tokens.get(at) {
        Some(t) => {
            if column < t.place.column {
                Some(*t)
            } else {
                None
            }
        }
        None => None,
    }
}

/// Whether it is a token of this kind, which has to be one that separates parts.
pub fn is_kind(kind: Kind, token: Option<Token>) -> bool
    ensures { result ≡ kinds.kind_at kind token }
{
    let Some(t) = token else {
        return false;
    };
    same_kind(kind, t.kind)
}

/// Whether it is this bullet.
fn is_bullet(bullet: Bullet, found: Option<Bullet>) -> bool
    ensures { result ≡ spec.is_bullet bullet found }
{
    match (bullet, found) {
        (Bullet::And, Some(Bullet::And)) => true,
        (Bullet::Or, Some(Bullet::Or)) => true,
        _ => false,
    }
}

/// Whether this bullet is here, in the column.
pub fn is_bullet_at(tokens: &[Token], column: u128, bullet: Bullet, at: usize) -> bool
    ensures value { result ≡ spec.is_bullet_at column bullet (slice_get tokens.now at) }
    ensures within { IsTrue result → at < length tokens.now }
{
    match tokens.get(at) {
        Some(t) => t.place.column == column && is_bullet(bullet, bullet_of(t.kind)),
        None => false,
    }
}

/// Where the next item of a list begins, after this token.
pub fn following(tokens: &[Token], column: u128, between: Between, at: usize) -> Option<usize>
    ensures value { result ≡ marks.following tokens.now column between at }
    ensures within { IfSome result (λ next. next ≤ length tokens.now) }
{
    match between {
        Between::Comma => {
            if is_kind(Kind::Comma, seen(tokens, column, at)) {
                Some(at + 1)
            } else {
                None
            }
        }
        Between::Arm => {
            if is_kind(Kind::Box, seen(tokens, column, at))
                && !is_kind(Kind::Other, seen(tokens, column, at + 1))
            {
                Some(at + 1)
            } else {
                None
            }
        }
        Between::Product => {
            if is_kind(Kind::Product, seen(tokens, column, at)) {
                Some(at + 1)
            } else {
                None
            }
        }
        Between::Key => {
            if is_kind(Kind::LeftBracket, seen(tokens, column, at))
                || is_kind(Kind::Dot, seen(tokens, column, at))
            {
                Some(at)
            } else {
                None
            }
        }
        Between::Nothing => {
            if is_kind(Kind::Name, seen(tokens, column, at)) {
                Some(at)
            } else {
                None
            }
        }
        Between::Bullet(bullet) => {
            if is_bullet_at(tokens, column, bullet, at) {
                Some(at + 1)
            } else {
                None
            }
        }
    }
}

/// Whether the token may follow a junction list in this column.
pub fn may_follow(tokens: &[Token], column: u128, at: usize) -> bool
    ensures { result ≡ spec.may_follow column (slice_get tokens.now at) }
{
    match tokens.get(at) {
        Some(t) => {
            if column < t.place.column {
                !goes_on(t.kind)
            } else {
                true
            }
        }
        None => true,
    }
}

/// Whether a token of this kind begins an infix operator, a postfix form or arguments.
fn goes_on(kind: Kind) -> bool
    ensures { result ≡ spec.goes_on kind }
{
    match kind {
        Kind::Prime | Kind::LeftBracket | Kind::Dot | Kind::LeftParen => true,
        other => infix_of(other).is_some(),
    }
}

/// The postfix form that begins here.
pub fn postfix_at(token: Option<Token>) -> Option<Postfix>
    ensures { result ≡ marks.postfix_at token }
{
    match token?.kind {
        Kind::Prime => Some(Postfix::Prime),
        Kind::LeftBracket => Some(Postfix::Index),
        Kind::Dot => Some(Postfix::Field),
        _ => None,
    }
}

/// The infix operator that the token writes, where it is above the floor.
pub fn operator_at(token: Option<Token>, floor: u8) -> Option<Infix>
    ensures { result ≡ ending.above floor (ending.infix_at token) }
{
    match token {
        None => None,
        Some(t) => match infix_of(t.kind) {
            None => None,
            Some(op) => { if floor < low(op) { Some(op) } else { None } }
        },
    }
}

/// The token, where it is a name.
pub fn name_at(token: Option<Token>) -> Option<Token>
    ensures { result ≡ marks.name_at token }
{
    match token {
        Some(t) if matches!(t.kind, Kind::Name) => Some(t),
        _ => None,
    }
}

/// The text of a string, with its escapes read.
pub fn text_of(alloc: Global, text: &[u8], token: Token) -> Result<Word, Refusal>
    ensures ok { IfOk result (λ w. IsTextOf (words.word_of text.now token) w) }
    ensures err { IfErr result (λ e. e ≡ Refusal.NoMemory) }
{
    let literal = slice_of(text, token);
    if literal.is_empty() {
        return Ok(Word::new(Vec::new(alloc)));
    }
    Ok(Word::new(string_text(alloc, literal)?))
}

/// Whether a token of this kind always begins a form that is left out.
fn is_left_out(kind: Kind) -> bool
    ensures { result ≡ left_out.is_left_out kind }
{
    match kind {
        Kind::Enabled
        | Kind::Instance
        | Kind::Lambda
        | Kind::Recursive
        | Kind::With
        | Kind::Proof
        | Kind::By
        | Kind::Obvious
        | Kind::Omitted
        | Kind::TemporalForAll
        | Kind::TemporalExists
        | Kind::Composition
        | Kind::MinusMinus
        | Kind::Guarantees => true,
        _ => false,
    }
}

/// The least number of brackets that are open before a token of this kind, if at least `least` are open after it.
fn open_before(kind: Kind, least: usize) -> usize
    requires { least < 2 ^ 63 }
    ensures value { result ≡ open_brackets.least_before (kinds.role_of kind) least }
    ensures few { result ≤ least + 1 }
{
    match role_of(kind) {
        Role::Opens => least.saturating_sub(1),
        Role::Closes => least + 1,
        _ => least,
    }
}

/// Whether this token is EXCEPT, and no bracket need be open after it.
fn is_except_itself(token: Token, least: usize) -> bool
    ensures { IsTrue result ↔ ((token.kind ≡ Kind.Except) × (least ≡ 0)) }
{
    match token.kind {
        Kind::Except => least == 0,
        _ => false,
    }
}

/// Whether the token is inside an EXCEPT: one comes before it, and the brackets around that one are still open.
fn is_in_except(tokens: &[Token], at: usize) -> bool
    requires { at ≤ length tokens.now }
    ensures { IsTrue result ↔ left_out.IsInExcept tokens.now at }
{
    let mut least: usize = 0;
    let mut place = at;
    for _turn in 0..at {
        place -= 1;
        let Some(t) = tokens.get(place) else {
            return false;
        };
        if is_except_itself(*t, least) {
            return true;
        }
        least = open_before(t.kind, least);
    }
    false
}

/// Whether there is a `!` here, outside EXCEPT.
fn is_selector(tokens: &[Token], at: usize) -> bool
    ensures { IsTrue result → left_out.IsSelector tokens.now at }
{
    match tokens.get(at) {
        Some(t) => is_kind(Kind::Bang, Some(*t)) && !is_in_except(tokens, at),
        None => false,
    }
}

/// The refusal of a token that can't follow what was read: a form that is left out, else a token at or left of its
/// list's column, else an unexpected one.
#[tactic(auto, unfolding(crate::specs::LeftOut::BeginsLeftOut))]
pub fn refused(tokens: &[Token], column: u128, at: usize) -> Refusal
    ensures { Refuses tokens.now result }
{
    match tokens.get(at) {
        None => Refusal::Unexpected(at),
        Some(t) => {
            if is_left_out(t.kind) {
                Refusal::LeftOut(at)
            } else if is_selector(tokens, at) {
                Refusal::LeftOut(at)
            } else if t.place.column <= column {
                Refusal::Column(at)
            } else {
                Refusal::Unexpected(at)
            }
        }
    }
}

/// Whether there is an infix operator here.
fn is_infix(tokens: &[Token], at: usize) -> bool
    ensures { IsTrue result → parameters.IsInfix tokens.now at }
{
    match tokens.get(at) {
        Some(t) => infix_of(t.kind).is_some(),
        None => false,
    }
}

/// The token after `F(_, ..)`, if that is here, right of the column.
fn named_parameter_end(tokens: &[Token], column: u128, from: usize) -> Option<usize>
    ensures is { IfSome result (λ to. parameters.IsNamedParameter tokens.now from to) }
    ensures within { IfSome result (λ to. to ≤ length tokens.now) }
{
    if !is_kind(Kind::Name, seen(tokens, column, from))
        || !is_kind(Kind::LeftParen, seen(tokens, column, from + 1))
    {
        return None;
    }
    let mut at = from + 2;
    for _turn in 0..tokens.len() {
        if !is_kind(Kind::Underscore, seen(tokens, column, at)) {
            return None;
        }
        if is_kind(Kind::RightParen, seen(tokens, column, at + 1)) {
            return Some(at + 2);
        }
        if !is_kind(Kind::Comma, seen(tokens, column, at + 1)) {
            return None;
        }
        at += 2;
    }
    None
}

/// The token after an operator that is a parameter here, right of the column.
fn operator_parameter_end(tokens: &[Token], column: u128, at: usize) -> Option<usize>
    ensures is { IfSome result (λ to. parameters.IsOperatorParameter tokens.now at to) }
    ensures within { IfSome result (λ to. to ≤ length tokens.now) }
{
    match seen(tokens, column, at)?.kind {
        Kind::Name => named_parameter_end(tokens, column, at),
        Kind::Underscore => {
            if is_infix(tokens, at + 1) && is_kind(Kind::Underscore, seen(tokens, column, at + 2)) {
                Some(at + 3)
            } else {
                None
            }
        }
        other => {
            if prefix_of(other).is_some()
                && is_kind(Kind::Underscore, seen(tokens, column, at + 1))
            {
                Some(at + 2)
            } else {
                None
            }
        }
    }
}

/// The token after a parameter, a name or an operator, right of the column.
fn parameter_end(tokens: &[Token], column: u128, at: usize) -> Option<usize>
    ensures is { IfSome result (λ to. parameters.IsParameter tokens.now at to) }
    ensures within { IfSome result (λ to. to ≤ length tokens.now) }
{
    match operator_parameter_end(tokens, column, at) {
        Some(end) => Some(end),
        None => {
            if is_kind(Kind::Name, seen(tokens, column, at)) {
                Some(at + 1)
            } else {
                None
            }
        }
    }
}

/// Whether `Op(` is here, right of the column.
fn opens_parameters(tokens: &[Token], column: u128, from: usize) -> bool
    ensures is { IsTrue result
        → spec.KindAt tokens.now from Kind.Name × spec.KindAt tokens.now (from + 1) Kind.LeftParen }
    ensures within { IsTrue result → from + 2 ≤ length tokens.now }
{
    is_kind(Kind::Name, seen(tokens, column, from))
        && is_kind(Kind::LeftParen, seen(tokens, column, from + 1))
}

/// Whether there is a definition here, with its parameters and `==`, all right of the column.
fn is_definition(tokens: &[Token], column: u128, from: usize) -> bool
    ensures { IsTrue result → parameters.IsDefinition tokens.now from }
{
    if !opens_parameters(tokens, column, from) {
        return false;
    }
    let mut at = from + 2;
    for _turn in 0..tokens.len() {
        let Some(end) = parameter_end(tokens, column, at) else {
            return false;
        };
        if is_kind(Kind::RightParen, seen(tokens, column, end)) {
            return is_kind(Kind::Define, seen(tokens, column, end + 1));
        }
        if !is_kind(Kind::Comma, seen(tokens, column, end)) {
            return false;
        }
        at = end + 1;
    }
    false
}

/// Whether there is an operator among the parameters here, after names alone and right of the column.
fn has_operator(tokens: &[Token], column: u128, from: usize) -> bool
    requires { from + 2 ≤ length tokens.now }
    ensures { IsTrue result → parameters.HasOperator tokens.now from }
{
    let mut at = from + 2;
    for _turn in 0..tokens.len() {
        if operator_parameter_end(tokens, column, at).is_some() {
            return true;
        }
        if !is_kind(Kind::Name, seen(tokens, column, at))
            || !is_kind(Kind::Comma, seen(tokens, column, at + 1))
        {
            return false;
        }
        at += 2;
    }
    false
}

/// Whether there is a definition here that has an operator among its parameters.
fn has_operator_parameter(tokens: &[Token], column: u128, from: usize) -> bool
    ensures { IsTrue result → parameters.HasOperatorParameter tokens.now from }
{
    opens_parameters(tokens, column, from)
        && is_definition(tokens, column, from)
        && has_operator(tokens, column, from)
}

/// The refusal of a token in the parameters of the definition at `from`: the definition, if it is left out, else the
/// token.
#[tactic(auto, unfolding(crate::specs::LeftOut::BeginsLeftOut))]
pub fn refused_parameter(tokens: &[Token], column: u128, from: usize, at: usize) -> Refusal
    ensures { Refuses tokens.now result }
{
    if has_operator_parameter(tokens, column, from) {
        Refusal::LeftOut(from)
    } else {
        refused(tokens, column, at)
    }
}

/// Whether the bytes are spaces and tabs.
fn are_spaces_or_tabs(text: &[u8]) -> bool
    ensures { result ≡ list_all bytes.is_space_or_tab text.now }
{
    text.iter().all(|b| is_space_or_tab(*b))
}

/// Whether there are spaces or tabs between these bytes, and nothing else.
fn are_apart(text: &[u8], from: usize, to: usize) -> bool
    ensures { IsTrue result → left_out.AreApart text.now from to }
{
    from < to && to <= text.len() && are_spaces_or_tabs(&text[from..to])
}

/// Whether MODULE is here, after a run of dashes and spaces or tabs.
fn is_second_header(text: &[u8], tokens: &[Token], at: usize) -> bool
    ensures { IsTrue result → left_out.IsSecondHeader tokens.now text.now at }
{
    if at == 0 {
        return false;
    }
    let Some(line) = tokens.get(at - 1) else {
        return false;
    };
    let Some(t) = tokens.get(at) else {
        return false;
    };
    is_kind(Kind::Separator, Some(*line))
        && is_kind(Kind::Module, Some(*t))
        && are_apart(text, line.end, t.start)
}

/// The refusal of a token that begins no unit.
pub fn refused_unit(text: &[u8], tokens: &[Token], at: usize) -> Refusal
    ensures { RefusesUnit text.now tokens.now result }
{
    if is_second_header(text, tokens, at) {
        Refusal::SecondHeader(at)
    } else {
        refused(tokens, 0, at)
    }
}
