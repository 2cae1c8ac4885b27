//! Values.

ghost use Rattle.std.specs.Prelude.{◌≡◌, ◌⊎◌, ◌≤◌, ◌<◌, ◌+◌, ◌^◌, ℕ, List, true, false, length, map, slice_get, FitsSigned, IfOk, IfErr, IfSome, IfNone, OnOk};
ghost use Rattle.std.specs.Int.{w64};
ghost use Rattle.tla_lex.specs.Words as decimal;
ghost use Rattle.tla_lex.specs.StringLoops.{string_text};
ghost use Rattle.std.specs.Str.{IsUtf8};
ghost use Rattle.tla_lex.specs.declared.token.Token as lexed;
ghost use Rattle.tla_value.specs.IsValue.{IsValue};
ghost use Rattle.tla_value.specs.Tree as tree;
ghost use Rattle.tla_value.specs.TreeOf.{tree_of};
ghost use Rattle.tla_tree.specs.Words.{word_of};
ghost use Rattle.tla_config.specs.Private.Beyond.{IsBeyond};
ghost use Rattle.tla_config.specs.Private.Fronts.{kind_at};
ghost use Rattle.tla_config.specs.Private.Gives.{Because, Nowhere};
ghost use Rattle.tla_config.specs.Private.GivesValues as spec;
ghost use Rattle.tla_config.specs.Literals.{number};

use crate::keyword::keyword_of;
use crate::refusal::Refusal;
use crate::tokens::{digits_at, is_kind, token_at};
use std::alloc::Global;
use tla_lex::{Kind, Token, string_text};
use tla_tree::{push, slice_of};
use tla_value::{SetValue, Text, Value, ValueError};

/// A value, and the number of the token after it.
#[derive(Drop)]
pub struct ParsedValue {
    pub value: Value,
    pub end: usize,
}

/// The largest magnitude of a number.
const LARGEST: u128 = 9223372036854775808;

/// The number of these digits, if it is at most the largest magnitude.
fn magnitude(digits: &[u8]) -> Option<u64>
    ensures value { IfSome result (λ n. n ≡ decimal.value 0 digits.now) }
    ensures small { IfSome result (λ n. n ≤ 2 ^ 63) }
    ensures large { IfNone result (2 ^ 63 < decimal.value 0 digits.now) }
{
    let mut n: u64 = 0;
    for b in digits {
        let longer = u128::from(n) * 10 + u128::from((*b).saturating_sub(b'0'));
        if longer > LARGEST {
            return None;
        }
        n = longer as u64;
    }
    Some(n)
}

/// The number of these digits, if it is within 64 bits.
fn positive(digits: &[u8]) -> Option<i64>
    ensures value { IfSome result (λ z. z ≡ number false digits.now) }
    ensures none { IfNone result (FitsSigned w64 (number false digits.now) → ⊥) }
{
    match magnitude(digits) {
        Some(n) => { if n < 1 << 63 { Some(n as i64) } else { None } }
        None => None,
    }
}

/// The number of these digits after a minus sign, if it is within 64 bits.
fn negative(digits: &[u8]) -> Option<i64>
    ensures value { IfSome result (λ z. z ≡ number true digits.now) }
    ensures fits { IfSome result (λ z. FitsSigned w64 z) }
    ensures none { IfNone result (FitsSigned w64 (number true digits.now) → ⊥) }
{
    match magnitude(digits) {
        Some(0) => Some(0),
        Some(n) => Some(-1 - ((n - 1) as i64)),
        None => None,
    }
}

/// The bytes of a string, which has its quotes.
#[tactic(auto, using(tla_lex::proofs::StringTexts::reads_text))]
fn bytes_of(alloc: Global, literal: &[u8]) -> Result<Vec<u8>, Refusal>
    ensures ok { IfOk result (λ v. v.items ≡ string_text literal.now) }
    ensures err { IfErr result (λ e. e ≡ Refusal.NoMemory) }
{
    let [_, ..] = literal else {
        return Ok(Vec::new(alloc));
    };
    Ok(string_text(alloc, literal)?)
}

/// The text of these bytes, if they are UTF-8, in the item with this number.
fn text_of(alloc: Global, bytes: &[u8], item: usize) -> Result<Text, Refusal>
    ensures bytes { IfOk result (λ t. t ≡ bytes.now) }
    ensures utf8 { IfOk result (λ t. ∥ IsUtf8 bytes.now ∥₁) }
    ensures err { IfErr result (λ e.
        (e ≡ Refusal.NoMemory) ⊎ ((e ≡ Refusal.TooLarge item) × (IsUtf8 bytes.now → ⊥))) }
{
    let Ok(text) = str::from_utf8(bytes) else {
        return Err(Refusal::TooLarge(item));
    };
    match Text::new(alloc, text) {
        Ok(text) => Ok(text),
        Err(_) => Err(Refusal::NoMemory),
    }
}

fn int(number: i64) -> Value
    ensures tree { tree_of result ≡ tree.int number }
    ensures value { IsValue (tree_of result) }
{
    Value::Int(number)
}

/// The string of these bytes, which this token writes, in the item of this number.
fn text_value(
    alloc: Global,
    text: &[u8],
    bytes: &[u8],
    item: usize,
    token: Token,
) -> Result<Value, Refusal>
    requires kind { token.kind ≡ Kind.Text }
    requires bytes { bytes.now ≡ string_text (word_of text.now token) }
    ensures gives { (ts : List lexed.Token) → spec.GivesAtom text.now ts token result }
    ensures because { IfErr result (λ e.
        Because e Nowhere (λ n. (n ≡ item) × spec.AtomBeyond text.now token)
        (spec.WritesNone text.now token)) }
{
    match text_of(alloc, bytes, item) {
        Ok(text) => Ok(Value::Text(text)),
        Err(refusal) => Err(refusal),
    }
}

/// The string that this token writes, in the item of this number.
fn string(alloc: Global, text: &[u8], item: usize, token: Token) -> Result<Value, Refusal>
    requires { token.kind ≡ Kind.Text }
    ensures gives { (ts : List lexed.Token) → spec.GivesAtom text.now ts token result }
    ensures because { IfErr result (λ e.
        Because e Nowhere (λ n. (n ≡ item) × spec.AtomBeyond text.now token)
        (spec.WritesNone text.now token)) }
{
    let bytes = bytes_of(alloc, slice_of(text, token))?;
    text_value(alloc, text, &bytes, item, token)
}

/// The model value that this token names, in the item of this number.
fn model(alloc: Global, text: &[u8], item: usize, at: usize, token: Token) -> Result<Value, Refusal>
    requires { token.kind ≡ Kind.Name }
    ensures gives { (ts : List lexed.Token) → spec.GivesAtom text.now ts token result }
    ensures because { IfErr result (λ e.
        Because e Nowhere (λ n. (n ≡ item) × spec.AtomBeyond text.now token)
        (spec.WritesNone text.now token)) }
{
    let word = slice_of(text, token);
    match keyword_of(word) {
        Some(_) => Err(Refusal::Unexpected(at)),
        None => match text_of(alloc, word, item) {
            Ok(name) => Ok(Value::Model(name)),
            Err(refusal) => Err(refusal),
        },
    }
}

/// The value that the token writes by itself, in the item of this number.
fn atom(
    alloc: Global,
    text: &[u8],
    tokens: &[Token],
    item: usize,
    at: usize,
    token: Token,
) -> Result<Value, Refusal>
    ensures gives { spec.GivesAtom text.now tokens.now token result }
    ensures because { IfErr result (λ e.
        Because e Nowhere (λ n. (n ≡ item) × spec.AtomBeyond text.now token)
        (spec.WritesNone text.now token)) }
{
    let word = slice_of(text, token);
    match token.kind {
        Kind::True => Ok(Value::Truth(true)),
        Kind::False => Ok(Value::Truth(false)),
        Kind::Digits => match positive(word) {
            Some(number) => Ok(int(number)),
            None => Err(Refusal::TooLarge(item)),
        },
        Kind::Text => string(alloc, text, item, token),
        Kind::Name => model(alloc, text, item, at, token),
        _ => Err(Refusal::Unexpected(at)),
    }
}

/// The set of these values.
fn set(alloc: Global, values: Vec<Value>, item: usize) -> Result<Value, Refusal>
    ensures gives { (text : List ℕ) (ts : List lexed.Token)
        → spec.GivesSet text ts (map tree_of values.items) result }
    ensures because { IfErr result (λ e. Because e Nowhere (λ n. n ≡ item) ⊥) }
{
    match SetValue::from_values(alloc, values) {
        Ok(set) => Ok(Value::Set(set)),
        Err(ValueError::Memory) => Err(Refusal::NoMemory),
        Err(ValueError::TooMany) => Err(Refusal::TooLarge(item)),
        Err(ValueError::TooDeep) => Err(Refusal::TooLarge(item)),
    }
}

/// The number after this minus sign, in the item with this number.
fn negated(text: &[u8], tokens: &[Token], item: usize, at: usize) -> Result<ParsedValue, Refusal>
    requires { kind_at Kind.Minus (slice_get tokens.now at) ≡ true }
    ensures gives { (room : ℕ) → spec.GivesValue text.now tokens.now room at result }
    ensures because { (room : ℕ)
        → IfErr result (λ e.
        Because e Nowhere (spec.BeyondIn text.now tokens.now item room at)
        (spec.IsUnwritten text.now tokens.now room at)) }
    ensures limits { (room : ℕ) → OnOk result (IsBeyond text.now tokens.now room at → ⊥) }
    ensures within { IfOk result (λ x. (at < x.end) × (x.end ≤ length tokens.now)) }
{
    let Some(t) = digits_at(tokens, at + 1) else {
        return Err(Refusal::Unexpected(at + 1));
    };
    match negative(slice_of(text, t)) {
        Some(number) => Ok(ParsedValue {
            value: int(number),
            end: at + 2,
        }),
        None => Err(Refusal::TooLarge(item)),
    }
}

/// The value that begins here, in the item with this number, nested at most this deep.
#[cycle(value)]
pub fn value(
    alloc: Global,
    text: &[u8],
    tokens: &[Token],
    item: usize,
    room: usize,
    at: usize,
) -> Result<ParsedValue, Refusal>
    ensures gives { spec.GivesValue text.now tokens.now room at result }
    ensures because { IfErr result (λ e.
        Because e Nowhere (spec.BeyondIn text.now tokens.now item room at)
        (spec.IsUnwritten text.now tokens.now room at)) }
    ensures limits { OnOk result (IsBeyond text.now tokens.now room at → ⊥) }
    ensures within { IfOk result (λ x. (at < x.end) × (x.end ≤ length tokens.now)) }
{
    let Some(t) = token_at(tokens, at) else {
        return Err(Refusal::Unexpected(at));
    };
    if is_kind(Kind::LeftBrace, tokens, at) {
        return if room == 0 {
            Err(Refusal::TooLarge(item))
        } else {
            members(alloc, text, tokens, item, room - 1, at)
        };
    }
    if is_kind(Kind::Minus, tokens, at) {
        return negated(text, tokens, item, at);
    }
    let value = atom(alloc, text, tokens, item, at, t)?;
    Ok(ParsedValue { value, end: at + 1 })
}

/// The set that this brace opens, in the item with this number, with members nested at most this deep.
#[cycle(value)]
fn members(
    alloc: Global,
    text: &[u8],
    tokens: &[Token],
    item: usize,
    room: usize,
    from: usize,
) -> Result<ParsedValue, Refusal>
    requires { kind_at Kind.LeftBrace (slice_get tokens.now from) ≡ true }
    ensures gives { spec.GivesValue text.now tokens.now (room + 1) from result }
    ensures because { IfErr result (λ e.
        Because e Nowhere (spec.BeyondIn text.now tokens.now item (room + 1) from)
        (spec.IsUnwritten text.now tokens.now (room + 1) from)) }
    ensures limits { OnOk result (IsBeyond text.now tokens.now (room + 1) from → ⊥) }
    ensures within { IfOk result (λ x. (from < x.end) × (x.end ≤ length tokens.now)) }
{
    let mut values = Vec::new(alloc);
    let mut at = from + 1;
    if is_kind(Kind::RightBrace, tokens, at) {
        let value = set(alloc, values, item)?;
        return Ok(ParsedValue { value, end: at + 1 });
    }
    loop {
        let found = value(alloc, text, tokens, item, room, at)?;
        push(&mut values, found.value)?;
        if is_kind(Kind::RightBrace, tokens, found.end) {
            let value = set(alloc, values, item)?;
            return Ok(ParsedValue {
                value,
                end: found.end + 1,
            });
        }
        if !is_kind(Kind::Comma, tokens, found.end) {
            return Err(Refusal::Unexpected(found.end));
        }
        at = found.end + 1;
    }
}
