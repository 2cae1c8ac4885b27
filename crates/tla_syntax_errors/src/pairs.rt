//! Operators of other languages, which the lexer takes for two tokens or for another operator.

use crate::heads::defines_later;
use crate::kinds::ends_operand;
use tla_finding::finding::Finding;
use tla_finding::spot::Spot;
use tla_hints::{Open, opens_bracket};
use tla_lex::Kind;

/// What is wrong, and what to write.
type Cure = (&'static str, &'static str);

const BAGS: Cure = (
    "an operator of Bags, which is not read",
    "a (+) b is [x \\in DOMAIN a \\cup DOMAIN b |-> Count(a, x) + Count(b, x)], with Count(f, x) == IF x \\in DOMAIN f THEN f[x] ELSE 0",
);

const MAPPED: Cure = (
    "'|->' outside of brackets",
    "write [a |-> e] for a record, [x \\in S |-> e] for a function",
);

const BAG_DIFFERENCE: Cure = (
    "an operator of Bags, which is not read",
    "a (-) b is [x \\in {y \\in DOMAIN a : a[y] > Count(b, y)} |-> a[x] - Count(b, x)], with Count(f, x) == IF x \\in DOMAIN f THEN f[x] ELSE 0",
);

/// Finds an operator of another language.
pub(crate) fn find(finding: &mut Finding, spot: &Spot<'_>, open: Option<Open>) -> bool {
    let by_tokens = joined_before(spot)
        .or(joined_after(spot))
        .or(bag_operator(spot))
        .or(cure_misplaced(spot));
    let cure = match open {
        Some(open) if opens_bracket(open.token.kind) => by_tokens.or(cure_inside(spot, open)),
        Some(open) => by_tokens.or(cure_outside(spot)).or(cure_inside(spot, open)),
        None => by_tokens.or(cure_outside(spot)),
    };
    if let Some((title, hint)) = cure {
        finding.say(spot.place(spot.at), &[title]);
        finding.hint(&[hint]);
    }
    cure.is_some()
}

/// What to write for a token and the one that it touches before it.
fn joined_before(spot: &Spot<'_>) -> Option<Cure> {
    let before = spot.back(1)?;
    if !spot.touches_before(spot.at) {
        return None;
    }
    match spot.kind(spot.at)? {
        Kind::Times if before == Kind::Times => {
            Some(("'**' is no operator", "write a ^ b for a power"))
        }
        Kind::Plus if before == Kind::Plus => Some((
            "'++' is no operator",
            "write x' = x + 1; for another operator define Op(a, b) == ..",
        )),
        Kind::Equal if matches!(before, Kind::Plus | Kind::Minus) => Some((
            "'+=' and '-=' are no operators",
            "write x' = x + e for the next value of x",
        )),
        Kind::Dot if before == Kind::Range => {
            Some(("'...' is no operator", "write a .. b with two dots"))
        }
        _ => None,
    }
}

/// What to write for a token and the one that it touches after it.
fn joined_after(spot: &Spot<'_>) -> Option<Cure> {
    let next = spot.ahead(1)?;
    if !spot.touches_before(spot.at.saturating_add(1)) {
        return None;
    }
    match spot.kind(spot.at)? {
        Kind::Substitute if next == Kind::Greater => {
            Some(("'<->' is no operator", "write a <=> b"))
        }
        Kind::Not if next == Kind::Equal => Some(("'~=' is no operator", "write a # b")),
        Kind::Difference if next == Kind::Name && is_coded(spot) => Some((
            "a number that isn't decimal",
            "write the number in decimal digits",
        )),
        _ => None,
    }
}

/// Whether the word after a backslash is the rest of `\hFF`, `\o17` or `\b101`.
fn is_coded(spot: &Spot<'_>) -> bool {
    let word = spot.word(spot.at.saturating_add(1)).as_bytes();
    match word {
        [first, rest @ ..] => {
            let is_base = matches!(*first, b'h' | b'H' | b'o' | b'O' | b'b' | b'B');
            is_base && !rest.is_empty() && rest.iter().all(|b| b.is_ascii_hexdigit())
        }
        _ => false,
    }
}

/// What to write for `(+)` and `(-)`, which are refused at one of their tokens.
fn bag_operator(spot: &Spot<'_>) -> Option<Cure> {
    let first = match spot.kind(spot.at)? {
        Kind::LeftParen => spot.at,
        Kind::Plus | Kind::Minus => spot.at.checked_sub(1)?,
        Kind::RightParen => spot.at.checked_sub(2)?,
        _ => return None,
    };
    let sign = spot.kind(first.saturating_add(1))?;
    let is_bag = matches!(sign, Kind::Plus | Kind::Minus)
        && spot.is(first, Kind::LeftParen)
        && spot.is(first.saturating_add(2), Kind::RightParen);
    let line = spot.place(spot.at).line;
    match (is_bag, defines_later(spot, line)) {
        (true, true) => Some((
            "the definition of an operator between its operands",
            "write Op(a, b) == .., and Op(a, b) where it is used",
        )),
        (true, false) if sign == Kind::Minus => Some(BAG_DIFFERENCE),
        (true, false) => Some(BAGS),
        _ => None,
    }
}

/// What to write for an operator whose operands are on the wrong side.
fn cure_misplaced(spot: &Spot<'_>) -> Option<Cure> {
    let has_left = spot.back(1).is_some_and(ends_operand);
    match spot.kind(spot.at)? {
        Kind::Union if has_left => Some((
            "UNION between two operands",
            "write a \\cup b; UNION S is the union of the sets in S",
        )),
        Kind::Subset if has_left => Some((
            "SUBSET between two operands",
            "write a \\subseteq b; SUBSET S is the set of all subsets of S",
        )),
        Kind::Diamond if has_left => {
            Some(("'<>' is no comparison", "write a # b; <> is for time"))
        }
        Kind::Less if !has_left => Some((
            "'<' with nothing on its left",
            "a tuple is written <<a, b>>",
        )),
        Kind::Assume if spot.back(1) == Some(Kind::Theorem) => Some((
            "ASSUME .. PROVE is left out",
            "write THEOREM a => b, or remove the claim: THEOREM is read and not checked",
        )),
        _ => None,
    }
}

/// What to write for an operator that is in no bracket.
fn cure_outside(spot: &Spot<'_>) -> Option<Cure> {
    match spot.kind(spot.at)? {
        Kind::Arrow => Some(("'->' is no operator", "write a => b for implies")),
        Kind::MapsTo => Some(MAPPED),
        Kind::Substitute => Some((
            "'<-' is for configurations",
            "write x' = e for the next value of x",
        )),
        _ => None,
    }
}

/// What to write inside a bracket, or before the colon of a quantifier.
fn cure_inside(spot: &Spot<'_>, open: Open) -> Option<Cure> {
    let kind = spot.kind(spot.at)?;
    let opening = open.token.kind;
    if kind == Kind::In && opening != Kind::Let && opening != Kind::If {
        return Some(("'IN' is of LET", "write x \\in S"));
    }
    match opening {
        Kind::ForAll if spot.back(2) == Some(Kind::Comma) && kind != Kind::Colon => Some((
            "':' is missing before the formula",
            "write \\A x \\in S : p; after a comma a further name and its set follow",
        )),
        Kind::Exists if spot.back(2) == Some(Kind::Comma) && kind != Kind::Colon => Some((
            "':' is missing before the formula",
            "write \\E x \\in S : p; after a comma a further name and its set follow",
        )),
        Kind::Choose if kind == Kind::Comma => Some((
            "':' is missing before the formula",
            "write CHOOSE x \\in S : p, with one name",
        )),
        Kind::LeftParen if kind == Kind::MapsTo => Some(MAPPED),
        Kind::LeftParen if kind == Kind::Comma => {
            Some(("a comma in parentheses", "a tuple is written <<a, b>>"))
        }
        _ => None,
    }
}
