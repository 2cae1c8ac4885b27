//! Symbols that TLA+ writes differently.

use crate::heads::begins_unit_line;
use crate::kinds::ends_operand;
use tla_finding::finding::Finding;
use tla_finding::spot::Spot;
use tla_hints::Open;
use tla_lex::Kind;

/// What is wrong, and what to write.
type Cure = (&'static str, &'static str);

/// Finds a symbol that TLA+ writes differently.
pub(crate) fn find(finding: &mut Finding, spot: &Spot<'_>, open: Option<Open>) -> bool {
    let by_token = cure_of(spot).or(cure_after(spot));
    let cure = match open {
        Some(open) => by_token.or(cure_inside(spot, open)),
        None => by_token,
    };
    if let Some((title, hint)) = cure {
        finding.say(spot.place(spot.at), &[title]);
        finding.hint(&[hint]);
    }
    cure.is_some()
}

/// What to write instead of a token, by itself and the one after it.
fn cure_of(spot: &Spot<'_>) -> Option<Cure> {
    let next = spot.at.saturating_add(1);
    let touches = spot.touches_before(next);
    match spot.kind(spot.at)? {
        Kind::Colon if touches && spot.is(next, Kind::Equal) => Some((
            "':=' is no operator",
            "write x' = e for the next value of x, and Op == e for a definition",
        )),
        Kind::Colon if touches && spot.is(next, Kind::Colon) => Some((
            "labels are left out of the language",
            "remove the label and its ::",
        )),
        Kind::Define => Some((
            "'==' inside an expression",
            "write = to compare two values: == gives a name its definition",
        )),
        Kind::Prime if is_quoted(spot) => Some((
            "a text in single quotes",
            "write \"..\": ' after a variable is its next value",
        )),
        Kind::Prime if !spot.back(1).is_some_and(ends_operand) => Some((
            "an apostrophe with nothing on its left",
            "write x' for the next value of x, and \"..\" for a text",
        )),
        Kind::Equal if spot.back(2) == Some(Kind::Local) => Some((
            "'=' where a definition has '=='",
            "write LOCAL Op == e: = compares two values",
        )),
        Kind::Extends => Some((
            "EXTENDS is the first unit of a module, once",
            "name all modules in it: EXTENDS Integers, Sequences",
        )),
        Kind::At => Some((
            "'@' outside of EXCEPT",
            "@ is the old value in [f EXCEPT ![x] = @ + 1]",
        )),
        _ => None,
    }
}

/// What to write instead of a token, by those before it.
fn cure_after(spot: &Spot<'_>) -> Option<Cure> {
    let is_number = matches!(spot.kind(spot.at)?, Kind::Number(_));
    let after_number = matches!(spot.back(2), Some(Kind::Number(_)));
    match spot.back(1) {
        None => Some(("the module has no name", "write ---- MODULE Name ----")),
        Some(Kind::Except) => Some((
            "EXCEPT wants a '!'",
            "write [f EXCEPT ![x] = e], or [r EXCEPT !.a = e]",
        )),
        Some(Kind::Dot) if is_number && after_number => Some((
            "a number with a point",
            "numbers are whole: count in smaller units",
        )),
        Some(Kind::Dot) if is_number => Some((
            "a number for a field",
            "write t[1] for the first item of a tuple t",
        )),
        Some(Kind::Name) if spot.is(spot.at, Kind::LeftParen) && is_field(spot) => Some((
            "a field with arguments",
            "a value has no methods: write an operator, as Append(s, e) or Len(s)",
        )),
        Some(Kind::Text) if spot.is(spot.at, Kind::MapsTo) => Some((
            "a field of a record is a name",
            "write [a |-> e] without quotes; for other texts (\"a-b\" :> e) of TLC",
        )),
        Some(Kind::Number(_)) if spot.is(spot.at, Kind::MapsTo) => Some((
            "a field of a record is a name",
            "write [x \\in S |-> e] for a function, (1 :> e) of TLC for one argument, [S -> T] for the set of functions",
        )),
        _ => None,
    }
}

/// What to write instead of a token inside an open bracket or LET: for `->` or `:` in place of `|->`, or a comma
/// between definitions.
fn cure_inside(spot: &Spot<'_>, open: Open) -> Option<Cure> {
    let opening = open.token;
    let kind = spot.kind(spot.at)?;
    match opening.kind {
        Kind::Let if kind == Kind::Comma => Some((
            "a comma after a definition of LET",
            "leave the comma out: LET a == 1  b == 2 IN e",
        )),
        Kind::LeftBracket if kind == Kind::Colon => Some((
            "':' where a function or a record has '|->'",
            "write [x \\in S |-> e], or [a |-> e, b |-> f]; [a : S, b : T] is a set of records",
        )),
        Kind::LeftBracket if kind == Kind::Arrow || is_after(spot, open, Kind::Arrow) => Some((
            "'->' where a function or a record has '|->'",
            "write [x \\in S |-> e], or [a |-> e, b |-> f]; [S -> T] is a set of functions",
        )),
        Kind::LeftBracket if kind == Kind::Comma || kind == Kind::RightBracket => {
            Some(cure_in_brackets(spot, open))
        }
        Kind::LeftBrace if spot.back(2) == Some(Kind::Colon) && spot.back(1) == Some(Kind::Name) =>
            Some((
                "'\\in' is missing in this set",
                "write {x \\in S : p} for a part of S, or {e : x \\in S} for the values of e",
            )),
        Kind::ForAll | Kind::Exists if kind == Kind::Colon => Some((
            "a name without a set",
            "give each name a set: \\A x \\in S, y \\in T : p",
        )),
        _ => None,
    }
}

/// Whether the name before a token is a field.
fn is_field(spot: &Spot<'_>) -> bool {
    spot.back(2) == Some(Kind::Dot)
}

/// What to write in brackets with an unexpected comma or end.
fn cure_in_brackets(spot: &Spot<'_>, open: Open) -> Cure {
    if follows_head(spot, open) {
        (
            "a name without a set",
            "write f[x \\in S] == e for a function, or Op(x) == e",
        )
    } else if follows_box(spot, open) {
        (
            "a subscript is missing after this",
            "write [][Next]_vars, with vars == <<x, y>> for all variables",
        )
    } else if follows_unchanged(spot, open) {
        ("brackets after UNCHANGED", "write UNCHANGED <<x, y>>")
    } else if is_after(spot, open, Kind::Equal) {
        ("'=' where a record has '|->'", "write [a |-> e, b |-> f]")
    } else if is_after(spot, open, Kind::Implies) {
        ("'=>' where a function has '|->'", "write [x \\in S |-> e]")
    } else if spot.is(spot.at, Kind::Comma) {
        (
            "a comma in brackets",
            "a tuple is written <<a, b>>, a record [a |-> e, b |-> f]",
        )
    } else {
        (
            "something is missing in these brackets",
            "write [x \\in S |-> e], [a |-> e], [a : S], [S -> T], [f EXCEPT ![x] = e] or [Next]_vars; a tuple is written <<a, b>>",
        )
    }
}

/// Whether a name that begins a unit is before the open bracket.
fn follows_head(spot: &Spot<'_>, open: Open) -> bool {
    let index = spot.index_at(open.token.place);
    let before = index.and_then(|index| index.checked_sub(1));
    match before {
        Some(name) => spot.is(name, Kind::Name) && begins_unit_line(spot, name),
        None => false,
    }
}

/// Whether UNCHANGED is before the open bracket.
fn follows_unchanged(spot: &Spot<'_>, open: Open) -> bool {
    let index = spot.index_at(open.token.place);
    let before = index.and_then(|index| index.checked_sub(1));
    before.is_some_and(|before| spot.is(before, Kind::Unchanged))
}

/// Whether `[]` touches the open bracket.
fn follows_box(spot: &Spot<'_>, open: Open) -> bool {
    for token in spot.tokens {
        if token.end == open.token.start {
            return token.kind == Kind::Box;
        }
    }
    false
}

/// Whether a comma, or the end, follows a symbol in the open bracket.
fn is_after(spot: &Spot<'_>, open: Open, sign: Kind) -> bool {
    let before = spot.tokens.get(..spot.at).unwrap_or(&[]);
    let mut inside = before.iter().filter(|token| token.start > open.token.start);
    let is_end = matches!(spot.kind(spot.at), Some(Kind::Comma | Kind::RightBracket));
    is_end && inside.any(|token| token.kind == sign)
}

/// Whether a text in single quotes begins here, where an expression may begin, and ends in the same line.
fn is_quoted(spot: &Spot<'_>) -> bool {
    let line = spot.place(spot.at).line;
    let rest = spot.tokens.get(spot.at.saturating_add(1)..).unwrap_or(&[]);
    let mut same = rest.iter().take_while(|token| token.place.line == line);
    !spot.back(1).is_some_and(ends_operand) && same.any(|token| token.kind == Kind::Prime)
}
