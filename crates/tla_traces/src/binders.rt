//! The names that a quantifier binds.

use crate::context::ExplainContext;
use crate::expressions::binder_at;
use tla_hints::{closes_bracket, opens_bracket};
use tla_lex::{Kind, Place, Token};
use tla_page::output::Output;
use tla_page::places::word;
use tla_steps::Chosen;
use tla_tree::{Binder, Expr, Pattern, Written};

/// Adds the values of bound names: `with i = 1, j = 4`.
pub fn put_choices(output: &mut Output, context: &ExplainContext<'_>, chosen: &[Chosen]) {
    for (index, choice) in chosen.iter().enumerate() {
        output.put_text(if index == 0 { "with " } else { ", " });
        let name = name_of(context, choice).unwrap_or("it");
        output.put(&[name, " = "]);
        output.put_value(&choice.value);
    }
}

/// Whether an expression is one of the chosen names.
pub fn is_choice(context: &ExplainContext<'_>, chosen: &[Chosen], expr: &Expr) -> bool {
    let Expr::Name(name) = expr else {
        return false;
    };
    chosen.iter().any(|choice| {
        name_of(context, choice).is_some_and(|other| other.as_bytes() == name.word.as_bytes())
    })
}

/// The name of a chosen value.
fn name_of<'a>(context: &ExplainContext<'a>, choice: &Chosen) -> Option<&'a str> {
    let written = match binder_at(context.units, choice.place)? {
        Expr::Quantified(_, _, binders, _) => nth_in_turn(binders, choice.name),
        Expr::Choose(_, pattern, _, _) | Expr::Filter(_, pattern, _, _) => {
            pattern.names().get(choice.name)
        }
        Expr::Function(_, binders, _) | Expr::Image(_, _, binders) => {
            nth_of_elements(binders, choice.name)
        }
        _ => None,
    };
    str::from_utf8(written?.word.as_bytes()).ok()
}

/// The nth name of binders, if the names of a pattern count at the place of the pattern.
fn nth_in_turn(binders: &[Binder], nth: usize) -> Option<&Written> {
    let mut left = nth;
    for binder in binders {
        let names = binder.pattern.names();
        if let Some(name) = names.get(left) {
            return Some(name);
        }
        left = left.saturating_sub(names.len());
    }
    None
}

/// The nth name of binders, if the names of patterns count after all others.
fn nth_of_elements(binders: &[Binder], nth: usize) -> Option<&Written> {
    let mut left = nth;
    for patterns in [false, true] {
        for binder in binders {
            if is_tuple(&binder.pattern) != patterns {
                continue;
            }
            let names = binder.pattern.names();
            if let Some(name) = names.get(left) {
                return Some(name);
            }
            left = left.saturating_sub(names.len());
        }
    }
    None
}

fn is_tuple(pattern: &Pattern) -> bool {
    matches!(pattern, Pattern::Tuple(_))
}

/// The name that the quantifier at a place binds as its nth, from 0. Each name of a pattern `<<x, y>>` counts as one.
pub fn bound_name<'a>(
    text: &'a [u8],
    tokens: &[Token],
    place: Place,
    nth: usize,
) -> Option<&'a str> {
    let from = tokens.iter().position(|token| token.place == place)?;
    let mut depth = 0usize;
    let mut in_pattern = false;
    let mut left = nth;
    for three in tokens.get(from..)?.windows(3) {
        let [before, token, after] = three else {
            return None;
        };
        depth = depth_after(depth, before.kind);
        if depth == 0 {
            if before.kind == Kind::Colon {
                return None;
            }
            in_pattern = begins_pattern(before.kind, token.kind);
        }
        let is_plain = depth == 0 && is_bound_alone(before.kind, after.kind);
        if token.kind == Kind::Name && (in_pattern || is_plain) {
            if left == 0 {
                return Some(word(text, token));
            }
            left -= 1;
        }
    }
    None
}

/// The depth of brackets after a token.
fn depth_after(depth: usize, kind: Kind) -> usize {
    if opens_bracket(kind) {
        depth.saturating_add(1)
    } else if closes_bracket(kind) {
        depth.saturating_sub(1)
    } else {
        depth
    }
}

/// Whether a pattern begins at a token.
fn begins_pattern(before: Kind, kind: Kind) -> bool {
    begins_entry(before) && kind == Kind::LeftTuple
}

/// Whether a name between these tokens is bound outside a pattern.
fn is_bound_alone(before: Kind, after: Kind) -> bool {
    begins_entry(before) && ends_name(after)
}

/// Whether a bound name, or a pattern, may follow a token.
fn begins_entry(before: Kind) -> bool {
    before == Kind::Exists || before == Kind::ForAll || before == Kind::Comma
}

/// Whether a token may follow a bound name.
fn ends_name(after: Kind) -> bool {
    after == Kind::Comma || after == Kind::Member
}
