//! The expression in the text from which a node comes.

use crate::signs::{sign_of, written_sign};
use tla_core::Core;
use tla_lex::Place;
use tla_page::places::token_place;
use tla_tree::{Arm, Binder, Definition, Expr, Field, Infix, Key, Unit, Update};

/// The expression that is searched for, by its place and its symbol. The empty symbol means a name, a number or a
/// string.
#[derive(Clone, Copy)]
struct Wanted<'a> {
    place: Place,
    sign: &'a str,
    /// How many operators with the same symbol begin at the same place inside it.
    inner: usize,
}

/// The expression from which a node comes.
pub fn expression_of<'a>(units: &'a [Unit], core: &Core) -> Option<&'a Expr> {
    if let Core::Literal(_) = core {
        return first_at(units, core.place(), &["{ }", "<< >>", "[ |-> ]"]);
    }
    let wanted = Wanted {
        place: token_place(core.place()),
        sign: sign_of(core),
        inner: inner_of(core),
    };
    find_in_units(units, &wanted)
}

/// The expression at a place with the first of these symbols that some expression there has.
fn first_at<'a>(units: &'a [Unit], place: tla_core::Place, signs: &[&str]) -> Option<&'a Expr> {
    for sign in signs {
        if let Some(found) = expression_at(units, place, sign) {
            return Some(found);
        }
    }
    None
}

/// The expression at a place that binds names.
pub fn binder_at(units: &[Unit], place: tla_core::Place) -> Option<&Expr> {
    let signs = [
        "\\A",
        "\\E",
        "CHOOSE",
        "{ \\in : }",
        "{ : \\in }",
        "[ \\in |-> ]",
    ];
    first_at(units, place, &signs)
}

/// How many nodes with the same symbol begin at the place of a node, inside it.
#[cycle(inner)]
fn inner_of(core: &Core) -> usize {
    match core {
        Core::Binary(_, _, first, _)
        | Core::Apply(_, first, _)
        | Core::Equal(_, first, _)
        | Core::Field(_, _, first)
        | Core::Implies(_, first, _)
        | Core::Member(_, first, _)
        | Core::NotMember(_, first, _)
        | Core::Subset(_, first, _)
        | Core::Cup(_, first, _)
        | Core::Cap(_, first, _)
        | Core::Minus(_, first, _) => inner_below(first, core.place(), sign_of(core)),
        _ => 0,
    }
}

#[cycle(inner)]
fn inner_below(first: &Core, place: tla_core::Place, sign: &str) -> usize {
    if first.place() == place && sign_of(first) == sign {
        inner_of(first).saturating_add(1)
    } else {
        0
    }
}

/// The same for an expression. Conjunctions and disjunctions aren't counted.
#[cycle(inner_written)]
fn inner_written(expr: &Expr) -> usize {
    match expr {
        Expr::Binary(_, Infix::And | Infix::Or, _, _, _) => 0,
        Expr::Binary(_, _, _, first, _) | Expr::Index(_, first, _) | Expr::Field(_, first, _) => {
            inner_written_below(first, expr.place(), written_sign(expr))
        }
        _ => 0,
    }
}

#[cycle(inner_written)]
fn inner_written_below(first: &Expr, place: Place, sign: &str) -> usize {
    if first.place() == place && written_sign(first) == sign {
        inner_written(first).saturating_add(1)
    } else {
        0
    }
}

/// Whether an expression is the one that is searched for.
fn is_wanted(expr: &Expr, wanted: &Wanted<'_>) -> bool {
    expr.place() == wanted.place
        && written_sign(expr) == wanted.sign
        && inner_written(expr) == wanted.inner
}

fn find_in_units<'a>(units: &'a [Unit], wanted: &Wanted<'_>) -> Option<&'a Expr> {
    for unit in units {
        let found = match unit {
            Unit::Operator(_, body) | Unit::Assume(_, _, body) | Unit::Theorem(_, _, body) => {
                find_in(body, wanted)
            }
            Unit::Defines(definition) | Unit::Local(_, definition) => {
                find_in_definition(definition, wanted)
            }
            _ => None,
        };
        if found.is_some() {
            return found;
        }
    }
    None
}

/// The first wanted expression among an expression and its parts.
#[cycle(find)]
fn find_in<'a>(expr: &'a Expr, wanted: &Wanted<'_>) -> Option<&'a Expr> {
    if is_wanted(expr, wanted) {
        return Some(expr);
    }
    match expr {
        Expr::Paren(_, inner)
        | Expr::Prime(_, inner)
        | Expr::Field(_, inner, _)
        | Expr::Unary(_, _, inner) => find_in(inner, wanted),
        Expr::Listing(_, _, items) | Expr::Call(_, items) | Expr::Junction(_, _, items) => {
            find_in_all(items, wanted)
        }
        Expr::Index(_, first, others) | Expr::Product(_, first, others) => {
            match find_in(first, wanted) {
                Some(found) => Some(found),
                None => find_in_all(others, wanted),
            }
        }
        Expr::Binary(_, _, _, left, right)
        | Expr::FunctionSet(_, left, right)
        | Expr::Action(_, _, left, right)
        | Expr::Fair(_, _, left, right)
        | Expr::Choose(_, _, left, right)
        | Expr::Filter(_, _, left, right) => match find_in(left, wanted) {
            Some(found) => Some(found),
            None => find_in(right, wanted),
        },
        Expr::Quantified(_, _, binders, body)
        | Expr::Function(_, binders, body)
        | Expr::Image(_, body, binders) => match find_in_sets(binders, wanted) {
            Some(found) => Some(found),
            None => find_in(body, wanted),
        },
        _ => find_in_rest(expr, wanted),
    }
}

/// The same for IF and for forms with definitions, arms, fields or updates.
#[cycle(find)]
fn find_in_rest<'a>(expr: &'a Expr, wanted: &Wanted<'_>) -> Option<&'a Expr> {
    match expr {
        Expr::If(_, condition, yes, no) => match find_in(condition, wanted) {
            Some(found) => Some(found),
            None => match find_in(yes, wanted) {
                Some(found) => Some(found),
                None => find_in(no, wanted),
            },
        },
        Expr::Case(_, arms, None) => find_in_arms(arms, wanted),
        Expr::Case(_, arms, Some(other)) => match find_in_arms(arms, wanted) {
            Some(found) => Some(found),
            None => find_in(other, wanted),
        },
        Expr::Let(_, definitions, body) => match find_in_definitions(definitions, wanted) {
            Some(found) => Some(found),
            None => find_in(body, wanted),
        },
        Expr::Record(_, fields) | Expr::RecordSet(_, fields) => find_in_fields(fields, wanted),
        Expr::Except(_, function, updates) => match find_in(function, wanted) {
            Some(found) => Some(found),
            None => find_in_updates(updates, wanted),
        },
        _ => None,
    }
}

#[cycle(find)]
fn find_in_all<'a>(items: &'a [Expr], wanted: &Wanted<'_>) -> Option<&'a Expr> {
    for item in items {
        if let Some(found) = find_in(item, wanted) {
            return Some(found);
        }
    }
    None
}

#[cycle(find)]
fn find_in_sets<'a>(binders: &'a [Binder], wanted: &Wanted<'_>) -> Option<&'a Expr> {
    for binder in binders {
        if let Some(found) = find_in(&binder.set, wanted) {
            return Some(found);
        }
    }
    None
}

#[cycle(find)]
fn find_in_arms<'a>(arms: &'a [Arm], wanted: &Wanted<'_>) -> Option<&'a Expr> {
    for arm in arms {
        if let Some(found) = find_in(&arm.guard, wanted) {
            return Some(found);
        }
        if let Some(found) = find_in(&arm.value, wanted) {
            return Some(found);
        }
    }
    None
}

#[cycle(find)]
fn find_in_fields<'a>(fields: &'a [Field], wanted: &Wanted<'_>) -> Option<&'a Expr> {
    for field in fields {
        if let Some(found) = find_in(&field.value, wanted) {
            return Some(found);
        }
    }
    None
}

#[cycle(find)]
fn find_in_updates<'a>(updates: &'a [Update], wanted: &Wanted<'_>) -> Option<&'a Expr> {
    for update in updates {
        if let Some(found) = find_in_keys(&update.path, wanted) {
            return Some(found);
        }
        if let Some(found) = find_in(&update.value, wanted) {
            return Some(found);
        }
    }
    None
}

#[cycle(find)]
fn find_in_keys<'a>(path: &'a [Key], wanted: &Wanted<'_>) -> Option<&'a Expr> {
    for key in path {
        if let Key::Index(items) = key
            && let Some(found) = find_in_all(items, wanted)
        {
            return Some(found);
        }
    }
    None
}

#[cycle(find)]
fn find_in_definitions<'a>(definitions: &'a [Definition], wanted: &Wanted<'_>) -> Option<&'a Expr> {
    for definition in definitions {
        if let Some(found) = find_in_definition(definition, wanted) {
            return Some(found);
        }
    }
    None
}

#[cycle(find)]
fn find_in_definition<'a>(definition: &'a Definition, wanted: &Wanted<'_>) -> Option<&'a Expr> {
    match definition {
        Definition::Operator(_, _, body) => find_in(body, wanted),
        Definition::Function(_, binders, body) => match find_in_sets(binders, wanted) {
            Some(found) => Some(found),
            None => find_in(body, wanted),
        },
    }
}

/// Operand `number` of an expression, from 0.
pub fn operand_of(expr: &Expr, number: usize) -> Option<&Expr> {
    match expr {
        Expr::Binary(_, _, _, left, right) | Expr::FunctionSet(_, left, right) => {
            one_of_two(left, right, number)
        }
        Expr::Call(_, items) | Expr::Listing(_, _, items) | Expr::Junction(_, _, items) => {
            items.get(number)
        }
        Expr::Index(_, function, arguments) => match arguments.as_slice() {
            [argument] => one_of_two(function, argument, number),
            _ => only_one(function, number),
        },
        Expr::Product(_, first, others) => match number.checked_sub(1) {
            Some(at) => others.get(at),
            None => Some(first.as_ref()),
        },
        Expr::Field(_, part, _)
        | Expr::Unary(_, _, part)
        | Expr::Choose(_, _, part, _)
        | Expr::Filter(_, _, part, _)
        | Expr::If(_, part, _, _)
        | Expr::Except(_, part, _) => only_one(part, number),
        Expr::Quantified(_, _, binders, _) => match binders.as_slice() {
            [binder] if number == 0 => Some(&binder.set),
            _ => None,
        },
        Expr::RecordSet(_, fields) => match fields.get(number) {
            Some(field) => Some(&field.value),
            None => None,
        },
        _ => None,
    }
}

fn only_one(part: &Expr, number: usize) -> Option<&Expr> {
    match number {
        0 => Some(part),
        _ => None,
    }
}

fn one_of_two<'a>(first: &'a Expr, second: &'a Expr, number: usize) -> Option<&'a Expr> {
    match number {
        0 => Some(first),
        1 => Some(second),
        _ => None,
    }
}

/// The expression at a place with this symbol.
pub fn expression_at<'a>(
    units: &'a [Unit],
    place: tla_core::Place,
    sign: &str,
) -> Option<&'a Expr> {
    let wanted = Wanted {
        place: token_place(place),
        sign,
        inner: 0,
    };
    find_in_units(units, &wanted)
}
