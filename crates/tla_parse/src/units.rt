//! The units of a module.

ghost use Rattle.std.specs.Prelude.{◌≡◌, ◌+◌, ◌<◌, ◌≤◌, ◌++◌, ◌∷◌, ◌&&◌, ◌||◌, [], length, true, not, IfErr, OnOk, OnSome, IsTrue};
ghost use Rattle.tla_parse.specs.Units as units;
ghost use Rattle.tla_tree.specs.UnitsView.{unit_view};
ghost use Rattle.tla_parse.specs.Private.UnitsReading as reading;
ghost use Rattle.tla_grammar.specs.LeftOut.{IsExtended, OnlySeparators};
ghost use Rattle.tla_grammar.specs.Kinds.{kind_at};
ghost use Rattle.tla_grammar.specs.Tokens.{seen};
ghost use Rattle.tla_lex.specs.declared.token.Kind.TheVariants as k;
ghost use Rattle.tla_expressions.specs.Gives.{GivesNames};
ghost use Rattle.tla_tree.specs.View.{definition_view};
ghost use Rattle.tla_parse.specs.Private.UnitsGive.{GivesDeclared, GivesConstants, GivesClaim, GivesUnit, GivesUnits};

use std::alloc::Global;
use tla_expressions::names::{ParsedNames, names};
use tla_expressions::{definition, expr};
use tla_grammar::{
    Between, Context, Refusal, following, is_kind, is_module, name_at, refused, refused_unit, seen,
};
use tla_lex::{Kind, Place, Token};
use tla_tree::{Declaration, Definition, Expr, MAX_DEPTH, Unit, Written, push};

/// The context of a unit's expressions.
const OUTERMOST: Context = Context {
    column: 0,
    updating: false,
};

/// Whether EXTENDS may follow the unit.
fn stays_first(unit: &Unit, first: bool) -> bool
    ensures { result ≡ (first && units.is_separator (unit_view unit.now)) }
{
    first && matches!(unit, Unit::Separator(_))
}

/// How many underscores, and the number of the token after the last.
#[derive(Clone, Copy)]
pub struct ParsedCount {
    pub count: usize,
    pub end: usize,
}

/// A constant, and the number of the token after it.
#[derive(Drop)]
pub struct ParsedDeclaration {
    pub declaration: Declaration,
    pub end: usize,
}

/// Constants, and the number of the token after the last.
#[derive(Drop)]
pub struct ParsedDeclarations {
    pub declarations: Vec<Declaration>,
    pub end: usize,
}

/// An assumption or a theorem, with or without a name, and the number of the token after it.
#[derive(Drop)]
pub struct ParsedClaim {
    pub name: Option<Written>,
    pub body: Expr,
    pub end: usize,
}

/// A unit, and the number of the token after it.
#[derive(Drop)]
pub struct ParsedUnit {
    pub unit: Unit,
    pub end: usize,
}

/// The units up to the closing line, and the number of its token.
#[derive(Drop)]
pub struct ParsedUnits {
    pub units: Vec<Unit>,
    pub end: usize,
}

/// The names of known modules with commas between them, after EXTENDS.
#[tactic(auto, using(crate::proofs::UnitsSteps::modules_more, crate::proofs::UnitsSteps::modules_last, crate::proofs::UnitsSteps::modules_full))]
fn extended(
    alloc: Global,
    text: &[u8],
    tokens: &[Token],
    from: usize,
) -> Result<ParsedNames, Refusal>
    requires within { from ≤ length tokens.now }
    requires extends { IsExtended tokens.now 0 from }
    ensures { GivesNames text.now tokens.now result
        (reading.modules text.now tokens.now (length tokens.now) [] from) }
{
    let mut names = Vec::new(alloc);
    let mut at = from;
    for _turn in 0..tokens.len() {
        let Some(name) = name_at(seen(tokens, 0, at)) else {
            return Err(refused(tokens, 0, at));
        };
        let name = Written::of_token(alloc, text, name)?;
        if !is_module(name.word.as_bytes()) {
            return Err(Refusal::UnknownModule(at));
        }
        push(&mut names, name)?;
        if !is_kind(Kind::Comma, seen(tokens, 0, at + 1)) {
            return Ok(ParsedNames { names, end: at + 1 });
        }
        at += 2;
    }
    Err(refused(tokens, 0, at))
}

/// How many underscores there are with the first, where each of the others has a comma before it, and the number of
/// the token after them.
#[tactic(auto, using(crate::proofs::UnitsSteps::blanks_more, crate::proofs::UnitsSteps::blanks_last, crate::proofs::UnitsSteps::blanks_full))]
fn blanks(tokens: &[Token], from: usize) -> ParsedCount
    requires { from ≤ length tokens.now }
    ensures count { result.count ≡ (reading.blanks tokens.now (length tokens.now) 1 from).0 }
    ensures end { result.end ≡ (reading.blanks tokens.now (length tokens.now) 1 from).1 }
{
    let mut count = 1;
    let mut at = from;
    for _turn in 0..tokens.len() {
        let goes_on = is_kind(Kind::Comma, seen(tokens, 0, at))
            && is_kind(Kind::Underscore, seen(tokens, 0, at + 1));
        if !goes_on {
            return ParsedCount { count, end: at };
        }
        count += 1;
        at += 2;
    }
    ParsedCount { count, end: at }
}

/// A constant.
#[tactic(auto, unfolding(crate::specs::Private::UnitsReading::declared))]
fn constant(
    alloc: Global,
    text: &[u8],
    tokens: &[Token],
    from: usize,
) -> Result<ParsedDeclaration, Refusal>
    ensures { GivesDeclared text.now tokens.now result (reading.declared text.now tokens.now from) }
{
    let Some(t) = name_at(seen(tokens, 0, from)) else {
        return Err(refused(tokens, 0, from));
    };
    let name = Written::of_token(alloc, text, t)?;
    if !is_kind(Kind::LeftParen, seen(tokens, 0, from + 1)) {
        return Ok(ParsedDeclaration {
            declaration: Declaration { name, arity: 0 },
            end: from + 1,
        });
    }
    if !is_kind(Kind::Underscore, seen(tokens, 0, from + 2)) {
        return Err(refused(tokens, 0, from + 2));
    }
    let found = blanks(tokens, from + 3);
    if !is_kind(Kind::RightParen, seen(tokens, 0, found.end)) {
        return Err(refused(tokens, 0, found.end));
    }
    Ok(ParsedDeclaration {
        declaration: Declaration {
            name,
            arity: found.count,
        },
        end: found.end + 1,
    })
}

/// Constants with commas between them.
fn constants(
    alloc: Global,
    text: &[u8],
    tokens: &[Token],
    from: usize,
) -> Result<ParsedDeclarations, Refusal>
    ensures { GivesConstants text.now tokens.now result
        (reading.constants text.now tokens.now (length tokens.now) [] from) }
{
    let mut declarations = Vec::new(alloc);
    let mut at = from;
    for _turn in 0..tokens.len() {
        let found = constant(alloc, text, tokens, at)?;
        let end = found.end;
        push(&mut declarations, found.declaration)?;
        let Some(next) = following(tokens, 0, Between::Comma, end) else {
            return Ok(ParsedDeclarations { declarations, end });
        };
        at = next;
    }
    Err(refused(tokens, 0, at))
}

/// The name before `==`.
fn claim_name(tokens: &[Token], from: usize) -> Option<Token>
    requires { from ≤ length tokens.now }
    ensures value { result ≡ reading.claim_name tokens.now from }
    ensures within { OnSome result (from < length tokens.now) }
{
    if is_kind(Kind::Define, seen(tokens, 0, from + 1)) {
        name_at(seen(tokens, 0, from))
    } else {
        None
    }
}

/// What is assumed or claimed, under a name or none.
#[tactic(auto, unfolding(crate::specs::Private::UnitsReading::claim))]
fn claim(alloc: Global, text: &[u8], tokens: &[Token], from: usize) -> Result<ParsedClaim, Refusal>
    requires { from ≤ length tokens.now }
    ensures { GivesClaim text.now tokens.now result
        (reading.claim text.now tokens.now MAX_DEPTH from) }
{
    match claim_name(tokens, from) {
        None => {
            let e = expr(alloc, text, tokens, MAX_DEPTH, OUTERMOST, 0, from)?;
            Ok(ParsedClaim {
                name: None,
                body: Box::into_inner(e.tree),
                end: e.end,
            })
        }
        Some(t) => {
            let name = Written::of_token(alloc, text, t)?;
            let e = expr(alloc, text, tokens, MAX_DEPTH, OUTERMOST, 0, from + 2)?;
            Ok(ParsedClaim {
                name: Some(name),
                body: Box::into_inner(e.tree),
                end: e.end,
            })
        }
    }
}

/// The unit that a definition is.
fn unit_of(definition: Definition) -> Unit
    ensures { unit_view result ≡ reading.unit_of (definition_view definition) }
{
    match definition {
        Definition::Operator(name, parameters, body) => {
            if parameters.is_empty() {
                Unit::Operator(name, body)
            } else {
                Unit::Defines(Definition::Operator(name, parameters, body))
            }
        }
        Definition::Function(name, binders, body) => {
            Unit::Defines(Definition::Function(name, binders, body))
        }
    }
}

/// The unit that begins at the token of this number.
#[tactic(auto, unfolding(crate::specs::Private::UnitsReading::unit))]
fn unit_at(alloc: Global, text: &[u8], tokens: &[Token], from: usize) -> Result<ParsedUnit, Refusal>
    requires extends { IsTrue (kind_at k.Extends (seen tokens.now 0 from))
        → OnlySeparators tokens.now from }
    ensures { GivesUnit text.now tokens.now result
        (reading.unit text.now tokens.now MAX_DEPTH from) }
{
    let Some(t) = seen(tokens, 0, from) else {
        return Err(refused(tokens, 0, from));
    };
    let at = t.place;
    match t.kind {
        Kind::Separator => Ok(ParsedUnit {
            unit: Unit::Separator(at),
            end: from + 1,
        }),
        Kind::Extends => {
            let found = extended(alloc, text, tokens, from + 1)?;
            Ok(ParsedUnit {
                unit: Unit::Extends(at, found.names),
                end: found.end,
            })
        }
        Kind::Variable => {
            let found = names(alloc, text, tokens, 0, from + 1)?;
            Ok(ParsedUnit {
                unit: Unit::Variables(at, found.names),
                end: found.end,
            })
        }
        Kind::Name => {
            let found = definition(alloc, text, tokens, OUTERMOST, from)?;
            Ok(ParsedUnit {
                unit: unit_of(found.definition),
                end: found.end,
            })
        }
        Kind::Local => {
            let found = definition(alloc, text, tokens, OUTERMOST, from + 1)?;
            Ok(ParsedUnit {
                unit: Unit::Local(at, found.definition),
                end: found.end,
            })
        }
        Kind::Constant => {
            let found = constants(alloc, text, tokens, from + 1)?;
            Ok(ParsedUnit {
                unit: Unit::Constants(at, found.declarations),
                end: found.end,
            })
        }
        Kind::Assume => {
            let found = claim(alloc, text, tokens, from + 1)?;
            Ok(ParsedUnit {
                unit: Unit::Assume(at, found.name, found.body),
                end: found.end,
            })
        }
        Kind::Theorem => {
            let found = claim(alloc, text, tokens, from + 1)?;
            Ok(ParsedUnit {
                unit: Unit::Theorem(at, found.name, found.body),
                end: found.end,
            })
        }
        _ => Err(refused_unit(text, tokens, from)),
    }
}

/// Whether the token may begin a unit here. EXTENDS may if only separators came before.
fn may_begin(tokens: &[Token], first: bool, at: usize) -> bool
    ensures { result ≡ (first || not (kind_at k.Extends (seen tokens.now 0 at))) }
{
    first || !is_kind(Kind::Extends, seen(tokens, 0, at))
}

/// The units up to the closing line.
#[tactic(auto, using(crate::proofs::UnitsSteps::units_more, crate::proofs::UnitsSteps::units_done, crate::proofs::UnitsSteps::units_full))]
fn units_from(
    alloc: Global,
    text: &[u8],
    tokens: &[Token],
    from: usize,
) -> Result<ParsedUnits, Refusal>
    requires { OnlySeparators tokens.now from }
    ensures { GivesUnits text.now tokens.now result
        (reading.units text.now tokens.now MAX_DEPTH (length tokens.now) [] true from) }
{
    let mut units = Vec::new(alloc);
    let mut first = true;
    let mut at = from;
    for _turn in 0..tokens.len() {
        if is_kind(Kind::Closing, seen(tokens, 0, at)) {
            return Ok(ParsedUnits { units, end: at });
        }
        if !may_begin(tokens, first, at) {
            return Err(refused(tokens, 0, at));
        }
        let found = unit_at(alloc, text, tokens, at)?;
        at = found.end;
        first = stays_first(&found.unit, first);
        push(&mut units, found.unit)?;
    }
    Err(refused(tokens, 0, at))
}

/// The units of a module, whose tokens are its name, a separator, the units and the closing line.
#[tactic(auto, unfolding(crate::specs::Private::UnitsReading::whole))]
pub fn module_units(alloc: Global, text: &[u8], tokens: &[Token]) -> Result<ParsedUnits, Refusal>
    ensures { GivesUnits text.now tokens.now result (reading.whole text.now tokens.now MAX_DEPTH) }
{
    if !is_kind(Kind::Name, seen(tokens, 0, 0)) {
        return Err(refused(tokens, 0, 0));
    }
    if !is_kind(Kind::Separator, seen(tokens, 0, 1)) {
        return Err(refused(tokens, 0, 1));
    }
    let found = units_from(alloc, text, tokens, 2)?;
    if tokens.len() - 1 == found.end {
        Ok(found)
    } else {
        Err(refused(tokens, 0, found.end))
    }
}
