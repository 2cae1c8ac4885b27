//! Expressions of too high a level.

use crate::reach::Definitions;
use crate::statements::{Named, formulas_named, replacement_of};
use std::alloc::{AllocError, Global};
use tla_config::{Source, Statement};
use tla_finding::finding::Finding;
use tla_finding::spot::Spot;
use tla_hints::is_before;
use tla_lex::{Kind, Place, Token};
use tla_page::definitions::definition_at;
use tla_page::output::Output;
use tla_page::places::{Sources, put_at, word};
use tla_page::units::{Role, known_name};
use tla_tree::{Definition, Unit};

/// Finds which statement names a formula of too high a level, and what in it has that level.
pub fn find(
    finding: &mut Finding,
    sources: &Sources<'_>,
    spot: &Spot<'_>,
    units: &[Unit],
    definitions: &Definitions<'_>,
    statements: &[Statement],
) {
    let place = spot.place(spot.at);
    if is_assumed(units, place) {
        return find_assumed(finding, spot, definitions);
    }
    let own = definition_at(units, place);
    if let Some(user) = assumed_user(finding, spot, units, definitions, own) {
        return say_assumed(finding, spot, user);
    }
    let temporal = is_temporal(spot, definitions.tokens_of(own));
    match statement_of(finding, definitions, statements, own, temporal) {
        Ok(Some(one)) => {
            say_named(finding, sources, &one, own, temporal);
            hint_named(finding, spot, &one, temporal);
        }
        Ok(None) => say_primes(finding, spot, own),
        Err(_) => finding.refuse(),
    }
}

/// The token of an assumption that leads to a definition, if the refused expression there has no prime.
fn assumed_user(
    finding: &mut Finding,
    spot: &Spot<'_>,
    units: &[Unit],
    definitions: &Definitions<'_>,
    own: &str,
) -> Option<usize> {
    if is_primed(spot) {
        return None;
    }
    match user_in_assumptions(finding.alloc(), spot, units, definitions, own) {
        Ok(user) => user,
        Err(_) => {
            finding.refuse();
            None
        }
    }
}

/// Whether a token is UNCHANGED, begins a temporal formula, or is a name with a prime.
fn is_primed(spot: &Spot<'_>) -> bool {
    spot.is(spot.at, Kind::Unchanged)
        || begins_temporal(spot.kind(spot.at))
        || spot.ahead(1) == Some(Kind::Prime)
}

fn user_in_assumptions<'a>(
    alloc: Global,
    spot: &Spot<'a>,
    units: &[Unit],
    definitions: &Definitions<'a>,
    own: &str,
) -> Result<Option<usize>, AllocError> {
    for (index, token) in spot.tokens.iter().enumerate() {
        let is_name = spot.is(index.saturating_add(1), Kind::Define);
        let is_use = token.kind == Kind::Name && !is_name && is_assumed(units, token.place);
        if is_use && definitions.leads_to(alloc, spot.word(index), own)? {
            return Ok(Some(index));
        }
    }
    Ok(None)
}

/// Says that an assumption leads to a definition that mentions variables.
fn say_assumed(finding: &mut Finding, spot: &Spot<'_>, user: usize) {
    let used = spot.word(user);
    finding.say(
        spot.place(spot.at),
        &["an assumption speaks of variables, by '", used, "'"],
    );
    finding.show_beside(
        Source::Module,
        spot.place(user),
        &["the assumption uses '", used, "' here"],
    );
    finding.hint(&[
        "an ASSUME is about constants: to check this in each state make it an INVARIANT",
    ]);
}

fn is_assumed(units: &[Unit], place: Place) -> bool {
    let mut assumed = false;
    for unit in units {
        let begin = match unit {
            Unit::Operator(name, _)
            | Unit::Defines(Definition::Operator(name, _, _))
            | Unit::Defines(Definition::Function(name, _, _)) => name.place,
            Unit::Local(at, _)
            | Unit::Separator(at)
            | Unit::Extends(at, _)
            | Unit::Variables(at, _)
            | Unit::Constants(at, _)
            | Unit::Assume(at, _, _)
            | Unit::Theorem(at, _, _) => *at,
        };
        if is_before(place, begin) {
            return assumed;
        }
        assumed = matches!(unit, Unit::Assume(_, _, _));
    }
    assumed
}

/// Says that an assumption mentions a variable.
fn find_assumed(finding: &mut Finding, spot: &Spot<'_>, definitions: &Definitions<'_>) {
    let name = spot.word(spot.at);
    let place = spot.place(spot.at);
    match known_name(definitions.known, name) {
        Some(one) if one.role == Role::Variable => {
            finding.say(
                place,
                &["an assumption speaks of the variable '", name, "'"],
            );
        }
        _ => finding.say(place, &["an assumption speaks of variables"]),
    }
    finding.hint(&[
        "an ASSUME is about constants: to check this in each state make it an INVARIANT",
    ]);
}

/// Whether a temporal formula begins at a token of a definition with these tokens: `[]`, `<>` or fairness, or `~>` with
/// nothing primed on its left.
fn is_temporal(spot: &Spot<'_>, tokens: &[Token]) -> bool {
    begins_temporal(spot.kind(spot.at)) || leads_on(spot, tokens)
}

fn begins_temporal(kind: Option<Kind>) -> bool {
    matches!(
        kind,
        Some(Kind::Box | Kind::Diamond | Kind::WeakFairness | Kind::StrongFairness)
    )
}

/// Whether `~>` comes after this token, before any prime or UNCHANGED.
fn leads_on(spot: &Spot<'_>, tokens: &[Token]) -> bool {
    let place = spot.place(spot.at);
    for token in tokens {
        let is_met = matches!(token.kind, Kind::LeadsTo | Kind::Prime | Kind::Unchanged);
        if is_met && !is_before(token.place, place) {
            return token.kind == Kind::LeadsTo;
        }
    }
    false
}

/// Whether `[][A]_v` begins at a token.
fn is_action_box(spot: &Spot<'_>) -> bool {
    spot.is(spot.at, Kind::Box) && spot.ahead(1) == Some(Kind::LeftBracket)
}

/// The first statement that names a formula which leads to a definition; not SPECIFICATION, and NEXT only if the error
/// is a temporal formula.
fn statement_of<'a>(
    finding: &Finding,
    definitions: &Definitions<'a>,
    statements: &'a [Statement],
    own: &str,
    temporal: bool,
) -> Result<Option<Named<'a>>, AllocError> {
    for one in formulas_named(finding.alloc(), statements)? {
        let asks = temporal || one.statement != "NEXT";
        if asks && one.statement != "SPECIFICATION" {
            let name = replacement_of(statements, one.name);
            if definitions
                .definitions_reached(finding.alloc(), name)?
                .contains(&own)
            {
                return Ok(Some(one));
            }
        }
    }
    Ok(None)
}

/// Says which statement names which formula: `INVARIANT names Next (Lock.cfg:5:19), which is an
/// action`.
fn say_named(
    finding: &mut Finding,
    sources: &Sources<'_>,
    one: &Named<'_>,
    own: &str,
    temporal: bool,
) {
    let mut title = Output::new(finding.alloc(), false);
    title.put_text(one.statement);
    title.put(&[" names ", one.name, " ("]);
    put_at(&mut title, sources, Source::Configuration, one.place);
    title.put_text(if one.name == own {
        "), which is "
    } else {
        "), which leads to "
    });
    title.put_text(if temporal {
        "a formula of time"
    } else {
        "an action"
    });
    finding.title = title;
}

/// Says what to do about a formula of too high a level that a statement names.
fn hint_named(finding: &mut Finding, spot: &Spot<'_>, one: &Named<'_>, temporal: bool) {
    let before = spot.back(1);
    if matches!(
        before,
        Some(Kind::Equal | Kind::NotEqual | Kind::Concatenation)
    ) && spot.is(spot.at, Kind::Box)
    {
        finding.hint(&["[] is for time: the empty sequence is << >>, and the empty set {}"]);
    } else if temporal {
        hint_temporal(finding, one);
        if is_action_box(spot) && one.statement == "INVARIANT" {
            finding.hint(&[
                "for [][A]_v keep the old value of v in a history variable, and write an INVARIANT about both",
            ]);
        }
    } else {
        finding.hint(&[
            "a prime makes it an action: ",
            one.statement,
            " takes a formula about one state, without primes and UNCHANGED",
        ]);
    }
}

fn hint_temporal(finding: &mut Finding, one: &Named<'_>) {
    if one.statement == "INIT" || one.statement == "NEXT" {
        finding.hint(&[
            "write SPECIFICATION ",
            one.name,
            ", in place of INIT and NEXT",
        ]);
    } else {
        finding.hint(&[
            "only formulas about one state are checked: leave ",
            one.name,
            " out",
        ]);
    }
}

/// Says that something is primed twice, and where the definition with a prime gets another.
fn say_primes(finding: &mut Finding, spot: &Spot<'_>, own: &str) {
    finding.say(spot.place(spot.at), &["a prime on what has one already"]);
    finding.hint(&["x' is the value in the next state: there is none after that"]);
    if let Some(place) = primed_at(spot, own) {
        let texts = ["'", own, "' has a prime here"];
        finding.show_beside(Source::Module, place, &texts);
    }
}

/// Where a name has a prime.
fn primed_at(spot: &Spot<'_>, name: &str) -> Option<Place> {
    for pair in spot.tokens.windows(2) {
        if let [first, next] = pair
            && next.kind == Kind::Prime
            && word(spot.text, first) == name
        {
            return Some(first.place);
        }
    }
    None
}
