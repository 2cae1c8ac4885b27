//! Refusals.

use crate::refusal_text::title_of;
use std::alloc::{AllocError, Global};
use tla_config::{Source, Statement};
use tla_finding::characters;
use tla_finding::finding::{Finding, put_beside, put_output};
use tla_finding::spot::Spot;
use tla_lex::{Kind, Place, Token};
use tla_name_errors::config_names::{
    find_arguments, find_behaviour, find_circle, find_large, find_unknown,
};
use tla_name_errors::configuration::{hint_left_out, misspelt_places};
use tla_name_errors::more::{MOST_NAMES, other_constants, unknown_places, unknown_statements};
use tla_name_errors::reach::Definitions;
use tla_name_errors::statements::{config_of, replacement_of, value_place};
use tla_name_errors::{arguments, configuration, levels, specification, twice, unknown};
use tla_page::output::Output;
use tla_page::places::{Sources, core_place, source_text, token_place, tokens_of};
use tla_page::units::{Known, known_names, words_of};
use tla_parse::parse_module;
use tla_report::{Refusal, RefusalCode, refusal_code_text};
use tla_syntax_errors::{left_out, precedence, unexpected};
use tla_tree::Unit;

/// A refusal: its code, place and name; the name is empty if it has none.
#[derive(Clone, Copy)]
struct Refused<'a> {
    source: Source,
    code: RefusalCode,
    place: Place,
    name: &'a str,
}

/// Explains a refusal.
pub fn explain_refusal(output: &mut Output, sources: &Sources<'_>, refusal: &Refusal) {
    let refused = Refused {
        source: refusal.source,
        code: refusal.code,
        place: token_place(refusal.place),
        name: name_of(refusal),
    };
    let text = source_text(sources, refused.source);
    let tokens = tokens_of(output.alloc(), text, refused.source);
    let finding = finding_of(output.alloc(), sources, &tokens, refused);
    put(output, sources, refused, &finding);
    put_more(output, sources, &tokens, refused, &finding);
}

/// Finds the cause of a refusal, and what helps.
fn finding_of(
    alloc: Global,
    sources: &Sources<'_>,
    tokens: &[Token],
    refused: Refused<'_>,
) -> Finding {
    let mut finding = Finding::at(alloc, refused.place);
    match refused.source {
        Source::Module => find_in_module(&mut finding, sources, tokens, refused),
        Source::Configuration => find_in_configuration(&mut finding, sources, tokens, refused),
    }
    finding
}

/// Adds further certain errors: unknown names and misspelt statements.
fn put_more(
    output: &mut Output,
    sources: &Sources<'_>,
    tokens: &[Token],
    refused: Refused<'_>,
    finding: &Finding,
) {
    let spot = Spot::of(source_text(sources, refused.source), tokens, refused.place);
    match (refused.source, refused.code, spot) {
        (Source::Module, RefusalCode::UnknownName, Some(spot)) if finding.title.is_empty() => {
            put_names(output, sources, &spot, refused);
        }
        (Source::Configuration, RefusalCode::UnknownName, Some(spot)) => {
            put_statements(
                output,
                sources,
                tokens,
                &[spot.word(spot.at)],
                Some(finding.place),
            );
        }
        (Source::Configuration, RefusalCode::ConfigurationText, _) => {
            put_misspelt(output, sources, tokens, finding.place);
        }
        _ => {}
    }
}

/// Adds the other names that are unknown in the module, and those in the configuration.
fn put_names(output: &mut Output, sources: &Sources<'_>, spot: &Spot<'_>, refused: Refused<'_>) {
    let alloc = output.alloc();
    let units = units_of(alloc, sources.module);
    let Ok(places) = unknown_places(alloc, spot, units) else {
        return output.refuse();
    };
    let all = places.as_slice();
    let shown = all.get(..MOST_NAMES).unwrap_or(all);
    put_each(output, sources, spot, shown, refused, Some(refused.place));
    if all.len() > MOST_NAMES {
        output.put(&["note: ", sources.names.module]);
        output.put_text(" has more unknown names than these\n");
    }
    match words_at(alloc, spot, all) {
        Ok(reported) => {
            let tokens = tokens_of(alloc, sources.configuration, Source::Configuration);
            put_statements(output, sources, &tokens, &reported, None);
        }
        Err(_) => output.refuse(),
    }
}

/// The texts of a token and of those at some places. The only error is that memory ran out.
fn words_at<'a>(
    alloc: Global,
    spot: &Spot<'a>,
    places: &[Place],
) -> Result<Vec<&'a str>, AllocError> {
    let mut words = Vec::new(alloc);
    words.push(spot.word(spot.at))?;
    for place in places {
        if let Some(index) = spot.index_at(*place) {
            words.push(spot.word(index))?;
        }
    }
    Ok(words)
}

/// Adds the unknown names in statements of the configuration, except those that were reported.
fn put_statements(
    output: &mut Output,
    sources: &Sources<'_>,
    tokens: &[Token],
    reported: &[&str],
    first: Option<Place>,
) {
    let units = units_of(output.alloc(), sources.module);
    let places = unknown_statements(output.alloc(), sources.configuration, &units, reported);
    drop(units);
    put_of_configuration(
        output,
        sources,
        tokens,
        RefusalCode::UnknownName,
        places,
        first,
    );
}

/// Adds the other misspelt statements, if one is at the place of the reported error.
fn put_misspelt(output: &mut Output, sources: &Sources<'_>, tokens: &[Token], first: Place) {
    let units = units_of(output.alloc(), sources.module);
    let places = misspelt_beside(output.alloc(), sources, tokens, &units, first);
    drop(units);
    let code = RefusalCode::ConfigurationText;
    put_of_configuration(output, sources, tokens, code, places, Some(first));
}

/// The places of misspelt statements, given the units of the module, if one is at this place. The only error is that
/// memory ran out.
fn misspelt_beside(
    alloc: Global,
    sources: &Sources<'_>,
    tokens: &[Token],
    units: &[Unit],
    place: Place,
) -> Result<Vec<Place>, AllocError> {
    let known = known_names(alloc, units)?;
    let names = words_of(alloc, &known)?;
    let spot = Spot {
        text: sources.configuration,
        tokens,
        at: 0,
    };
    let places = misspelt_places(alloc, &spot, &names)?;
    if places.contains(&place) {
        Ok(places)
    } else {
        Ok(Vec::new(alloc))
    }
}

/// Adds the errors at places of the configuration, except the one that was reported first.
fn put_of_configuration(
    output: &mut Output,
    sources: &Sources<'_>,
    tokens: &[Token],
    code: RefusalCode,
    places: Result<Vec<Place>, AllocError>,
    first: Option<Place>,
) {
    let spot = Spot {
        text: sources.configuration,
        tokens,
        at: 0,
    };
    let refused = Refused {
        source: Source::Configuration,
        code,
        place: Place::FIRST,
        name: "",
    };
    match places {
        Ok(places) => put_each(output, sources, &spot, &places, refused, first),
        Err(_) => output.refuse(),
    }
}

/// Adds the errors at some places, each place once, except the one that was reported first.
fn put_each(
    output: &mut Output,
    sources: &Sources<'_>,
    spot: &Spot<'_>,
    places: &[Place],
    refused: Refused<'_>,
    first: Option<Place>,
) {
    let mut last = first;
    for place in places {
        let Some(one) = refused_at(spot, *place, refused.source, refused.code) else {
            continue;
        };
        let finding = finding_of(output.alloc(), sources, spot.tokens, one);
        if Some(finding.place) != first && Some(finding.place) != last {
            put(output, sources, one, &finding);
        }
        last = Some(finding.place);
    }
}

/// The same refusal of the name at another place.
fn refused_at<'a>(
    spot: &Spot<'a>,
    place: Place,
    source: Source,
    code: RefusalCode,
) -> Option<Refused<'a>> {
    let other = Spot::of(spot.text, spot.tokens, place)?;
    Some(Refused {
        source,
        code,
        place,
        name: other.word(other.at),
    })
}

/// The name of a refusal, or the empty text.
fn name_of(refusal: &Refusal) -> &str {
    match &refusal.name {
        Some(name) => str::from_utf8(name.as_bytes()).unwrap_or(""),
        None => "",
    }
}

/// Adds a finding: the place, what is wrong there, the line, the other place, and what helps.
fn put(output: &mut Output, sources: &Sources<'_>, refused: Refused<'_>, finding: &Finding) {
    let code = refusal_code_text(refused.code);
    let place = core_place(finding.place);
    output.put_place(sources, refused.source, place);
    if finding.title.is_empty() {
        output.put_text(title_of(refused.code));
        if !refused.name.is_empty() {
            output.put(&[" '", refused.name, "'"]);
        }
    } else {
        put_output(output, &finding.title);
    }
    output.put(&[" (", code, ")\n"]);
    output.show(sources, refused.source, place);
    if let Some(beside) = &finding.beside {
        put_beside(output, sources, beside);
    }
    if finding.help.is_empty() && finding.beside.is_none() {
        output.put_rule(code);
    }
    put_output(output, &finding.help);
}

/// Finds what is wrong in a module.
fn find_in_module(
    finding: &mut Finding,
    sources: &Sources<'_>,
    tokens: &[Token],
    refused: Refused<'_>,
) {
    let Some(spot) = Spot::of(sources.module, tokens, refused.place) else {
        if refused.code == RefusalCode::UnknownCharacter {
            characters::find(finding, sources.module, refused.place);
        }
        return;
    };
    match refused.code {
        RefusalCode::UnexpectedToken => unexpected::find(finding, &spot),
        RefusalCode::LeftOfJunction => unexpected::find_left(finding, &spot),
        RefusalCode::PrecedenceConflict => precedence::find(finding, &spot),
        RefusalCode::FormLeftOut => left_out::find(finding, &spot, refused.name),
        RefusalCode::ConstantWithoutValue
        | RefusalCode::UnknownName
        | RefusalCode::DefinedTwice
        | RefusalCode::ArgumentCount
        | RefusalCode::Level => find_by_units(finding, sources, &spot, refused),
        _ => {}
    }
}

/// Finds what is wrong with a name or a level, by the names that the units of the module introduce.
fn find_by_units(
    finding: &mut Finding,
    sources: &Sources<'_>,
    spot: &Spot<'_>,
    refused: Refused<'_>,
) {
    let Ok(module) = parse_module(finding.alloc(), spot.text, spot.tokens) else {
        return;
    };
    match known_names(finding.alloc(), &module.units) {
        Ok(known) => find_known(finding, sources, spot, &module.units, &known, refused),
        Err(_) => finding.refuse(),
    }
    drop(module);
}

fn find_known(
    finding: &mut Finding,
    sources: &Sources<'_>,
    spot: &Spot<'_>,
    units: &[Unit],
    known: &[Known<'_>],
    refused: Refused<'_>,
) {
    match refused.code {
        RefusalCode::UnknownName => unknown::find(finding, spot, units, known),
        RefusalCode::ConstantWithoutValue => {
            hint_value(finding, spot);
            hint_others(finding, sources, spot, known);
        }
        RefusalCode::ArgumentCount => arguments::find(finding, spot, known),
        RefusalCode::DefinedTwice => twice::find(finding, spot, units, known),
        _ => {
            let Some(config) = config_of(finding.alloc(), sources.configuration) else {
                return;
            };
            find_level(finding, sources, spot, units, known, config.statements());
            drop(config);
        }
    }
}

fn find_level(
    finding: &mut Finding,
    sources: &Sources<'_>,
    spot: &Spot<'_>,
    units: &[Unit],
    known: &[Known<'_>],
    statements: &[Statement],
) {
    let definitions = Definitions {
        text: spot.text,
        tokens: spot.tokens,
        known,
        statements,
    };
    levels::find(finding, sources, spot, units, &definitions, statements);
}

/// Says how to assign a value to a constant, or a definition to one with parameters.
fn hint_value(finding: &mut Finding, spot: &Spot<'_>) {
    let name = spot.word(spot.at);
    if spot.ahead(1) == Some(Kind::LeftParen) {
        return finding.hint(&[
            "define Op with as many parameters in the module, and write CONSTANT ",
            name,
            " <- Op in the configuration",
        ]);
    }
    let texts = [
        "give it one in the configuration: CONSTANT ",
        name,
        " = 3; ",
    ];
    finding.hint_of(
        &texts,
        &[
            name,
            " = ",
            name,
            " makes it a model value, equal to itself alone",
        ],
    );
}

/// Names the other constants without a value.
fn hint_others(finding: &mut Finding, sources: &Sources<'_>, spot: &Spot<'_>, known: &[Known<'_>]) {
    let name = spot.word(spot.at);
    match other_constants(finding.alloc(), known, sources.configuration, name) {
        Ok(list) => {
            if !list.is_empty() {
                finding.help.put_text("hint: without a value, too: ");
                put_output(&mut finding.help, &list);
                finding.help.put_text("\n");
            }
        }
        Err(_) => finding.refuse(),
    }
}

/// Finds what is wrong in a configuration.
fn find_in_configuration(
    finding: &mut Finding,
    sources: &Sources<'_>,
    tokens: &[Token],
    refused: Refused<'_>,
) {
    let units = units_of(finding.alloc(), sources.module);
    find_by_module(finding, sources, tokens, &units, refused);
    drop(units);
}

/// The units of a module; none if its text is refused or memory ran out.
fn units_of(alloc: Global, text: &[u8]) -> Vec<Unit> {
    let tokens = tokens_of(alloc, text, Source::Module);
    match parse_module(alloc, text, &tokens) {
        Ok(module) => module.units,
        Err(_) => Vec::new(alloc),
    }
}

fn find_by_module(
    finding: &mut Finding,
    sources: &Sources<'_>,
    tokens: &[Token],
    units: &[Unit],
    refused: Refused<'_>,
) {
    let known = match known_names(finding.alloc(), units) {
        Ok(known) => known,
        Err(_) => return finding.refuse(),
    };
    let whole = Spot {
        text: sources.configuration,
        tokens,
        at: 0,
    };
    match Spot::of(sources.configuration, tokens, refused.place) {
        Some(spot) => find_at(finding, sources, &spot, &known, refused),
        None => find_at_end(finding, &whole, &known, refused),
    }
}

/// Finds what is wrong at a token of a configuration.
fn find_at(
    finding: &mut Finding,
    sources: &Sources<'_>,
    spot: &Spot<'_>,
    known: &[Known<'_>],
    refused: Refused<'_>,
) {
    match refused.code {
        RefusalCode::ConfigurationText => match words_of(finding.alloc(), known) {
            Ok(names) => configuration::find(finding, spot, &names),
            Err(_) => finding.refuse(),
        },
        RefusalCode::StatementLeftOut => hint_left_out(finding, spot, refused.name),
        RefusalCode::UnknownName => find_unknown(finding, spot, known),
        RefusalCode::ArgumentCount => find_arguments(finding, spot, known),
        RefusalCode::DefinedTwice => twice::find_item(finding, spot),
        RefusalCode::BehaviourCount => find_behaviour(finding, Some(spot), spot),
        RefusalCode::CircularReplacement => find_circle(finding, spot, known),
        RefusalCode::ExpansionTooLarge => find_large(finding, spot),
        RefusalCode::SpecificationForm => find_specification(finding, sources, spot, known),
        _ => {}
    }
}

/// Finds what is wrong at the end of a configuration, or where it can't be read.
fn find_at_end(finding: &mut Finding, spot: &Spot<'_>, known: &[Known<'_>], refused: Refused<'_>) {
    match refused.code {
        RefusalCode::BehaviourCount => find_behaviour(finding, None, spot),
        RefusalCode::ConfigurationText => match words_of(finding.alloc(), known) {
            Ok(names) => configuration::find_end(finding, spot, refused.place, &names),
            Err(_) => finding.refuse(),
        },
        _ => {}
    }
}

/// Finds what is wrong with the formula of SPECIFICATION.
fn find_specification(
    finding: &mut Finding,
    sources: &Sources<'_>,
    spot: &Spot<'_>,
    known: &[Known<'_>],
) {
    let Some(config) = config_of(finding.alloc(), sources.configuration) else {
        return;
    };
    let name = spot.word(spot.at.saturating_add(1));
    find_form(finding, sources, known, config.statements(), name);
    drop(config);
}

fn find_form(
    finding: &mut Finding,
    sources: &Sources<'_>,
    known: &[Known<'_>],
    statements: &[Statement],
    name: &str,
) {
    let meant = replacement_of(statements, name);
    if let Some(place) = value_place(statements, meant) {
        return specification::say_value(finding, name, meant, place);
    }
    let tokens = tokens_of(finding.alloc(), sources.module, Source::Module);
    let definitions = Definitions {
        text: sources.module,
        tokens: &tokens,
        known,
        statements,
    };
    specification::find(finding, &definitions, meant);
    if meant != name {
        finding.hint_of(&["CONSTANT lets ", name], &[" mean ", meant]);
    }
}
