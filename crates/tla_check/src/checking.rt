//! A check, from two texts to its answer.
ghost use Rattle.std.specs.Prelude.{◌≡◌, IfOk, IfErr, IsSome, None, Some, is_some, map};
ghost use Rattle.tla_config.specs.declared.error.Source.TheVariants as source;
ghost use Rattle.tla_model.specs.ModelOf.{predicate_of};
ghost use Rattle.tla_model.specs.Models.{model_of};
ghost use Rattle.counted_writer.specs.Puts.{AddsFirst};
ghost use Rattle.std.specs.Io.KnownBytes.{Appends};
ghost use Rattle.tla_check.specs.CarriesOver.{EndsBy, IsReportable, defs_code, lex_code, parse_code};
ghost use Rattle.tla_check.specs.Checks.{IsChecked, IsFound, IsStopped, NameOnly, names_in};
ghost use Rattle.tla_report.specs.Codes.{is_named_code};
ghost use Rattle.tla_report.specs.Report.{report};
ghost use Rattle.tla_report.specs.Status.{status_of};
ghost use Rattle.tla_report.specs.declared.checked.Checked.{Checked};
ghost use Rattle.tla_value.specs.declared.error.ValueError.TheVariants as value_error;

use crate::carried::{defs_code, lex_code, parse_code};
use std::alloc::Global;
use std::io::Write;
use std::sync::Wait;
use std::thread::Threads;
use tla_config::{DefsError, Source, parse_config};
use tla_core::Place;
use tla_defs::build;
use tla_lex::{LexError, tokens};
use tla_model::{Model, StatePredicate};
use tla_parse::{ParseError, parse_module};
use tla_report::{
    Answered, Checked, Names, Refusal, RefusalCode, RefusalName, WriteFault, write_report,
};
use tla_search::{Gate, Options, SearchError, search};
use tla_tree::Word;
use tla_value::{Text, ValueError};

/// Checks a module and a configuration. Returns the answer of the search of the model that they denote, or the first
/// refusal of tokens, module, configuration and model, in this order. The result is the same for every number of
/// workers, every cut, every gate and every schedule.
pub fn check<G: Gate, R: Threads + Wait + Sync>(
    rt: &R,
    alloc: Global,
    module: &[u8],
    config: &[u8],
    options: &Options,
    gate: &G,
) -> Checked
    ensures { IsChecked «module».now config.now options.now.limit result }
{
    match read_model(alloc, module, config) {
        Ok(model) => {
            let checked = answered(rt, alloc, &model, options, gate);
            drop(model);
            checked
        }
        Err(stopped) => stopped,
    }
}

/// The model that two texts denote, or the result of the check if there is none.
fn read_model(alloc: Global, module: &[u8], config: &[u8]) -> Result<Model, Checked>
    ensures model { IfOk result (λ m. NameOnly «module».now config.now (model_of m)) }
    ensures stopped { IfErr result (IsStopped «module».now config.now) }
{
    let tokens = match tokens(alloc, module) {
        Ok(tokens) => tokens,
        Err(error) => return Err(stopped_by_tokens(error)),
    };
    let tree = match parse_module(alloc, module, &tokens) {
        Ok(tree) => tree,
        Err(error) => return Err(stopped_by_module(error)),
    };
    let config = match parse_config(alloc, config) {
        Ok(config) => config,
        Err(error) => return Err(stopped_by_definitions(error)),
    };
    match build(alloc, &tree, &config) {
        Ok(model) => Ok(model),
        Err(error) => Err(stopped_by_definitions(error)),
    }
}

fn stopped_by_tokens(error: LexError) -> Checked
    requires { IsReportable (lex_code error.code) error.place None }
    ensures { EndsBy source.Module (lex_code error.code) error.place None result }
{
    match lex_code(error.code) {
        Some(code) => refused(Source::Module, code, error.place, None),
        None => Checked::NoMemory,
    }
}

fn stopped_by_module(error: ParseError) -> Checked
    requires { IsReportable (parse_code error.code) error.place error.name }
    ensures { EndsBy source.Module (parse_code error.code) error.place error.name result }
{
    match parse_code(error.code) {
        Some(code) => refused(Source::Module, code, error.place, name_of_word(error.name)),
        None => Checked::NoMemory,
    }
}

fn stopped_by_definitions(error: DefsError) -> Checked
    requires { IsReportable (defs_code error.code) error.place error.name }
    ensures { EndsBy error.source (defs_code error.code) error.place error.name result }
{
    match defs_code(error.code) {
        Some(code) => refused(error.source, code, error.place, name_of_text(error.name)),
        None => Checked::NoMemory,
    }
}

/// The refusal of a text.
fn refused(
    source: Source,
    code: RefusalCode,
    place: Option<tla_lex::Place>,
    name: Option<RefusalName>,
) -> Checked
    requires place { IsSome place }
    requires name { is_some name ≡ is_named_code code }
    ensures { EndsBy source (Some code) place name result }
{
    let Some(place) = place else {
        unreachable!();
    };
    Checked::Refused(Refusal {
        source,
        code,
        place: Place {
            line: place.line,
            column: place.column,
        },
        name,
    })
}

fn name_of_word(word: Option<Word>) -> Option<RefusalName>
    ensures { result ≡ word }
{
    match word {
        Some(word) => Some(RefusalName::new(word.into_bytes())),
        None => None,
    }
}

fn name_of_text(text: Option<Text>) -> Option<RefusalName>
    ensures { result ≡ text }
{
    match text {
        Some(text) => Some(RefusalName::from_text(text)),
        None => None,
    }
}

/// The answer of the search of a model.
fn answered<G: Gate, R: Threads + Wait + Sync>(
    rt: &R,
    alloc: Global,
    model: &Model,
    options: &Options,
    gate: &G,
) -> Checked
    ensures { IsFound (model_of model.now) options.now.limit result }
{
    let Ok(variables) = variable_names(alloc, model.variables()) else {
        return Checked::NoMemory;
    };
    let Ok(invariants) = predicate_names(alloc, model.invariants()) else {
        return Checked::NoMemory;
    };
    let Ok(constraints) = predicate_names(alloc, model.constraints()) else {
        return Checked::NoMemory;
    };
    match search(rt, alloc, model, options, gate) {
        Ok(answer) => Checked::Answered(Answered {
            answer,
            variables,
            invariants,
            constraints,
            limit: options.limit(),
        }),
        Err(SearchError::Memory) => Checked::NoMemory,
        Err(SearchError::NoWorker) => Checked::NoWorker,
    }
}

fn variable_names(alloc: Global, variables: &[Text]) -> Result<Names, ValueError>
    ensures ok { IfOk result (λ names. names ≡ variables.now) }
    ensures err { IfErr result (λ e. e ≡ value_error.Memory) }
{
    let mut names = Vec::new(alloc);
    for variable in variables {
        names.push(variable.copy(alloc)?)?;
    }
    Ok(Names::new(names))
}

/// The names of invariants, or of constraints.
fn predicate_names(alloc: Global, predicates: &[StatePredicate]) -> Result<Names, ValueError>
    ensures ok { IfOk result (λ names. names ≡ names_in (map predicate_of predicates.now)) }
    ensures err { IfErr result (λ e. e ≡ value_error.Memory) }
{
    let mut names = Vec::new(alloc);
    for predicate in predicates {
        names.push(predicate.name.copy(alloc)?)?;
    }
    Ok(Names::new(names))
}

/// Checks two texts, writes the report and returns the exit status.
///
/// The first write that fails or takes no byte ends the report with an error.
pub fn check_and_report<W: Write, G: Gate, R: Threads + Wait + Sync>(
    rt: &R,
    alloc: Global,
    module: &[u8],
    config: &[u8],
    options: &Options,
    gate: &G,
    out: &mut W,
) -> Result<u8, WriteFault>
    // The bytes written are the report of the right answer for the two texts, and the status is that of this answer.
    ensures ok { IfOk result (λ status. (checked : Checked)
        × IsChecked «module».now config.now options.now.limit checked
        × Appends (W.contents out.old) (W.contents out.new) (report checked)
        × (status ≡ status_of checked)) }
    ensures fault { IfErr result (λ e. (checked : Checked)
        × IsChecked «module».now config.now options.now.limit checked
        × AddsFirst (W.contents out.old) (W.contents out.new) (report checked) e.written) }
{
    let checked = check(rt, alloc, module, config, options, gate);
    write_report(&checked, out)?;
    Ok(checked.status())
}
