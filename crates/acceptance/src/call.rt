//! The calls of library functions.
ghost use Rattle.std.specs.Prelude.{◌≡◌, length, IfOk};

use crate::hashing::Zero;
use crate::inputs::{TwoNumbers, deepest, formula, model, model_of_action, numbers, two_numbers};
use crate::refusal::Refusal;
use crate::subject::{Pieces, Subject};
use std::alloc::{AllocError, Global};
use std::hash::BuildHasherDefault;
use std::sync::Wait;
use std::thread::Threads;
use tla_core::{Core, Place};
use tla_defs::parse_config;
use tla_enum::{initials, successors};
use tla_eval::{Partial, eval, member};
use tla_lex::{Token, tokens};
use tla_model::Model;
use tla_parse::parse_module;
use tla_search::{NoGate, Options, search, search_by};
use tla_value::{SetValue, State, Value};

/// A call of a library function.
#[derive(Clone, Copy)]
pub enum Call {
    Insert,
    InsertDeep,
    Power,
    Configure,
    ParseCut,
    On(OnModel),
}

/// A call on the model of a module.
#[derive(Clone, Copy)]
pub enum OnModel {
    /// No call: tests only whether there is a model.
    Build,
    /// The places of its action.
    Places,
    /// Whether the formula fits with this many bound names.
    FitsNames(usize),
    /// Whether its action fits, with present values or without.
    FitsValues(bool),
    Evaluate,
    Member,
    Initials,
    Successors,
    /// The number of workers, and the most states.
    Search(u64, u64),
    /// By three workers, with states that all have the hash 0.
    SearchOfOneHash,
}

/// The result of a call.
#[derive(Drop)]
pub enum Answer {
    Truth(bool),
    Value(Value),
    States(Vec<State>),
    Places(Vec<Place>),
    Configuration,
    Model,
    Found(tla_search::Answer),
    /// No result, since there was no call.
    Nothing,
}

/// A finished call: the values that it could change, before and after, and its result.
#[derive(Drop)]
pub struct Made {
    pub lent: Vec<Value>,
    pub left: Vec<Value>,
    pub answer: Result<Answer, Refusal>,
}

/// A call that could change nothing.
fn unlent<E>(alloc: Global, answer: Result<Answer, E>) -> Made
where
    Refusal: From<E>,
{
    Made {
        lent: Vec::new(alloc),
        left: Vec::new(alloc),
        answer: answer.map_err(Refusal::from),
    }
}

/// Puts a value into a set of two that has no room for a third.
fn inserted(two: TwoNumbers, value: Value) -> Result<Made, Refusal> {
    let mut set = two.set;
    let answer = set.insert(value);
    let left = set.into_items()?;
    Ok(Made {
        lent: two.list,
        left,
        answer: answer.map(Answer::Truth).map_err(Refusal::from),
    })
}

/// The subsets of a set of twenty numbers, which are too many.
fn power(alloc: Global) -> Result<Made, Refusal> {
    let numbers = SetValue::range(alloc, 1, 20)?;
    let answer = numbers.power(alloc);
    Ok(unlent(alloc, answer.map(|set| Answer::Value(Value::Set(set)))))
}

/// A configuration with a constant that has no value.
fn configured(alloc: Global) -> Made {
    let answer = parse_config(alloc, b"INIT Init\nNEXT Next\nCONSTANT c =\n");
    unlent(alloc, answer.map(|_| Answer::Configuration))
}

/// A module whose list of tokens is cut short.
static CUT: &[u8] = b"---- MODULE M ----
EXTENDS Integers
VARIABLE x
Init == x = 0
Next == /\\ x ' = ( x + 1 ) % 3
        /\\ \\A y \\in S : IF y THEN x ELSE ~ y
====";

/// Whether each proper prefix of these tokens is refused.
fn are_refused(alloc: Global, tokens: &[Token]) -> bool {
    for (length, _) in tokens.iter().enumerate() {
        if parse_module(alloc, CUT, &tokens[..length]).is_ok() {
            return false;
        }
    }
    true
}

/// Whether a module's tokens are refused if they are cut short. No text has such tokens: the lexer refuses one without
/// a closing line.
fn parsed_cut(alloc: Global) -> Result<Made, Refusal> {
    let tokens = tokens(alloc, CUT)?;
    let answer = match parse_module(alloc, CUT, &tokens) {
        Ok(_) => Ok(Answer::Truth(are_refused(alloc, &tokens))),
        Err(error) => Err(error),
    };
    Ok(unlent(alloc, answer))
}

/// Whether an expression fits with this many bound names and variables.
fn fitted(alloc: Global, core: &Core, names: usize, variables: usize, now: bool) -> Made {
    let fits = core.fits(names, variables, now);
    unlent(alloc, Ok::<Answer, Refusal>(Answer::Truth(fits)))
}

/// The place of a node, and those of its parts if it is a conjunction or a disjunction. No fault can be there, so no
/// report has them.
fn places_of(alloc: Global, core: &Core) -> Result<Vec<Place>, AllocError> {
    let mut places = Vec::new(alloc);
    places.push(core.place())?;
    if let Core::Conjunction(_, parts) | Core::Disjunction(_, parts) = core {
        for part in parts.as_slice() {
            places.push(part.place())?;
        }
    }
    Ok(places)
}

/// The places of the next-state action.
fn placed(alloc: Global, model: &Model) -> Made {
    unlent(alloc, places_of(alloc, model.next()).map(Answer::Places))
}

/// No next value, and two copies of the values of the bound names: b is 7.
#[derive(Drop)]
struct Given {
    nothing: Partial,
    lent: Vec<Value>,
    left: Vec<Value>,
}

fn sevens(alloc: Global) -> Result<Given, Refusal> {
    let lent = numbers(alloc, &[7])?;
    let left = numbers(alloc, &[7])?;
    let nothing = Partial::unset(alloc, 0)?;
    Ok(Given {
        nothing,
        lent,
        left,
    })
}

/// A call that could change these.
fn lent(given: Given, answer: Result<Answer, Refusal>) -> Made {
    Made {
        lent: given.lent,
        left: given.left,
        answer,
    }
}

/// The value of the formula for b = 7.
fn evaluated(alloc: Global, model: &Model) -> Result<Made, Refusal> {
    let mut given = sevens(alloc)?;
    let answer = eval(alloc, formula(model), &mut given.left, None, &given.nothing);
    Ok(lent(given, answer.map(Answer::Value).map_err(Refusal::from)))
}

/// Whether 8 is a member of the formula for b = 7.
fn tested(alloc: Global, model: &Model) -> Result<Made, Refusal> {
    let mut given = sevens(alloc)?;
    let eight = Value::Int(8);
    let answer = member(
        alloc,
        &eight,
        formula(model),
        &mut given.left,
        None,
        &given.nothing,
    );
    Ok(lent(given, answer.map(Answer::Truth).map_err(Refusal::from)))
}

/// The initial states.
fn begun(alloc: Global, model: &Model) -> Made {
    unlent(alloc, initials(alloc, model).map(Answer::States))
}

/// The state in which the one variable is 0.
fn zero(alloc: Global) -> Result<State, AllocError>
    ensures { IfOk result (λ s. length s ≡ 1) }
{
    let mut values = Vec::new(alloc);
    values.push(Value::Int(0))?;
    Ok(State::new(values))
}

/// The successors of the state in which the one variable is 0.
fn followed(alloc: Global, model: &Model) -> Result<Made, Refusal> {
    let state = zero(alloc)?;
    if model.variables().len() != 1 {
        return Ok(unlent(alloc, Ok::<Answer, Refusal>(Answer::Nothing)));
    }
    let answer = successors(alloc, model, &state);
    Ok(unlent(alloc, answer.map(Answer::States)))
}

/// The answer of a search with pieces of one state.
fn searched<R: Threads + Wait + Sync>(
    rt: &R,
    alloc: Global,
    model: &Model,
    workers: u64,
    limit: u64,
) -> Made {
    let Some(options) = Options::new(workers, 1, limit) else {
        return unlent(alloc, Ok::<Answer, Refusal>(Answer::Nothing));
    };
    let answer = search(rt, alloc, model, &options, &NoGate);
    unlent(alloc, answer.map(Answer::Found))
}

/// The same, with the hash 0 for all states.
fn searched_by_one_hash<R: Threads + Wait + Sync>(rt: &R, alloc: Global, model: &Model) -> Made {
    let Some(options) = Options::new(3, 1, 100) else {
        return unlent(alloc, Ok::<Answer, Refusal>(Answer::Nothing));
    };
    let answer = search_by::<BuildHasherDefault<Zero>, NoGate, R>(
        rt, alloc, model, &options, &NoGate,
    );
    unlent(alloc, answer.map(Answer::Found))
}

fn make_on<R: AllocGlobal + Threads + Wait + Sync>(
    rt: &R,
    model: &Model,
    call: OnModel,
) -> Result<Made, Refusal> {
    let alloc = rt.alloc();
    match call {
        OnModel::Build => Ok(unlent(alloc, Ok::<Answer, Refusal>(Answer::Model))),
        OnModel::Places => Ok(placed(alloc, model)),
        OnModel::FitsNames(names) => Ok(fitted(alloc, formula(model), names, 0, false)),
        OnModel::FitsValues(now) => Ok(fitted(alloc, model.next(), 0, 1, now)),
        OnModel::Evaluate => evaluated(alloc, model),
        OnModel::Member => tested(alloc, model),
        OnModel::Initials => Ok(begun(alloc, model)),
        OnModel::Successors => followed(alloc, model),
        OnModel::Search(workers, limit) => Ok(searched(rt, alloc, model, workers, limit)),
        OnModel::SearchOfOneHash => Ok(searched_by_one_hash(rt, alloc, model)),
    }
}

/// Makes a call on the model of a module. The model is dropped by a call of `drop`, which is proved once; an implicit
/// drop would be part of this proof.
fn make_on_model<R: AllocGlobal + Threads + Wait + Sync>(
    rt: &R,
    formula: Pieces,
    call: OnModel,
) -> Result<Made, Refusal> {
    let alloc = rt.alloc();
    let found = match call {
        OnModel::Places => model_of_action(alloc, formula),
        _ => model(alloc, formula),
    };
    match found {
        Ok(model) => {
            let made = make_on(rt, &model, call);
            drop(model);
            made
        }
        Err(refusal) => match call {
            OnModel::Build => Ok(unlent(alloc, Err::<Answer, Refusal>(refusal))),
            _ => Err(refusal),
        },
    }
}

/// Makes a call. An error is one of building its inputs.
pub fn make<R: AllocGlobal + Threads + Wait + Sync>(
    rt: &R,
    subject: Subject,
) -> Result<Made, Refusal> {
    let alloc = rt.alloc();
    match subject.call {
        Call::Insert => inserted(two_numbers(alloc)?, Value::Int(2)),
        Call::InsertDeep => inserted(two_numbers(alloc)?, deepest(alloc)?),
        Call::Power => power(alloc),
        Call::Configure => Ok(configured(alloc)),
        Call::ParseCut => parsed_cut(alloc),
        Call::On(call) => make_on_model(rt, subject.formula, call),
    }
}
