//! Prints a call.

use crate::call::{Answer, Made};
use crate::refusal::Refusal;
use std::io;
use std::io::{ErrorKind, Write};
use tla_core::Place;
use tla_search::Counts;
use tla_value::{State, Value};

/// Values, each after a space.
fn put_values<W: Write>(out: &mut W, values: &[Value]) -> io::Result<()> {
    for value in values {
        out.write_all(b" ")?;
        if value.write_text(out).is_err() {
            return Err(io::Error::from(ErrorKind::WriteZero));
        }
    }
    Ok(())
}

/// States, each in brackets after a space.
fn put_states<W: Write>(out: &mut W, states: &[State]) -> io::Result<()> {
    for state in states {
        out.write_all(b" [")?;
        put_values(out, state.values())?;
        out.write_all(b" ]")?;
    }
    Ok(())
}

/// Places, each as its line and column after a space.
fn put_places<W: Write>(out: &mut W, places: &[Place]) -> io::Result<()> {
    for place in places {
        write!(out, " {}.{}", place.line, place.column)?;
    }
    Ok(())
}

/// A line of values, or none where there are none.
fn print_values<W: Write>(out: &mut W, name: &str, values: &[Value]) -> io::Result<()> {
    if values.is_empty() {
        return Ok(());
    }
    write!(out, "  {name}")?;
    put_values(out, values)?;
    out.write_all(b"\n")
}

fn put_found<W: Write>(out: &mut W, answer: &tla_search::Answer) -> io::Result<()> {
    let Counts { levels, states } = answer.counts();
    let name = match answer {
        tla_search::Answer::NoError { .. } => "no error",
        tla_search::Answer::InvariantFalse { .. } => "an invariant is false",
        tla_search::Answer::Deadlock { .. } => "a deadlock",
        tla_search::Answer::Faulted { .. } => "a fault",
        tla_search::Answer::AssumptionFalse { .. } => "an assumption is false",
        tla_search::Answer::Limit { .. } => "the limit",
    };
    write!(out, " {name}, {levels} levels, {states} states")?;
    put_states(out, answer.states())
}

fn put_answer<W: Write>(out: &mut W, answer: &Answer) -> io::Result<()> {
    match answer {
        Answer::Truth(truth) => write!(out, " {truth}"),
        Answer::Value(value) => put_values(out, std::slice::from_ref(value)),
        Answer::States(states) => put_states(out, states),
        Answer::Places(places) => put_places(out, places),
        Answer::Configuration => out.write_all(b" a configuration"),
        Answer::Model => out.write_all(b" a model"),
        Answer::Nothing => out.write_all(b" nothing"),
        Answer::Found(answer) => put_found(out, answer),
    }
}

/// The code of a refusal, and its place, if it has one.
fn put_refusal<W: Write>(out: &mut W, refusal: &Refusal) -> io::Result<()> {
    match refusal {
        Refusal::Value(error) => write!(out, " {error}"),
        Refusal::Search(error) => write!(out, " {error}"),
        Refusal::Tokens(error) => {
            write!(out, " {:?}", error.code)?;
            put_place(out, core_place(error.place))
        }
        Refusal::Module(error) => {
            write!(out, " {:?}", error.code)?;
            put_place(out, core_place(error.place))
        }
        Refusal::Definitions(error) => {
            write!(out, " {:?}", error.code)?;
            put_place(out, core_place(error.place))
        }
        Refusal::Evaluation(fault) => {
            write!(out, " {}", fault.code)?;
            put_place(out, fault.place)
        }
    }
}

/// A place of a token as one of an expression.
fn core_place(place: Option<tla_lex::Place>) -> Option<Place> {
    match place {
        Some(tla_lex::Place { line, column }) => Some(Place { line, column }),
        None => None,
    }
}

fn put_place<W: Write>(out: &mut W, place: Option<Place>) -> io::Result<()> {
    match place {
        Some(Place { line, column }) => write!(out, " at line {line}, column {column}"),
        None => Ok(()),
    }
}

/// Writes what a call was given, what it answered, and what it left.
fn print_answer<W: Write>(out: &mut W, made: &Made) -> io::Result<()> {
    print_values(out, "lent", &made.lent)?;
    out.write_all(b"  answer")?;
    match &made.answer {
        Ok(answer) => put_answer(out, answer)?,
        Err(refusal) => put_refusal(out, refusal)?,
    }
    out.write_all(b"\n")?;
    print_values(out, "left", &made.left)
}

/// Prints that a call had no inputs.
fn print_no_inputs<W: Write>(out: &mut W, refusal: &Refusal) -> io::Result<()> {
    out.write_all(b"  no inputs")?;
    put_refusal(out, refusal)?;
    out.write_all(b"\n")
}

/// Prints a call that was made, or that it had no inputs.
pub fn print_result<W: Write>(out: &mut W, made: &Result<Made, Refusal>) -> io::Result<()> {
    match made {
        Ok(made) => print_answer(out, made),
        Err(refusal) => print_no_inputs(out, refusal),
    }
}
