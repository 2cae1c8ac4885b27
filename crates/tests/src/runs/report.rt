//! Reports of answers that no check returns.
ghost use Rattle.std.specs.Prelude.{◌≡◌, length, IfOk};
ghost use Rattle.tla_verdict.specs.IsNamed.{AreWhole, IsNamed};

use std::alloc::{AllocError, Global};
use std::test::Fail;
use tla_check::*;
use tla_core::{Fault, FaultCode};
use tla_value::{State, Text, Value};

fn one_name(alloc: Global, name: &str) -> Result<Names, AllocError>
    ensures { IfOk result (λ names. length names ≡ 1) }
{
    let text = Text::new(alloc, name).ok().ok_or(AllocError)?;
    let mut names = Vec::new(alloc);
    names.push(text)?;
    Ok(Names::new(names))
}

fn state(alloc: Global, value: i64) -> Result<State, AllocError>
    ensures { IfOk result (λ s. length s ≡ 1) }
{
    let mut values = Vec::new(alloc);
    values.push(Value::Int(value))?;
    Ok(State::new(values))
}

// A trace of one state, in which the one variable has this value.
fn one_state(alloc: Global, value: i64) -> Result<Trace, AllocError>
    ensures { IfOk result (λ t. AreWhole 1 t) }
{
    let mut states = Vec::new(alloc);
    states.push(state(alloc, value)?)?;
    Ok(Trace::new(states))
}

// An answer about the variable x, the invariant Inv and the constraint Con.
fn about_x(alloc: Global, answer: Answer) -> Result<Checked, AllocError>
    requires { IsNamed 1 1 1 answer }
{
    let variables = one_name(alloc, "x")?;
    let invariants = one_name(alloc, "Inv")?;
    let constraints = one_name(alloc, "Con")?;
    Ok(Checked::Answered(Answered {
        answer,
        variables,
        invariants,
        constraints,
        limit: 4,
    }))
}

// An invariant faults because a variable isn't set.
fn lacking(alloc: Global) -> Result<Checked, AllocError> {
    let fault = Fault {
        code: FaultCode::Unassigned,
        place: None,
        variable: Some(0),
    };
    let answer = Answer::Faulted {
        fault,
        part: Part::Invariant(0),
        trace: one_state(alloc, -7)?,
        counts: Counts {
            levels: 1,
            states: 1,
        },
    };
    about_x(alloc, answer)
}

// Whether this is the status and the report of a result.
fn is_reported(alloc: Global, checked: Checked, status: u8, report: &str) -> bool {
    let mut out = Vec::new(alloc);
    let result = write_report(&checked, &mut out);
    result.is_ok() && out.as_slice() == report.as_bytes() && checked.status() == status
}

#[test]
fn reports(rt: HostRuntime) -> Result<(), Fail> {
    let alloc = rt.alloc();
    let report =
        "Fault E15 for variable x in invariant Inv.\nState 1:\n/\\ x = -7\nLevels 1, states 1.\n";
    assert!(rt; is_reported(alloc, lacking(alloc)?, 12, report));
    assert!(rt; is_reported(alloc, Checked::NoMemory, 22, "Out of memory.\n"));
    let report = "A worker could not be started.\n";
    assert!(rt; is_reported(alloc, Checked::NoWorker, 22, report));
    Ok(())
}
