//! The texts of error types.

use std::test::Fail;
use tla_board::BoardError;
use tla_check::LineFault;
use tla_core::FaultCode;
use tla_search::SearchError;
use tla_value::ValueError;

#[test]
fn values_errors_are_their_codes(rt: HostRuntime) -> Result<(), Fail> {
    let texts = format!(in rt.alloc();
        "{} {} {}",
        ValueError::TooMany,
        ValueError::TooDeep,
        ValueError::Memory,
    )?;
    assert!(rt; texts.as_str() == "V1 V2 V3");
    Ok(())
}

#[test]
fn boards_errors_are_their_codes(rt: HostRuntime) -> Result<(), Fail> {
    let texts = format!(in rt.alloc(); "{}", BoardError::Memory)?;
    assert!(rt; texts.as_str() == "B1");
    Ok(())
}

#[test]
fn searches_errors_are_their_codes(rt: HostRuntime) -> Result<(), Fail> {
    let texts = format!(in rt.alloc(); "{} {}", SearchError::Memory, SearchError::NoWorker)?;
    assert!(rt; texts.as_str() == "S1 S2");
    Ok(())
}

#[test]
fn faults_are_their_codes(rt: HostRuntime) -> Result<(), Fail> {
    let texts = format!(in rt.alloc(); "{} {}", FaultCode::WrongKind, FaultCode::Memory)?;
    assert!(rt; texts.as_str() == "E1 E16");
    Ok(())
}

#[test]
fn faults_of_a_line_are_lines(rt: HostRuntime) -> Result<(), Fail> {
    let texts = format!(in rt.alloc(); "{}{}", LineFault::Number, LineFault::Memory)?;
    assert!(rt; texts.as_str() == "tlacheck: bad number\ntlacheck: out of memory\n");
    assert!(rt; !LineFault::Memory.is_help());
    Ok(())
}
