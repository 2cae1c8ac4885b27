//! Why a call has no result.

use std::alloc::{AllocError, AllocFailed};
use tla_core::{Fault, FaultCode};
use tla_defs::{DefsCode, DefsError};
use tla_lex::{LexCode, LexError};
use tla_parse::{ParseCode, ParseError};
use tla_search::SearchError;
use tla_value::ValueError;

/// A refusal of one of the libraries.
#[derive(Drop)]
pub enum Refusal {
    Value(ValueError),
    Tokens(LexError),
    Module(ParseError),
    Definitions(DefsError),
    Evaluation(Fault),
    Search(SearchError),
}

impl Refusal {
    /// Whether it says nothing about the inputs: memory ran out, or a worker could not be started.
    pub fn says_nothing(&self) -> bool {
        match self {
            Refusal::Value(error) => *error == ValueError::Memory,
            Refusal::Tokens(error) => error.code == LexCode::NoMemory,
            Refusal::Module(error) => error.code == ParseCode::NoMemory,
            Refusal::Definitions(error) => error.code == DefsCode::Memory,
            Refusal::Evaluation(fault) => fault.code == FaultCode::Memory,
            Refusal::Search(SearchError::Memory | SearchError::NoWorker) => true,
        }
    }
}

impl From<ValueError> for Refusal {
    fn from(error: ValueError) -> Refusal {
        Refusal::Value(error)
    }
}

impl From<AllocError> for Refusal {
    fn from(error: AllocError) -> Refusal {
        Refusal::Value(error.into())
    }
}

impl<T: Drop> From<AllocFailed<T>> for Refusal {
    fn from(error: AllocFailed<T>) -> Refusal {
        Refusal::Value(error.into())
    }
}

impl From<LexError> for Refusal {
    fn from(error: LexError) -> Refusal {
        Refusal::Tokens(error)
    }
}

impl From<ParseError> for Refusal {
    fn from(error: ParseError) -> Refusal {
        Refusal::Module(error)
    }
}

impl From<DefsError> for Refusal {
    fn from(error: DefsError) -> Refusal {
        Refusal::Definitions(error)
    }
}

impl From<Fault> for Refusal {
    fn from(fault: Fault) -> Refusal {
        Refusal::Evaluation(fault)
    }
}

impl From<SearchError> for Refusal {
    fn from(error: SearchError) -> Refusal {
        Refusal::Search(error)
    }
}
