//! Statements.

use tla_lex::Place;
use tla_tree::Written;
use tla_value::Value;

/// An item of CONSTANT.
#[derive(Drop)]
pub enum Item {
    /// `c = value`
    Value(Written, Value),
    /// `c <- Op`
    Replaces(Written, Written),
}

/// A statement of a configuration, with the place of its word.
#[derive(Drop)]
pub enum Statement {
    Specification(Place, Written),
    Init(Place, Written),
    Next(Place, Written),
    /// `INVARIANT` or `INVARIANTS` with one or more names.
    Invariants(Place, Vec<Written>),
    /// `CONSTRAINT` or `CONSTRAINTS` with one or more names.
    Constraints(Place, Vec<Written>),
    /// `CONSTANT` or `CONSTANTS` with one or more items.
    Constants(Place, Vec<Item>),
    CheckDeadlock(Place, bool),
}

impl Statement {
    ghost use Rattle.std.specs.Prelude.{◌≡◌, ◌||◌};
    ghost use Rattle.tla_config.specs.Configuration.{is_check_deadlock};
    ghost use Rattle.tla_config.specs.View.{statement_view};

    /// Whether CHECK_DEADLOCK is among such statements and this one.
    pub(crate) fn checks_too(&self, checks: bool) -> bool
        ensures { result ≡ (checks || is_check_deadlock (statement_view self.now)) }
    {
        checks || matches!(self, Statement::CheckDeadlock(_, _))
    }
}
