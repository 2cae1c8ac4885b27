//! The environment of an evaluation.
ghost use Rattle.std.specs.Prelude.{◌≡◌, length, option_map};
ghost use Rattle.tla_quick.specs.Private.Frames.{bound_of, scope_of, Knows, Knows-prop};

use crate::frame::Frame;
use tla_eval::Partial;
use tla_value::State;

/// The values of the bound names and of the variables, and the definitions.
#[derive(Clone, Copy)]
pub(crate) struct Environment<'m, 'a> {
    pub(crate) frame: &'a Frame<'m, 'a>,
    pub(crate) now: Option<&'a State>,
    pub(crate) next: &'a Partial,
    /// The number of bound names.
    pub(crate) names: usize,
    /// The number of definitions in scope.
    pub(crate) definitions: usize,
    ghost knows: { Knows frame.now (option_map (λ s. s.now) now) next.now } by { Knows-prop frame.now (option_map (λ s. s.now) now) next.now },
    ghost named: { names ≡ length (bound_of frame.now) },
    ghost numbered: { definitions ≡ length (scope_of frame.now) },
}
