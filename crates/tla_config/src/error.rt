//! Refusals of a configuration, and of what it and a module name.

ghost use Rattle.std.specs.Prelude.{◌≡◌, Some, None};

use std::alloc::{AllocError, AllocFailed};
use tla_lex::Place;
use tla_value::Text;

/// The text that has a fault.
#[derive(Clone, Copy, Debug, PartialEq, Eq)]
pub enum Source {
    Module,
    Configuration,
}

/// What is wrong with a configuration, or with what it and a module name.
#[derive(Clone, Copy, Debug, PartialEq, Eq)]
pub enum DefsCode {
    /// C1: the text of a configuration.
    ConfigurationText,
    /// C2: a name that is not known.
    UnknownName,
    /// C3: a name that is defined twice.
    DefinedTwice,
    /// C4: the wrong number of arguments.
    ArgumentCount,
    /// C5: an expression of too high a level.
    Level,
    /// C6: a constant without a value.
    ConstantWithoutValue,
    /// C7: a replacement that leads back to itself.
    CircularReplacement,
    /// C8: a SPECIFICATION that is not of the form.
    SpecificationForm,
    /// C9: no behaviour, or more than one.
    BehaviourCount,
    /// C10: a statement that is left out.
    StatementLeftOut,
    /// C11: an expansion or a value beyond the limits.
    ExpansionTooLarge,
    /// Memory ran out. A report has no code for it.
    Memory,
}

/// A refusal: its place, unless memory ran out, and the name that it prints, if any.
#[derive(Drop)]
pub struct DefsError {
    pub code: DefsCode,
    pub source: Source,
    pub place: Option<Place>,
    pub name: Option<Text>,
}

impl DefsError {
    /// Want of memory, where this text was read.
    pub fn no_memory(source: Source) -> DefsError
        ensures { result
            ≡ record { code = DefsCode.Memory; source = source; place = None; name = None } }
    {
        DefsError {
            code: DefsCode::Memory,
            source,
            place: None,
            name: None,
        }
    }

    /// A refusal at a place, without a name.
    pub fn at(code: DefsCode, source: Source, place: Place) -> DefsError
        ensures { result
            ≡ record { code = code; source = source; place = Some place; name = None } }
    {
        DefsError {
            code,
            source,
            place: Some(place),
            name: None,
        }
    }
}

impl From<AllocError> for DefsError {
    ghost use Rattle.std.specs.Prelude.{None};
    ghost use Rattle.tla_config.specs.declared.error.DefsCode.TheVariants.{Memory};
    ghost use Rattle.tla_config.specs.declared.error.Source.TheVariants.{Module};

    ghost from_gives = { λ _ e. e ≡ record { code = Memory; source = Module; place = None; name = None } };

    fn from(_error: AllocError) -> DefsError {
        DefsError::no_memory(Source::Module)
    }
}

impl<T: Drop> From<AllocFailed<T>> for DefsError {
    ghost use Rattle.std.specs.Prelude.{None};
    ghost use Rattle.tla_config.specs.declared.error.DefsCode.TheVariants.{Memory};
    ghost use Rattle.tla_config.specs.declared.error.Source.TheVariants.{Module};

    ghost from_gives = { λ _ e. e ≡ record { code = Memory; source = Module; place = None; name = None } };

    fn from(_error: AllocFailed<T>) -> DefsError {
        DefsError::no_memory(Source::Module)
    }
}
