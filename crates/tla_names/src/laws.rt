//! Laws of names, over their definitions alone.

ghost use Rattle.tla_names.specs.Laws.{ConstantsAreAssigned, ExpressionIsWellScoped, ModuleIsWellScoped, StatementsAreNamed};

/// An expression is well scoped exactly if it has no misuse.
pub fn expression_is_well_scoped()
    ensures { ExpressionIsWellScoped }
{}

/// A module is well scoped exactly if it has no misuse.
pub fn module_is_well_scoped()
    ensures { ModuleIsWellScoped }
{}

/// The statements of a configuration name definitions without parameters exactly if they have no misuse.
pub fn statements_are_named()
    ensures { StatementsAreNamed }
{}

/// Each constant has an item exactly if none is without.
pub fn constants_are_assigned()
    ensures { ConstantsAreAssigned }
{}
