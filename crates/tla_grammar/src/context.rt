//! The context of an expression.

ghost use Rattle.std.specs.Prelude.{◌≡◌};
ghost use Rattle.tla_grammar.specs.Grammar.{within};

/// What an expression has to know about the forms around it.
#[derive(Clone, Copy)]
pub struct Context {
    /// The column of the innermost junction list, 0 outside all lists. Each token must be right of it.
    pub column: u128,
    /// Whether `@` has a meaning, as in an update of EXCEPT.
    pub updating: bool,
}

impl Context {
    /// The context of the items of a junction list whose bullets are in the column.
    pub fn of_items(self, column: u128) -> Context
        ensures { result ≡ within self column }
    {
        Context { column, ..self }
    }
}
