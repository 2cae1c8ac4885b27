//! What a configuration says.

ghost use Rattle.std.specs.Prelude.{◌≡◌, map};
ghost use Rattle.tla_config.specs.View.{statement_view};

use crate::statement::Statement;
use std::marker::Model;
use tla_lex::Place;

/// The statements of a configuration, in order, and the place of its end. Contracts see the list of what they say.
#[derive(Drop)]
pub struct Config {
    statements: Vec<Statement>,
    end: Place,
}

impl Model for Config {
    ghost use Rattle.std.specs.Prelude.{map};
    ghost use Rattle.tla_config.specs.View.{ConfigTree, statement_view};

    ghost Value = { ConfigTree };

    ghost use Rattle.std.specs.Coded.{codes};
    ghost use Rattle.tla_value.specs.Stored.{coded_tree};

    ghost coded = { Prim.hlevel (codes, coded_tree) };

    ghost view = { λ c. record { statements = map statement_view c.statements.items; end = c.end } };
}

impl Config {
    pub(crate) fn new(statements: Vec<Statement>, end: Place) -> Config
        ensures statements { result.statements ≡ map statement_view statements.items }
        ensures end { result.end ≡ end }
    {
        Config { statements, end }
    }

    pub fn statements(&self) -> &[Statement]
        ensures { map statement_view result.now ≡ self.now.statements }
    {
        self.statements.as_slice()
    }

    /// The place after the last character of the text.
    pub fn end(&self) -> Place
        ensures { result ≡ self.now.end }
    {
        self.end
    }
}
