//! The context of explanations of answers.

use tla_config::Statement;
use tla_lex::Token;
use tla_model::Model;
use tla_page::places::Sources;
use tla_tree::Unit;

/// The two texts, the tokens and units of the module, the statements of the configuration, and the
/// model.
#[derive(Clone, Copy)]
pub struct ExplainContext<'a> {
    pub sources: &'a Sources<'a>,
    pub tokens: &'a [Token],
    pub units: &'a [Unit],
    pub statements: &'a [Statement],
    pub model: &'a Model,
}
