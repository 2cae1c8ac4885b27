//! The model that the two texts denote, with its syntax trees.

use crate::context::ExplainContext;
use std::alloc::Global;
use tla_config::{Config, parse_config};
use tla_defs::build;
use tla_lex::{Token, tokens};
use tla_model::Model;
use tla_page::places::Sources;
use tla_parse::parse_module;
use tla_tree::Module;

/// A model, the tokens and the tree of its module, and the statements of its configuration.
#[derive(Drop)]
pub struct Named {
    tokens: Vec<Token>,
    module: Module,
    config: Config,
    model: Model,
}

impl Named {
    /// Reads the two texts; none if they are refused or memory ran out.
    pub fn read(alloc: Global, sources: &Sources<'_>) -> Option<Named> {
        let tokens = tokens(alloc, sources.module).ok()?;
        let module = parse_module(alloc, sources.module, &tokens).ok()?;
        let config = parse_config(alloc, sources.configuration).ok()?;
        let model = build(alloc, &module, &config).ok()?;
        Some(Named {
            tokens,
            module,
            config,
            model,
        })
    }

    /// The context of explanations.
    pub fn context<'a>(&'a self, sources: &'a Sources<'a>) -> ExplainContext<'a> {
        ExplainContext {
            sources,
            tokens: &self.tokens,
            units: &self.module.units,
            statements: self.config.statements(),
            model: &self.model,
        }
    }
}
