//! Which definitions use which.

use crate::statements::replacement_of;
use std::alloc::{AllocError, Global};
use tla_config::Statement;
use tla_hints::is_before;
use tla_lex::{Kind, Token};
use tla_page::places::word;
use tla_page::units::{Known, Role, known_name};

/// The tokens of a module, the names that its units introduce, and the statements of the configuration, which may
/// replace names.
#[derive(Clone, Copy)]
pub struct Definitions<'a> {
    pub text: &'a [u8],
    pub tokens: &'a [Token],
    pub known: &'a [Known<'a>],
    pub statements: &'a [Statement],
}

impl<'a> Definitions<'a> {
    /// The tokens of a definition or declaration, from its name up to the next unit that introduces one.
    pub(crate) fn tokens_of(&self, name: &str) -> &'a [Token] {
        let Some(one) = known_name(self.known, name) else {
            return &[];
        };
        let tokens = self.tokens;
        let start = tokens
            .iter()
            .take_while(|t| is_before(t.place, one.place))
            .count();
        let rest = tokens.get(start..).unwrap_or(&[]);
        let Some(next) = self.name_after(&one) else {
            return rest;
        };
        let len = rest
            .iter()
            .take_while(|t| is_before(t.place, next.place))
            .count();
        rest.get(..len).unwrap_or(rest)
    }

    /// The next name that is introduced after this one.
    fn name_after(&self, one: &Known<'_>) -> Option<Known<'a>> {
        for other in self.known {
            if is_before(one.place, other.place) {
                return Some(*other);
            }
        }
        None
    }

    /// The definitions that a definition leads to, itself first. The only error is that memory ran out.
    pub(crate) fn definitions_reached(
        &self,
        alloc: Global,
        name: &'a str,
    ) -> Result<Vec<&'a str>, AllocError> {
        let mut met = Vec::new(alloc);
        met.push(name)?;
        for index in 0..self.known.len() {
            let Some(next) = met.get(index).copied() else {
                break;
            };
            self.add_used(&mut met, next)?;
        }
        Ok(met)
    }

    /// Adds the definitions that a definition uses, unless they are in the list already.
    fn add_used(&self, met: &mut Vec<&'a str>, name: &str) -> Result<(), AllocError> {
        for token in self.tokens_of(name) {
            let used = replacement_of(self.statements, word(self.text, token));
            if token.kind == Kind::Name && self.is_defined(used) && !met.contains(&used) {
                met.push(used)?;
            }
        }
        Ok(())
    }

    /// Whether a definition leads to another. The only error is out of memory.
    pub(crate) fn leads_to(
        &self,
        alloc: Global,
        name: &'a str,
        other: &str,
    ) -> Result<bool, AllocError> {
        Ok(self.definitions_reached(alloc, name)?.contains(&other))
    }

    pub(crate) fn is_defined(&self, name: &str) -> bool {
        match known_name(self.known, name) {
            Some(one) => matches!(one.role, Role::Operator | Role::Function),
            None => false,
        }
    }
}
