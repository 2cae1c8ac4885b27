//! The reader of the expressions in an expression.

ghost use Rattle.std.specs.Prelude.{ℕ};
ghost use Rattle.tla_expressions.specs.Reading.{expr};
ghost use Rattle.tla_expressions.specs.Gives.{Gives};
ghost use Rattle.tla_expressions.specs.Private.Nests.{Nests};

use crate::parts::Parsed;
use std::alloc::Global;
use tla_grammar::{Context, Refusal};
use tla_lex::Token;

/// Which expression to parse: its context, the floor that its top is above, and the number of its first token.
#[derive(Clone, Copy)]
pub struct Start {
    pub context: Context,
    pub floor: u8,
    pub at: usize,
}

/// Parses an expression of at most `depth` levels, in a context, whose top is above a floor.
pub trait ExpressionReader {
    // expressions of this many levels may be parsed
    ghost reads_to: { Self → ℕ → Type 0 };

    fn read(
        &self,
        alloc: Global,
        text: &[u8],
        tokens: &[Token],
        depth: usize,
        start: Start,
    ) -> Result<Parsed, Refusal>
        requires { reads_to self.now depth }
        ensures { Gives text.now tokens.now depth result
            (expr text.now tokens.now depth start.context start.floor start.at) };
}

impl<
    F: Fn(Global, &[u8], &[Token], usize, Context, u8, usize) -> Result<Parsed, Refusal>,
> ExpressionReader for F {
    ghost reads_to = { λ f depth. Nests depth (F.pre f) (F.post f) };

    fn read(
        &self,
        alloc: Global,
        text: &[u8],
        tokens: &[Token],
        depth: usize,
        start: Start,
    ) -> Result<Parsed, Refusal> {
        self(
            alloc,
            text,
            tokens,
            depth,
            start.context,
            start.floor,
            start.at,
        )
    }
}
