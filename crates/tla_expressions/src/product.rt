//! `a \X b \X c`: one product of all its operands.

ghost use Rattle.std.specs.Prelude.{◌≡◌, ◌+◌, ◌≤◌, ◌<◌, length, []};
ghost use Rattle.tla_tree.specs.View.{view};
ghost use Rattle.tla_tree.specs.declared.tree.TheConstants.{MAX_DEPTH};
ghost use Rattle.tla_grammar.specs.Edges as edges;
ghost use Rattle.tla_expressions.specs.Reading as reading;
ghost use Rattle.tla_expressions.specs.Gives.{Gives, GivesItems};

use crate::grammar::Grammar;
use crate::parts::{Parsed, ParsedItems, node, product_of};
use crate::reader::ExpressionReader;
use tla_grammar::{
    Between, Context, Refusal, edge_allows, following, high, is_kind, refused, seen,
};
use tla_lex::{Kind, Token};
use tla_tree::{Infix, push_inner};

impl<R: ExpressionReader> Grammar<R> {
    /// An operand after the first.
    #[tactic(auto, unfolding(crate::specs::Reading::factor))]
    fn factor(
        &self,
        text: &[u8],
        tokens: &[Token],
        context: Context,
        from: usize,
    ) -> Result<Parsed, Refusal>
        requires { R.reads_to self.now.reader self.now.depth }
        ensures { Gives text.now tokens.now self.now.depth result
            (reading.factor text.now tokens.now (reading.expr text.now tokens.now self.now.depth)
            context from) }
    {
        let e = self.inner(text, tokens, context, high(Infix::Product), from)?;
        if is_kind(Kind::Product, seen(tokens, context.column, e.end))
            && !edge_allows(e.tree.as_ref(), Infix::Product)
        {
            let end = e.end;
            drop(e);
            return Err(Refusal::Precedence(end));
        }
        Ok(e)
    }

    /// The operands after the first.
    #[tactic(auto, using(crate::proofs::Steps::depths_snoc))]
    fn factors(
        &self,
        text: &[u8],
        tokens: &[Token],
        context: Context,
        from: usize,
    ) -> Result<ParsedItems, Refusal>
        requires reads { R.reads_to self.now.reader self.now.depth }
        ensures { GivesItems text.now tokens.now self.now.depth result
            (reading.factors text.now tokens.now (reading.expr text.now tokens.now self.now.depth)
            (length tokens.now) [] context from) }
    {
        let mut items = Vec::new(self.alloc);
        let mut depth = 0;
        let mut at = from;
        for _turn in 0..tokens.len() {
            let e = self.factor(text, tokens, context, at)?;
            let end = e.end;
            depth = depth.max(e.depth);
            push_inner(&mut items, e.tree)?;
            let Some(next) = following(tokens, context.column, Between::Product, end) else {
                return Ok(ParsedItems { items, end, depth });
            };
            at = next;
        }
        Err(refused(tokens, context.column, at))
    }

    /// The product of the tree, which begins at the token with this number, and the operands after it.
    #[tactic(auto, unfolding(crate::specs::Reading::product))]
    pub fn product(
        &self,
        text: &[u8],
        tokens: &[Token],
        context: Context,
        start: usize,
        first: Parsed,
    ) -> Result<Parsed, Refusal>
        requires reads { R.reads_to self.now.reader self.now.depth }
        requires within { first.end < length tokens.now }
        requires depth { first.depth ≡ edges.depth (view first.tree.value) }
        requires shallow { first.depth ≤ self.now.depth + 1 }
        requires small { self.now.depth ≤ MAX_DEPTH }
        ensures { Gives text.now tokens.now (self.now.depth + 1) result
            (reading.product text.now tokens.now (reading.expr text.now tokens.now self.now.depth)
            (self.now.depth + 1) context (view first.tree.value) first.end) }
    {
        if !edge_allows(first.tree.as_ref(), Infix::Product) {
            return Err(Refusal::Precedence(first.end));
        }
        let found = self.factors(text, tokens, context, first.end + 1)?;
        let depth = first.depth.max(found.depth) + 1;
        if depth > self.depth + 1 {
            return Err(Refusal::Nesting(start));
        }
        let at = first.tree.place();
        node(
            self.alloc,
            product_of(at, first.tree, found.items),
            found.end,
            depth,
        )
    }
}
