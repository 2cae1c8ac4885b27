//! Expressions, by precedence climbing. The rules take the parser of inner expressions as a parameter, so that each is
//! proved by itself.

ghost use Rattle.std.specs.Prelude.{◌≡◌, ◌+◌, ◌-◌, ◌≤◌, ◌<◌, length, [], Some};
ghost use Rattle.tla_tree.specs.View.{view};
ghost use Rattle.tla_grammar.specs.Edges as edges;
ghost use Rattle.tla_grammar.specs.Tokens as spec;
ghost use Rattle.tla_expressions.specs.Reading as reading;
ghost use Rattle.tla_expressions.specs.Gives.{Gives, GivesDefinition};

use crate::parts::{Parsed, ParsedDefinition, index_of, node};
use crate::reader::{ExpressionReader, Start};
use std::alloc::Global;
use tla_grammar::{
    Context, Postfix, Refusal, bullet_of, constant_of, edge_allows, high, is_product, name_at,
    operator_at, postfix_at, prefix_high, prefix_of, quantifier_of, refused, seen, text_of,
};
use tla_lex::{Kind, Place, Token};
use tla_tree::{Expr, Fairness, Infix, MAX_DEPTH, Prefix, Written};

/// The rules of expressions, over a reader of the expressions in them.
#[derive(Drop)]
pub struct Grammar<R> {
    pub alloc: Global,
    /// How deep inner expressions may be.
    pub depth: usize,
    pub reader: R,
}

impl<R: ExpressionReader> Grammar<R> {
    /// An expression one level deeper.
    pub fn inner(
        &self,
        text: &[u8],
        tokens: &[Token],
        context: Context,
        floor: u8,
        at: usize,
    ) -> Result<Parsed, Refusal>
        requires { R.reads_to self.now.reader self.now.depth }
        ensures { Gives text.now tokens.now self.now.depth result
            (reading.expr text.now tokens.now self.now.depth context floor at) }
    {
        let start = Start { context, floor, at };
        self.reader
            .read(self.alloc, text, tokens, self.depth, start)
    }

    /// `f[e, ..]`, after the tree of f, which begins at the token with this number.
    #[tactic(auto, unfolding(crate::specs::Reading::indexed))]
    fn indexed(
        &self,
        text: &[u8],
        tokens: &[Token],
        context: Context,
        start: usize,
        first: Parsed,
    ) -> Result<Parsed, Refusal>
        requires reads { R.reads_to self.now.reader self.now.depth }
        requires within { first.end < length tokens.now }
        requires depth { first.depth ≡ edges.depth (view first.tree.value) }
        requires shallow { first.depth ≤ self.now.depth + 1 }
        requires small { self.now.depth ≤ MAX_DEPTH }
        ensures { Gives text.now tokens.now (self.now.depth + 1) result
            (reading.indexed text.now tokens.now (reading.expr text.now tokens.now self.now.depth)
            (self.now.depth + 1) context (view first.tree.value) first.end) }
    {
        let found = self.some(text, tokens, context, Kind::RightBracket, first.end + 1)?;
        let depth = first.depth.max(found.depth) + 1;
        if depth > self.depth + 1 {
            return Err(Refusal::Nesting(start));
        }
        let at = first.tree.place();
        node(
            self.alloc,
            index_of(at, first.tree, found.items),
            found.end,
            depth,
        )
    }

    /// One more postfix form after the tree, which begins at the token with this number.
    fn behind(
        &self,
        text: &[u8],
        tokens: &[Token],
        context: Context,
        start: usize,
        first: Parsed,
        form: Postfix,
    ) -> Result<Parsed, Refusal>
        requires reads { R.reads_to self.now.reader self.now.depth }
        requires within { first.end < length tokens.now }
        requires depth { first.depth ≡ edges.depth (view first.tree.value) }
        requires shallow { first.depth ≤ self.now.depth + 1 }
        requires small { self.now.depth ≤ MAX_DEPTH }
        ensures { Gives text.now tokens.now (self.now.depth + 1) result
            (reading.behind text.now tokens.now (reading.expr text.now tokens.now self.now.depth)
            (self.now.depth + 1) context (view first.tree.value) form first.end) }
    {
        match form {
            Postfix::Index => self.indexed(text, tokens, context, start, first),
            Postfix::Prime => {
                let depth = first.depth + 1;
                if depth > self.depth + 1 {
                    return Err(Refusal::Nesting(start));
                }
                let at = first.tree.place();
                node(
                    self.alloc,
                    Expr::Prime(at, first.tree),
                    first.end + 1,
                    depth,
                )
            }
            Postfix::Field => {
                let Some(name) = name_at(seen(tokens, context.column, first.end + 1)) else {
                    return Err(refused(tokens, context.column, first.end + 1));
                };
                let depth = first.depth + 1;
                if depth > self.depth + 1 {
                    return Err(Refusal::Nesting(start));
                }
                let name = Written::of_token(self.alloc, text, name)?;
                let at = first.tree.place();
                node(
                    self.alloc,
                    Expr::Field(at, first.tree, name),
                    first.end + 2,
                    depth,
                )
            }
        }
    }

    /// The closed form that begins at a token of this number, under the postfix forms that follow.
    fn postfixes(
        &self,
        text: &[u8],
        tokens: &[Token],
        context: Context,
        start: usize,
        first: Parsed,
    ) -> Result<Parsed, Refusal>
        requires reads { R.reads_to self.now.reader self.now.depth }
        requires depth { first.depth ≡ edges.depth (view first.tree.value) }
        requires shallow { first.depth ≤ self.now.depth + 1 }
        requires small { self.now.depth ≤ MAX_DEPTH }
        ensures { Gives text.now tokens.now (self.now.depth + 1) result
            (reading.postfixes text.now tokens.now
            (reading.expr text.now tokens.now self.now.depth) (self.now.depth + 1) context
            (view first.tree.value) first.end) }
    {
        let mut left = first;
        for _turn in 0..self.depth + 1 {
            let Some(form) = postfix_at(seen(tokens, context.column, left.end)) else {
                return Ok(left);
            };
            left = self.behind(text, tokens, context, start, left, form)?;
        }
        match postfix_at(seen(tokens, context.column, left.end)) {
            None => Ok(left),
            Some(_) => {
                drop(left);
                Err(Refusal::Nesting(start))
            }
        }
    }

    /// A prefix operator, and its operand.
    #[tactic(auto, unfolding(crate::specs::Reading::prefix))]
    fn prefix(
        &self,
        text: &[u8],
        tokens: &[Token],
        context: Context,
        op: Prefix,
        at: Place,
        from: usize,
    ) -> Result<Parsed, Refusal>
        requires reads { R.reads_to self.now.reader self.now.depth }
        requires within { from < length tokens.now }
        requires small { self.now.depth ≤ MAX_DEPTH }
        ensures { Gives text.now tokens.now (self.now.depth + 1) result
            (reading.prefix text.now tokens.now (reading.expr text.now tokens.now self.now.depth)
            context op at from) }
    {
        let e = self.inner(text, tokens, context, prefix_high(op), from + 1)?;
        node(self.alloc, Expr::Unary(at, op, e.tree), e.end, e.depth + 1)
    }

    /// The tree, which begins at a token of this number, under one more operator.
    #[tactic(auto, unfolding(crate::specs::Reading::turn))]
    fn turn(
        &self,
        text: &[u8],
        tokens: &[Token],
        context: Context,
        start: usize,
        left: Parsed,
        op: Infix,
    ) -> Result<Parsed, Refusal>
        requires reads { R.reads_to self.now.reader self.now.depth }
        requires within { left.end < length tokens.now }
        requires depth { left.depth ≡ edges.depth (view left.tree.value) }
        requires shallow { left.depth ≤ self.now.depth + 1 }
        requires small { self.now.depth ≤ MAX_DEPTH }
        ensures { Gives text.now tokens.now (self.now.depth + 1) result
            (reading.turn text.now tokens.now (reading.expr text.now tokens.now self.now.depth)
            (self.now.depth + 1) context (view left.tree.value) op left.end) }
    {
        if is_product(op) {
            return self.product(text, tokens, context, start, left);
        }
        if !edge_allows(left.tree.as_ref(), op) {
            return Err(Refusal::Precedence(left.end));
        }
        let Some(sign) = seen(tokens, context.column, left.end) else {
            return Err(refused(tokens, context.column, left.end));
        };
        let sign = Written::of_token(self.alloc, text, sign)?;
        let right = self.inner(text, tokens, context, high(op), left.end + 1)?;
        let depth = left.depth.max(right.depth) + 1;
        if depth > self.depth + 1 {
            return Err(Refusal::Nesting(start));
        }
        let at = left.tree.place();
        node(
            self.alloc,
            Expr::Binary(at, op, sign, left.tree, right.tree),
            right.end,
            depth,
        )
    }

    /// The operand that begins at a token of this number, under the operators that follow.
    fn climb(
        &self,
        text: &[u8],
        tokens: &[Token],
        context: Context,
        floor: u8,
        start: usize,
        first: Parsed,
    ) -> Result<Parsed, Refusal>
        requires reads { R.reads_to self.now.reader self.now.depth }
        requires depth { first.depth ≡ edges.depth (view first.tree.value) }
        requires shallow { first.depth ≤ self.now.depth + 1 }
        requires small { self.now.depth ≤ MAX_DEPTH }
        ensures { Gives text.now tokens.now (self.now.depth + 1) result
            (reading.climb text.now tokens.now (reading.expr text.now tokens.now self.now.depth)
            self.now.depth (self.now.depth + 1) context floor (view first.tree.value)
            first.end) }
    {
        let mut left = first;
        for _turn in 0..self.depth {
            let Some(op) = operator_at(seen(tokens, context.column, left.end), floor) else {
                return Ok(left);
            };
            left = self.turn(text, tokens, context, start, left, op)?;
        }
        match operator_at(seen(tokens, context.column, left.end), floor) {
            None => Ok(left),
            Some(_) => {
                drop(left);
                Err(Refusal::Nesting(start))
            }
        }
    }

    /// A form of one token, and the postfix forms after it.
    fn atom(
        &self,
        text: &[u8],
        tokens: &[Token],
        context: Context,
        from: usize,
        tree: Expr,
    ) -> Result<Parsed, Refusal>
        requires reads { R.reads_to self.now.reader self.now.depth }
        requires within { from < length tokens.now }
        requires flat { edges.depth (view tree) ≡ 1 }
        requires small { self.now.depth ≤ MAX_DEPTH }
        ensures { Gives text.now tokens.now (self.now.depth + 1) result
            (reading.postfixes text.now tokens.now
            (reading.expr text.now tokens.now self.now.depth) (self.now.depth + 1) context
            (view tree) (from + 1)) }
    {
        let first = node(self.alloc, tree, from + 1, 1)?;
        self.postfixes(text, tokens, context, from, first)
    }

    /// A form that begins with a bullet, a prefix operator, a quantifier or a word for a value.
    #[tactic(auto, unfolding(crate::specs::Reading::by_class))]
    fn by_class(
        &self,
        text: &[u8],
        tokens: &[Token],
        context: Context,
        t: Token,
        from: usize,
    ) -> Result<Parsed, Refusal>
        requires reads { R.reads_to self.now.reader self.now.depth }
        requires within { from < length tokens.now }
        requires token { spec.seen tokens.now context.column from ≡ Some t }
        requires small { self.now.depth ≤ MAX_DEPTH }
        ensures { Gives text.now tokens.now (self.now.depth + 1) result
            (reading.by_class text.now tokens.now
            (reading.expr text.now tokens.now self.now.depth) (self.now.depth + 1) context t
            from) }
    {
        let at = t.place;
        if let Some(bullet) = bullet_of(t.kind) {
            let e = self.junction(text, tokens, context, at, bullet, from)?;
            return self.postfixes(text, tokens, context, from, e);
        }
        if let Some(op) = prefix_of(t.kind) {
            return self.prefix(text, tokens, context, op, at, from);
        }
        if let Some(quantifier) = quantifier_of(t.kind) {
            return self.quantified(text, tokens, context, at, quantifier, from);
        }
        match constant_of(t.kind) {
            Some(constant) => {
                self.atom(text, tokens, context, from, Expr::Constant(at, constant))
            }
            None => Err(refused(tokens, context.column, from)),
        }
    }

    /// An expression whose top is no infix operator.
    #[tactic(auto, unfolding(crate::specs::Reading::operand), using(tla_lex::proofs::StringTexts::reads_text))]
    fn operand(
        &self,
        text: &[u8],
        tokens: &[Token],
        context: Context,
        from: usize,
    ) -> Result<Parsed, Refusal>
        requires reads { R.reads_to self.now.reader self.now.depth }
        requires small { self.now.depth ≤ MAX_DEPTH }
        ensures { Gives text.now tokens.now (self.now.depth + 1) result
            (reading.operand text.now tokens.now (reading.expr text.now tokens.now self.now.depth)
            (self.now.depth + 1) context from) }
    {
        let Some(t) = seen(tokens, context.column, from) else {
            return Err(refused(tokens, context.column, from));
        };
        let at = t.place;
        match t.kind {
            Kind::Name => {
                let e = self.named(text, tokens, context, t, from)?;
                self.postfixes(text, tokens, context, from, e)
            }
            Kind::Number(n) => self.atom(text, tokens, context, from, Expr::Number(at, n)),
            Kind::At => {
                if context.updating {
                    self.atom(text, tokens, context, from, Expr::At(at))
                } else {
                    Err(refused(tokens, context.column, from))
                }
            }
            Kind::LeftParen => {
                let e = self.paren(text, tokens, context, at, from)?;
                self.postfixes(text, tokens, context, from, e)
            }
            Kind::Text => {
                let word = text_of(self.alloc, text, t)?;
                self.atom(text, tokens, context, from, Expr::Text(at, word))
            }
            Kind::LeftBrace => {
                let e = self.brace(text, tokens, context, at, from)?;
                self.postfixes(text, tokens, context, from, e)
            }
            Kind::LeftTuple => {
                let e = self.tuple(text, tokens, context, at, from)?;
                self.postfixes(text, tokens, context, from, e)
            }
            Kind::LeftBracket => {
                let e = self.bracket(text, tokens, context, at, from)?;
                self.postfixes(text, tokens, context, from, e)
            }
            Kind::WeakFairness => {
                let e = self.fair(text, tokens, context, at, Fairness::Weak, from)?;
                self.postfixes(text, tokens, context, from, e)
            }
            Kind::StrongFairness => {
                let e = self.fair(text, tokens, context, at, Fairness::Strong, from)?;
                self.postfixes(text, tokens, context, from, e)
            }
            Kind::Choose => self.chosen(text, tokens, context, at, from),
            Kind::Case => self.cases(text, tokens, context, at, from),
            Kind::Let => self.lets(text, tokens, context, at, from),
            Kind::If => self.choice(text, tokens, context, at, from),
            _ => self.by_class(text, tokens, context, t, from),
        }
    }

    /// An expression, whose operand and operators may be one level deeper than inner expressions.
    #[tactic(auto, unfolding(crate::specs::Reading::level))]
    fn level(
        &self,
        text: &[u8],
        tokens: &[Token],
        context: Context,
        floor: u8,
        at: usize,
    ) -> Result<Parsed, Refusal>
        requires reads { R.reads_to self.now.reader self.now.depth }
        requires small { self.now.depth ≤ MAX_DEPTH }
        ensures { Gives text.now tokens.now (self.now.depth + 1) result
            (reading.level text.now tokens.now (reading.expr text.now tokens.now self.now.depth)
            self.now.depth context floor at) }
    {
        let first = self.operand(text, tokens, context, at)?;
        self.climb(text, tokens, context, floor, at, first)
    }
}

/// An expression of at most `depth` levels, in a context, whose top is above a floor.
#[tactic(auto, unfolding(crate::specs::Reading::expr))]
pub fn expr(
    alloc: Global,
    text: &[u8],
    tokens: &[Token],
    depth: usize,
    context: Context,
    floor: u8,
    at: usize,
) -> Result<Parsed, Refusal>
    requires { depth ≤ MAX_DEPTH }
    ensures { Gives text.now tokens.now depth result
        (reading.expr text.now tokens.now depth context floor at) }
{
    if depth == 0 {
        return Err(Refusal::Nesting(at));
    }
    Grammar {
        alloc,
        depth: depth - 1,
        reader: expr,
    }
    .level(text, tokens, context, floor, at)
}

/// A definition in a context, whose expressions are no deeper than a tree may be.
pub fn definition(
    alloc: Global,
    text: &[u8],
    tokens: &[Token],
    context: Context,
    from: usize,
) -> Result<ParsedDefinition, Refusal>
    ensures { GivesDefinition text.now tokens.now MAX_DEPTH result
        (reading.definition text.now tokens.now (reading.expr text.now tokens.now MAX_DEPTH)
        context from) }
{
    Grammar {
        alloc,
        depth: MAX_DEPTH,
        reader: expr,
    }
    .definition(text, tokens, context, from)
}
