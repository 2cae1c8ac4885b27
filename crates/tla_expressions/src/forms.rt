//! Forms that begin with a word or a quantifier, and definitions.

ghost use Rattle.std.specs.Prelude.{◌+◌, ◌-◌, ◌≤◌, ◌<◌, length, []};
ghost use Rattle.tla_tree.specs.declared.tree.TheConstants.{MAX_DEPTH};
ghost use Rattle.tla_expressions.specs.Reading as reading;
ghost use Rattle.tla_expressions.specs.Gives.{Gives, GivesArm, GivesArms, GivesDefinition, GivesDefinitions};

use crate::grammar::Grammar;
use crate::names::parameters;
use crate::parts::{
    Parsed, ParsedArm, ParsedArms, ParsedDefinition, ParsedDefinitions, arm_of, case_of,
    case_with_other, function_of, let_of, node, quantified_of,
};
use crate::reader::ExpressionReader;
use tla_grammar::{
    Between, Context, Refusal, following, is_kind, name_at, refused, refused_parameter, seen,
};
use tla_lex::{Kind, Place, Token};
use tla_tree::{Definition, Expr, Quantifier, Written, push};

impl<R: ExpressionReader> Grammar<R> {
    /// `\A x, y \in S, z \in T : p` or `\E x, y \in S, z \in T : p`
    #[tactic(auto, unfolding(crate::specs::Reading::quantified))]
    pub fn quantified(
        &self,
        text: &[u8],
        tokens: &[Token],
        context: Context,
        at: Place,
        quantifier: Quantifier,
        from: usize,
    ) -> Result<Parsed, Refusal>
        requires reads { R.reads_to self.now.reader self.now.depth }
        requires within { from < length tokens.now }
        requires small { self.now.depth ≤ MAX_DEPTH }
        ensures { Gives text.now tokens.now (self.now.depth + 1) result
            (reading.quantified text.now tokens.now
            (reading.expr text.now tokens.now self.now.depth) context at quantifier from) }
    {
        let found = self.groups(text, tokens, context, Some(from), from + 1)?;
        if !is_kind(Kind::Colon, seen(tokens, context.column, found.end)) {
            return Err(refused(tokens, context.column, found.end));
        }
        let body = self.inner(text, tokens, context, 0, found.end + 1)?;
        node(
            self.alloc,
            quantified_of(at, quantifier, found.binders, body.tree),
            body.end,
            found.depth.max(body.depth) + 1,
        )
    }

    /// `CHOOSE x \in S : p`
    #[tactic(auto, unfolding(crate::specs::Reading::chosen))]
    pub fn chosen(
        &self,
        text: &[u8],
        tokens: &[Token],
        context: Context,
        at: Place,
        from: usize,
    ) -> Result<Parsed, Refusal>
        requires reads { R.reads_to self.now.reader self.now.depth }
        requires within { from < length tokens.now }
        requires small { self.now.depth ≤ MAX_DEPTH }
        ensures { Gives text.now tokens.now (self.now.depth + 1) result
            (reading.chosen text.now tokens.now (reading.expr text.now tokens.now self.now.depth)
            context at from) }
    {
        let set = self.one_group(text, tokens, context, Some(from), from + 1)?;
        if !is_kind(Kind::Colon, seen(tokens, context.column, set.end)) {
            return Err(refused(tokens, context.column, set.end));
        }
        let body = self.inner(text, tokens, context, 0, set.end + 1)?;
        node(
            self.alloc,
            Expr::Choose(at, set.pattern, set.set, body.tree),
            body.end,
            set.depth.max(body.depth) + 1,
        )
    }

    /// `IF p THEN a ELSE b`
    #[tactic(auto, unfolding(crate::specs::Reading::choice))]
    pub fn choice(
        &self,
        text: &[u8],
        tokens: &[Token],
        context: Context,
        at: Place,
        from: usize,
    ) -> Result<Parsed, Refusal>
        requires reads { R.reads_to self.now.reader self.now.depth }
        requires within { from < length tokens.now }
        requires small { self.now.depth ≤ MAX_DEPTH }
        ensures { Gives text.now tokens.now (self.now.depth + 1) result
            (reading.choice text.now tokens.now (reading.expr text.now tokens.now self.now.depth)
            context at from) }
    {
        let condition = self.inner(text, tokens, context, 0, from + 1)?;
        if !is_kind(Kind::Then, seen(tokens, context.column, condition.end)) {
            return Err(refused(tokens, context.column, condition.end));
        }
        let first = self.inner(text, tokens, context, 0, condition.end + 1)?;
        if !is_kind(Kind::Else, seen(tokens, context.column, first.end)) {
            return Err(refused(tokens, context.column, first.end));
        }
        let second = self.inner(text, tokens, context, 0, first.end + 1)?;
        node(
            self.alloc,
            Expr::If(at, condition.tree, first.tree, second.tree),
            second.end,
            condition.depth.max(first.depth.max(second.depth)) + 1,
        )
    }

    /// An arm of CASE.
    #[tactic(auto, unfolding(crate::specs::Reading::arm_at))]
    fn arm_at(
        &self,
        text: &[u8],
        tokens: &[Token],
        context: Context,
        from: usize,
    ) -> Result<ParsedArm, Refusal>
        requires reads { R.reads_to self.now.reader self.now.depth }
        ensures { GivesArm text.now tokens.now self.now.depth result
            (reading.arm_at text.now tokens.now (reading.expr text.now tokens.now self.now.depth)
            context from) }
    {
        let guard = self.inner(text, tokens, context, 0, from)?;
        if !is_kind(Kind::Arrow, seen(tokens, context.column, guard.end)) {
            return Err(refused(tokens, context.column, guard.end));
        }
        let value = self.inner(text, tokens, context, 0, guard.end + 1)?;
        Ok(arm_of(guard, value))
    }

    /// The arms of CASE, but for OTHER.
    #[tactic(auto, using(crate::proofs::Steps::arms_depth_snoc))]
    fn arms_at(
        &self,
        text: &[u8],
        tokens: &[Token],
        context: Context,
        from: usize,
    ) -> Result<ParsedArms, Refusal>
        requires reads { R.reads_to self.now.reader self.now.depth }
        ensures { GivesArms text.now tokens.now self.now.depth result
            (reading.arms_at text.now tokens.now (reading.expr text.now tokens.now self.now.depth)
            (length tokens.now) [] context from) }
    {
        let mut arms = Vec::new(self.alloc);
        let mut depth = 0;
        let mut at = from;
        for _turn in 0..tokens.len() {
            let found = self.arm_at(text, tokens, context, at)?;
            let end = found.end;
            depth = depth.max(found.depth);
            push(&mut arms, found.arm)?;
            let Some(next) = following(tokens, context.column, Between::Arm, end) else {
                return Ok(ParsedArms { arms, end, depth });
            };
            at = next;
        }
        Err(refused(tokens, context.column, at))
    }

    /// `CASE p -> a [] .. [] OTHER -> b`
    #[tactic(auto, unfolding(crate::specs::Reading::cases))]
    pub fn cases(
        &self,
        text: &[u8],
        tokens: &[Token],
        context: Context,
        at: Place,
        from: usize,
    ) -> Result<Parsed, Refusal>
        requires reads { R.reads_to self.now.reader self.now.depth }
        requires within { from < length tokens.now }
        requires small { self.now.depth ≤ MAX_DEPTH }
        ensures { Gives text.now tokens.now (self.now.depth + 1) result
            (reading.cases text.now tokens.now (reading.expr text.now tokens.now self.now.depth)
            context at from) }
    {
        let found = self.arms_at(text, tokens, context, from + 1)?;
        let end = found.end;
        if !is_kind(Kind::Box, seen(tokens, context.column, end)) {
            let depth = found.depth + 1;
            return node(self.alloc, case_of(at, found.arms), end, depth);
        }
        if !is_kind(Kind::Other, seen(tokens, context.column, end + 1)) {
            return Err(refused(tokens, context.column, end + 1));
        }
        if !is_kind(Kind::Arrow, seen(tokens, context.column, end + 2)) {
            return Err(refused(tokens, context.column, end + 2));
        }
        let value = self.inner(text, tokens, context, 0, end + 3)?;
        node(
            self.alloc,
            case_with_other(at, found.arms, value.tree),
            value.end,
            found.depth.max(value.depth) + 1,
        )
    }

    /// `Op(p, ..) == e`, from its first parameter on; the name is the token at `form`.
    #[tactic(auto, unfolding(crate::specs::Reading::operator))]
    fn operator(
        &self,
        text: &[u8],
        tokens: &[Token],
        context: Context,
        t: Token,
        form: usize,
        from: usize,
    ) -> Result<ParsedDefinition, Refusal>
        requires reads { R.reads_to self.now.reader self.now.depth }
        requires within { from ≤ length tokens.now }
        ensures { GivesDefinition text.now tokens.now self.now.depth result
            (reading.operator text.now tokens.now
            (reading.expr text.now tokens.now self.now.depth) context t from) }
    {
        let found = parameters(self.alloc, text, tokens, context.column, form, from)?;
        let end = found.end;
        if !is_kind(Kind::RightParen, seen(tokens, context.column, end)) {
            return Err(refused_parameter(tokens, context.column, form, end));
        }
        if !is_kind(Kind::Define, seen(tokens, context.column, end + 1)) {
            return Err(refused(tokens, context.column, end + 1));
        }
        let name = Written::of_token(self.alloc, text, t)?;
        let body = self.inner(text, tokens, context, 0, end + 2)?;
        Ok(ParsedDefinition {
            definition: Definition::Operator(name, found.names, Box::into_inner(body.tree)),
            end: body.end,
            depth: body.depth,
        })
    }

    /// `f[x \in S, ..] == e`, where the name is the token at `form`.
    #[tactic(auto, unfolding(crate::specs::Reading::function))]
    fn function(
        &self,
        text: &[u8],
        tokens: &[Token],
        context: Context,
        t: Token,
        form: usize,
    ) -> Result<ParsedDefinition, Refusal>
        requires reads { R.reads_to self.now.reader self.now.depth }
        requires within { form + 2 ≤ length tokens.now }
        ensures { GivesDefinition text.now tokens.now self.now.depth result
            (reading.function text.now tokens.now
            (reading.expr text.now tokens.now self.now.depth) context t (form + 2)) }
    {
        let found = self.groups(text, tokens, context, None, form + 2)?;
        let end = found.end;
        if !is_kind(Kind::RightBracket, seen(tokens, context.column, end)) {
            return Err(refused(tokens, context.column, end));
        }
        if !is_kind(Kind::Define, seen(tokens, context.column, end + 1)) {
            return Err(refused(tokens, context.column, end + 1));
        }
        let name = Written::of_token(self.alloc, text, t)?;
        let body = self.inner(text, tokens, context, 0, end + 2)?;
        Ok(ParsedDefinition {
            definition: function_of(name, found.binders, body.tree),
            end: body.end,
            depth: found.depth.max(body.depth),
        })
    }

    /// The definition that begins with this name.
    #[tactic(auto, unfolding(crate::specs::Reading::defined))]
    fn defined(
        &self,
        text: &[u8],
        tokens: &[Token],
        context: Context,
        t: Token,
        from: usize,
    ) -> Result<ParsedDefinition, Refusal>
        requires reads { R.reads_to self.now.reader self.now.depth }
        requires within { from < length tokens.now }
        ensures { GivesDefinition text.now tokens.now self.now.depth result
            (reading.defined text.now tokens.now (reading.expr text.now tokens.now self.now.depth)
            context t from) }
    {
        if is_kind(Kind::Define, seen(tokens, context.column, from + 1)) {
            let name = Written::of_token(self.alloc, text, t)?;
            let body = self.inner(text, tokens, context, 0, from + 2)?;
            return Ok(ParsedDefinition {
                definition: Definition::Operator(
                    name,
                    Vec::new(self.alloc),
                    Box::into_inner(body.tree),
                ),
                end: body.end,
                depth: body.depth,
            });
        }
        if is_kind(Kind::LeftParen, seen(tokens, context.column, from + 1)) {
            return self.operator(text, tokens, context, t, from, from + 2);
        }
        if !is_kind(Kind::LeftBracket, seen(tokens, context.column, from + 1)) {
            return Err(refused(tokens, context.column, from + 1));
        }
        self.function(text, tokens, context, t, from)
    }

    /// A definition.
    #[tactic(auto, unfolding(crate::specs::Reading::definition))]
    pub fn definition(
        &self,
        text: &[u8],
        tokens: &[Token],
        context: Context,
        from: usize,
    ) -> Result<ParsedDefinition, Refusal>
        requires reads { R.reads_to self.now.reader self.now.depth }
        ensures { GivesDefinition text.now tokens.now self.now.depth result
            (reading.definition text.now tokens.now
            (reading.expr text.now tokens.now self.now.depth) context from) }
    {
        let Some(t) = name_at(seen(tokens, context.column, from)) else {
            return Err(refused(tokens, context.column, from));
        };
        self.defined(text, tokens, context, t, from)
    }

    /// The definitions of LET.
    #[tactic(auto, using(crate::proofs::Steps::definitions_depth_snoc))]
    fn definitions_at(
        &self,
        text: &[u8],
        tokens: &[Token],
        context: Context,
        from: usize,
    ) -> Result<ParsedDefinitions, Refusal>
        requires reads { R.reads_to self.now.reader self.now.depth }
        ensures { GivesDefinitions text.now tokens.now self.now.depth result
            (reading.definitions_at text.now tokens.now
            (reading.expr text.now tokens.now self.now.depth) (length tokens.now) [] context
            from) }
    {
        let mut definitions = Vec::new(self.alloc);
        let mut depth = 0;
        let mut at = from;
        for _turn in 0..tokens.len() {
            let found = self.definition(text, tokens, context, at)?;
            let end = found.end;
            depth = depth.max(found.depth);
            push(&mut definitions, found.definition)?;
            let Some(next) = following(tokens, context.column, Between::Nothing, end) else {
                return Ok(ParsedDefinitions {
                    definitions,
                    end,
                    depth,
                });
            };
            at = next;
        }
        Err(refused(tokens, context.column, at))
    }

    /// `LET` definitions `IN e`
    #[tactic(auto, unfolding(crate::specs::Reading::lets))]
    pub fn lets(
        &self,
        text: &[u8],
        tokens: &[Token],
        context: Context,
        at: Place,
        from: usize,
    ) -> Result<Parsed, Refusal>
        requires reads { R.reads_to self.now.reader self.now.depth }
        requires within { from < length tokens.now }
        requires small { self.now.depth ≤ MAX_DEPTH }
        ensures { Gives text.now tokens.now (self.now.depth + 1) result
            (reading.lets text.now tokens.now (reading.expr text.now tokens.now self.now.depth)
            context at from) }
    {
        let found = self.definitions_at(text, tokens, context, from + 1)?;
        if !is_kind(Kind::In, seen(tokens, context.column, found.end)) {
            return Err(refused(tokens, context.column, found.end));
        }
        let body = self.inner(text, tokens, context, 0, found.end + 1)?;
        node(
            self.alloc,
            let_of(at, found.definitions, body.tree),
            body.end,
            found.depth.max(body.depth) + 1,
        )
    }
}
