//! Forms in brackets and braces, and subscripts.

ghost use Rattle.std.specs.Prelude.{◌≡◌, ℕ, ◌+◌, ◌-◌, ◌≤◌, ◌<◌, length, slice_get, suc, IfOk, IfErr, OnOk, IsTrue, map, [], ◌∷◌, ◌++◌};
ghost use Rattle.tla_tree.specs.View.{view, group_view, field_view, key_view, update_view};
ghost use Rattle.tla_tree.specs.Tree as tree;
ghost use Rattle.tla_tree.specs.Tree.{trees, binders};
ghost use Rattle.tla_tree.specs.declared.tree.TheConstants.{MAX_DEPTH};
ghost use Rattle.tla_grammar.specs.Edges as edges;
ghost use Rattle.tla_expressions.specs.Reading.{expr};
ghost use Rattle.tla_expressions.specs.ReadingBrackets as reading;
ghost use Rattle.tla_expressions.specs.Gives.{Gives, GivesItems, GivesTrees};

use crate::grammar::Grammar;
use crate::parts::{Parsed, ParsedItems, image_of, listing_of, mapping_of, node};
use crate::reader::ExpressionReader;
use tla_grammar::{
    Between, Context, Opened, Refusal, binds, filters, following, is_kind, opened_by, refused, seen,
};
use tla_lex::{Kind, Place, Token};
use tla_tree::{Brackets, Expr, Fairness, Step, Written, push_inner};

/// The token that opens a form: its number and its place.
#[derive(Clone, Copy)]
struct Opener {
    start: usize,
    place: Place,
}

impl<R: ExpressionReader> Grammar<R> {
    /// The expressions after the first, and the closing bracket.
    #[tactic(auto, unfolding(crate::specs::ReadingBrackets::others))]
    fn others(
        &self,
        text: &[u8],
        tokens: &[Token],
        context: Context,
        close: Kind,
        first: Parsed,
    ) -> Result<ParsedItems, Refusal>
        requires reads { R.reads_to self.now.reader self.now.depth }
        requires depth { first.depth ≡ edges.depth (view first.tree.value) }
        requires shallow { first.depth ≤ self.now.depth }
        ensures { GivesTrees text.now tokens.now self.now.depth result
            (reading.others text.now tokens.now (expr text.now tokens.now self.now.depth) context
            close (view first.tree.value) first.end) }
    {
        let mut items = Vec::new(self.alloc);
        push_inner(&mut items, first.tree)?;
        let depth = first.depth;
        let found = match following(tokens, context.column, Between::Comma, first.end) {
            None => ParsedItems {
                items,
                end: first.end,
                depth,
            },
            Some(end) => {
                let front = ParsedItems { items, end, depth };
                self.exprs_behind(text, tokens, context, Between::Comma, front)?
            }
        };
        if !is_kind(close, seen(tokens, context.column, found.end)) {
            return Err(refused(tokens, context.column, found.end));
        }
        Ok(ParsedItems {
            items: found.items,
            end: found.end + 1,
            depth: found.depth,
        })
    }

    /// A subscript: a name, a tuple or `(e)`.
    #[tactic(auto, unfolding(crate::specs::ReadingBrackets::subscript), using(tla_grammar::proofs::Fails::refuses_fails))]
    fn subscript(
        &self,
        text: &[u8],
        tokens: &[Token],
        context: Context,
        from: usize,
    ) -> Result<Parsed, Refusal>
        requires reads { R.reads_to self.now.reader self.now.depth }
        requires small { self.now.depth ≤ MAX_DEPTH }
        ensures { Gives text.now tokens.now (self.now.depth + 1) result
            (reading.subscript text.now tokens.now (expr text.now tokens.now self.now.depth)
            context from) }
    {
        let Some(t) = seen(tokens, context.column, from) else {
            return Err(refused(tokens, context.column, from));
        };
        match t.kind {
            Kind::Name => node(
                self.alloc,
                Expr::Name(Written::of_token(self.alloc, text, t)?),
                from + 1,
                1,
            ),
            Kind::LeftTuple => self.listing(text, tokens, context, t.place, Brackets::Tuple, from),
            Kind::LeftParen => self.paren(text, tokens, context, t.place, from),
            _ => Err(refused(tokens, context.column, from)),
        }
    }

    /// The action that this token opened, with the subscript after its closing bracket.
    #[tactic(auto, unfolding(crate::specs::ReadingBrackets::action))]
    fn action(
        &self,
        text: &[u8],
        tokens: &[Token],
        context: Context,
        opener: Opener,
        step: Step,
        first: Parsed,
    ) -> Result<Parsed, Refusal>
        requires reads { R.reads_to self.now.reader self.now.depth }
        requires within { first.end < length tokens.now }
        requires depth { first.depth ≡ edges.depth (view first.tree.value) }
        requires shallow { first.depth ≤ self.now.depth }
        requires small { self.now.depth ≤ MAX_DEPTH }
        ensures { Gives text.now tokens.now (self.now.depth + 1) result
            (reading.action text.now tokens.now (expr text.now tokens.now self.now.depth)
            (self.now.depth + 1) context opener.place step (view first.tree.value) first.end) }
    {
        let subscript = self.subscript(text, tokens, context, first.end + 1)?;
        let depth = first.depth.max(subscript.depth) + 1;
        if depth > self.depth + 1 {
            return Err(Refusal::Nesting(opener.start));
        }
        node(
            self.alloc,
            Expr::Action(opener.place, step, first.tree, subscript.tree),
            subscript.end,
            depth,
        )
    }

    /// `WF_v(A)` or `SF_v(A)`
    #[tactic(auto, unfolding(crate::specs::ReadingBrackets::fair))]
    pub fn fair(
        &self,
        text: &[u8],
        tokens: &[Token],
        context: Context,
        at: Place,
        fairness: Fairness,
        from: usize,
    ) -> Result<Parsed, Refusal>
        requires reads { R.reads_to self.now.reader self.now.depth }
        requires within { from < length tokens.now }
        requires small { self.now.depth ≤ MAX_DEPTH }
        ensures { Gives text.now tokens.now (self.now.depth + 1) result
            (reading.fair text.now tokens.now (expr text.now tokens.now self.now.depth)
            (self.now.depth + 1) context at fairness from) }
    {
        let subscript = self.subscript(text, tokens, context, from + 1)?;
        if !is_kind(Kind::LeftParen, seen(tokens, context.column, subscript.end)) {
            return Err(refused(tokens, context.column, subscript.end));
        }
        let action = self.inner(text, tokens, context, 0, subscript.end + 1)?;
        if !is_kind(Kind::RightParen, seen(tokens, context.column, action.end)) {
            return Err(refused(tokens, context.column, action.end));
        }
        let depth = subscript.depth.max(action.depth) + 1;
        if depth > self.depth + 1 {
            return Err(Refusal::Nesting(from));
        }
        node(
            self.alloc,
            Expr::Fair(at, fairness, subscript.tree, action.tree),
            action.end + 1,
            depth,
        )
    }

    /// `{x \in S : p}`
    #[tactic(auto, unfolding(crate::specs::ReadingBrackets::filter))]
    fn filter(
        &self,
        text: &[u8],
        tokens: &[Token],
        context: Context,
        at: Place,
        from: usize,
    ) -> Result<Parsed, Refusal>
        requires reads { R.reads_to self.now.reader self.now.depth }
        requires within { from < length tokens.now }
        requires small { self.now.depth ≤ MAX_DEPTH }
        ensures { Gives text.now tokens.now (self.now.depth + 1) result
            (reading.filter text.now tokens.now (expr text.now tokens.now self.now.depth) context
            at from) }
    {
        let set = self.one_group(text, tokens, context, None, from + 1)?;
        if !is_kind(Kind::Colon, seen(tokens, context.column, set.end)) {
            return Err(refused(tokens, context.column, set.end));
        }
        let test = self.inner(text, tokens, context, 0, set.end + 1)?;
        if !is_kind(Kind::RightBrace, seen(tokens, context.column, test.end)) {
            return Err(refused(tokens, context.column, test.end));
        }
        node(
            self.alloc,
            Expr::Filter(at, set.pattern, set.set, test.tree),
            test.end + 1,
            set.depth.max(test.depth) + 1,
        )
    }

    /// `{e : x, y \in S}`, after e.
    #[tactic(auto, unfolding(crate::specs::ReadingBrackets::image))]
    fn image(
        &self,
        text: &[u8],
        tokens: &[Token],
        context: Context,
        at: Place,
        first: Parsed,
    ) -> Result<Parsed, Refusal>
        requires reads { R.reads_to self.now.reader self.now.depth }
        requires within { first.end < length tokens.now }
        requires depth { first.depth ≡ edges.depth (view first.tree.value) }
        requires shallow { first.depth ≤ self.now.depth }
        requires small { self.now.depth ≤ MAX_DEPTH }
        ensures { Gives text.now tokens.now (self.now.depth + 1) result
            (reading.image text.now tokens.now (expr text.now tokens.now self.now.depth) context
            at (view first.tree.value) first.end) }
    {
        let found = self.groups(text, tokens, context, None, first.end + 1)?;
        if !is_kind(Kind::RightBrace, seen(tokens, context.column, found.end)) {
            return Err(refused(tokens, context.column, found.end));
        }
        node(
            self.alloc,
            image_of(at, first.tree, found.binders),
            found.end + 1,
            first.depth.max(found.depth) + 1,
        )
    }

    /// A set, after its first expression.
    #[tactic(auto, unfolding(crate::specs::ReadingBrackets::set_of))]
    fn set_of(
        &self,
        text: &[u8],
        tokens: &[Token],
        context: Context,
        at: Place,
        from: usize,
        first: Parsed,
    ) -> Result<Parsed, Refusal>
        requires reads { R.reads_to self.now.reader self.now.depth }
        requires within { from < length tokens.now }
        requires depth { first.depth ≡ edges.depth (view first.tree.value) }
        requires shallow { first.depth ≤ self.now.depth }
        requires small { self.now.depth ≤ MAX_DEPTH }
        ensures { Gives text.now tokens.now (self.now.depth + 1) result
            (reading.set_of text.now tokens.now (expr text.now tokens.now self.now.depth) context
            at from (view first.tree.value) first.end) }
    {
        if is_kind(Kind::Colon, seen(tokens, context.column, first.end)) {
            if binds(tokens, context.column, from + 1).is_some() {
                let end = first.end;
                drop(first);
                return Err(refused(tokens, context.column, end));
            }
            return self.image(text, tokens, context, at, first);
        }
        let found = self.others(text, tokens, context, Kind::RightBrace, first)?;
        let end = found.end;
        let depth = found.depth + 1;
        node(
            self.alloc,
            listing_of(at, Brackets::Set, found.items),
            end,
            depth,
        )
    }

    /// A form in braces.
    #[tactic(auto, unfolding(crate::specs::ReadingBrackets::brace))]
    pub fn brace(
        &self,
        text: &[u8],
        tokens: &[Token],
        context: Context,
        at: Place,
        from: usize,
    ) -> Result<Parsed, Refusal>
        requires reads { R.reads_to self.now.reader self.now.depth }
        requires within { from < length tokens.now }
        requires small { self.now.depth ≤ MAX_DEPTH }
        ensures { Gives text.now tokens.now (self.now.depth + 1) result
            (reading.brace text.now tokens.now (expr text.now tokens.now self.now.depth) context
            at from) }
    {
        if is_kind(Kind::RightBrace, seen(tokens, context.column, from + 1)) {
            return node(
                self.alloc,
                listing_of(at, Brackets::Set, Vec::new(self.alloc)),
                from + 2,
                1,
            );
        }
        if filters(tokens, context.column, from + 1) {
            return self.filter(text, tokens, context, at, from);
        }
        let first = self.inner(text, tokens, context, 0, from + 1)?;
        self.set_of(text, tokens, context, at, from, first)
    }

    /// `<<e, ..>>` or `<<A>>_v`
    #[tactic(auto, unfolding(crate::specs::ReadingBrackets::tuple))]
    pub fn tuple(
        &self,
        text: &[u8],
        tokens: &[Token],
        context: Context,
        at: Place,
        from: usize,
    ) -> Result<Parsed, Refusal>
        requires reads { R.reads_to self.now.reader self.now.depth }
        requires within { from < length tokens.now }
        requires small { self.now.depth ≤ MAX_DEPTH }
        ensures { Gives text.now tokens.now (self.now.depth + 1) result
            (reading.tuple text.now tokens.now (expr text.now tokens.now self.now.depth)
            (self.now.depth + 1) context at from) }
    {
        if is_kind(Kind::RightTuple, seen(tokens, context.column, from + 1)) {
            return node(
                self.alloc,
                listing_of(at, Brackets::Tuple, Vec::new(self.alloc)),
                from + 2,
                1,
            );
        }
        let first = self.inner(text, tokens, context, 0, from + 1)?;
        if is_kind(
            Kind::RightTupleSubscript,
            seen(tokens, context.column, first.end),
        ) {
            let opener = Opener {
                start: from,
                place: at,
            };
            return self.action(text, tokens, context, opener, Step::Angle, first);
        }
        let found = self.others(text, tokens, context, Kind::RightTuple, first)?;
        let end = found.end;
        let depth = found.depth + 1;
        node(
            self.alloc,
            listing_of(at, Brackets::Tuple, found.items),
            end,
            depth,
        )
    }

    /// `[x, y \in S |-> e]`
    #[tactic(auto, unfolding(crate::specs::ReadingBrackets::mapping))]
    fn mapping(
        &self,
        text: &[u8],
        tokens: &[Token],
        context: Context,
        at: Place,
        from: usize,
    ) -> Result<Parsed, Refusal>
        requires reads { R.reads_to self.now.reader self.now.depth }
        requires within { from < length tokens.now }
        requires small { self.now.depth ≤ MAX_DEPTH }
        ensures { Gives text.now tokens.now (self.now.depth + 1) result
            (reading.mapping text.now tokens.now (expr text.now tokens.now self.now.depth) context
            at from) }
    {
        let found = self.groups(text, tokens, context, None, from + 1)?;
        if !is_kind(Kind::MapsTo, seen(tokens, context.column, found.end)) {
            return Err(refused(tokens, context.column, found.end));
        }
        let body = self.inner(text, tokens, context, 0, found.end + 1)?;
        if !is_kind(Kind::RightBracket, seen(tokens, context.column, body.end)) {
            return Err(refused(tokens, context.column, body.end));
        }
        node(
            self.alloc,
            mapping_of(at, found.binders, body.tree),
            body.end + 1,
            found.depth.max(body.depth) + 1,
        )
    }

    /// `[S -> T]`, after S.
    #[tactic(auto, unfolding(crate::specs::ReadingBrackets::function_set))]
    fn function_set(
        &self,
        text: &[u8],
        tokens: &[Token],
        context: Context,
        at: Place,
        first: Parsed,
    ) -> Result<Parsed, Refusal>
        requires reads { R.reads_to self.now.reader self.now.depth }
        requires within { first.end < length tokens.now }
        requires depth { first.depth ≡ edges.depth (view first.tree.value) }
        requires shallow { first.depth ≤ self.now.depth }
        requires small { self.now.depth ≤ MAX_DEPTH }
        ensures { Gives text.now tokens.now (self.now.depth + 1) result
            (reading.function_set text.now tokens.now (expr text.now tokens.now self.now.depth)
            context at (view first.tree.value) first.end) }
    {
        let range = self.inner(text, tokens, context, 0, first.end + 1)?;
        if !is_kind(Kind::RightBracket, seen(tokens, context.column, range.end)) {
            return Err(refused(tokens, context.column, range.end));
        }
        node(
            self.alloc,
            Expr::FunctionSet(at, first.tree, range.tree),
            range.end + 1,
            first.depth.max(range.depth) + 1,
        )
    }

    /// A form in brackets that begins with an expression, after that.
    #[tactic(auto, unfolding(crate::specs::ReadingBrackets::behind_first))]
    fn behind_first(
        &self,
        text: &[u8],
        tokens: &[Token],
        context: Context,
        at: Place,
        start: usize,
        first: Parsed,
    ) -> Result<Parsed, Refusal>
        requires reads { R.reads_to self.now.reader self.now.depth }
        requires depth { first.depth ≡ edges.depth (view first.tree.value) }
        requires shallow { first.depth ≤ self.now.depth }
        requires small { self.now.depth ≤ MAX_DEPTH }
        ensures { Gives text.now tokens.now (self.now.depth + 1) result
            (reading.behind_first text.now tokens.now (expr text.now tokens.now self.now.depth)
            (self.now.depth + 1) context at (view first.tree.value) first.end) }
    {
        if is_kind(Kind::Arrow, seen(tokens, context.column, first.end)) {
            return self.function_set(text, tokens, context, at, first);
        }
        if is_kind(Kind::Except, seen(tokens, context.column, first.end)) {
            return self.except(text, tokens, context, at, first);
        }
        if !is_kind(
            Kind::RightBracketSubscript,
            seen(tokens, context.column, first.end),
        ) {
            let end = first.end;
            drop(first);
            return Err(refused(tokens, context.column, end));
        }
        let opener = Opener { start, place: at };
        self.action(text, tokens, context, opener, Step::Box, first)
    }

    /// A form in brackets.
    #[tactic(auto, unfolding(crate::specs::ReadingBrackets::bracket))]
    pub fn bracket(
        &self,
        text: &[u8],
        tokens: &[Token],
        context: Context,
        at: Place,
        from: usize,
    ) -> Result<Parsed, Refusal>
        requires reads { R.reads_to self.now.reader self.now.depth }
        requires within { from < length tokens.now }
        requires small { self.now.depth ≤ MAX_DEPTH }
        ensures { Gives text.now tokens.now (self.now.depth + 1) result
            (reading.bracket text.now tokens.now (expr text.now tokens.now self.now.depth)
            (self.now.depth + 1) context at from) }
    {
        match opened_by(tokens, context.column, from + 1) {
            Opened::Record => self.record(text, tokens, context, at, from),
            Opened::RecordSet => self.record_set(text, tokens, context, at, from),
            Opened::Binders => self.mapping(text, tokens, context, at, from),
            Opened::Expression => {
                let first = self.inner(text, tokens, context, 0, from + 1)?;
                self.behind_first(text, tokens, context, at, from, first)
            }
        }
    }
}
