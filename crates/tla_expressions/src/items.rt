//! Lists of expressions, the forms that are lists, and binder lists.

ghost use Rattle.std.specs.Prelude.{◌≡◌, ◌+◌, ◌-◌, ◌≤◌, ◌<◌, length, map, []};
ghost use Rattle.tla_tree.specs.View.{view, pattern_view};
ghost use Rattle.tla_tree.specs.Tree.{trees};
ghost use Rattle.tla_tree.specs.declared.tree.TheConstants.{MAX_DEPTH};
ghost use Rattle.tla_grammar.specs.Edges as edges;
ghost use Rattle.tla_expressions.specs.Reading as reading;
ghost use Rattle.tla_expressions.specs.ReadingLists as lists;
ghost use Rattle.tla_expressions.specs.Gives.{Gives, GivesItems, GivesTrees, GivesGroup, GivesGroups};

use crate::grammar::Grammar;
use crate::names::{ParsedPattern, pattern, single};
use crate::parts::{
    Parsed, ParsedBinder, ParsedBinders, ParsedItems, binder_of, call_of, junction_of, listing_of,
    node,
};
use crate::reader::ExpressionReader;
use tla_grammar::{
    Between, Context, Refusal, closing, following, is_kind, may_follow, refused, refused_binder,
    seen,
};
use tla_lex::{Kind, Place, Token};
use tla_tree::{Brackets, Bullet, Expr, Written, push, push_inner};

impl<R: ExpressionReader> Grammar<R> {
    /// One or more expressions, with commas or bullets between them, after those that were parsed. These end where the
    /// next begins.
    #[tactic(auto, using(crate::proofs::Steps::depths_snoc))]
    pub fn exprs_behind(
        &self,
        text: &[u8],
        tokens: &[Token],
        context: Context,
        between: Between,
        front: ParsedItems,
    ) -> Result<ParsedItems, Refusal>
        requires reads { R.reads_to self.now.reader self.now.depth }
        requires depth { front.depth ≡ edges.depths (trees (map view front.items.items)) }
        requires shallow { front.depth ≤ self.now.depth }
        ensures { GivesItems text.now tokens.now self.now.depth result
            (lists.exprs text.now tokens.now (reading.expr text.now tokens.now self.now.depth)
            (length tokens.now) (map view front.items.items) context between front.end) }
    {
        let mut items = front.items;
        let mut depth = front.depth;
        let mut at = front.end;
        for _turn in 0..tokens.len() {
            let e = self.inner(text, tokens, context, 0, at)?;
            let end = e.end;
            depth = depth.max(e.depth);
            push_inner(&mut items, e.tree)?;
            let Some(next) = following(tokens, context.column, between, end) else {
                return Ok(ParsedItems { items, end, depth });
            };
            at = next;
        }
        Err(refused(tokens, context.column, at))
    }

    /// One or more expressions, with commas or bullets between them.
    pub fn exprs(
        &self,
        text: &[u8],
        tokens: &[Token],
        context: Context,
        between: Between,
        from: usize,
    ) -> Result<ParsedItems, Refusal>
        requires reads { R.reads_to self.now.reader self.now.depth }
        ensures { GivesItems text.now tokens.now self.now.depth result
            (lists.exprs text.now tokens.now (reading.expr text.now tokens.now self.now.depth)
            (length tokens.now) [] context between from) }
    {
        let front = ParsedItems {
            items: Vec::new(self.alloc),
            end: from,
            depth: 0,
        };
        self.exprs_behind(text, tokens, context, between, front)
    }

    /// One or more expressions with commas between them, and the closing bracket.
    #[tactic(auto, unfolding(crate::specs::ReadingLists::some))]
    pub fn some(
        &self,
        text: &[u8],
        tokens: &[Token],
        context: Context,
        close: Kind,
        from: usize,
    ) -> Result<ParsedItems, Refusal>
        requires reads { R.reads_to self.now.reader self.now.depth }
        ensures { GivesTrees text.now tokens.now self.now.depth result
            (lists.some text.now tokens.now (reading.expr text.now tokens.now self.now.depth)
            context close from) }
    {
        let found = self.exprs(text, tokens, context, Between::Comma, from)?;
        if !is_kind(close, seen(tokens, context.column, found.end)) {
            return Err(refused(tokens, context.column, found.end));
        }
        Ok(ParsedItems {
            items: found.items,
            end: found.end + 1,
            depth: found.depth,
        })
    }

    /// `{e, ..}` or `<<e, ..>>`
    #[tactic(auto, unfolding(crate::specs::ReadingLists::listing))]
    pub fn listing(
        &self,
        text: &[u8],
        tokens: &[Token],
        context: Context,
        at: Place,
        brackets: Brackets,
        from: usize,
    ) -> Result<Parsed, Refusal>
        requires reads { R.reads_to self.now.reader self.now.depth }
        requires within { from < length tokens.now }
        requires small { self.now.depth ≤ MAX_DEPTH }
        ensures { Gives text.now tokens.now (self.now.depth + 1) result
            (lists.listing text.now tokens.now (reading.expr text.now tokens.now self.now.depth)
            context at brackets from) }
    {
        let close = closing(brackets);
        if is_kind(close, seen(tokens, context.column, from + 1)) {
            return node(
                self.alloc,
                listing_of(at, brackets, Vec::new(self.alloc)),
                from + 2,
                1,
            );
        }
        let found = self.some(text, tokens, context, close, from + 1)?;
        let end = found.end;
        let depth = found.depth + 1;
        node(
            self.alloc,
            listing_of(at, brackets, found.items),
            end,
            depth,
        )
    }

    /// A name alone, or with arguments.
    #[tactic(auto, unfolding(crate::specs::Reading::named, crate::specs::ReadingLists::call))]
    pub fn named(
        &self,
        text: &[u8],
        tokens: &[Token],
        context: Context,
        t: Token,
        from: usize,
    ) -> Result<Parsed, Refusal>
        requires reads { R.reads_to self.now.reader self.now.depth }
        requires within { from < length tokens.now }
        requires small { self.now.depth ≤ MAX_DEPTH }
        ensures { Gives text.now tokens.now (self.now.depth + 1) result
            (reading.named text.now tokens.now (reading.expr text.now tokens.now self.now.depth)
            context t from) }
    {
        let name = Written::of_token(self.alloc, text, t)?;
        if !is_kind(Kind::LeftParen, seen(tokens, context.column, from + 1)) {
            return node(self.alloc, Expr::Name(name), from + 1, 1);
        }
        let found = self.some(text, tokens, context, Kind::RightParen, from + 2)?;
        let end = found.end;
        let depth = found.depth + 1;
        node(self.alloc, call_of(name, found.items), end, depth)
    }

    /// `(e)`
    #[tactic(auto, unfolding(crate::specs::ReadingLists::paren))]
    pub fn paren(
        &self,
        text: &[u8],
        tokens: &[Token],
        context: Context,
        at: Place,
        from: usize,
    ) -> Result<Parsed, Refusal>
        requires reads { R.reads_to self.now.reader self.now.depth }
        requires within { from < length tokens.now }
        requires small { self.now.depth ≤ MAX_DEPTH }
        ensures { Gives text.now tokens.now (self.now.depth + 1) result
            (lists.paren text.now tokens.now (reading.expr text.now tokens.now self.now.depth)
            context at from) }
    {
        let e = self.inner(text, tokens, context, 0, from + 1)?;
        if !is_kind(Kind::RightParen, seen(tokens, context.column, e.end)) {
            return Err(refused(tokens, context.column, e.end));
        }
        node(self.alloc, Expr::Paren(at, e.tree), e.end + 1, e.depth + 1)
    }

    /// The set of an entry, after its names. The form at `form` may be left out for its binders.
    #[tactic(auto, unfolding(crate::specs::ReadingLists::set_behind))]
    fn set_behind(
        &self,
        text: &[u8],
        tokens: &[Token],
        context: Context,
        form: Option<usize>,
        front: ParsedPattern,
    ) -> Result<ParsedBinder, Refusal>
        requires { R.reads_to self.now.reader self.now.depth }
        ensures { GivesGroup text.now tokens.now self.now.depth result
            (lists.set_behind text.now tokens.now
            (reading.expr text.now tokens.now self.now.depth) context
            (pattern_view front.pattern) front.end) }
    {
        if !is_kind(Kind::Member, seen(tokens, context.column, front.end)) {
            return Err(refused_binder(tokens, context.column, form, front.end));
        }
        let set = self.inner(text, tokens, context, 0, front.end + 1)?;
        Ok(ParsedBinder {
            pattern: front.pattern,
            set: set.tree,
            end: set.end,
            depth: set.depth,
        })
    }

    /// An entry of a binder list. The form at `form` may be left out for its binders.
    #[tactic(auto, unfolding(crate::specs::ReadingLists::group))]
    pub fn group(
        &self,
        text: &[u8],
        tokens: &[Token],
        context: Context,
        form: Option<usize>,
        from: usize,
    ) -> Result<ParsedBinder, Refusal>
        requires reads { R.reads_to self.now.reader self.now.depth }
        requires within { from ≤ length tokens.now }
        ensures { GivesGroup text.now tokens.now self.now.depth result
            (lists.group text.now tokens.now (reading.expr text.now tokens.now self.now.depth)
            context from) }
    {
        let front = pattern(self.alloc, text, tokens, context.column, from)?;
        self.set_behind(text, tokens, context, form, front)
    }

    /// An entry of one element. The form at `form` may be left out for it.
    #[tactic(auto, unfolding(crate::specs::ReadingLists::one_group))]
    pub fn one_group(
        &self,
        text: &[u8],
        tokens: &[Token],
        context: Context,
        form: Option<usize>,
        from: usize,
    ) -> Result<ParsedBinder, Refusal>
        requires reads { R.reads_to self.now.reader self.now.depth }
        requires within { from ≤ length tokens.now }
        ensures { GivesGroup text.now tokens.now self.now.depth result
            (lists.one_group text.now tokens.now (reading.expr text.now tokens.now self.now.depth)
            context from) }
    {
        let front = single(self.alloc, text, tokens, context.column, from)?;
        self.set_behind(text, tokens, context, form, front)
    }

    /// A binder list. The form at `form` may be left out for its binders.
    #[tactic(auto, using(crate::proofs::Steps::bound_depth_snoc))]
    pub fn groups(
        &self,
        text: &[u8],
        tokens: &[Token],
        context: Context,
        form: Option<usize>,
        from: usize,
    ) -> Result<ParsedBinders, Refusal>
        requires reads { R.reads_to self.now.reader self.now.depth }
        requires within { from ≤ length tokens.now }
        ensures { GivesGroups text.now tokens.now self.now.depth result
            (lists.groups text.now tokens.now (reading.expr text.now tokens.now self.now.depth)
            (length tokens.now) [] context from) }
    {
        let mut binders = Vec::new(self.alloc);
        let mut depth = 0;
        let mut at = from;
        for _turn in 0..tokens.len() {
            let group = self.group(text, tokens, context, form, at)?;
            let end = group.end;
            depth = depth.max(group.depth);
            push(&mut binders, binder_of(group.pattern, group.set))?;
            let Some(next) = following(tokens, context.column, Between::Comma, end) else {
                return Ok(ParsedBinders {
                    binders,
                    end,
                    depth,
                });
            };
            at = next;
        }
        Err(refused(tokens, context.column, at))
    }

    /// A junction list.
    #[tactic(auto, unfolding(crate::specs::Reading::junction))]
    pub fn junction(
        &self,
        text: &[u8],
        tokens: &[Token],
        context: Context,
        at: Place,
        bullet: Bullet,
        from: usize,
    ) -> Result<Parsed, Refusal>
        requires reads { R.reads_to self.now.reader self.now.depth }
        requires within { from < length tokens.now }
        requires small { self.now.depth ≤ MAX_DEPTH }
        ensures { Gives text.now tokens.now (self.now.depth + 1) result
            (reading.junction text.now tokens.now
            (reading.expr text.now tokens.now self.now.depth) context at bullet from) }
    {
        let items_context = context.of_items(at.column);
        let found = self.exprs(
            text,
            tokens,
            items_context,
            Between::Bullet(bullet),
            from + 1,
        )?;
        if !may_follow(tokens, at.column, found.end) {
            return Err(refused(tokens, context.column, found.end));
        }
        let end = found.end;
        let depth = found.depth + 1;
        node(self.alloc, junction_of(at, bullet, found.items), end, depth)
    }
}
