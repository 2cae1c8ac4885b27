//! Records, and EXCEPT.

ghost use Rattle.std.specs.Prelude.{◌≡◌, ℕ, ◌+◌, ◌-◌, ◌≤◌, ◌<◌, length, slice_get, suc, IfOk, IfErr, OnOk, map, [], ◌∷◌, ◌++◌};
ghost use Rattle.tla_tree.specs.View.{view, group_view, field_view, key_view, update_view};
ghost use Rattle.tla_tree.specs.Tree as tree;
ghost use Rattle.tla_tree.specs.Tree.{trees, binders};
ghost use Rattle.tla_tree.specs.declared.tree.TheConstants.{MAX_DEPTH};
ghost use Rattle.tla_grammar.specs.Edges as edges;
ghost use Rattle.tla_expressions.specs.Reading.{expr};
ghost use Rattle.tla_expressions.specs.ReadingBrackets as reading;
ghost use Rattle.tla_expressions.specs.Gives.{Gives, GivesItems, GivesTrees};
ghost use Rattle.tla_expressions.specs.Private.GivesRecords.{GivesField, GivesFields, GivesKey, GivesKeys, GivesUpdate, GivesUpdates};

use crate::grammar::Grammar;
use crate::parts::{Parsed, node};
use crate::reader::ExpressionReader;
use crate::record_parts::{
    ParsedField, ParsedFields, ParsedKey, ParsedKeys, ParsedUpdate, ParsedUpdates, except_of,
    key_of, record_of, record_set_of,
};
use tla_grammar::{Between, Context, Refusal, following, is_kind, name_at, refused, seen};
use tla_lex::{Kind, Place, Token};
use tla_tree::{Field, Key, Update, Written, push};

impl<R: ExpressionReader> Grammar<R> {
    /// A field, with this token after its name.
    #[tactic(auto, unfolding(crate::specs::ReadingBrackets::entry))]
    fn entry(
        &self,
        text: &[u8],
        tokens: &[Token],
        context: Context,
        mark: Kind,
        from: usize,
    ) -> Result<ParsedField, Refusal>
        requires reads { R.reads_to self.now.reader self.now.depth }
        ensures { GivesField text.now tokens.now self.now.depth result
            (reading.entry text.now tokens.now (expr text.now tokens.now self.now.depth) context
            mark from) }
    {
        let Some(name) = name_at(seen(tokens, context.column, from)) else {
            return Err(refused(tokens, context.column, from));
        };
        let name = Written::of_token(self.alloc, text, name)?;
        if !is_kind(mark, seen(tokens, context.column, from + 1)) {
            return Err(refused(tokens, context.column, from + 1));
        }
        let value = self.inner(text, tokens, context, 0, from + 2)?;
        Ok(ParsedField {
            field: Field {
                name,
                value: Box::into_inner(value.tree),
            },
            end: value.end,
            depth: value.depth,
        })
    }

    /// Fields, with this token after each name.
    #[tactic(auto, using(crate::proofs::StepsRecords::fields_depth_snoc))]
    fn entries(
        &self,
        text: &[u8],
        tokens: &[Token],
        context: Context,
        mark: Kind,
        from: usize,
    ) -> Result<ParsedFields, Refusal>
        requires reads { R.reads_to self.now.reader self.now.depth }
        ensures { GivesFields text.now tokens.now self.now.depth result
            (reading.entries text.now tokens.now (expr text.now tokens.now self.now.depth)
            (length tokens.now) [] context mark from) }
    {
        let mut fields = Vec::new(self.alloc);
        let mut depth = 0;
        let mut at = from;
        for _turn in 0..tokens.len() {
            let found = self.entry(text, tokens, context, mark, at)?;
            let end = found.end;
            depth = depth.max(found.depth);
            push(&mut fields, found.field)?;
            let Some(next) = following(tokens, context.column, Between::Comma, end) else {
                return Ok(ParsedFields { fields, end, depth });
            };
            at = next;
        }
        Err(refused(tokens, context.column, at))
    }

    /// `[a |-> e, ..]`
    #[tactic(auto, unfolding(crate::specs::ReadingBrackets::record_of))]
    pub fn record(
        &self,
        text: &[u8],
        tokens: &[Token],
        context: Context,
        at: Place,
        from: usize,
    ) -> Result<Parsed, Refusal>
        requires reads { R.reads_to self.now.reader self.now.depth }
        requires within { from < length tokens.now }
        requires small { self.now.depth ≤ MAX_DEPTH }
        ensures { Gives text.now tokens.now (self.now.depth + 1) result
            (reading.record_of text.now tokens.now (expr text.now tokens.now self.now.depth)
            context at from) }
    {
        let found = self.entries(text, tokens, context, Kind::MapsTo, from + 1)?;
        if !is_kind(Kind::RightBracket, seen(tokens, context.column, found.end)) {
            return Err(refused(tokens, context.column, found.end));
        }
        let end = found.end + 1;
        let depth = found.depth + 1;
        node(self.alloc, record_of(at, found.fields), end, depth)
    }

    /// `[a : S, ..]`
    #[tactic(auto, unfolding(crate::specs::ReadingBrackets::records_of))]
    pub fn record_set(
        &self,
        text: &[u8],
        tokens: &[Token],
        context: Context,
        at: Place,
        from: usize,
    ) -> Result<Parsed, Refusal>
        requires reads { R.reads_to self.now.reader self.now.depth }
        requires within { from < length tokens.now }
        requires small { self.now.depth ≤ MAX_DEPTH }
        ensures { Gives text.now tokens.now (self.now.depth + 1) result
            (reading.records_of text.now tokens.now (expr text.now tokens.now self.now.depth)
            context at from) }
    {
        let found = self.entries(text, tokens, context, Kind::Colon, from + 1)?;
        if !is_kind(Kind::RightBracket, seen(tokens, context.column, found.end)) {
            return Err(refused(tokens, context.column, found.end));
        }
        let end = found.end + 1;
        let depth = found.depth + 1;
        node(self.alloc, record_set_of(at, found.fields), end, depth)
    }

    /// A step of a path.
    #[tactic(auto, unfolding(crate::specs::ReadingBrackets::key_at))]
    fn key(
        &self,
        text: &[u8],
        tokens: &[Token],
        context: Context,
        from: usize,
    ) -> Result<ParsedKey, Refusal>
        requires reads { R.reads_to self.now.reader self.now.depth }
        ensures { GivesKey text.now tokens.now self.now.depth result
            (reading.key_at text.now tokens.now (expr text.now tokens.now self.now.depth) context
            from) }
    {
        if is_kind(Kind::LeftBracket, seen(tokens, context.column, from)) {
            let found = self.some(text, tokens, context, Kind::RightBracket, from + 1)?;
            let end = found.end;
            let depth = found.depth;
            return Ok(ParsedKey {
                key: key_of(found.items),
                end,
                depth,
            });
        }
        if !is_kind(Kind::Dot, seen(tokens, context.column, from)) {
            return Err(refused(tokens, context.column, from));
        }
        let Some(name) = name_at(seen(tokens, context.column, from + 1)) else {
            return Err(refused(tokens, context.column, from + 1));
        };
        Ok(ParsedKey {
            key: Key::Field(Written::of_token(self.alloc, text, name)?),
            end: from + 2,
            depth: 0,
        })
    }

    /// The path of an update.
    #[tactic(auto, using(crate::proofs::StepsRecords::keys_depth_snoc))]
    fn path(
        &self,
        text: &[u8],
        tokens: &[Token],
        context: Context,
        from: usize,
    ) -> Result<ParsedKeys, Refusal>
        requires reads { R.reads_to self.now.reader self.now.depth }
        ensures { GivesKeys text.now tokens.now self.now.depth result
            (reading.path text.now tokens.now (expr text.now tokens.now self.now.depth)
            (length tokens.now) [] context from) }
    {
        let mut keys = Vec::new(self.alloc);
        let mut depth = 0;
        let mut at = from;
        for _turn in 0..tokens.len() {
            let found = self.key(text, tokens, context, at)?;
            let end = found.end;
            depth = depth.max(found.depth);
            push(&mut keys, found.key)?;
            let Some(next) = following(tokens, context.column, Between::Key, end) else {
                return Ok(ParsedKeys { keys, end, depth });
            };
            at = next;
        }
        Err(refused(tokens, context.column, at))
    }

    /// An update.
    #[tactic(auto, unfolding(crate::specs::ReadingBrackets::change))]
    fn change(
        &self,
        text: &[u8],
        tokens: &[Token],
        context: Context,
        from: usize,
    ) -> Result<ParsedUpdate, Refusal>
        requires reads { R.reads_to self.now.reader self.now.depth }
        ensures { GivesUpdate text.now tokens.now self.now.depth result
            (reading.change text.now tokens.now (expr text.now tokens.now self.now.depth) context
            from) }
    {
        if !is_kind(Kind::Bang, seen(tokens, context.column, from)) {
            return Err(refused(tokens, context.column, from));
        }
        let found = self.path(text, tokens, context, from + 1)?;
        if !is_kind(Kind::Equal, seen(tokens, context.column, found.end)) {
            return Err(refused(tokens, context.column, found.end));
        }
        let value_context = Context {
            updating: true,
            ..context
        };
        let value = self.inner(text, tokens, value_context, 0, found.end + 1)?;
        Ok(ParsedUpdate {
            update: Update {
                path: found.keys,
                value: Box::into_inner(value.tree),
            },
            end: value.end,
            depth: found.depth.max(value.depth),
        })
    }

    /// The updates of EXCEPT.
    #[tactic(auto, using(crate::proofs::StepsRecords::updates_depth_snoc))]
    fn changes(
        &self,
        text: &[u8],
        tokens: &[Token],
        context: Context,
        from: usize,
    ) -> Result<ParsedUpdates, Refusal>
        requires reads { R.reads_to self.now.reader self.now.depth }
        ensures { GivesUpdates text.now tokens.now self.now.depth result
            (reading.changes text.now tokens.now (expr text.now tokens.now self.now.depth)
            (length tokens.now) [] context from) }
    {
        let mut updates = Vec::new(self.alloc);
        let mut depth = 0;
        let mut at = from;
        for _turn in 0..tokens.len() {
            let found = self.change(text, tokens, context, at)?;
            let end = found.end;
            depth = depth.max(found.depth);
            push(&mut updates, found.update)?;
            let Some(next) = following(tokens, context.column, Between::Comma, end) else {
                return Ok(ParsedUpdates {
                    updates,
                    end,
                    depth,
                });
            };
            at = next;
        }
        Err(refused(tokens, context.column, at))
    }

    /// `[f EXCEPT !p = e, ..]`, after f.
    #[tactic(auto, unfolding(crate::specs::ReadingBrackets::except))]
    pub fn except(
        &self,
        text: &[u8],
        tokens: &[Token],
        context: Context,
        at: Place,
        first: Parsed,
    ) -> Result<Parsed, Refusal>
        requires reads { R.reads_to self.now.reader self.now.depth }
        requires within { first.end < length tokens.now }
        requires depth { first.depth ≡ edges.depth (view first.tree.value) }
        requires shallow { first.depth ≤ self.now.depth }
        requires small { self.now.depth ≤ MAX_DEPTH }
        ensures { Gives text.now tokens.now (self.now.depth + 1) result
            (reading.except text.now tokens.now (expr text.now tokens.now self.now.depth) context
            at (view first.tree.value) first.end) }
    {
        let found = self.changes(text, tokens, context, first.end + 1)?;
        if !is_kind(Kind::RightBracket, seen(tokens, context.column, found.end)) {
            return Err(refused(tokens, context.column, found.end));
        }
        node(
            self.alloc,
            except_of(at, first.tree, found.updates),
            found.end + 1,
            first.depth.max(found.depth) + 1,
        )
    }
}
