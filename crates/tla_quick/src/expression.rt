//! Expressions with their codes.
ghost use Rattle.std.specs.Prelude.{◌≡◌, Ok, IfSome, option_map};
ghost use Rattle.tla_value.specs.TreeOf.{tree_of};
ghost use Rattle.tla_core.specs.ExprOf.{expr_of};
ghost use Rattle.tla_core.specs.Meaning.{Bound, Next};
ghost use Rattle.tla_core.specs.Value.{val};
ghost use Rattle.tla_code.specs.CodeExpr.{Scope, expr_in};
ghost use Rattle.tla_quick.specs.Private.Kept.{prepared_expr};
ghost use Rattle.tla_quick.specs.SameMeaning.{HasSameValue, HasSameMembers, HasSameValue-prop, HasSameMembers-prop};

use crate::constants::prepare_core;
use crate::environment::Environment;
use crate::evaluation::{elements, has, truth, value};
use crate::frame::Frame;
use crate::leaves::now_value;
use crate::made::{all_values, owned};
use crate::prepared::Prepared;
use crate::stop::Stop;
use std::alloc::{AllocError, Global};
use std::marker::Model;
use tla_code::Code;
use tla_core::{Core, Place};
use tla_eval::Partial;
use tla_value::{State, Value};

/// An expression, with the code that evaluates it, and the values of the closed parts that the code uses. In contracts,
/// the original expression.
#[derive(Drop)]
pub struct Expression<'m> {
    core: &'m Core,
    prepared: Box<Prepared<'m>>,
    ghost same_value: { HasSameValue (prepared_expr prepared.value) (expr_of core.now) } by { HasSameValue-prop (prepared_expr prepared.value) (expr_of core.now) },
    ghost same_members: { HasSameMembers (prepared_expr prepared.value) (expr_of core.now) } by { HasSameMembers-prop (prepared_expr prepared.value) (expr_of core.now) },
}

impl<'m> Model for Expression<'m> {
    ghost use Rattle.tla_core.specs.declared.expression.Core.{Core};
    ghost use Rattle.tla_core.specs.contracts.expression.Core.{the_row};

    ghost Value = { Core };

    ghost coded = { the_row.coded };

    ghost view = { λ e. e.core.now };
}

impl<'m> Expression<'m> {
    ghost use Rattle.std.specs.Prelude.{◌≡◌, Ok, IfOk, IfSome, map, option_map};
    ghost use Rattle.tla_value.specs.Tree.{truth};
    ghost use Rattle.tla_value.specs.TreeOf.{tree_of};
    ghost use Rattle.tla_core.specs.Meaning.{asks, elements};
    ghost use Rattle.tla_core.specs.Value.{val, mem, means};

    /// An expression under `names` bound names. The only error is that memory ran out.
    pub fn new(alloc: Global, core: &'m Core, names: usize) -> Result<Expression<'m>, AllocError>
        ensures { IfOk result (λ e. e ≡ core.now) }
    {
        let prepared = Box::new(alloc, prepare_core(alloc, core, names)?)?;
        Ok(Expression { core, prepared })
    }

    /// An expression that is evaluated by `tla_eval` each time. The only error is that memory ran out.
    pub fn plain(alloc: Global, core: &'m Core) -> Result<Expression<'m>, AllocError>
        ensures { IfOk result (λ e. e ≡ core.now) }
    {
        let prepared = Prepared {
            constants: Vec::new(alloc),
            code: Code::Plain(core),
        };
        let prepared = Box::new(alloc, prepared)?;
        Ok(Expression { core, prepared })
    }

    /// The original expression.
    pub fn core(&self) -> &'m Core
        ensures { result.now ≡ self.now }
    {
        self.core
    }

    /// The value of the expression, or none if the evaluation gave up. `bound` has the values of the bound names, the
    /// outermost first.
    pub fn value<'x>(
        &'x self,
        alloc: Global,
        bound: &'x [Value],
        now: Option<&'x State>,
        partial: &'x Partial,
    ) -> Option<Value>
        ensures { IfSome result (λ v.
            val (expr_of self.now) (map tree_of bound.now) (option_map (λ s. s.now) now.entry)
            partial.now
            ≡ Ok (tree_of v)) }
    {
        if let Some(value) = present_value(&self.prepared.code, now) {
            return value.copy(alloc).ok();
        }
        let outer = Frame::Outer(&self.prepared.constants);
        let frame = Frame::Many(&outer, 0, bound);
        let environment = Environment {
            frame: &frame,
            now,
            next: partial,
            names: bound.len(),
            definitions: self.prepared.constants.len(),
        };
        match value(alloc, &self.prepared.code, &environment) {
            Ok(value) => owned(alloc, value).ok(),
            Err(_) => None,
        }
    }

    /// Whether the expression is TRUE, or none if the evaluation gave up.
    pub fn truth<'x>(
        &'x self,
        alloc: Global,
        place: Place,
        bound: &'x [Value],
        now: Option<&'x State>,
        partial: &'x Partial,
    ) -> Option<bool>
        ensures { IfSome result (λ b.
            asks place (means (expr_of self.now)) (map tree_of bound.now)
            (option_map (λ s. s.now) now.entry) partial.now
            ≡ Ok b) }
    {
        let outer = Frame::Outer(&self.prepared.constants);
        let frame = Frame::Many(&outer, 0, bound);
        let environment = Environment {
            frame: &frame,
            now,
            next: partial,
            names: bound.len(),
            definitions: self.prepared.constants.len(),
        };
        truth(alloc, &self.prepared.code, &environment).ok()
    }

    /// Whether a value is a member of the expression, or none if the evaluation gave up.
    pub fn has<'x>(
        &'x self,
        alloc: Global,
        member: &'x Value,
        bound: &'x [Value],
        now: Option<&'x State>,
        partial: &'x Partial,
    ) -> Option<bool>
        ensures { IfSome result (λ b.
            mem (tree_of member.now) (expr_of self.now) (map tree_of bound.now)
            (option_map (λ s. s.now) now.entry) partial.now
            ≡ Ok b) }
    {
        let outer = Frame::Outer(&self.prepared.constants);
        let frame = Frame::Many(&outer, 0, bound);
        let environment = Environment {
            frame: &frame,
            now,
            next: partial,
            names: bound.len(),
            definitions: self.prepared.constants.len(),
        };
        has(alloc, &self.prepared.code, member, &environment).ok()
    }

    /// The members of the set that the expression denotes, in rising order, or none if the evaluation gave up. A range
    /// is not built.
    pub fn elements<'x>(
        &'x self,
        alloc: Global,
        place: &'x Place,
        bound: &'x [Value],
        now: Option<&'x State>,
        partial: &'x Partial,
    ) -> Option<Vec<Value>>
        ensures { IfSome result (λ v.
            elements place.now (means (expr_of self.now)) (map tree_of bound.now)
            (option_map (λ s. s.now) now.entry) partial.now
            ≡ Ok (map tree_of v.items)) }
    {
        let outer = Frame::Outer(&self.prepared.constants);
        let frame = Frame::Many(&outer, 0, bound);
        let environment = Environment {
            frame: &frame,
            now,
            next: partial,
            names: bound.len(),
            definitions: self.prepared.constants.len(),
        };
        match elements(alloc, place, &self.prepared.code, &environment) {
            Ok(found) => all_values(alloc, found).ok(),
            Err(_) => None,
        }
    }
}

/// The value of a variable in the present state, if the code is one.
fn present_value<'x>(code: &'x Code<'_>, now: Option<&'x State>) -> Option<&'x Value>
    ensures { (scope : Scope) (b : Bound) (t : Next)
        → IfSome result (λ v.
        val (expr_in scope code.now) b (option_map (λ s. s.now) now.entry) t
        ≡ Ok (tree_of v.now)) }
{
    match code {
        Code::Plain(Core::Now(_, variable)) => now_value(now, *variable).ok(),
        _ => None,
    }
}
