//! Let-bindings. A definition is evaluated at most once for given values of the names around it.
ghost use Rattle.std.specs.Prelude.{◌≡◌, ◌++◌, ◌∷◌, []};
ghost use Rattle.tla_value.specs.Tree.{truth};
ghost use Rattle.tla_value.specs.TreeOf.{tree_of};
ghost use Rattle.tla_code.specs.CodeExpr.{expr_in};
ghost use Rattle.tla_operators.specs.Evaluated.{tree_of_evaluated};
ghost use Rattle.tla_quick.specs.Private.Answers.{Answers};
ghost use Rattle.tla_quick.specs.Private.Frames.{IsKnown};
ghost use Rattle.tla_quick.specs.Private.Environment.{code_in, value_in, has_in, scope_in};

use crate::environment::Environment;
use crate::evaluation::{has, truth, value};
use crate::frame::{Frame, just_known, nothing_known};
use crate::made::{count_more, owned};
use crate::stop::{Stop, needs};
use std::alloc::Global;
use tla_code::Code;
use tla_operators::evaluated::Evaluated;
use tla_value::Value;

/// The value of a body under a definition.
#[cycle(evaluate)]
pub(super) fn value_of_let<'m: 'a, 'a>(
    alloc: Global,
    names: usize,
    is_used: bool,
    definition: &'a Code<'m>,
    body: &'a Code<'m>,
    env: &Environment<'m, 'a>,
) -> Result<Evaluated<'a>, Stop>
    ensures { Answers tree_of_evaluated result
        (value_in env.entry.now
        (expr_in (scope_in env.entry.now ++ (names, code_in env.entry.now definition.now) ∷ [])
        body.now)) }
{
    if names != env.names {
        return Err(Stop::GaveUp);
    }
    if !is_used {
        let unknown = nothing_known();
        match value_under(alloc, definition, unknown, body, env) {
            Ok(value) => return Ok(Evaluated::Owned(value)),
            Err(stop) => needs(stop, env.definitions)?,
        }
    }
    let found = value(alloc, definition, env)?;
    let known = just_known(found.value());
    Ok(Evaluated::Owned(value_under(alloc, &*definition, known, &*body, &*env)?))
}

/// The value of a body under a definition whose value may be known.
#[cycle(evaluate)]
fn value_under<'m: 'a, 'a>(
    alloc: Global,
    definition: &'a Code<'m>,
    known: Option<&'a Value>,
    body: &'a Code<'m>,
    env: &Environment<'m, 'a>,
) -> Result<Value, Stop>
    requires { IsKnown known (value_in env.now (code_in env.now definition.now)) }
    ensures { Answers tree_of result
        (value_in env.entry.now
        (expr_in
        (scope_in env.entry.now ++ (env.entry.now.names, code_in env.entry.now definition.now) ∷ [])
        body.now)) }
{
    let frame = Frame::Defined(env.frame, env.definitions, env.names, definition, known);
    let inner = Environment {
        frame: &frame,
        now: env.now,
        next: env.next,
        names: env.names,
        definitions: count_more(env.definitions, 1)?,
    };
    owned(alloc, value(alloc, &*body, &inner)?)
}

/// Whether a body under a definition is TRUE.
#[cycle(evaluate)]
pub(super) fn truth_of_let<'m: 'a, 'a>(
    alloc: Global,
    names: usize,
    is_used: bool,
    definition: &'a Code<'m>,
    body: &'a Code<'m>,
    env: &Environment<'m, 'a>,
) -> Result<bool, Stop>
    ensures { Answers truth result
        (value_in env.entry.now
        (expr_in (scope_in env.entry.now ++ (names, code_in env.entry.now definition.now) ∷ [])
        body.now)) }
{
    if names != env.names {
        return Err(Stop::GaveUp);
    }
    if !is_used {
        let unknown = nothing_known();
        match truth_under(alloc, definition, unknown, body, env) {
            Ok(holds) => return Ok(holds),
            Err(stop) => needs(stop, env.definitions)?,
        }
    }
    let found = value(alloc, definition, env)?;
    let known = just_known(found.value());
    truth_under(alloc, &*definition, known, &*body, &*env)
}

/// Whether a body is TRUE under a definition whose value may be known.
#[cycle(evaluate)]
fn truth_under<'m: 'a, 'a>(
    alloc: Global,
    definition: &'a Code<'m>,
    known: Option<&'a Value>,
    body: &'a Code<'m>,
    env: &Environment<'m, 'a>,
) -> Result<bool, Stop>
    requires { IsKnown known (value_in env.now (code_in env.now definition.now)) }
    ensures { Answers truth result
        (value_in env.entry.now
        (expr_in
        (scope_in env.entry.now ++ (env.entry.now.names, code_in env.entry.now definition.now) ∷ [])
        body.now)) }
{
    let frame = Frame::Defined(env.frame, env.definitions, env.names, definition, known);
    let inner = Environment {
        frame: &frame,
        now: env.now,
        next: env.next,
        names: env.names,
        definitions: count_more(env.definitions, 1)?,
    };
    truth(alloc, &*body, &inner)
}

/// Whether a value is a member of a body under a definition.
#[cycle(evaluate)]
pub(super) fn has_of_let<'m: 'a, 'a>(
    alloc: Global,
    names: usize,
    is_used: bool,
    definition: &'a Code<'m>,
    body: &'a Code<'m>,
    member: &'a Value,
    env: &Environment<'m, 'a>,
) -> Result<bool, Stop>
    ensures { Answers (λ b. b) result
        (has_in env.entry.now (tree_of member.now)
        (expr_in (scope_in env.entry.now ++ (names, code_in env.entry.now definition.now) ∷ [])
        body.now)) }
{
    if names != env.names {
        return Err(Stop::GaveUp);
    }
    if !is_used {
        let unknown = nothing_known();
        match has_under(alloc, definition, unknown, body, member, env) {
            Ok(holds) => return Ok(holds),
            Err(stop) => needs(stop, env.definitions)?,
        }
    }
    let found = value(alloc, definition, env)?;
    let known = just_known(found.value());
    has_under(alloc, &*definition, known, &*body, &*member, &*env)
}

/// Whether a value is a member of a body under a definition whose value may be known.
#[cycle(evaluate)]
fn has_under<'m: 'a, 'a>(
    alloc: Global,
    definition: &'a Code<'m>,
    known: Option<&'a Value>,
    body: &'a Code<'m>,
    member: &'a Value,
    env: &Environment<'m, 'a>,
) -> Result<bool, Stop>
    requires { IsKnown known (value_in env.now (code_in env.now definition.now)) }
    ensures { Answers (λ b. b) result
        (has_in env.entry.now (tree_of member.now)
        (expr_in
        (scope_in env.entry.now ++ (env.entry.now.names, code_in env.entry.now definition.now) ∷ [])
        body.now)) }
{
    let frame = Frame::Defined(env.frame, env.definitions, env.names, definition, known);
    let inner = Environment {
        frame: &frame,
        now: env.now,
        next: env.next,
        names: env.names,
        definitions: count_more(env.definitions, 1)?,
    };
    has(alloc, &*body, &*member, &inner)
}
