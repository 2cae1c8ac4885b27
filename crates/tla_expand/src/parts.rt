//! Boxes and lists of parts of any type. The only error is that memory ran out.

ghost use Rattle.std.specs.Prelude.{◌≡◌, ◌∷◌, [], IfOk, IfErr};

use std::alloc::Global;
use tla_scopes::Failure;
use tla_tree::push;

pub(crate) fn boxed<T: Drop>(alloc: Global, item: T) -> Result<Box<T>, Failure>
    ensures ok { IfOk result (λ b. b.value ≡ item) }
    ensures err { IfErr result (λ e. e ≡ Failure.Memory) }
{
    Ok(Box::new(alloc, item)?)
}

/// A value in a box, beside another value.
pub(crate) fn box_beside<T: Drop, U: Drop>(
    alloc: Global,
    item: T,
    beside: U,
) -> Result<(Box<T>, U), Failure>
    ensures item { IfOk result (λ b. b.0.value ≡ item) }
    ensures beside { IfOk result (λ b. b.1 ≡ beside) }
    ensures err { IfErr result (λ e. e ≡ Failure.Memory) }
{
    let item = boxed(alloc, item)?;
    Ok((item, beside))
}

pub(crate) fn list_of_two<T: Drop>(alloc: Global, first: T, second: T) -> Result<Vec<T>, Failure>
    ensures ok { IfOk result (λ v. v.items ≡ first ∷ second ∷ []) }
    ensures err { IfErr result (λ e. e ≡ Failure.Memory) }
{
    let mut items = Vec::new(alloc);
    push(&mut items, first)?;
    push(&mut items, second)?;
    Ok(items)
}

/// The list with an item before the others.
pub(crate) fn with_first<T: Drop>(first: T, others: Vec<T>) -> Result<Vec<T>, Failure>
    ensures ok { IfOk result (λ v. v.items ≡ first ∷ others.items) }
    ensures err { IfErr result (λ e. e ≡ Failure.Memory) }
{
    let mut items = others;
    items.insert(0, first)?;
    Ok(items)
}
