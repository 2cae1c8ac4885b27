//! The choices of one member of each of some lists, one after the other, the first list slowest.
ghost use Rattle.std.specs.Prelude.{◌≡◌, ◌<◌, ◌≤◌, length, map, drop, option_map, slice_get, IfOk, IfErr, OnOk, Some, None, false, true};
ghost use Rattle.tla_value.specs.TreeOf.{tree_of};
ghost use Rattle.tla_value.specs.Choices.{choices};
ghost use Rattle.tla_core.specs.Fault.{out_of_memory};
ghost use Rattle.tla_eval.specs.Private.Wheels.{AreFull, IsReady, heads, left_of, wheel_trees, next_wheels};

use std::alloc::Global;
use tla_operators::fault_ref::FaultRef;
use tla_operators::rules::copied;
use tla_value::Value;

/// A list, and its rest from the member of the next choice on.
#[derive(Clone, Copy)]
struct Wheel<'l> {
    list: &'l [Value],
    rest: &'l [Value],
}

/// The choices that weren't taken yet.
#[derive(Drop)]
pub(crate) struct Odometer<'l> {
    wheels: Vec<Wheel<'l>>,
    has_ended: bool,
}

impl<'l> Odometer<'l> {
    /// All choices from some lists. The only error is that memory ran out.
    pub(crate) fn new<'p>(
        alloc: Global,
        lists: &[&'l [Value]],
    ) -> Result<Odometer<'l>, FaultRef<'p>>
        ensures ready { IfOk result IsReady }
        ensures ok { IfOk result (λ o.
            left_of o ≡ choices (map (λ l. map tree_of l.now) lists.now)) }
        ensures err { IfErr result (λ f. f ≡ out_of_memory) }
    {
        let mut wheels = Vec::with_capacity(alloc, lists.len())?;
        for list in lists {
            if list.is_empty() {
                return Ok(Odometer {
                    wheels: Vec::new(alloc),
                    has_ended: true,
                });
            }
            wheels.push(Wheel { list, rest: list })?;
        }
        Ok(Odometer {
            wheels,
            has_ended: false,
        })
    }

    /// The next choice, if there is one. The only error is that memory ran out.
    pub(crate) fn next<'p>(&mut self, alloc: Global) -> Result<Option<Vec<Value>>, FaultRef<'p>>
        requires { IsReady self.old }
        ensures ready { OnOk result (IsReady self.new) }
        ensures choice { IfOk result (λ o.
            option_map (λ v. map tree_of v.items) o ≡ slice_get (left_of self.old) 0) }
        ensures rest { OnOk result (left_of self.new ≡ drop 1 (left_of self.old)) }
        ensures err { IfErr result (λ f. f ≡ out_of_memory) }
    {
        if self.has_ended {
            return Ok(None);
        }
        let choice = firsts(alloc, self.wheels.as_slice())?;
        self.has_ended = !turn(&mut self.wheels);
        Ok(Some(choice))
    }
}

/// The first member of the rest of each wheel. The only error is that memory ran out.
fn firsts<'p>(alloc: Global, wheels: &[Wheel<'_>]) -> Result<Vec<Value>, FaultRef<'p>>
    requires { AreFull (wheel_trees wheels.now) }
    ensures ok { IfOk result (λ v. map tree_of v.items ≡ heads (wheel_trees wheels.now)) }
    ensures err { IfErr result (λ f. f ≡ out_of_memory) }
{
    let mut values = Vec::with_capacity(alloc, wheels.len())?;
    for wheel in wheels {
        let [first, ..] = wheel.rest else {
            unreachable!()
        };
        values.push(copied(alloc, first)?)?;
    }
    Ok(values)
}

/// The members after the first.
fn after_first<'l>(rest: &'l [Value]) -> &'l [Value]
    ensures { result.now ≡ drop 1 rest.now }
{
    match rest {
        [_, others @ ..] => others,
        [] => rest,
    }
}

/// Turns the last wheel that has another member to it, and those after it back to their first. If no wheel has one,
/// all are turned back, and false is returned.
fn turn<'l>(wheels: &mut Vec<Wheel<'l>>) -> bool
    ensures turned { result ≡ true
        → next_wheels (wheel_trees wheels.old.items) ≡ Some (wheel_trees wheels.new.items) }
    ensures last { result ≡ false → next_wheels (wheel_trees wheels.old.items) ≡ None }
{
    let mut index = wheels.len();
    while index > 0 {
        index -= 1;
        let Wheel { list, rest } = wheels[index];
        let others = after_first(rest);
        if !others.is_empty() {
            wheels[index] = Wheel { list, rest: others };
            return true;
        }
        wheels[index] = Wheel { list, rest: list };
    }
    false
}
