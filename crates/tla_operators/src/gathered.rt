//! Collects the distinct ones of many values that arrive one by one.
ghost use Rattle.std.specs.Prelude.{◌≡◌, ◌≤◌, ◌∷◌, [], List, Ok, false, map, IfErr, OnOk};
ghost use Rattle.tla_value.specs.Tree.{Tree};
ghost use Rattle.tla_value.specs.TreeOf.{tree_of};
ghost use Rattle.tla_value.specs.Sets.{set_of};
ghost use Rattle.tla_core.specs.Fault.{Outcome, out_of_memory};
ghost use Rattle.tla_operators.specs.Gives.{Gives};
ghost use Rattle.tla_operators.specs.Gathered.{most_held, IsHeld, IsGathered, Adds, Gathers, set_rule};

use crate::fault_ref::FaultRef;
use crate::rules::copied;
use crate::sets::made_set;
use std::alloc::Global;
use tla_core::Place;
use tla_value::{MAX_ELEMENTS, SetValue, Value};

/// Duplicates are dropped only when at least this many values are held.
const LEAST_ROOM: usize = 1024;

/// The distinct ones of some values. If there are more than a set may have, only enough of them are kept to know that.
#[derive(Drop)]
pub struct Gathered {
    values: Vec<Value>,
    room: usize,
    is_full: bool,
}

impl Gathered {
    /// No values.
    pub fn new(alloc: Global) -> Gathered
        ensures { IsGathered [] result }
    {
        Gathered {
            values: Vec::new(alloc),
            room: LEAST_ROOM,
            is_full: false,
        }
    }

    /// Adds a value.
    pub fn add<'p>(&mut self, value: Value) -> Result<(), FaultRef<'p>>
        ensures ok { OnOk result (Adds (tree_of value ∷ []) self.old self.new) }
        ensures err { IfErr result (λ f. f ≡ out_of_memory) }
    {
        if self.is_full {
            drop(value);
            return Ok(());
        }
        self.values.push(value)?;
        self.make_room();
        Ok(())
    }

    /// Adds copies of some values.
    pub(crate) fn add_copies<'p>(
        &mut self,
        alloc: Global,
        values: &[Value],
    ) -> Result<(), FaultRef<'p>>
        ensures ok { OnOk result (Adds (map tree_of values.now) self.old self.new) }
        ensures err { IfErr result (λ f. f ≡ out_of_memory) }
    {
        for value in values {
            self.add(copied(alloc, value)?)?;
        }
        Ok(())
    }

    /// Drops duplicates if no room is left. Then there is room for twice as many values as remain.
    #[tactic(auto, using(crate::proofs::Different::gathered_so))]
    fn make_room(&mut self)
        ensures { (ts : List Tree)
            → IsHeld ts (map tree_of self.old.values.items)
            → self.old.is_full ≡ false
            → self.old.room ≤ most_held ts
            → IsGathered ts self.new }
    {
        if self.values.len() < self.room {
            return;
        }
        sort_once(&mut self.values);
        let left = self.values.len();
        self.is_full = left > MAX_ELEMENTS;
        self.room = LEAST_ROOM.max(left.saturating_mul(2));
    }

    /// The set of the values, or the fault for the limit that it would exceed.
    pub fn into_set(self, alloc: Global, place: &Place) -> Result<Value, FaultRef<'_>>
        ensures { (o : Outcome (List Tree))
            → Gathers (Ok self) o
            → Gives result (set_rule place.now o) }
    {
        made_set(place, SetValue::from_values(alloc, self.values))
    }
}

/// Puts some values in rising order, each once.
fn sort_once(values: &mut Vec<Value>)
    ensures { map tree_of values.new.items ≡ set_of (map tree_of values.old.items) }
{
    values.sort_unstable();
    values.dedup();
}
