// A pool of recent sets and functions. A new one that equals one of the pool is replaced by a copy of that one, which
// shares its parts, so that states take less memory.
ghost use Rattle.std.specs.Prelude.{◌≡◌, ◌<◌, IfOk, IfErr, IfSome, OnOk, vec_len};
ghost use Rattle.tla_value.specs.declared.error.ValueError.TheVariants.{Memory};

use crate::equality::equal;
use crate::error::ValueError;
use crate::state::State;
use crate::value::Value;
use std::alloc::Global;
use std::mem;

// The most slots of a pool.
const MAX_ROOM: usize = 16_384;

// The fewest slots of a pool that holds a value.
const MIN_ROOM: usize = 64;

// Parts are shared down to this depth of a value.
const LEVELS: u64 = 8;

/// Recent sets and functions, each at the index that its hash determines. An empty slot holds FALSE.
#[derive(Drop)]
pub struct Pool {
    values: Vec<Value>,
    // How many values were put in since the pool grew.
    put: usize,
}

// The hash of a set or function. Other values aren't in the pool.
fn word_of(value: &Value) -> u64 {
    match value {
        Value::Set(set) => set.hash_word(),
        Value::Fun(fun) => fun.hash_word(),
        _ => 0,
    }
}

// A list of FALSE, this long.
fn falses(alloc: Global, room: usize) -> Result<Vec<Value>, ValueError>
    ensures room { IfOk result (λ v. vec_len v ≡ room) }
    ensures err { IfErr result (λ e. e ≡ Memory) }
{
    let mut values = Vec::with_capacity(alloc, room)?;
    for _index in 0..room {
        values.push(Value::Truth(false))?;
    }
    Ok(values)
}

impl Pool {
    /// A pool without values.
    pub fn new(alloc: Global) -> Pool {
        Pool {
            values: Vec::new(alloc),
            put: 0,
        }
    }

    // The slot of a value.
    fn index_of(&self, value: &Value) -> usize
        requires { 0 < vec_len self.now.values }
        ensures { result < vec_len self.now.values }
    {
        (word_of(value) % self.values.len() as u64) as usize
    }

    // A copy of the pool's value that equals this one, if it is there.
    fn find(&self, alloc: Global, value: &Value) -> Result<Option<Value>, ValueError>
        requires { 0 < vec_len self.now.values }
        ensures ok { IfOk result (λ o. IfSome o (λ v. v ≡ value.now)) }
        ensures err { IfErr result (λ e. e ≡ Memory) }
    {
        let kept = &self.values[self.index_of(value)];
        if !equal(kept, value) {
            return Ok(None);
        }
        Ok(Some(kept.copy(alloc)?))
    }

    // Puts a value into its slot, and drops the one that was there. A pool without slots doesn't change.
    fn put(&mut self, value: Value)
        ensures { vec_len self.new.values ≡ vec_len self.old.values }
    {
        if self.values.is_empty() {
            return;
        }
        let index = self.index_of(&value);
        self.values[index] = value;
        self.put = self.put.saturating_add(1);
    }

    // Grows the pool if it is likely full.
    fn make_room(&mut self, alloc: Global) -> Result<(), ValueError>
        ensures some { OnOk result (0 < vec_len self.new.values) }
        ensures err { IfErr result (λ e. e ≡ Memory) }
    {
        let room = self.values.len();
        if room > 0 && (self.put < room || room >= MAX_ROOM) {
            return Ok(());
        }
        let larger = falses(alloc, room.saturating_mul(4).max(MIN_ROOM))?;
        let values = mem::replace(&mut self.values, larger);
        self.put = 0;
        for value in values {
            self.put(value);
        }
        Ok(())
    }

    // Replaces the value by a copy of an equal one of the pool, if there is one. Only a set or function without another
    // owner is looked up: any other is shared already.
    #[cycle(share)]
    fn share(&mut self, alloc: Global, value: &mut Value, levels: u64) -> Result<(), ValueError>
        ensures same { value.new ≡ value.old }
        ensures memory { IfErr result (λ e. e ≡ Memory) }
    {
        if levels == 0 || !is_sole(value) {
            return Ok(());
        }
        self.make_room(alloc)?;
        if let Some(copy) = self.find(alloc, value)? {
            *value = copy;
            return Ok(());
        }
        share_parts(self, alloc, value, levels - 1)?;
        self.put(value.copy(alloc)?);
        Ok(())
    }

    // The same for some values.
    #[cycle(share)]
    pub(crate) fn share_all(
        &mut self,
        alloc: Global,
        values: &mut Vec<Value>,
        levels: u64,
    ) -> Result<(), ValueError>
        ensures same { values.new.items ≡ values.old.items }
        ensures memory { IfErr result (λ e. e ≡ Memory) }
    {
        for i in 0..values.len() {
            self.share(alloc, &mut values[i], levels)?;
        }
        Ok(())
    }

    /// The same state. A set or function in it that equals one of the pool becomes a copy of that one; the others are
    /// put into the pool. Fails only if memory ran out.
    pub fn share_state(&mut self, alloc: Global, state: State) -> Result<State, ValueError>
        ensures ok { IfOk result (λ s. s ≡ state) }
        ensures err { IfErr result (λ e. e ≡ Memory) }
    {
        let mut state = state;
        state.share_values(alloc, self, LEVELS)?;
        Ok(state)
    }
}

// Whether a value is a set or function whose parts have no other owner.
fn is_sole(value: &Value) -> bool {
    match value {
        Value::Set(set) => set.is_sole(),
        Value::Fun(fun) => fun.is_sole(),
        _ => false,
    }
}

// Shares the parts of a set or function.
#[cycle(share)]
fn share_parts(
    pool: &mut Pool,
    alloc: Global,
    value: &mut Value,
    levels: u64,
) -> Result<(), ValueError>
    ensures same { value.new ≡ value.old }
    ensures memory { IfErr result (λ e. e ≡ Memory) }
{
    match value {
        Value::Set(set) => set.share_members(alloc, pool, levels),
        Value::Fun(fun) => fun.share_values(alloc, pool, levels),
        _ => Ok(()),
    }
}
