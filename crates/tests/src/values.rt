//! Calls that no expression reaches, and what no contract says about others. The data of `acceptance` has what
//! expressions reach.

use std::alloc::Global;
use std::hash::{DefaultHasher, Hash, Hasher};
use std::test::Fail;
use std::thread;
use tla_eval::Partial;
use tla_value::*;

// The number 1 in this many nested sets.
fn nested(alloc: Global, braces: u64) -> Result<Value, ValueError> {
    let mut value = Value::Int(1);
    for _ in 0..braces {
        let mut values = Vec::new(alloc);
        values.push(value)?;
        value = Value::Set(SetValue::from_values(alloc, values)?);
    }
    Ok(value)
}

// Inserts 9 twice, and before it a value that is too deep.
fn puts_in_one(alloc: Global, set: &mut SetValue) -> Result<bool, ValueError> {
    let refused = set.insert(nested(alloc, 64)?);
    let first = set.insert(Value::Int(9))?;
    let second = set.insert(Value::Int(9))?;
    Ok(refused == Err(ValueError::TooDeep) && first && !second)
}

fn is_seven_and_nine(set: &SetValue) -> bool {
    set.items() == [Value::Int(7), Value::Int(9)].as_slice()
        && set.get(1) == Some(&Value::Int(9))
        && set.get(2).is_none()
        && !set.is_empty()
        && set.nesting() == 1
}

#[test]
fn members(rt: HostRuntime) -> Result<(), Fail> {
    let alloc = rt.alloc();
    let mut set = SetValue::range(alloc, 7, 7)?;
    assert!(rt; puts_in_one(alloc, &mut set)?);
    assert!(rt; is_seven_and_nine(&set));
    assert!(rt; set.into_items()?.len() == 2);
    assert!(rt; SetValue::empty(alloc).nesting() == 1);
    assert!(rt; nested(alloc, 64)?.nesting() == 64);
    Ok(())
}

// Whether the set of the numbers from 1 to `largest` refuses one more member, and is unchanged then.
fn refuses_a_member(alloc: Global, largest: i64) -> Result<bool, ValueError> {
    let mut set = SetValue::range(alloc, 1, largest)?;
    let refused = set.insert(Value::Int(0));
    Ok(refused == Err(ValueError::TooMany) && set.get(0) == Some(&Value::Int(1)))
}

// Whether this many pairs of different numbers are refused.
fn refuses_pairs(alloc: Global, count: i64) -> Result<bool, ValueError> {
    let made = FunValue::from_pairs(alloc, numbered_pairs(alloc, count)?);
    Ok(matches!(made, Err(ValueError::TooMany)))
}

// Whether a function refuses a value of this nesting.
fn refuses_depth(alloc: Global, braces: u64) -> Result<bool, ValueError> {
    let function = one_pair(alloc)?;
    let changed = function.except(alloc, &Value::Int(1), nested(alloc, braces)?);
    Ok(matches!(changed, Err(ValueError::TooDeep)))
}

// Values that are refused for their number or depth, by calls that expressions don't reach.
#[test]
fn beyond_the_limits(rt: HostRuntime) -> Result<(), Fail> {
    let alloc = rt.alloc();
    assert!(rt; refuses_a_member(alloc, 1_000_000)?);
    assert!(rt; refuses_pairs(alloc, 1_000_001)?);
    assert!(rt; refuses_depth(alloc, 64)?);
    Ok(())
}

fn sequence(alloc: Global, numbers: &[i64]) -> Result<Value, ValueError> {
    let mut values = Vec::new(alloc);
    for number in numbers {
        values.push(Value::Int(*number))?;
    }
    Ok(Value::Fun(FunValue::sequence(alloc, values)?))
}

// A product of no sets, and records without fields, are the set of the empty sequence.
#[test]
fn one_choice_of_nothing(rt: HostRuntime) -> Result<(), Fail> {
    let alloc = rt.alloc();
    let nothing = [sequence(alloc, &[])?];
    assert!(rt; SetValue::product(alloc, &[])?.items() == nothing.as_slice());
    assert!(rt; SetValue::record_set(alloc, &[])?.items() == nothing.as_slice());
    Ok(())
}

#[test]
fn a_second_number(rt: HostRuntime) -> Result<(), Fail> {
    let alloc = rt.alloc();
    let one = SetValue::range(alloc, 1, 1)?;
    let mut two = SetValue::range(alloc, 1, 1)?;
    assert!(rt; two.insert(Value::Int(2))?);
    assert!(rt; two.items() == [Value::Int(1), Value::Int(2)].as_slice());
    assert!(rt; one.is_subset(&two) && !two.is_subset(&one) && two.is_subset(&two));
    Ok(())
}

#[test]
fn a_copy_equals_its_source(rt: HostRuntime) -> Result<(), Fail> {
    let source = sequence(rt.alloc(), &[1])?;
    assert!(rt; source.copy(rt.alloc())? == source);
    Ok(())
}

// Grows a set member by member. If memory runs out, the set must be unchanged.
fn grown(alloc: Global, count: i64) -> Result<SetValue, ValueError> {
    let mut set = SetValue::empty(alloc);
    for number in 0..count {
        let before = set.copy(alloc)?;
        if let Err(error) = set.insert(Value::Int(number)) {
            let unchanged = set.items() == before.items();
            return Err(if unchanged {
                error
            } else {
                ValueError::TooMany
            });
        }
    }
    Ok(set)
}

// Passes also if some allocation is made to fail.
#[test]
fn a_refused_growth_changes_nothing(rt: HostRuntime) {
    match grown(rt.alloc(), 20) {
        Ok(set) => assert!(rt; set.len() == 20),
        Err(error) => assert!(rt; error == ValueError::Memory),
    }
}

// Pairs of this many numbers, each with itself.
fn numbered_pairs(alloc: Global, count: i64) -> Result<Vec<(Value, Value)>, ValueError> {
    let mut pairs = Vec::new(alloc);
    for number in 0..count {
        pairs.push((Value::Int(number), Value::Int(number)))?;
    }
    Ok(pairs)
}

// The function from 1 to 7.
fn one_pair(alloc: Global) -> Result<FunValue, ValueError> {
    let mut pairs = Vec::new(alloc);
    pairs.push((Value::Int(1), Value::Int(7)))?;
    FunValue::from_pairs(alloc, pairs)
}

// Whether a function is that from 1 to this value.
fn is_one_pair(function: &FunValue, value: i64) -> bool {
    function.apply(&Value::Int(1)) == Some(&Value::Int(value))
        && function.apply(&Value::Int(3)).is_none()
        && function.values().len() == 1
        && function.len() == 1
        && !function.is_empty()
        && function.nesting() == 1
        && function.as_sequence() == Some(1)
}

#[test]
fn functions(rt: HostRuntime) -> Result<(), Fail> {
    let alloc = rt.alloc();
    let one = one_pair(alloc)?;
    assert!(rt; is_one_pair(&one, 7));
    assert!(rt; is_one_pair(&one.except(alloc, &Value::Int(1), Value::Int(2))?, 2));
    let changed = one.copy(alloc)?.with_value(&Value::Int(1), Value::Int(2))?;
    assert!(rt; is_one_pair(&changed, 2));
    assert!(rt; one.into_pairs()?.len() == 1);
    Ok(())
}

// The shard among seven of the state in which the one variable has this value. A copy must be equal.
fn shard_of(alloc: Global, value: i64) -> Result<Option<u64>, ValueError> {
    let mut values = Vec::new(alloc);
    values.push(Value::Int(value))?;
    let state = State::new(values);
    let copy = state.copy(alloc)?;
    let shard = state.shard(7);
    if copy.values() == state.values() && copy.shard(7) == shard {
        Ok(Some(shard))
    } else {
        Ok(None)
    }
}

#[test]
fn states_and_shards(rt: HostRuntime) {
    let mut seen = [false; 7];
    for number in 0..65536 {
        let shard = shard_of(rt.alloc(), number);
        assert!(rt; matches!(shard, Ok(Some(_))), "{number}");
        if let Ok(Some(shard)) = shard
            && let Some(place) = seen.get_mut(shard as usize)
        {
            *place = true;
        }
    }
    assert!(rt; seen == [true; 7]);
}

// The state whose variables are <<number, <<7>>>> and {{number}}.
fn nested_state(alloc: Global, number: i64) -> Result<State, ValueError> {
    let mut parts = Vec::new(alloc);
    parts.push(Value::Int(number))?;
    parts.push(sequence(alloc, &[7])?)?;
    let mut members = Vec::new(alloc);
    members.push(Value::Set(SetValue::range(alloc, number, number)?))?;
    let mut values = Vec::new(alloc);
    values.push(Value::Fun(FunValue::sequence(alloc, parts)?))?;
    values.push(Value::Set(SetValue::from_values(alloc, members)?))?;
    Ok(State::new(values))
}

// Whether a pool returns equal states for the states of `count` numbers, each put in twice.
fn shares(alloc: Global, count: i64) -> Result<bool, ValueError> {
    let mut pool = Pool::new(alloc);
    for number in 0..count {
        let first = pool.share_state(alloc, nested_state(alloc, number)?)?;
        let second = pool.share_state(alloc, nested_state(alloc, number)?)?;
        let wanted = nested_state(alloc, number)?;
        if first != wanted || second != wanted || first.shard(7) != wanted.shard(7) {
            return Ok(false);
        }
    }
    Ok(true)
}

// More values than a pool has slots, at first and at last.
#[test]
fn a_pool_answers_equal_states(rt: HostRuntime) -> Result<(), Fail> {
    assert!(rt; shares(rt.alloc(), 10_000)?);
    Ok(())
}

#[test]
fn strings(rt: HostRuntime) -> Result<(), Fail> {
    let text = Text::new(rt.alloc(), "ab")?.copy(rt.alloc())?;
    assert!(rt; text.into_string()?.as_str() == "ab");
    Ok(())
}

fn hash_of(value: &Value) -> u64 {
    let mut hasher = DefaultHasher::new();
    value.hash(&mut hasher);
    hasher.finish()
}

// The set of a million numbers, built from the last to the first.
fn backwards(alloc: Global) -> Result<SetValue, ValueError> {
    let mut values = Vec::new(alloc);
    for number in 0..1_000_000 {
        values.push(Value::Int(1_000_000_i64.wrapping_sub(number)))?;
    }
    SetValue::from_values(alloc, values)
}

fn text_length(alloc: Global, value: &Value) -> Option<usize> {
    let mut text = Vec::new(alloc);
    value.write_text(&mut text).ok()?;
    Some(text.len())
}

// Equal sets of a million numbers, one of them built backwards, have the same hash.
fn large_sets_agree(alloc: Global) -> Result<bool, ValueError> {
    let range = Value::Set(SetValue::range(alloc, 1, 1_000_000)?.copy(alloc)?);
    let backwards = Value::Set(backwards(alloc)?);
    Ok(
        range == backwards
            && hash_of(&range) == hash_of(&backwards)
            && text_length(alloc, &range) == Some(7_888_896),
    )
}

#[test]
fn a_large_set_on_a_worker(rt: HostRuntime) -> Result<(), Fail> {
    let alloc = rt.alloc();
    let worker = thread::spawn(&rt, move || large_sets_agree(alloc))?;
    assert!(rt; worker.join(&rt) == Ok(true));
    Ok(())
}

#[test]
fn partial_states(rt: HostRuntime) -> Result<(), Fail> {
    let mut partial = Partial::unset(rt.alloc(), 1)?;
    if partial.variables() == 1 {
        partial.set(0, Value::Int(8));
        let copy = partial.copy(rt.alloc())?;
        assert!(rt; copy.get(0) == Some(&Value::Int(8)));
    }
    assert!(rt; partial.into_values().as_slice() == [Some(Value::Int(8))].as_slice());
    Ok(())
}
