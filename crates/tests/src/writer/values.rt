//! Texts of values into writers that take few bytes. The texts themselves are in the data of `acceptance`.

use crate::writer::{ENDS, End, Narrow};
use std::alloc::Global;
use std::process::Abort;
use std::test::Fail;
use tla_value::{FunValue, Text, TextFault, Value, ValueError};

const TEXT: &[u8] = b"(0 :> \"A\" @@ 1 :> \"Done\")";

// The value of the text.
fn steps(alloc: Global) -> Result<Value, ValueError> {
    let mut pairs = Vec::new(alloc);
    for (key, name) in [(1, "Done"), (0, "A")] {
        pairs.push((Value::Int(key), Value::Text(Text::new(alloc, name)?)))?;
    }
    Ok(Value::Fun(FunValue::from_pairs(alloc, pairs)?))
}

// Whether `room` bytes of the text are written, and the call ends at the first refusal.
fn ends_at_the_first(alloc: Global, value: &Value, step: usize, room: usize, end: End) -> bool {
    let mut out = Narrow::new(alloc, step, room, end);
    let result = value.write_text(&mut out);
    if room < TEXT.len() {
        let written = room as u64;
        result == Err(TextFault { written })
            && out.refusals == 1
            && out.taken.as_slice() == &TEXT[..room]
    } else {
        result == Ok(()) && out.refusals == 0 && out.taken.as_slice() == TEXT
    }
}

// Each number of bytes written, also in the middle of a value.
fn assert_ends(rt: &impl Abort, alloc: Global, value: &Value) {
    for end in &ENDS {
        for step in [1, 3, 90] {
            for room in 0..=TEXT.len() {
                let ends = ends_at_the_first(alloc, value, step, room, *end);
                assert!(rt; ends, "{step} a call, {room} in all");
            }
        }
    }
}

#[test]
fn ends_at_the_first_refusal(rt: HostRuntime) -> Result<(), Fail> {
    let value = steps(rt.alloc())?;
    assert_ends(&rt, rt.alloc(), &value);
    assert!(rt; value.put_text(&mut Vec::new(rt.alloc()), 5) == Ok(30));
    Ok(())
}
