//! Bytes and numbers by counted writes.

use crate::writer::{ENDS, End, Narrow};
use counted_writer::{ShortWrite, put, put_number};

// Each number of bytes written, for each step and each kind of refusal.
#[test]
fn ends_at_the_first_refusal(rt: HostRuntime) {
    for end in &ENDS {
        for step in [1, 2, 9] {
            for room in 0..6 {
                let mut out = Narrow::new(rt.alloc(), step, room, *end);
                let result = put(&mut out, 10, b"State");
                let expected = match room {
                    5 => Ok(15),
                    _ => Err(ShortWrite {
                        written: 10 + room as u64,
                    }),
                };
                let is_cut = result == expected && out.taken.as_slice() == &b"State"[..room];
                assert!(rt; is_cut, "{step} a call, {room} in all");
            }
        }
    }
}

#[test]
fn the_count_stays_at_its_end(rt: HostRuntime) {
    let mut out = Narrow::new(rt.alloc(), 1, 3, End::Fails);
    assert!(rt; put(&mut out, u64::MAX - 1, b"abc") == Ok(u64::MAX));
    assert!(rt; out.taken.as_slice() == b"abc".as_slice());
    assert!(rt; put(&mut out, u64::MAX, b"d") == Err(ShortWrite { written: u64::MAX }));
}

fn put_ends(out: &mut Narrow) -> Result<u64, ShortWrite> {
    let written = put_number(out, 0, u64::MAX)?;
    let written = put_number(out, written, i64::MIN)?;
    put_number(out, written, u128::MAX)
}

#[test]
fn numbers_are_decimal(rt: HostRuntime) {
    let mut out = Narrow::new(rt.alloc(), 3, 90, End::Fails);
    assert!(rt; put_ends(&mut out) == Ok(79));
    let text = "18446744073709551615-9223372036854775808340282366920938463463374607431768211455";
    assert!(rt; out.taken.as_slice() == text.as_bytes());
}
