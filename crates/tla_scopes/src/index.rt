//! How names are found in scopes: by the first bits of a hash in which they differ. The scopes before an entry are a
//! trie of its bits, which shares all but one path with the scope before it.

ghost use Rattle.std.specs.Prelude.{◌≡◌, ◌≤◌, ◌<◌, ℕ, length, get_or};
ghost use Rattle.tla_scopes.specs.Places as names;
ghost use Rattle.tla_scopes.specs.Private.Index.{hash_of, slot_of, found_at};
ghost use Rattle.tla_scopes.specs.Listed.{listed};

use crate::entries::Entries;

/// A hash of a name.
pub(crate) fn name_hash(name: &[u8]) -> usize
    ensures { result ≡ hash_of name.now }
{
    let mut hash = 0;
    for i in 0..name.len() {
        hash = (hash * 31 + name[i] as usize) % 65_521;
    }
    hash
}

/// The first of 16 bits in which two hashes differ, or 16.
pub(crate) fn slot(first: usize, second: usize) -> usize
    ensures same { result ≡ slot_of first second }
    ensures within { result < 17 }
{
    let mut one = first;
    let mut other = second;
    for bit in 0..16 {
        if one % 2 != other % 2 {
            return bit;
        }
        one /= 2;
        other /= 2;
    }
    16
}

/// For a hash and one of its bits: the scope in which names are found whose hash first differs from it in this bit, and
/// the scope for those that first differ in a later bit.
#[derive(Clone, Copy)]
struct Jump {
    to: usize,
    next: usize,
}

/// The jump for a bit, from a scope in which only names are looked up that differ in no earlier bit.
fn jump_at(entries: &Entries<'_, '_>, hash: usize, at: usize, bit: usize) -> Jump
    requires { at ≤ length (listed entries.now) }
    ensures to_within { result.to ≤ length (listed entries.now) }
    ensures next_within { result.next ≤ length (listed entries.now) }
    ensures to { (x : names.Name)
        → slot_of hash (hash_of x) ≡ bit
        → found_at (listed entries.now) at x ≡ found_at (listed entries.now) result.to x }
    ensures next { (x : names.Name)
        → bit < slot_of hash (hash_of x)
        → found_at (listed entries.now) at x ≡ found_at (listed entries.now) result.next x }
{
    if at == 0 {
        return Jump { to: 0, next: 0 };
    }
    let node = entries.node(at - 1);
    let differs = slot(hash, node.hash);
    if bit < differs {
        Jump {
            to: node.jumps[bit],
            next: at,
        }
    } else {
        Jump {
            to: at,
            next: node.jumps[differs],
        }
    }
}

/// The jumps from a name of this hash before a scope.
pub(crate) fn jumps_from(entries: &Entries<'_, '_>, hash: usize, scope: usize) -> [usize; 17]
    requires { scope ≤ length (listed entries.now) }
    ensures below { (b : ℕ) → get_or result b 0 ≤ length (listed entries.now) }
    ensures same { (x : names.Name)
        → found_at (listed entries.now) scope x
        ≡ found_at (listed entries.now) (get_or result (slot_of hash (hash_of x)) 0) x }
{
    let mut jumps = [0; 17];
    let mut at = scope;
    for bit in 0..17 {
        let jump = jump_at(entries, hash, at, bit);
        jumps[bit] = jump.to;
        at = jump.next;
    }
    jumps
}
