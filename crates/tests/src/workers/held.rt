//! Checks whose gates hold pieces: workers run at the same time, pieces are dropped, shards are merged in parallel, a
//! piece has as many states as the options say, and the gate gets the number of each level.

use crate::specifications::{EIGHT_BAD, JUGS, NONE_BAD, Specification, TWO_BAD};
use crate::workers::checks::{Crew, ends_as_wanted};
use crate::workers::gates::{Held, Holds, Until};
use std::sync::Wait;
use std::thread::Threads;
use tla_check::Pass;

/// A check of a specification, and the counts of its gate in one pass over one level.
#[derive(Clone, Copy)]
struct Row {
    name: &'static str,
    specification: Specification,
    crew: Crew,
    level: u64,
    pass: Pass,
    held: Held,
    until: Until,
    /// How many held pieces are entered, and how many pieces are left.
    entered: u64,
    left: u64,
    /// How many held pieces are dropped, and how many others, if that doesn't depend on which worker comes first.
    dropped: Option<(u64, u64)>,
}

const TWO: Crew = Crew { workers: 2, cut: 1 };

const SEVEN: Crew = Crew { workers: 7, cut: 1 };

/// Two workers meet in the pass over the invariants.
const MEETING: Row = Row {
    name: "two workers look at invariants at once",
    specification: TWO_BAD,
    crew: TWO,
    level: 0,
    pass: Pass::Invariants,
    held: Held::Pieces { from: 0, to: 1 },
    until: Until::Entered(2),
    entered: 2,
    left: 10,
    dropped: None,
};

/// Three shards of a level, which one thread merges.
const MERGE: Row = Row {
    name: "the gate gets the number of the first shard that one thread merges",
    specification: NONE_BAD,
    crew: Crew {
        workers: 3,
        cut: 64,
    },
    level: 0,
    pass: Pass::Merge,
    held: Held::Pieces { from: 0, to: 0 },
    until: Until::Entered(1),
    entered: 1,
    left: 3,
    dropped: None,
};

const THREE: Crew = Crew { workers: 3, cut: 1 };

/// Ten states, in pieces of three.
const FOUR_PIECES: Row = Row {
    name: "ten states make four pieces of three, at whose invariants workers look",
    specification: NONE_BAD,
    crew: Crew { workers: 2, cut: 3 },
    held: Held::Pieces { from: 3, to: 3 },
    until: Until::Entered(1),
    entered: 1,
    left: 4,
    ..MEETING
};

/// The jugs, whose levels have 1, 2, 3, 2, 2, 2 and 2 states. The last has the state in which the invariant is FALSE.
const LEVEL_ONE: Row = Row {
    name: "the gate gets the number of level 1 in the pass over the invariants",
    specification: JUGS,
    level: 1,
    left: 2,
    ..MEETING
};

static ROWS: [Row; 22] = [
    MEETING,
    Row {
        name: "two workers look for steps at once",
        specification: NONE_BAD,
        pass: Pass::Steps,
        ..MEETING
    },
    Row {
        name: "seven workers look at invariants at once",
        crew: SEVEN,
        held: Held::Pieces { from: 0, to: 6 },
        until: Until::Entered(7),
        entered: 7,
        ..MEETING
    },
    Row {
        name: "seven workers look for steps at once",
        specification: NONE_BAD,
        crew: SEVEN,
        pass: Pass::Steps,
        held: Held::Pieces { from: 0, to: 6 },
        until: Until::Entered(7),
        entered: 7,
        ..MEETING
    },
    Row {
        name: "one worker looks at the other invariants while the other is held",
        held: Held::First,
        until: Until::Left(9),
        entered: 1,
        ..MEETING
    },
    Row {
        name: "one worker looks for the other steps while the other is held",
        specification: NONE_BAD,
        pass: Pass::Steps,
        held: Held::First,
        until: Until::Left(9),
        entered: 1,
        ..MEETING
    },
    Row {
        name: "the least of two bad states is reported, though the other is found first",
        held: Held::Pieces { from: 2, to: 2 },
        until: Until::LeftPiece(9),
        entered: 1,
        ..MEETING
    },
    Row {
        name: "pieces above a bad state are dropped",
        held: Held::Pieces { from: 3, to: 9 },
        until: Until::LeftPiece(2),
        entered: 7,
        dropped: Some((7, 0)),
        ..MEETING
    },
    Row {
        name: "pieces above the least of eight bad states are dropped",
        specification: EIGHT_BAD,
        held: Held::Pieces { from: 3, to: 9 },
        until: Until::LeftPiece(2),
        entered: 7,
        dropped: Some((7, 0)),
        ..MEETING
    },
    Row {
        name: "shards are merged side by side",
        specification: NONE_BAD,
        pass: Pass::Merge,
        left: 2,
        dropped: Some((0, 0)),
        ..MEETING
    },
    MERGE,
    Row {
        name: "the gate gets the number of the second shard that one thread merges",
        held: Held::Pieces { from: 1, to: 1 },
        ..MERGE
    },
    Row {
        name: "the gate gets the number of the third shard that one thread merges",
        held: Held::Pieces { from: 2, to: 2 },
        ..MERGE
    },
    Row {
        name: "the gate gets the number of the first shard of three threads",
        crew: THREE,
        ..MERGE
    },
    Row {
        name: "the gate gets the number of the second shard of three threads",
        crew: THREE,
        held: Held::Pieces { from: 1, to: 1 },
        ..MERGE
    },
    Row {
        name: "the gate gets the number of the third shard of three threads",
        crew: THREE,
        held: Held::Pieces { from: 2, to: 2 },
        ..MERGE
    },
    FOUR_PIECES,
    Row {
        name: "ten states make four pieces of three, whose steps workers look for",
        pass: Pass::Steps,
        ..FOUR_PIECES
    },
    LEVEL_ONE,
    Row {
        name: "the gate gets the number of level 1 in the pass over the steps",
        pass: Pass::Steps,
        ..LEVEL_ONE
    },
    Row {
        name: "the gate gets the number of level 1 in the merge",
        pass: Pass::Merge,
        ..LEVEL_ONE
    },
    Row {
        name: "the last level, in which an invariant is FALSE, has no merge",
        level: 6,
        pass: Pass::Merge,
        entered: 0,
        left: 0,
        ..LEVEL_ONE
    },
];

/// Whether a check ends as its row says, and its gate released each held piece in time.
fn goes_as_wanted<R: AllocGlobal + Threads + Wait + Sync>(rt: &R, row: &Row) -> bool {
    let gate = Holds::new(row.level, row.pass, row.held, row.until);
    let ends = ends_as_wanted(rt, &row.specification, row.crew, &gate);
    let drops = match row.dropped {
        Some((held, others)) => gate.has_dropped(held, others),
        None => true,
    };
    ends && drops && gate.has_seen(row.entered, row.left)
}

#[test]
fn gates_hold_pieces(rt: HostRuntime) {
    for row in &ROWS {
        assert!(rt; goes_as_wanted(&rt, row), "{}", row.name);
    }
}
