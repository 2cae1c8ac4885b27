//! Specifications, with the reports of their checks, which were worked out by hand.

/// A module, its configuration, and the status and the report of its check.
#[derive(Clone, Copy)]
pub struct Specification {
    pub module: &'static str,
    pub config: &'static str,
    pub status: u8,
    pub report: &'static str,
}

const WITH_INVARIANT: &str = "INIT Init
NEXT Next
INVARIANT Inv
";

/// Counts modulo three.
pub const COUNTER: Specification = Specification {
    module: "---- MODULE M ----
EXTENDS Integers
VARIABLE x
Init == x = 0
Next == x' = (x + 1) % 3
Inv == x < 3
====
",
    config: WITH_INVARIANT,
    status: 0,
    report: "No error.
Levels 3, states 3.
",
};

/// Measures four gallons with two jugs.
pub const JUGS: Specification = Specification {
    module: "---- MODULE Jugs ----
EXTENDS Integers
VARIABLES big, small
Init == big = 0 /\\ small = 0
Min(a, b) == IF a < b THEN a ELSE b
FillBig == big' = 5 /\\ UNCHANGED small
FillSmall == small' = 3 /\\ UNCHANGED big
EmptyBig == big' = 0 /\\ UNCHANGED small
EmptySmall == small' = 0 /\\ UNCHANGED big
SmallToBig == /\\ big' = Min(big + small, 5)
              /\\ small' = small - (big' - big)
BigToSmall == /\\ small' = Min(big + small, 3)
              /\\ big' = big - (small' - small)
Next == FillBig \\/ FillSmall \\/ EmptyBig \\/ EmptySmall
          \\/ SmallToBig \\/ BigToSmall
NotFour == big # 4
====
",
    config: "INIT Init
NEXT Next
INVARIANT NotFour
",
    status: 10,
    report: "Invariant NotFour is false.
State 1:
/\\ big = 0
/\\ small = 0
State 2:
/\\ big = 5
/\\ small = 0
State 3:
/\\ big = 2
/\\ small = 3
State 4:
/\\ big = 2
/\\ small = 0
State 5:
/\\ big = 0
/\\ small = 2
State 6:
/\\ big = 5
/\\ small = 2
State 7:
/\\ big = 4
/\\ small = 3
Levels 7, states 14.
",
};

/// Two processes, translated from PlusCal, and an invariant that both together violate.
pub const TWO: Specification = Specification {
    module: "---- MODULE Two ----
EXTENDS Integers
(* --fair algorithm Two
variables n = 0;
process p \\in 0..1
begin
  A: n := n + 1;
end process;
end algorithm *)
\\* BEGIN TRANSLATION
VARIABLES n, pc

vars == << n, pc >>

ProcSet == (0..1)

Init == (* Global variables *)
        /\\ n = 0
        /\\ pc = [self \\in ProcSet |-> \"A\"]

A(self) == /\\ pc[self] = \"A\"
           /\\ n' = n + 1
           /\\ pc' = [pc EXCEPT ![self] = \"Done\"]

p(self) == A(self)

(* Allow infinite stuttering to prevent deadlock on termination. *)
Terminating == /\\ \\A self \\in ProcSet: pc[self] = \"Done\"
               /\\ UNCHANGED vars

Next == (\\E self \\in 0..1: p(self))
           \\/ Terminating

Spec == /\\ Init /\\ [][Next]_vars
        /\\ WF_vars(Next)

Termination == <>(\\A self \\in ProcSet: pc[self] = \"Done\")
\\* END TRANSLATION
Small == n < 2
====
",
    config: "SPECIFICATION Spec
INVARIANT Small
",
    status: 10,
    report: "Invariant Small is false.
State 1:
/\\ n = 0
/\\ pc = (0 :> \"A\" @@ 1 :> \"A\")
State 2:
/\\ n = 1
/\\ pc = (0 :> \"A\" @@ 1 :> \"Done\")
State 3:
/\\ n = 2
/\\ pc = (0 :> \"Done\" @@ 1 :> \"Done\")
Levels 3, states 4.
",
};

const LEAST_BAD: &str = "Invariant Inv is false.
State 1:
/\\ x = 2
Levels 1, states 10.
";

/// Ten states on one level, two of which violate the invariant.
pub const TWO_BAD: Specification = Specification {
    module: "---- MODULE M ----
EXTENDS Integers
VARIABLE x
Init == x \\in 0..9
Next == x' = x
Inv == x \\notin {2, 9}
====
",
    config: WITH_INVARIANT,
    status: 10,
    report: LEAST_BAD,
};

/// Ten states on one level, eight of which violate the invariant.
pub const EIGHT_BAD: Specification = Specification {
    module: "---- MODULE M ----
EXTENDS Integers
VARIABLE x
Init == x \\in 0..9
Next == x' = x
Inv == x < 2
====
",
    config: WITH_INVARIANT,
    status: 10,
    report: LEAST_BAD,
};

/// Ten states on one level, none of which violates the invariant.
pub const NONE_BAD: Specification = Specification {
    module: "---- MODULE M ----
EXTENDS Integers
VARIABLE x
Init == x \\in 0..9
Next == x' = x
Inv == TRUE
====
",
    config: WITH_INVARIANT,
    status: 0,
    report: "No error.
Levels 1, states 10.
",
};
