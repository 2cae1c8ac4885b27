//! Laws of the definitions of evaluation and membership.

ghost use Rattle.tla_core.specs.Laws.{ValueIsStable, MembershipIsStable, MembershipIsOfTheSet};

/// Setting more next values doesn't change the result of an evaluation, unless it was the fault `NotSet`.
pub fn stability()
    ensures value { ValueIsStable }
    ensures membership { MembershipIsStable }
{}

/// If the value of an expression is a set, membership in the expression is membership in that set.
pub fn sets()
    ensures { MembershipIsOfTheSet }
{}
