//! Laws by which one evaluation serves several copies of an expression.

ghost use Rattle.tla_code.specs.Laws.{RaiseKeepsValue, RaiseKeepsMembers, RaiseTwiceIsRaiseOnce, SteadyKeepsValue, SteadyKeepsMembers};

/// A copy of an expression under more names has the same value and the same members.
pub fn copies()
    ensures value { RaiseKeepsValue }
    ensures members { RaiseKeepsMembers }
{}

/// A copy of a copy is one copy.
pub fn copies_of_copies()
    ensures { RaiseTwiceIsRaiseOnce }
{}

/// An expression that mentions no variable has the same value and the same members in all states.
pub fn steady()
    ensures value { SteadyKeepsValue }
    ensures members { SteadyKeepsMembers }
{}
