//! Laws of the grammar alone.

ghost use Rattle.std.specs.Prelude.{◌≡◌, ℕ, List, IsTrue};
ghost use Rattle.tla_lex.specs.declared.token.Token.{Token};
ghost use Rattle.tla_grammar.specs.declared.context.Context.{Context};
ghost use Rattle.tla_tree.specs.Tree.{Tree};
ghost use Rattle.tla_grammar.specs.Edges.{is_delimited};
ghost use Rattle.tla_grammar.specs.Grammar.{Spells};
ghost use Rattle.tla_grammar.specs.Ending.{EndsAt};

/// Tokens and columns determine where a bracket or a junction list ends, whatever follows. They determine where an
/// expression ends, unless it may continue with what follows.
pub fn ends()
    ensures delimited { (text : List ℕ) (ts : List Token) (s : Context) (from to end : ℕ)
        (t u : Tree)
        → IsTrue (is_delimited t)
        → IsTrue (is_delimited u)
        → Spells text ts s t from to
        → Spells text ts s u from end
        → to ≡ end }
    ensures whole { (text : List ℕ) (ts : List Token) (s : Context) (floor from to end : ℕ)
        (t u : Tree)
        → EndsAt text ts s floor t from to
        → EndsAt text ts s floor u from end
        → to ≡ end }
{}

/// Between two ends there is one top operator, and one tree, whatever follows.
pub fn one_top()
    ensures { (text : List ℕ) (ts : List Token) (s : Context) (from to : ℕ) (t u : Tree)
        → Spells text ts s t from to
        → Spells text ts s u from to
        → t ≡ u }
{}
