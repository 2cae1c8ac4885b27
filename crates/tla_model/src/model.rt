//! The model that is checked.
ghost use Rattle.std.specs.Prelude.{◌≡◌, map};
ghost use Rattle.tla_core.specs.ExprOf.{expr_of};
ghost use Rattle.tla_model.specs.IsSound.{IsSound, IsSound-prop};
ghost use Rattle.tla_model.specs.ModelOf.{predicate_of, tree_of_parts};

use crate::state_predicate::StatePredicate;
use tla_core::Core;
use tla_value::Text;

/// A model. Every expression can be evaluated: its names and variables exist, a path has at most 300 nodes, each record
/// form has each field once, and tuple patterns don't lengthen a path to more than twice its nodes. Invariants and
/// constraints mention no next value.
#[derive(Drop)]
pub struct Model {
    variables: Vec<Text>,
    assumptions: Vec<Core>,
    init: Box<Core>,
    next: Box<Core>,
    invariants: Vec<StatePredicate>,
    constraints: Vec<StatePredicate>,
    check_deadlock: bool,
    ghost sound: { IsSound (tree_of_parts variables.items assumptions.items init.value next.value invariants.items constraints.items check_deadlock) } by { IsSound-prop (tree_of_parts variables.items assumptions.items init.value next.value invariants.items constraints.items check_deadlock) },
}

impl Model {
    ghost use Rattle.tla_model.specs.Models.{model_of};

    /// A model of these parts. Allocates nothing. The variables of the initial predicate are next values.
    pub fn new(
        variables: Vec<Text>,
        assumptions: Vec<Core>,
        init: Box<Core>,
        next: Box<Core>,
        invariants: Vec<StatePredicate>,
        constraints: Vec<StatePredicate>,
        check_deadlock: bool,
    ) -> Model
        requires { IsSound
            (tree_of_parts variables.items assumptions.items init.value next.value
            invariants.items constraints.items check_deadlock) }
        ensures { model_of result
            ≡ tree_of_parts variables.items assumptions.items init.value next.value
            invariants.items constraints.items check_deadlock }
    {
        Model {
            variables,
            assumptions,
            init,
            next,
            invariants,
            constraints,
            check_deadlock,
        }
    }

    /// The names of the variables, in the order of their declarations.
    pub fn variables(&self) -> &[Text]
        ensures { result.now ≡ (model_of self.now).variables }
    {
        self.variables.as_slice()
    }

    /// The assumptions, in the order of the text.
    pub fn assumptions(&self) -> &[Core]
        ensures { map expr_of result.now ≡ (model_of self.now).assumptions }
    {
        self.assumptions.as_slice()
    }

    /// The initial predicate. Its variables are next values.
    pub fn init(&self) -> &Core
        ensures { expr_of result.now ≡ (model_of self.now).init }
    {
        &self.init
    }

    /// The next-state action.
    pub fn next(&self) -> &Core
        ensures { expr_of result.now ≡ (model_of self.now).next }
    {
        &self.next
    }

    /// The invariants, in the order of the configuration.
    pub fn invariants(&self) -> &[StatePredicate]
        ensures { map predicate_of result.now ≡ (model_of self.now).invariants }
    {
        self.invariants.as_slice()
    }

    /// The constraints, in the order of the configuration. Only states at which each is TRUE have successors.
    pub fn constraints(&self) -> &[StatePredicate]
        ensures { map predicate_of result.now ≡ (model_of self.now).constraints }
    {
        self.constraints.as_slice()
    }

    /// Whether a state without a successor is an error.
    pub fn check_deadlock(&self) -> bool
        ensures { result ≡ (model_of self.now).check_deadlock }
    {
        self.check_deadlock
    }
}
