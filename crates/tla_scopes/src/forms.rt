//! Forms with their parts.

ghost use Rattle.std.specs.Prelude.{◌≡◌, ℕ, true, false, None};
ghost use Rattle.tla_core.specs.declared.fault.Place.{Place};
ghost use Rattle.tla_tree.specs.View.{view};
ghost use Rattle.tla_scopes.specs.Meanings.{Scope, builtin_meaning};
ghost use Rattle.tla_scopes.specs.Expand.{of_quantifier};
ghost use Rattle.tla_scopes.specs.Forms.{GivesForm, GivesPrefix};
ghost use Rattle.tla_scopes.specs.Forms as spec;
ghost use Rattle.tla_scopes.specs.Scopes.{arguments_in};
ghost use Rattle.tla_scopes.specs.Costs.{IsFormCost, HasNoCost};

use crate::nodes::{
    BinaryNode, Binders, Binding, Builtin, Fielded, Form, Gather, Headed, Leaf, ListNode, OwnForm,
    TernaryNode, UnaryNode,
};
use crate::operators::{infix_for, prefix_for};
use crate::places::place_of;
use tla_core::Place;
use tla_tree::{Brackets, Bullet, Expr, Prefix, Quantifier};

fn of_brackets(brackets: Brackets) -> ListNode
    ensures { result ≡ spec.of_brackets brackets }
{
    match brackets {
        Brackets::Set => ListNode::Set,
        Brackets::Tuple => ListNode::Tuple,
    }
}

fn of_bullet(bullet: Bullet) -> ListNode
    ensures { result ≡ spec.of_bullet bullet }
{
    match bullet {
        Bullet::And => ListNode::And,
        Bullet::Or => ListNode::Or,
    }
}

fn of_quantifier(quantifier: Quantifier) -> Binding
    ensures { result ≡ of_quantifier quantifier }
{
    match quantifier {
        Quantifier::ForAll => Binding::ForAll,
        Quantifier::Exists => Binding::ForSome,
    }
}

/// The form of a constant, a list, a junction, a field, an infix operator or an IF.
fn plain_form<'a>(tree: &'a Expr) -> OwnForm<'a>
    ensures same { GivesForm (λ e. spec.is_plain e ≡ false) result (view tree.now) }
    ensures cost { IsFormCost result (view tree.now) }
{
    match tree {
        Expr::Number(at, number) => OwnForm::Form(Form::Leaf(place_of(*at), Leaf::Number(*number))),
        Expr::Text(at, word) => OwnForm::Form(Form::Leaf(place_of(*at), Leaf::Text(word))),
        Expr::Constant(at, word) => OwnForm::Form(Form::Leaf(place_of(*at), Leaf::Word(*word))),
        Expr::Listing(at, brackets, items) => {
            let node = of_brackets(*brackets);
            OwnForm::Form(Form::Many(place_of(*at), node, items))
        }
        Expr::Junction(at, bullet, items) => {
            let node = of_bullet(*bullet);
            OwnForm::Form(Form::Many(place_of(*at), node, items))
        }
        Expr::Field(at, record, name) => {
            OwnForm::Form(Form::One(place_of(*at), UnaryNode::Field(&name.word), record))
        }
        Expr::Binary(at, operator, _, first, second) => match infix_for(*operator) {
            Some(node) => OwnForm::Form(Form::Two(place_of(*at), node, first, second)),
            None => OwnForm::Nothing(place_of(*at)),
        },
        Expr::If(at, condition, yes, no) => {
            OwnForm::Form(Form::Three(place_of(*at), TernaryNode::If, condition, yes, no))
        }
        _ => OwnForm::Goes,
    }
}

/// What a prefix operator makes of its operand.
fn prefix_form<'a>(at: Place, operator: Prefix, operand: &'a Box<Expr>) -> OwnForm<'a>
    ensures same { GivesPrefix result at operator (view operand.now.value) }
    ensures cost { HasNoCost result }
{
    if let Prefix::Unchanged = operator {
        return OwnForm::Form(Form::Unchanged(at, operand));
    }
    match prefix_for(operator) {
        Some(node) => OwnForm::Form(Form::One(at, node, operand)),
        None => OwnForm::Nothing(at),
    }
}

/// The form of an expression that binds names, an application, a CASE or a prefix operator.
fn other_form<'a>(tree: &'a Expr) -> OwnForm<'a>
    ensures same { GivesForm (λ e. spec.is_other e ≡ false) result (view tree.now) }
    ensures cost { IsFormCost result (view tree.now) }
{
    match tree {
        Expr::Unary(at, operator, operand) => prefix_form(place_of(*at), *operator, operand),
        Expr::Index(at, function, arguments) => {
            OwnForm::Form(Form::Headed(place_of(*at), Headed::Index, function, arguments))
        }
        Expr::Quantified(at, quantifier, groups, body) => {
            let node = Binders::Nested(of_quantifier(*quantifier));
            OwnForm::Form(Form::Binders(place_of(*at), node, groups, body))
        }
        Expr::Choose(at, pattern, set, body) => {
            OwnForm::Form(Form::Binds(place_of(*at), Binding::Choose, pattern, set, body))
        }
        Expr::Filter(at, pattern, set, body) => {
            OwnForm::Form(Form::Binds(place_of(*at), Binding::Filter, pattern, set, body))
        }
        Expr::Image(at, body, groups) => {
            let node = Binders::Gathered(Gather::Image);
            OwnForm::Form(Form::Binders(place_of(*at), node, groups, body))
        }
        Expr::Function(at, groups, body) => {
            let node = Binders::Gathered(Gather::Function);
            OwnForm::Form(Form::Binders(place_of(*at), node, groups, body))
        }
        Expr::Case(at, arms, other) => match other {
            None => OwnForm::Form(Form::Cases(place_of(*at), arms, None)),
            Some(last) => OwnForm::Form(Form::Cases(place_of(*at), arms, Some(last))),
        },
        _ => OwnForm::Goes,
    }
}

/// The form of a set of functions, a record, a set of records, a product, an EXCEPT, or an action with a subscript.
fn made_form<'a>(tree: &'a Expr) -> OwnForm<'a>
    ensures same { GivesForm (λ e. spec.is_made e ≡ false) result (view tree.now) }
    ensures cost { IsFormCost result (view tree.now) }
{
    match tree {
        Expr::FunctionSet(at, domain, range) => {
            OwnForm::Form(Form::Two(place_of(*at), BinaryNode::Functions, domain, range))
        }
        Expr::Record(at, fields) => {
            OwnForm::Form(Form::Fields(place_of(*at), Fielded::Record, fields))
        }
        Expr::RecordSet(at, fields) => {
            OwnForm::Form(Form::Fields(place_of(*at), Fielded::Records, fields))
        }
        Expr::Product(at, first, others) => {
            OwnForm::Form(Form::Headed(place_of(*at), Headed::Product, first, others))
        }
        Expr::Except(at, function, updates) => {
            OwnForm::Form(Form::Except(place_of(*at), function, updates))
        }
        Expr::Action(at, step, action, v) => {
            let place_v = place_of(v.place());
            OwnForm::Form(Form::Action(place_of(*at), *step, action, place_v, v))
        }
        Expr::Fair(at, _, _, _) => OwnForm::Nothing(place_of(*at)),
        _ => OwnForm::Goes,
    }
}

/// The form of an expression.
pub(crate) fn form_of<'a>(tree: &'a Expr) -> OwnForm<'a>
    ensures same { GivesForm (λ e. spec.means_another e ≡ true) result (view tree.now) }
    ensures cost { IsFormCost result (view tree.now) }
{
    match plain_form(tree) {
        OwnForm::Goes => match other_form(tree) {
            OwnForm::Goes => made_form(tree),
            found => found,
        },
        found => found,
    }
}

/// Whether an operator of a module takes this many arguments.
pub(crate) fn takes(builtin: Builtin, arguments: &[Expr]) -> bool
    ensures { result ≡ false
        → (p : Place) (σ : Scope) (d : ℕ)
        → builtin_meaning builtin p (arguments_in arguments.now σ) d ≡ None }
{
    match builtin {
        Builtin::Kinds(_) => matches!(arguments, []),
        Builtin::Sequences => matches!(arguments, [_]),
        Builtin::One(_) => matches!(arguments, [_]),
        Builtin::Two(_) => matches!(arguments, [_, _]),
        Builtin::Three(_) => matches!(arguments, [_, _, _]),
    }
}
