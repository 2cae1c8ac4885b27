//! The kinds of values that operands must have, and those that they have.

use tla_core::{Binary, Core, Unary};
use tla_page::output::Output;
use tla_value::{Arguments, FunValue, Value};

/// A required kind of operand.
#[derive(Clone, Copy, Debug, PartialEq, Eq)]
pub(crate) enum Wanted {
    Truth,
    Number,
    Set,
    Function,
    Sequence,
    Record,
}

impl Wanted {
    /// The kind, with its article.
    pub(crate) fn text(self) -> &'static str {
        match self {
            Wanted::Truth => "TRUE or FALSE",
            Wanted::Number => "a number",
            Wanted::Set => "a set",
            Wanted::Function => "a function",
            Wanted::Sequence => "a sequence",
            Wanted::Record => "a record",
        }
    }

    /// Whether a value is of the kind.
    pub(crate) fn admits(self, value: &Value) -> bool {
        match value {
            Value::Truth(_) => self == Wanted::Truth,
            Value::Int(_) => self == Wanted::Number,
            Value::Set(_) => self == Wanted::Set,
            Value::Fun(function) => match self {
                Wanted::Function | Wanted::Record => true,
                Wanted::Sequence => function.as_sequence().is_some(),
                _ => false,
            },
            Value::Text(_) | Value::Model(_) => false,
        }
    }
}

/// The required kind of an operand of a node; none if any value will do.
pub(crate) fn wanted_of(core: &Core, number: usize) -> Option<Wanted> {
    match core {
        Core::Unary(_, operator, _) => Some(wanted_of_unary(*operator)),
        Core::Binary(_, operator, _, _) => wanted_of_binary(*operator, number),
        Core::Apply(_, _, _) => (number == 0).then_some(Wanted::Function),
        Core::Except(_, _, _) => Some(Wanted::Function),
        Core::Field(_, _, _) => Some(Wanted::Record),
        Core::SubSeq(_, _, _, _) if number == 0 => Some(Wanted::Sequence),
        Core::SubSeq(_, _, _, _) => Some(Wanted::Number),
        Core::Conjunction(_, _)
        | Core::Disjunction(_, _)
        | Core::Implies(_, _, _)
        | Core::If(_, _, _, _) => Some(Wanted::Truth),
        Core::Assert(_, _, _) => (number == 0).then_some(Wanted::Truth),
        Core::Member(_, _, _) | Core::NotMember(_, _, _) => (number == 1).then_some(Wanted::Set),
        Core::Equal(_, _, _) => None,
        Core::Subset(_, _, _)
        | Core::ForAll(_, _, _)
        | Core::ForSome(_, _, _)
        | Core::Choose(_, _, _)
        | Core::Filter(_, _, _)
        | Core::Image(_, _, _)
        | Core::Function(_, _, _)
        | Core::Sequences(_, _)
        | Core::Power(_, _)
        | Core::Functions(_, _, _)
        | Core::Records(_, _)
        | Core::Product(_, _)
        | Core::Cup(_, _, _)
        | Core::Cap(_, _, _)
        | Core::Minus(_, _, _) => Some(Wanted::Set),
        _ => None,
    }
}

fn wanted_of_unary(operator: Unary) -> Wanted {
    match operator {
        Unary::Not => Wanted::Truth,
        Unary::Negate => Wanted::Number,
        Unary::Domain => Wanted::Function,
        Unary::Len | Unary::Head | Unary::Tail => Wanted::Sequence,
        Unary::Union | Unary::IsFinite | Unary::Cardinality => Wanted::Set,
    }
}

fn wanted_of_binary(operator: Binary, number: usize) -> Option<Wanted> {
    match operator {
        Binary::Iff => Some(Wanted::Truth),
        Binary::Unequal | Binary::Single => None,
        Binary::Override => Some(Wanted::Function),
        Binary::Concat => Some(Wanted::Sequence),
        Binary::Append => (number == 0).then_some(Wanted::Sequence),
        _ => Some(Wanted::Number),
    }
}

/// Adds a value with its kind: `the set {1, 2}`.
pub(crate) fn put_kind(output: &mut Output, value: &Value) {
    output.put_text(match value {
        Value::Truth(_) => "",
        Value::Int(_) => "the number ",
        Value::Text(_) => "the string ",
        Value::Model(_) => "the model value ",
        Value::Set(_) => "the set ",
        Value::Fun(function) if function.is_empty() => "the empty sequence ",
        Value::Fun(function) if function.as_sequence().is_some() => "the sequence ",
        Value::Fun(function) if is_record(function) => "the record ",
        Value::Fun(_) => "the function ",
    });
    output.put_value(value);
}

/// Whether each argument of a function is a string, and there is at least one.
pub(crate) fn is_record(function: &FunValue) -> bool {
    match function.arguments() {
        Arguments::Numbers(_) => false,
        Arguments::Listed(keys) => {
            !keys.is_empty() && keys.iter().all(|key| matches!(key, Value::Text(_)))
        }
    }
}

/// Adds the fields of a record.
pub(crate) fn put_fields(output: &mut Output, function: &FunValue) {
    let Arguments::Listed(keys) = function.arguments() else {
        return;
    };
    for (index, key) in keys.iter().enumerate() {
        if let Value::Text(name) = key {
            output.put(&[if index > 0 { ", " } else { "" }, name.as_str()]);
        }
    }
}

/// Adds the domain of a function.
pub(crate) fn put_domain(output: &mut Output, function: &FunValue) {
    match function.arguments() {
        Arguments::Numbers(first) if function.len() == 1 => put_listed(
            output,
            &[Value::Int(first)],
        ),
        Arguments::Numbers(first) => {
            let more = i64::try_from(function.len())
                .unwrap_or(i64::MAX)
                .saturating_sub(1);
            output.put_value(&Value::Int(first));
            output.put_text("..");
            output.put_value(&Value::Int(first.saturating_add(more)));
        }
        Arguments::Listed(keys) => put_listed(output, keys),
    }
}

/// How many arguments of a function are shown.
const MOST_KEYS: usize = 20;

/// Adds a set of these values.
fn put_listed(output: &mut Output, keys: &[Value]) {
    output.put_text("{");
    for (index, key) in keys.iter().take(MOST_KEYS).enumerate() {
        output.put_text(if index > 0 { ", " } else { "" });
        output.put_value(key);
    }
    output.put_text(if keys.len() > MOST_KEYS { ", ..}" } else { "}" });
}
