//! The names that the units of a module declare and define.

use crate::output::Output;
use std::alloc::{AllocError, Global};
use tla_lex::Place;
use tla_tree::{Definition, Unit, Written};

/// What a name is.
#[derive(Clone, Copy, PartialEq, Eq)]
pub enum Role {
    Variable,
    Constant,
    Operator,
    Function,
    Assumption,
}

impl Role {
    /// What a name of this role is called.
    pub fn noun(self) -> &'static str {
        match self {
            Role::Variable => "a variable",
            Role::Constant => "a constant",
            Role::Operator => "a definition",
            Role::Function => "a function",
            Role::Assumption => "an assumption",
        }
    }

    /// The word for how a name of this role is introduced.
    pub fn brought_in(self) -> &'static str {
        match self {
            Role::Variable | Role::Constant => "declared",
            Role::Operator | Role::Function | Role::Assumption => "defined",
        }
    }
}

/// A name, where it is introduced, its role, and how many arguments it takes.
#[derive(Clone, Copy)]
pub struct Known<'a> {
    pub name: &'a str,
    pub place: Place,
    pub role: Role,
    pub arity: usize,
}

/// The names that units introduce, in the order of the text.
pub fn known_names<'a>(alloc: Global, units: &'a [Unit]) -> Result<Vec<Known<'a>>, AllocError> {
    let mut known = Vec::new(alloc);
    for unit in units {
        push_unit(&mut known, unit)?;
    }
    Ok(known)
}

/// Whether units extend a module.
pub fn extends(units: &[Unit], module: &str) -> bool {
    for unit in units {
        if let Unit::Extends(_, names) = unit
            && names.iter().any(|name| text_of(name) == module)
        {
            return true;
        }
    }
    false
}

/// The names themselves. The only error is out of memory.
pub fn words_of<'a>(alloc: Global, known: &[Known<'a>]) -> Result<Vec<&'a str>, AllocError> {
    let mut names = Vec::new(alloc);
    for one in known {
        names.push(one.name)?;
    }
    Ok(names)
}

/// The entry of a name, if there is one.
pub fn known_name<'a>(known: &[Known<'a>], name: &str) -> Option<Known<'a>> {
    for one in known {
        if one.name == name {
            return Some(*one);
        }
    }
    None
}

fn push_unit<'a>(known: &mut Vec<Known<'a>>, unit: &'a Unit) -> Result<(), AllocError> {
    match unit {
        Unit::Variables(_, names) => push_variables(known, names),
        Unit::Constants(_, declarations) => {
            for declaration in declarations {
                push(known, &declaration.name, Role::Constant, declaration.arity)?;
            }
            Ok(())
        }
        Unit::Operator(name, _) => push(known, name, Role::Operator, 0),
        Unit::Defines(definition) | Unit::Local(_, definition) => push_defined(known, definition),
        Unit::Assume(_, Some(name), _) => push(known, name, Role::Assumption, 0),
        Unit::Separator(_)
        | Unit::Extends(_, _)
        | Unit::Assume(_, None, _)
        | Unit::Theorem(_, _, _) => Ok(()),
    }
}

fn push_variables<'a>(known: &mut Vec<Known<'a>>, names: &'a [Written]) -> Result<(), AllocError> {
    for name in names {
        push(known, name, Role::Variable, 0)?;
    }
    Ok(())
}

fn push_defined<'a>(
    known: &mut Vec<Known<'a>>,
    definition: &'a Definition,
) -> Result<(), AllocError> {
    match definition {
        Definition::Operator(name, parameters, _) => {
            push(known, name, Role::Operator, parameters.len())
        }
        Definition::Function(name, _, _) => push(known, name, Role::Function, 0),
    }
}

fn push<'a>(
    known: &mut Vec<Known<'a>>,
    written: &'a Written,
    role: Role,
    arity: usize,
) -> Result<(), AllocError> {
    known.push(Known {
        name: text_of(written),
        place: written.place,
        role,
        arity,
    })?;
    Ok(())
}

/// The text of a name.
pub fn text_of(written: &Written) -> &str {
    str::from_utf8(written.word.as_bytes()).unwrap_or("")
}

/// Adds the designation of an assumption, given its number from 1: `assumption 2`, or with its name.
pub fn put_assumption(output: &mut Output, units: &[Unit], number: u64) {
    output.put_text("assumption ");
    let name = assumption_name(units, number);
    if name.is_empty() {
        output.put_number(u128::from(number));
    } else {
        output.put(&["'", name, "' ("]);
        output.put_number(u128::from(number));
        output.put_text(")");
    }
}

/// The name of the assumption with a number, from 1; the empty text if it has no name.
fn assumption_name(units: &[Unit], number: u64) -> &str {
    let mut left = number;
    for unit in units {
        if let Unit::Assume(_, name, _) = unit {
            left = left.saturating_sub(1);
            if left == 0 {
                return match name {
                    Some(name) => text_of(name),
                    None => "",
                };
            }
        }
    }
    ""
}
