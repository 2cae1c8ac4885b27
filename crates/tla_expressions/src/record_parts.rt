//! The results of the rules of records and updates, and nodes made of their lists.

ghost use Rattle.std.specs.Prelude.{◌≡◌, IfErr, OnOk, map, [], ◌∷◌, ◌++◌};
ghost use Rattle.tla_tree.specs.View.{view, field_view, key_view, update_view};
ghost use Rattle.tla_tree.specs.Tree as tree;
ghost use Rattle.tla_tree.specs.Tree.{trees};

use tla_grammar::Refusal;
use tla_lex::Place;
use tla_tree::{Expr, Field, Key, Update};

/// A field, the number of the token after it, and the depth of its value.
#[derive(Drop)]
pub struct ParsedField {
    pub field: Field,
    pub end: usize,
    pub depth: usize,
}

/// Fields, the number of the token after the last, and the greatest depth in them.
#[derive(Drop)]
pub struct ParsedFields {
    pub fields: Vec<Field>,
    pub end: usize,
    pub depth: usize,
}

/// A step of a path, the number of the token after it, and the greatest depth in it.
#[derive(Drop)]
pub struct ParsedKey {
    pub key: Key,
    pub end: usize,
    pub depth: usize,
}

/// A path, the number of the token after it, and the greatest depth in it.
#[derive(Drop)]
pub struct ParsedKeys {
    pub keys: Vec<Key>,
    pub end: usize,
    pub depth: usize,
}

/// An update, the number of the token after it, and the greatest depth in it.
#[derive(Drop)]
pub struct ParsedUpdate {
    pub update: Update,
    pub end: usize,
    pub depth: usize,
}

/// Updates, the number of the token after the last, and the greatest depth in them.
#[derive(Drop)]
pub struct ParsedUpdates {
    pub updates: Vec<Update>,
    pub end: usize,
    pub depth: usize,
}

pub fn record_of(at: Place, fields: Vec<Field>) -> Expr
    ensures { view result ≡ tree.Record at (tree.fields (map field_view fields.items)) }
{
    Expr::Record(at, fields)
}

pub fn record_set_of(at: Place, fields: Vec<Field>) -> Expr
    ensures { view result ≡ tree.RecordSet at (tree.fields (map field_view fields.items)) }
{
    Expr::RecordSet(at, fields)
}

pub fn key_of(arguments: Vec<Expr>) -> Key
    ensures { key_view result ≡ tree.AtIndex (trees (map view arguments.items)) }
{
    Key::Index(arguments)
}

pub fn except_of(at: Place, function: Box<Expr>, updates: Vec<Update>) -> Expr
    ensures { view result
        ≡ tree.Except at (view function.value) (tree.updates (map update_view updates.items)) }
{
    Expr::Except(at, function, updates)
}
