// The text of values.
ghost use Rattle.std.specs.Prelude.{◌≡◌, ◌<◌, ◌++◌, codes, length, map, zip, OnOk, IfErr};
ghost use Rattle.std.specs.Io.KnownBytes.{Appends};
ghost use Rattle.std.specs.List.{list_all, list_any};
ghost use Rattle.std.specs.Str.{bytes_eq};
ghost use Rattle.std.specs.Char.{is_ascii_alphabetic};
ghost use Rattle.counted_writer.specs.Puts.{Puts, AddsFirst};
ghost use Rattle.tla_value.specs.Tree.{int, trees, pairs as pairs_of, set, fun};
ghost use Rattle.tla_value.specs.TreeOf.{tree_of, pair_of};
ghost use Rattle.tla_value.specs.Arguments.{numbers_from};
ghost use Rattle.tla_value.specs.IsValue.{FitNumbers};
ghost use Rattle.tla_value.specs.TextNames.{is_word_byte, begins_fairness, is_identifier, is_reserved};
ghost use Rattle.tla_value.specs.Text.{text_of, escaped, quoted, field_name, is_field, joined, listed, member_texts, field_texts, pair_texts};
ghost use Rattle.tla_value.specs.Private.Inner.{separator_before};

use crate::fun::are_from_one;
use crate::value::{Arguments, FunValue, SetValue, Value};
use counted_writer::{ShortWrite, put, put_number};
use std::io::Write;

/// A write failed or took no byte, so only a part of a value's text was written.
#[derive(Clone, Copy, Debug, PartialEq, Eq)]
pub struct TextFault {
    /// How many bytes were written; `u64::MAX` means that many or more.
    pub written: u64,
}

impl Value {
    /// Writes the text of the value.
    ///
    /// The first write that fails, or that takes no byte, ends the call with an error. Allocates nothing.
    pub fn write_text<W: Write>(&self, out: &mut W) -> Result<(), TextFault>
        ensures ok { OnOk result
            (Appends (W.contents out.old) (W.contents out.new) (text_of (tree_of self.now))) }
        ensures err { IfErr result (λ e.
            AddsFirst (W.contents out.old) (W.contents out.new) (text_of (tree_of self.now))
            e.written) }
    {
        match self.put_text(out, 0) {
            Ok(_) => Ok(()),
            Err(ShortWrite { written }) => Err(TextFault { written }),
        }
    }

    /// Writes the text of the value as [`Value::write_text`] does, after `written` bytes, and returns the count after
    /// it, which saturates at `u64::MAX`.
    pub fn put_text<W: Write>(&self, out: &mut W, written: u64) -> Result<u64, ShortWrite>
        ensures { Puts (W.contents out.old) (W.contents out.new) written
            (text_of (tree_of self.now)) result }
    {
        put_value(self, out, written)
    }
}

#[cycle(show)]
fn put_value<W: Write>(value: &Value, out: &mut W, written: u64) -> Result<u64, ShortWrite>
    ensures { Puts (W.contents out.old) (W.contents out.new) written (text_of (tree_of value.now))
        result }
{
    match value {
        Value::Truth(true) => put(out, written, b"TRUE"),
        Value::Truth(false) => put(out, written, b"FALSE"),
        Value::Int(number) => put_number(out, written, *number),
        Value::Text(text) => put_quoted(text.as_str().as_bytes(), out, written),
        Value::Model(name) => put(out, written, name.as_str().as_bytes()),
        Value::Set(set) => put_set(set, out, written),
        Value::Fun(fun) => put_function(fun, out, written),
    }
}

fn put_quoted<W: Write>(bytes: &[u8], out: &mut W, written: u64) -> Result<u64, ShortWrite>
    ensures { Puts (W.contents out.old) (W.contents out.new) written (quoted bytes.now) result }
{
    let mut written = put(out, written, b"\"")?;
    for byte in bytes {
        written = put_escaped(*byte, out, written)?;
    }
    put(out, written, b"\"")
}

fn put_escaped<W: Write>(byte: u8, out: &mut W, written: u64) -> Result<u64, ShortWrite>
    ensures { Puts (W.contents out.old) (W.contents out.new) written (escaped byte) result }
{
    match byte {
        b'"' => put(out, written, b"\\\""),
        b'\\' => put(out, written, b"\\\\"),
        b'\t' => put(out, written, b"\\t"),
        b'\n' => put(out, written, b"\\n"),
        b'\x0C' => put(out, written, b"\\f"),
        b'\r' => put(out, written, b"\\r"),
        _ => put(out, written, &[byte]),
    }
}

#[cycle(show)]
fn put_set<W: Write>(of: &SetValue, out: &mut W, written: u64) -> Result<u64, ShortWrite>
    ensures { Puts (W.contents out.old) (W.contents out.new) written (text_of (set (trees of.now)))
        result }
{
    let items = of.items();
    let written = put(out, written, b"{")?;
    let written = put_items(items, out, written)?;
    put(out, written, b"}")
}

// Writes some values with commas between them.
#[cycle(show)]
fn put_items<W: Write>(items: &[Value], out: &mut W, written: u64) -> Result<u64, ShortWrite>
    ensures { Puts (W.contents out.old) (W.contents out.new) written
        (joined (codes ", ") (member_texts (trees (map tree_of items.now)))) result }
{
    let mut written = written;
    for i in 0..items.len() {
        written = put_item(&items[i], i, out, written)?;
    }
    Ok(written)
}

// Writes the item at an index, after a comma unless it is the first.
#[cycle(show)]
fn put_item<W: Write>(
    item: &Value,
    index: usize,
    out: &mut W,
    written: u64,
) -> Result<u64, ShortWrite>
    ensures { Puts (W.contents out.old) (W.contents out.new) written
        (separator_before index (codes ", ") ++ text_of (tree_of item.now)) result }
{
    let written = put_between(index, b", ", out, written)?;
    put_value(item, out, written)
}

// Writes the separator before the item at an index.
fn put_between<W: Write>(
    index: usize,
    separator: &[u8],
    out: &mut W,
    written: u64,
) -> Result<u64, ShortWrite>
    ensures { Puts (W.contents out.old) (W.contents out.new) written
        (separator_before index separator.now) result }
{
    if index == 0 {
        Ok(written)
    } else {
        put(out, written, separator)
    }
}

#[cycle(show)]
fn put_function<W: Write>(of: &FunValue, out: &mut W, written: u64) -> Result<u64, ShortWrite>
    ensures { Puts (W.contents out.old) (W.contents out.new) written
        (text_of (fun (pairs_of of.now))) result }
{
    let values = of.values();
    if values.is_empty() {
        return put(out, written, b"<< >>");
    }
    match of.arguments() {
        Arguments::Numbers(first) => put_numbers(first, values, out, written),
        Arguments::Listed(arguments) => put_listed(arguments, values, out, written),
    }
}

// Writes a function on consecutive numbers.
#[cycle(show)]
fn put_numbers<W: Write>(
    first: i64,
    values: &[Value],
    out: &mut W,
    written: u64,
) -> Result<u64, ShortWrite>
    requires some { 0 < length values.now }
    requires fits { FitNumbers (length values.now) first }
    ensures { Puts (W.contents out.old) (W.contents out.new) written
        (text_of
        (fun
        (pairs_of (map pair_of (zip (numbers_from (length values.now) first) values.now)))))
        result }
{
    if first == 1 {
        put_sequence(values, out, written)
    } else {
        put_numbered(first, values, out, written)
    }
}

// Writes a function whose arguments are a list.
#[cycle(show)]
fn put_listed<W: Write>(
    arguments: &[Value],
    values: &[Value],
    out: &mut W,
    written: u64,
) -> Result<u64, ShortWrite>
    requires long { length arguments.now ≡ length values.now }
    requires some { 0 < length values.now }
    ensures { Puts (W.contents out.old) (W.contents out.new) written
        (text_of (fun (pairs_of (map pair_of (zip arguments.now values.now))))) result }
{
    // No argument is both a number and a string, so one of the two tests ends at the first argument.
    if are_from_one(arguments) {
        put_sequence(values, out, written)
    } else if are_names(arguments) {
        put_record(arguments, values, out, written)
    } else {
        put_pairs(arguments, values, out, written)
    }
}

#[cycle(show)]
fn put_sequence<W: Write>(values: &[Value], out: &mut W, written: u64) -> Result<u64, ShortWrite>
    ensures { Puts (W.contents out.old) (W.contents out.new) written
        (listed (codes "<<") (codes ", ") (codes ">>")
        (member_texts (trees (map tree_of values.now)))) result }
{
    let written = put(out, written, b"<<")?;
    let written = put_items(values, out, written)?;
    put(out, written, b">>")
}

#[cycle(show)]
fn put_record<W: Write>(
    names: &[Value],
    values: &[Value],
    out: &mut W,
    written: u64,
) -> Result<u64, ShortWrite>
    requires { length names.now ≡ length values.now }
    ensures { Puts (W.contents out.old) (W.contents out.new) written
        (listed (codes "[") (codes ", ") (codes "]")
        (field_texts (pairs_of (map pair_of (zip names.now values.now))))) result }
{
    let mut written = put(out, written, b"[")?;
    for i in 0..names.len() {
        written = put_field(&names[i], &values[i], i, out, written)?;
    }
    put(out, written, b"]")
}

#[cycle(show)]
fn put_field<W: Write>(
    name: &Value,
    value: &Value,
    index: usize,
    out: &mut W,
    written: u64,
) -> Result<u64, ShortWrite>
    ensures { Puts (W.contents out.old) (W.contents out.new) written
        (separator_before index (codes ", ") ++
        (field_name (tree_of name.now) ++ (codes " |-> " ++ text_of (tree_of value.now)))) result }
{
    let written = put_between(index, b", ", out, written)?;
    let written = put_name(name, out, written)?;
    let written = put(out, written, b" |-> ")?;
    put_value(value, out, written)
}

// Writes a string without quotes, and nothing for another value.
fn put_name<W: Write>(name: &Value, out: &mut W, written: u64) -> Result<u64, ShortWrite>
    ensures { Puts (W.contents out.old) (W.contents out.new) written (field_name (tree_of name.now))
        result }
{
    match name {
        Value::Text(text) => put(out, written, text.as_str().as_bytes()),
        _ => Ok(written),
    }
}

#[cycle(show)]
fn put_pairs<W: Write>(
    arguments: &[Value],
    values: &[Value],
    out: &mut W,
    written: u64,
) -> Result<u64, ShortWrite>
    requires { length arguments.now ≡ length values.now }
    ensures { Puts (W.contents out.old) (W.contents out.new) written
        (listed (codes "(") (codes " @@ ") (codes ")")
        (pair_texts (pairs_of (map pair_of (zip arguments.now values.now))))) result }
{
    let mut written = put(out, written, b"(")?;
    for i in 0..arguments.len() {
        written = put_pair(&arguments[i], &values[i], i, out, written)?;
    }
    put(out, written, b")")
}

// Writes a function on consecutive numbers that is no sequence.
#[cycle(show)]
fn put_numbered<W: Write>(
    first: i64,
    values: &[Value],
    out: &mut W,
    written: u64,
) -> Result<u64, ShortWrite>
    requires { FitNumbers (length values.now) first }
    ensures { Puts (W.contents out.old) (W.contents out.new) written
        (listed (codes "(") (codes " @@ ") (codes ")")
        (pair_texts (pairs_of (map pair_of
        (zip (numbers_from (length values.now) first) values.now))))) result }
{
    let mut written = put(out, written, b"(")?;
    for i in 0..values.len() {
        written = put_numbered_pair(first + i as i64, &values[i], i, out, written)?;
    }
    put(out, written, b")")
}

// Writes a pair whose argument is a number.
#[cycle(show)]
fn put_numbered_pair<W: Write>(
    argument: i64,
    value: &Value,
    index: usize,
    out: &mut W,
    written: u64,
) -> Result<u64, ShortWrite>
    ensures { Puts (W.contents out.old) (W.contents out.new) written
        (separator_before index (codes " @@ ") ++
        (text_of (int argument) ++ (codes " :> " ++ text_of (tree_of value.now)))) result }
{
    put_pair(&Value::Int(argument), value, index, out, written)
}

#[cycle(show)]
fn put_pair<W: Write>(
    argument: &Value,
    value: &Value,
    index: usize,
    out: &mut W,
    written: u64,
) -> Result<u64, ShortWrite>
    ensures { Puts (W.contents out.old) (W.contents out.new) written
        (separator_before index (codes " @@ ") ++
        (text_of (tree_of argument.now) ++ (codes " :> " ++ text_of (tree_of value.now)))) result }
{
    let written = put_between(index, b" @@ ", out, written)?;
    let written = put_value(argument, out, written)?;
    let written = put(out, written, b" :> ")?;
    put_value(value, out, written)
}

// Whether each argument is the name of a field.
fn are_names(arguments: &[Value]) -> bool
    ensures { result ≡ list_all is_field (map tree_of arguments.now) }
{
    for argument in arguments {
        if !names_field(argument) {
            return false;
        }
    }
    true
}

fn names_field(argument: &Value) -> bool
    ensures { result ≡ is_field (tree_of argument.now) }
{
    match argument {
        Value::Text(text) => {
            let name = text.as_str();
            is_identifier(name.as_bytes()) && !is_reserved(name)
        }
        _ => false,
    }
}

fn is_identifier(name: &[u8]) -> bool
    ensures { result ≡ is_identifier name.now }
{
    has_word_bytes(name) && has_letter(name) && !begins_fairness(name)
}

fn has_word_bytes(bytes: &[u8]) -> bool
    ensures { result ≡ list_all is_word_byte bytes.now }
{
    for byte in bytes {
        if !byte.is_ascii_alphanumeric() && *byte != b'_' {
            return false;
        }
    }
    true
}

fn has_letter(bytes: &[u8]) -> bool
    ensures { result ≡ list_any is_ascii_alphabetic bytes.now }
{
    for byte in bytes {
        if byte.is_ascii_alphabetic() {
            return true;
        }
    }
    false
}

// Whether a word begins with a token of its own, `WF_` or `SF_`.
fn begins_fairness(word: &[u8]) -> bool
    ensures { result ≡ begins_fairness word.now }
{
    word.starts_with(b"WF_") || word.starts_with(b"SF_")
}

const RESERVED: [&str; 37] = [
    "ASSUME",
    "ASSUMPTION",
    "AXIOM",
    "BOOLEAN",
    "CASE",
    "CHOOSE",
    "CONSTANT",
    "CONSTANTS",
    "DOMAIN",
    "ELSE",
    "EXCEPT",
    "EXTENDS",
    "FALSE",
    "IF",
    "IN",
    "LET",
    "LOCAL",
    "MODULE",
    "OTHER",
    "STRING",
    "SUBSET",
    "THEN",
    "THEOREM",
    "TRUE",
    "UNCHANGED",
    "UNION",
    "VARIABLE",
    "VARIABLES",
    "ENABLED",
    "INSTANCE",
    "LAMBDA",
    "RECURSIVE",
    "WITH",
    "PROOF",
    "BY",
    "OBVIOUS",
    "OMITTED",
];

fn is_reserved(word: &str) -> bool
    ensures { result ≡ is_reserved word.now }
{
    stands_in(word, &RESERVED)
}

// Whether a word is one of some words.
fn stands_in(word: &str, words: &[&str]) -> bool
    ensures { result ≡ list_any (λ w. bytes_eq word.now w.now) words.now }
{
    for known in words {
        if word == *known {
            return true;
        }
    }
    false
}
