//! The report of a check.
ghost use Rattle.std.specs.Prelude.{◌≡◌, ◌++◌, ◌<◌, length, map, codes, OnOk, IfErr};
ghost use Rattle.std.specs.Io.KnownBytes.{Appends};
ghost use Rattle.counted_writer.specs.Puts.{Puts, AddsFirst};
ghost use Rattle.tla_value.specs.TreeOf.{tree_of};
ghost use Rattle.tla_verdict.specs.Answers.{trace_of};
ghost use Rattle.tla_verdict.specs.IsNamed.{AreWhole, IsAboutOne, IsNamedPart};
ghost use Rattle.tla_report.specs.Codes.{refusal_code};
ghost use Rattle.tla_report.specs.Private.Pieces.{piece_text, pieces_text};
ghost use Rattle.tla_report.specs.Report.{report, line, first_line, fault_line, site_text, part_line, place_text, trace_lines, state_lines, value_line, value_lines, counts_line, answer_report, refusal_line, ending, source_text};

use crate::checked::{Answered, Checked, Names, Refusal, RefusalCode};
use block_writer::{Document, put_in_blocks};
use counted_writer::{ShortWrite, put, put_number};
use std::io::Write;
use tla_config::Source;
use tla_core::{Fault, Place};
use tla_value::{State, Text, Value};
use tla_verdict::{Answer, Counts, Part};

/// A write failed or took no byte.
#[derive(Clone, Copy, Debug, PartialEq, Eq)]
pub struct WriteFault {
    /// How many bytes of the report were written; `u64::MAX` means that many or more.
    pub written: u64,
}

/// Writes the report, in blocks. The first write that fails or takes no byte ends it with an error. Allocates nothing.
pub fn write_report<W: Write>(checked: &Checked, out: &mut W) -> Result<(), WriteFault>
    ensures ok { OnOk result
        (Appends (W.contents out.old) (W.contents out.new) (report checked.now)) }
    ensures fault { IfErr result (λ e.
        AddsFirst (W.contents out.old) (W.contents out.new) (report checked.now) e.written) }
{
    match put_in_blocks(checked, out) {
        Ok(()) => Ok(()),
        Err(short) => Err(WriteFault {
            written: short.written,
        }),
    }
}

impl Document for Checked {
    ghost bytes = { report };

    fn put_on<W: Write>(&self, out: &mut W) -> Result<u64, ShortWrite> {
        put_report(self, out)
    }
}

fn put_report<W: Write>(checked: &Checked, out: &mut W) -> Result<u64, ShortWrite>
    ensures { Puts (W.contents out.old) (W.contents out.new) 0 (report checked.now) result }
{
    match checked {
        Checked::Answered(answered) => put_answer(answered, out),
        Checked::Refused(refusal) => put_refusal(refusal, out),
        Checked::NoMemory => put_line(&[Piece::Text("Out of memory.")], out, 0),
        Checked::NoWorker => put_line(&[Piece::Text("A worker could not be started.")], out, 0),
    }
}

fn put_answer<W: Write>(answered: &Answered, out: &mut W) -> Result<u64, ShortWrite>
    ensures { Puts (W.contents out.old) (W.contents out.new) 0 (answer_report answered.now) result }
{
    let written = put_first_line(answered, out)?;
    let written = put_trace(answered, out, written)?;
    put_counts(answered.answer.counts(), out, written)
}

fn put_first_line<W: Write>(answered: &Answered, out: &mut W) -> Result<u64, ShortWrite>
    ensures { Puts (W.contents out.old) (W.contents out.new) 0
        (first_line answered.now.variables answered.now.invariants answered.now.constraints
        answered.now.limit answered.now.answer) result }
{
    match &answered.answer {
        Answer::NoError { .. } => put_line(&[Piece::Text("No error.")], out, 0),
        Answer::InvariantFalse { invariant, .. } => {
            let name = answered.invariants.name(*invariant);
            let pieces = [
                Piece::Text("Invariant "),
                Piece::Text(name),
                Piece::Text(" is false."),
            ];
            put_line(&pieces, out, 0)
        }
        Answer::Deadlock { .. } => put_line(&[Piece::Text("Deadlock.")], out, 0),
        Answer::Faulted { fault, part, .. } => put_fault(fault, *part, answered, out),
        Answer::AssumptionFalse { number } => {
            let pieces = [
                Piece::Text("Assumption "),
                Piece::Number(u128::from(*number)),
                Piece::Text(" is false."),
            ];
            put_line(&pieces, out, 0)
        }
        Answer::Limit { .. } => {
            let pieces = [
                Piece::Text("State limit "),
                Piece::Number(u128::from(answered.limit)),
                Piece::Text(" passed."),
            ];
            put_line(&pieces, out, 0)
        }
    }
}

fn put_fault<W: Write>(
    fault: &Fault,
    part: Part,
    answered: &Answered,
    out: &mut W,
) -> Result<u64, ShortWrite>
    requires about { IsAboutOne (length answered.now.variables) fault.now.place fault.now.variable }
    requires named { IsNamedPart (length answered.now.invariants) (length answered.now.constraints)
        part }
    ensures { Puts (W.contents out.old) (W.contents out.new) 0
        (fault_line answered.now.variables answered.now.invariants answered.now.constraints
        fault.now part) result }
{
    let pieces = [Piece::Text("Fault "), Piece::Text(fault.code.name())];
    let written = put_pieces(&pieces, out, 0)?;
    let written = put_site(fault, &answered.variables, out, written)?;
    put_part(part, answered, out, written)
}

// Writes the variable or the place of a fault.
fn put_site<W: Write>(
    fault: &Fault,
    variables: &Names,
    out: &mut W,
    written: u64,
) -> Result<u64, ShortWrite>
    requires { IsAboutOne (length variables.now) fault.now.place fault.now.variable }
    ensures { Puts (W.contents out.old) (W.contents out.new) written
        (site_text variables.now fault.now.place fault.now.variable) result }
{
    match (fault.place, fault.variable) {
        (Some(place), None) => put_place(place, out, written),
        (None, Some(variable)) => {
            let pieces = [
                Piece::Text(" for variable "),
                Piece::Text(variables.name(variable)),
            ];
            put_pieces(&pieces, out, written)
        }
        (None, None) | (Some(_), Some(_)) => unreachable!(),
    }
}

// Writes the rest of the line, which names the formula that faulted.
fn put_part<W: Write>(
    part: Part,
    answered: &Answered,
    out: &mut W,
    written: u64,
) -> Result<u64, ShortWrite>
    requires { IsNamedPart (length answered.now.invariants) (length answered.now.constraints) part }
    ensures { Puts (W.contents out.old) (W.contents out.new) written
        (part_line answered.now.invariants answered.now.constraints part) result }
{
    match part {
        Part::Assumption(number) => {
            let pieces = [
                Piece::Text(" in assumption "),
                Piece::Number(u128::from(number)),
                Piece::Text("."),
            ];
            put_line(&pieces, out, written)
        }
        Part::Initial => put_line(&[Piece::Text(" in the initial predicate.")], out, written),
        Part::NextAction => put_line(&[Piece::Text(" in the next-state action.")], out, written),
        Part::Invariant(invariant) => {
            let pieces = [
                Piece::Text(" in invariant "),
                Piece::Text(answered.invariants.name(invariant)),
                Piece::Text("."),
            ];
            put_line(&pieces, out, written)
        }
        Part::Constraint(constraint) => {
            let pieces = [
                Piece::Text(" in constraint "),
                Piece::Text(answered.constraints.name(constraint)),
                Piece::Text("."),
            ];
            put_line(&pieces, out, written)
        }
    }
}

fn put_place<W: Write>(place: Place, out: &mut W, written: u64) -> Result<u64, ShortWrite>
    ensures { Puts (W.contents out.old) (W.contents out.new) written (place_text place) result }
{
    let pieces = [
        Piece::Text(" at line "),
        Piece::Number(u128::from(place.line)),
        Piece::Text(", column "),
        Piece::Number(place.column),
    ];
    put_pieces(&pieces, out, written)
}

fn put_refusal<W: Write>(refusal: &Refusal, out: &mut W) -> Result<u64, ShortWrite>
    ensures { Puts (W.contents out.old) (W.contents out.new) 0 (refusal_line refusal.now) result }
{
    let pieces = [
        Piece::Text(source_name(refusal.source)),
        Piece::Text(" refused: "),
        Piece::Text(refusal_code_text(refusal.code)),
    ];
    let written = put_pieces(&pieces, out, 0)?;
    let written = put_place(refusal.place, out, written)?;
    match &refusal.name {
        None => put(out, written, b".\n"),
        Some(name) => {
            let pieces = [
                Piece::Text(": "),
                Piece::Bytes(name.as_bytes()),
                Piece::Text("."),
            ];
            put_line(&pieces, out, written)
        }
    }
}

fn put_trace<W: Write>(answered: &Answered, out: &mut W, written: u64) -> Result<u64, ShortWrite>
    ensures { Puts (W.contents out.old) (W.contents out.new) written
        (trace_lines answered.now.variables 1 (trace_of answered.now.answer)) result }
{
    put_states(answered.answer.states(), &answered.variables, out, written)
}

fn put_states<W: Write>(
    states: &[State],
    variables: &Names,
    out: &mut W,
    mut written: u64,
) -> Result<u64, ShortWrite>
    requires { AreWhole (length variables.now) states.now }
    ensures { Puts (W.contents out.old) (W.contents out.new) written
        (trace_lines variables.now 1 states.now) result }
{
    for (index, state) in states.iter().enumerate() {
        written = put_state(index + 1, state, variables, out, written)?;
    }
    Ok(written)
}

fn put_state<W: Write>(
    number: usize,
    state: &State,
    variables: &Names,
    out: &mut W,
    written: u64,
) -> Result<u64, ShortWrite>
    requires { length state.now ≡ length variables.now }
    ensures { Puts (W.contents out.old) (W.contents out.new) written
        (state_lines variables.now number state.now) result }
{
    let pieces = [
        Piece::Text("State "),
        Piece::Number(number as u128),
        Piece::Text(":"),
    ];
    let written = put_line(&pieces, out, written)?;
    put_values(variables.as_slice(), state.values(), out, written)
}

fn put_values<W: Write>(
    variables: &[Text],
    values: &[Value],
    out: &mut W,
    mut written: u64,
) -> Result<u64, ShortWrite>
    requires { length values.now ≡ length variables.now }
    ensures { Puts (W.contents out.old) (W.contents out.new) written
        (value_lines variables.now (map tree_of values.now)) result }
{
    for (index, value) in values.iter().enumerate() {
        written = put_value(variables[index].as_str(), value, out, written)?;
    }
    Ok(written)
}

fn put_value<'a, W: Write>(
    variable: &'a str,
    value: &'a Value,
    out: &mut W,
    written: u64,
) -> Result<u64, ShortWrite>
    ensures { Puts (W.contents out.old) (W.contents out.new) written
        (value_line variable.now (tree_of value.now)) result }
{
    let pieces = [
        Piece::Text("/\\ "),
        Piece::Text(variable),
        Piece::Text(" = "),
        Piece::Value(value),
    ];
    put_line(&pieces, out, written)
}

fn put_counts<W: Write>(counts: Counts, out: &mut W, written: u64) -> Result<u64, ShortWrite>
    ensures { Puts (W.contents out.old) (W.contents out.new) written (counts_line counts) result }
{
    let pieces = [
        Piece::Text("Levels "),
        Piece::Number(u128::from(counts.levels)),
        Piece::Text(", states "),
        Piece::Number(u128::from(counts.states)),
        Piece::Text("."),
    ];
    put_line(&pieces, out, written)
}

// A part of a line.
#[derive(Clone, Copy)]
enum Piece<'a> {
    Text(&'a str),
    Bytes(&'a [u8]),
    Number(u128),
    Value(&'a Value),
}

// Writes the pieces and a line feed.
fn put_line<W: Write>(pieces: &[Piece<'_>], out: &mut W, written: u64) -> Result<u64, ShortWrite>
    ensures { Puts (W.contents out.old) (W.contents out.new) written
        (pieces_text pieces.now ++ codes "\n") result }
{
    let written = put_pieces(pieces, out, written)?;
    put(out, written, b"\n")
}

fn put_pieces<W: Write>(
    pieces: &[Piece<'_>],
    out: &mut W,
    mut written: u64,
) -> Result<u64, ShortWrite>
    ensures { Puts (W.contents out.old) (W.contents out.new) written (pieces_text pieces.now)
        result }
{
    for piece in pieces {
        written = put_piece(piece, out, written)?;
    }
    Ok(written)
}

fn put_piece<W: Write>(piece: &Piece<'_>, out: &mut W, written: u64) -> Result<u64, ShortWrite>
    ensures { Puts (W.contents out.old) (W.contents out.new) written (piece_text piece.now) result }
{
    match piece {
        Piece::Text(text) => put(out, written, text.as_bytes()),
        Piece::Bytes(bytes) => put(out, written, bytes),
        Piece::Number(number) => put_number(out, written, *number),
        Piece::Value(value) => value.put_text(out, written),
    }
}

fn source_name(source: Source) -> &'static str
    ensures { result.now ≡ source_text source }
{
    match source {
        Source::Module => "Module",
        Source::Configuration => "Configuration",
    }
}

/// The text of a code in the report of a refusal.
pub fn refusal_code_text(code: RefusalCode) -> &'static str
    ensures { result.now ≡ refusal_code code }
{
    match code {
        RefusalCode::NotUtf8 => "L1",
        RefusalCode::UnknownCharacter => "L2",
        RefusalCode::OpenString => "L3",
        RefusalCode::OpenComment => "L4",
        RefusalCode::NumberTooLarge => "L5",
        RefusalCode::NoHeader => "L6",
        RefusalCode::NoClosingLine => "L7",
        RefusalCode::UnexpectedToken => "P1",
        RefusalCode::PrecedenceConflict => "P2",
        RefusalCode::LeftOfJunction => "P3",
        RefusalCode::NestedTooDeep => "P4",
        RefusalCode::FormLeftOut => "P5",
        RefusalCode::ConfigurationText => "C1",
        RefusalCode::UnknownName => "C2",
        RefusalCode::DefinedTwice => "C3",
        RefusalCode::ArgumentCount => "C4",
        RefusalCode::Level => "C5",
        RefusalCode::ConstantWithoutValue => "C6",
        RefusalCode::CircularReplacement => "C7",
        RefusalCode::SpecificationForm => "C8",
        RefusalCode::BehaviourCount => "C9",
        RefusalCode::StatementLeftOut => "C10",
        RefusalCode::ExpansionTooLarge => "C11",
    }
}
