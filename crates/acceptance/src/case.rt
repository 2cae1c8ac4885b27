//! The list of a group's cases.

use crate::outputs::Form;
use std::alloc::{AllocError, Global};
use std::io;

/// The expected output of a case.
#[derive(Clone, Copy)]
pub enum Wanted {
    /// The report, and this status.
    Status(u8),
    /// The report, for each line of `options`: a status, and words of the command line.
    Options,
    /// For each n, the report of the module's first n bytes with line n of `report`.
    Prefixes,
    /// The report of the module with one more line, for each line of `lines`.
    Lines,
    /// The report of each module and configuration in `texts`.
    Texts,
    /// What is written in this form beside the report: `expected`.
    Output(Form),
    /// The explanation of each module and configuration in `texts`: `expected`.
    Explanations,
}

/// A line of the list.
#[derive(Drop)]
pub struct Case<'a> {
    pub folder: String,
    pub wanted: Wanted,
    /// Words of the command line after the two files.
    pub options: Vec<&'a str>,
}

impl Wanted {
    fn read(word: &str) -> Option<Wanted> {
        match word {
            "options" => Some(Wanted::Options),
            "prefixes" => Some(Wanted::Prefixes),
            "lines" => Some(Wanted::Lines),
            "texts" => Some(Wanted::Texts),
            "explanations" => Some(Wanted::Explanations),
            _ => match Form::read(word) {
                Some(form) => Some(Wanted::Output(form)),
                None => Some(Wanted::Status(word.parse().ok()?)),
            },
        }
    }
}

/// A line of `options`.
#[derive(Drop)]
pub struct Row<'a> {
    pub status: u8,
    pub options: Vec<&'a str>,
}

impl<'a> Row<'a> {
    /// The status and the words of a line, or none if the line has no status.
    pub fn read(alloc: Global, line: &'a str) -> Result<Option<Row<'a>>, AllocError> {
        let mut words = line.split_whitespace();
        let Some(Wanted::Status(status)) = words.next().and_then(Wanted::read) else {
            return Ok(None);
        };
        let mut options = Vec::new(alloc);
        for word in words {
            options.push(word)?;
        }
        Ok(Some(Row { status, options }))
    }
}

impl<'a> Case<'a> {
    /// The case of a line in this group's list, or none if the line has no name or no status.
    pub fn read(alloc: Global, group: &str, line: &'a str) -> io::Result<Option<Case<'a>>> {
        let mut words = line.split_whitespace();
        let Some(name) = words.next() else {
            return Ok(None);
        };
        let Some(wanted) = words.next().and_then(Wanted::read) else {
            return Ok(None);
        };
        let mut options = Vec::new(alloc);
        for word in words {
            options.push(word)?;
        }
        Ok(Some(Case {
            folder: format!(in alloc; "{group}/{name}")?,
            wanted,
            options,
        }))
    }
}
