//! The output files of a line.
ghost use Rattle.std.specs.Prelude.{◌≡◌, Some, IfErr};
ghost use Rattle.tla_run.specs.Runs.{AsksFor};

use crate::host::{Host, Inputs};
use std::io::ErrorKind;
use tla_check::{Checked, Line};

/// The output files of a line, created and still empty.
#[derive(Drop)]
pub struct NewFiles<F> {
    json: Option<F>,
    dot: Option<F>,
}

/// A file that can't be created, and why.
#[derive(Clone, Copy)]
pub struct Uncreated<'a> {
    pub name: &'a str,
    pub cause: Uncreatable,
}

/// Why a file can't be created.
#[derive(Clone, Copy, Debug, PartialEq, Eq)]
pub enum Uncreatable {
    /// It is the module or the configuration.
    Input,
    /// It is named twice.
    Twice,
    /// Its folder doesn't exist.
    NoFolder,
    Folder,
    NotPermitted,
    Failed,
}

impl Uncreatable {
    fn by_kind(kind: ErrorKind) -> Uncreatable {
        match kind {
            ErrorKind::NotFound | ErrorKind::NotADirectory => Uncreatable::NoFolder,
            ErrorKind::IsADirectory => Uncreatable::Folder,
            ErrorKind::PermissionDenied => Uncreatable::NotPermitted,
            _ => Uncreatable::Failed,
        }
    }

    /// The line for the user.
    pub fn text(self) -> &'static str {
        match self {
            Uncreatable::Input => "cause: it is one of the files to check\n",
            Uncreatable::Twice => "cause: --json and --dot name the same file\n",
            Uncreatable::NoFolder => "cause: its folder isn't there\n",
            Uncreatable::Folder => "cause: it is a folder\n",
            Uncreatable::NotPermitted => "cause: no permission to write it\n",
            Uncreatable::Failed => "cause: it can't be created\n",
        }
    }
}

/// Creates the output files of the line.
#[tactic(auto, using(crate::proofs::RunLemmas::asks_json, crate::proofs::RunLemmas::asks_dot))]
pub fn create_files<'a, H: Host>(
    host: &H,
    line: &Line<'a>,
) -> Result<NewFiles<H::NewFile>, Uncreated<'a>>
    ensures { IfErr result (λ u. AsksFor line.now u.name.now) }
{
    if let Some(name) = line.dot {
        if line.json == Some(name) {
            return Err(Uncreated {
                name,
                cause: Uncreatable::Twice,
            });
        }
    }
    Ok(NewFiles {
        json: create(host, line, line.json)?,
        dot: create(host, line, line.dot)?,
    })
}

/// Creates the file of this name, if there is one.
fn create<'a, H: Host>(
    host: &H,
    line: &Line<'a>,
    name: Option<&'a str>,
) -> Result<Option<H::NewFile>, Uncreated<'a>>
    ensures { IfErr result (λ u. name.entry ≡ Some u.name) }
{
    let Some(name) = name else {
        return Ok(None);
    };
    if name == line.module || name == line.config {
        return Err(Uncreated {
            name,
            cause: Uncreatable::Input,
        });
    }
    match host.create(name) {
        Ok(file) => Ok(Some(file)),
        Err(error) => Err(Uncreated {
            name,
            cause: Uncreatable::by_kind(error.kind()),
        }),
    }
}

/// Writes the files, and returns the names of those that failed.
pub fn write_files<'a, H: Host>(
    host: &H,
    files: &mut NewFiles<H::NewFile>,
    inputs: &Inputs<'a>,
    checked: &Checked,
) -> [Option<&'a str>; 2] {
    let json_failed = match &mut files.json {
        Some(file) => host.write_document(file, inputs, checked).is_err(),
        None => false,
    };
    let dot_failed = match &mut files.dot {
        Some(file) => host.write_graph(file, inputs, checked).is_err(),
        None => false,
    };
    let line = inputs.line;
    [
        if json_failed { line.json } else { None },
        if dot_failed { line.dot } else { None },
    ]
}
