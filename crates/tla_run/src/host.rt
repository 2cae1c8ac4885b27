//! What a run needs of the process.
ghost use Rattle.std.specs.Prelude.{◌≡◌, ℕ, List, Option, None, false, IfOk, IfSome, Some};

use std::alloc::Global;
use std::io;
use std::io::{Read, Write};
use tla_check::{Checked, Gate, Line};

/// The inputs of a run: the line that its words mean, and the texts of the two files.
#[derive(Clone, Copy)]
pub struct Inputs<'a> {
    pub line: &'a Line<'a>,
    pub module: &'a [u8],
    pub config: &'a [u8],
}

/// What a run needs of the process, besides its words, its two writers and its threads.
pub trait Host {
    /// A file that is open for reading.
    type File: Read + Drop;

    /// A file that was created and is open for writing.
    type NewFile: Write + Drop;

    /// The gate of the search of a run.
    type Gate: Gate + Drop;

    // the bytes of the file of a name, if they are known
    ghost files: { Self → List ℕ → Option (List ℕ) } = { λ _ _. None };

    /// Opens the file of this name for reading from its start.
    fn open(&self, name: &str) -> io::Result<Self::File>
        ensures { IfOk result (λ f.
            IfSome (files self.now name.now) (λ bytes. Self.File.remaining f ≡ Some bytes)) };

    /// The names of files in the folder of the file of this name.
    fn files_beside(&self, alloc: Global, name: &str) -> io::Result<Vec<String>>;

    /// Creates the file of this name, or empties it if it exists.
    fn create(&self, name: &str) -> io::Result<Self::NewFile>;

    /// The gate for the search of a line that isn't quiet. What it writes, and whether that fails, has no other effect.
    fn gate(&self, line: &Line<'_>) -> Self::Gate
        requires { line.now.quiet ≡ false };

    /// Writes the explanation to the second writer, for a line that isn't quiet. It is called after the whole report
    /// was written. What it writes, and whether that fails, has no other effect.
    fn explain<E: Write>(
        &self,
        err: &mut E,
        inputs: &Inputs<'_>,
        checked: &Checked,
        gate: &Self::Gate,
    )
        requires { inputs.now.line.now.quiet ≡ false };

    /// Writes report and explanation as a JSON document.
    fn write_document(
        &self,
        file: &mut Self::NewFile,
        inputs: &Inputs<'_>,
        checked: &Checked,
    ) -> io::Result<()>;

    /// Writes the states that were found as a graph for Graphviz.
    fn write_graph(
        &self,
        file: &mut Self::NewFile,
        inputs: &Inputs<'_>,
        checked: &Checked,
    ) -> io::Result<()>;
}
