//! The command line, the input files, reports, progress lines, and whole runs: words and files in memory in, bytes and
//! a status out.

mod codes;
mod graph;
mod input;
mod line;
mod line_texts;
mod progress;
mod report;
mod whole;
