//! The command line.
ghost use Rattle.std.specs.Prelude.{◌≡◌, ◌↔◌, [], IsTrue, IfOk, IfErr, None, Some, OnOk, option_map};
ghost use Rattle.clap.specs.Words.{app_of, found_of, matches_of, rows_of, rule_of};
ghost use Rattle.clap.specs.Walk.{first_of, one_of, texts};
ghost use Rattle.tla_options.specs.Options.{IsWithinLimits};
ghost use Rattle.tla_line.specs.CommandLine.{IsSet, MeanLine, Writes, WritesNoCount, faults_of};
ghost use Rattle.tla_line.specs.CommandLine.{file_option, flag, is_quiet, most_of, number_option};
ghost use Rattle.tla_line.specs.CommandLine.{required_word, tlacheck};
ghost use Rattle.tla_line.specs.LineFault.{IsFaultOf, IsHelp, IsNoLine, fault_from, help_of};
ghost use Rattle.tla_line.specs.LineFault.{text_of_fault};
ghost use Rattle.tla_line.specs.Private.Parsing.{AlwaysHasValue, GivesEach, HasEach, HasValue};
ghost use Rattle.tla_line.specs.Private.Parsing.{IsArgument, IsOfClap, text_for};

use crate::number::NumberOption;
use clap::error::ErrorKind;
use clap::{Arg, ArgAction, ArgMatches, Command};
use std::alloc::{AllocError, Global};
use std::fmt;
use tla_options::Options;

/// The text of `--version` after the program's name.
const VERSION: &str =
    "0.1.0, proved with rattle-kit-13f when built by rt run; a build by rt try is not proved";

/// The last part of the text of `--help`.
const STATUSES: &str = "Exit statuses:
   0  No error
  10  An invariant is false
  11  Deadlock
  12  A fault of evaluation
  13  An assumption is false
  14  The limit on states was passed
  20  The module or the configuration is refused
  21  No report: the command line, a file or a write is at fault
  22  Out of memory, or a worker could not be started

Example:
  tlacheck Jugs.tla Jugs.cfg --workers 4";

/// A parsed command line.
#[derive(Clone, Copy, Debug, PartialEq, Eq)]
pub struct Line<'a> {
    /// The path of the module's file.
    pub module: &'a str,
    /// The path of the configuration's file.
    pub config: &'a str,
    pub options: Options,
    /// Whether only what prevents a report goes to standard error.
    pub quiet: bool,
    /// Whether the explanation shows values whole.
    pub full: bool,
    /// Whether the explanation counts the steps of each part of the next-state action.
    pub coverage: bool,
    /// The file for the report and the explanation as a JSON document.
    pub json: Option<&'a str>,
    /// The file for the graph of the states that the search found.
    pub dot: Option<&'a str>,
}

/// Why the words of a call are no valid command line. Its `Display` is the text for the user, with its line feeds.
#[derive(Debug, Drop)]
pub enum LineFault {
    /// `clap` refuses the words, or they ask for help or for the version.
    Refused(clap::Error),
    /// The value of `--workers`, `--cut` or `--max-states` is no number, or one out of range.
    Number,
    /// Memory ran out, here or in `clap`.
    Memory,
}

impl LineFault {
    /// The text for the user, unless it is one of `clap`.
    pub fn own_text(&self) -> Option<&'static str>
        ensures { option_map (λ text. text.now) result ≡ text_of_fault self.now }
    {
        match self {
            LineFault::Refused(_) => None,
            LineFault::Number => Some("tlacheck: bad number\n"),
            LineFault::Memory => Some("tlacheck: out of memory\n"),
        }
    }

    /// Whether the words ask for help or for the version, which is no error.
    pub fn is_help(&self) -> bool
        ensures { IsTrue result ↔ IsHelp self.now }
    {
        match self {
            LineFault::Refused(error) => matches!(
                error.kind(),
                ErrorKind::DisplayHelp | ErrorKind::DisplayVersion
            ),
            _ => false,
        }
    }
}

impl fmt::Display for LineFault {
    ghost output = { text_of_fault };

    fn fmt<W: fmt::Write>(&self, f: &mut fmt::Formatter<W>) -> fmt::Result {
        match self {
            LineFault::Refused(error) => write!(f, "{error}"),
            LineFault::Number | LineFault::Memory => f.write_str(self.own_text().unwrap_or("")),
        }
    }
}

impl From<clap::Error> for LineFault {
    ghost from_gives = { λ e f. f ≡ fault_from e };

    fn from(error: clap::Error) -> LineFault {
        match error.kind() {
            ErrorKind::OutOfMemory => LineFault::Memory,
            _ => LineFault::Refused(error),
        }
    }
}

impl From<AllocError> for LineFault {
    ghost use Rattle.tla_line.specs.declared.line.LineFault.TheVariants.{Memory};

    ghost from_gives = { λ _ f. f ≡ Memory };

    fn from(_error: AllocError) -> LineFault {
        LineFault::Memory
    }
}

/// Why the words of a call are no valid command line, with the option of a bad number.
#[derive(Debug, Drop)]
pub struct NoLine {
    pub fault: LineFault,
    pub bad_number: Option<NumberOption>,
}

impl NoLine {
    /// A hint: the option of a bad number and its range; empty for another fault.
    pub fn help(&self) -> &'static str
        ensures { result.now ≡ help_of self.now }
    {
        match self.bad_number {
            Some(option) => option.hint(),
            None => "",
        }
    }
}

impl From<LineFault> for NoLine {
    ghost from_gives = { λ fault n. n ≡ record { fault = fault; bad_number = None } };

    fn from(fault: LineFault) -> NoLine {
        NoLine {
            fault,
            bad_number: None,
        }
    }
}

impl From<NumberOption> for NoLine {
    ghost use Rattle.tla_line.specs.declared.line.LineFault.TheVariants.{Number};

    ghost from_gives = { λ o n. n ≡ record { fault = Number; bad_number = Some o } };

    fn from(option: NumberOption) -> NoLine {
        NoLine {
            fault: LineFault::Number,
            bad_number: Some(option),
        }
    }
}

/// Whether `--quiet` is one of the words, also if `clap` refuses them.
pub fn is_quiet(words: &[&str]) -> bool
    ensures { result ≡ is_quiet (texts words.now) }
{
    words.contains(&"--quiet")
}

/// Parses the words of a call, the program's name first, as `tlacheck MODULE CONFIG [OPTIONS]`, by `clap`. The defaults
/// are 1 worker, pieces of 1024 states, and a limit of 16,777,216 states. `--explain` has no effect: every line that
/// isn't quiet gets an explanation.
pub fn read_line<'a>(alloc: Global, words: &'a [&'a str]) -> Result<Line<'a>, LineFault>
    ensures line { IfOk result (MeanLine (texts words.entry.now)) }
    ensures fault { IfErr result (IsFaultOf (texts words.entry.now)) }
{
    match read_words(alloc, words) {
        Ok(line) => Ok(line),
        Err(no_line) => Err(no_line.fault),
    }
}

/// The same as `read_line`, but an error has the option of a bad number.
pub fn read_words<'a>(alloc: Global, words: &'a [&'a str]) -> Result<Line<'a>, NoLine>
    ensures line { IfOk result (MeanLine (texts words.entry.now)) }
    ensures fault { IfErr result (IsNoLine (texts words.entry.now)) }
{
    let matches = parse(alloc, words)?;
    let options = read_options(
        text(&matches, "workers"),
        text(&matches, "cut"),
        text(&matches, "max-states"),
    )?;
    Ok(Line {
        module: text(&matches, "MODULE"),
        config: text(&matches, "CONFIG"),
        options,
        quiet: is_set(&matches, "quiet"),
        full: is_set(&matches, "full"),
        coverage: is_set(&matches, "coverage"),
        json: file(&matches, "json"),
        dot: file(&matches, "dot"),
    })
}

/// Whether the flag of this name is set.
fn is_set(matches: &ArgMatches<'_>, name: &str) -> bool
    ensures { IsSet (one_of name.now (rows_of (found_of matches.now))) result }
{
    matches.get_flag(name)
}

/// The value of the argument of this name.
fn text<'a>(matches: &ArgMatches<'a>, name: &str) -> &'a str
    requires { HasValue matches.now name.now }
    ensures { first_of name.now (rows_of (found_of matches.now)) ≡ Some result.now }
{
    matches.get_str(name).unwrap()
}

/// The file of the option of this name, if it has one.
fn file<'a>(matches: &ArgMatches<'a>, name: &str) -> Option<&'a str>
    ensures { first_of name.now (rows_of (found_of matches.now)) ≡ option_map (λ s. s.now) result }
{
    matches.get_str(name)
}

/// The options of three texts, or the first option whose text is no number within its range.
fn read_options(workers: &str, cut: &str, limit: &str) -> Result<Options, NumberOption>
    ensures within { IfOk result IsWithinLimits }
    ensures workers { IfOk result (λ o. Writes workers.now o.workers) }
    ensures cut { IfOk result (λ o. Writes cut.now o.cut) }
    ensures limit { IfOk result (λ o. Writes limit.now o.limit) }
    ensures bad { IfErr result (λ o.
        WritesNoCount (most_of o) (text_for o workers.now cut.now limit.now)) }
{
    let workers = NumberOption::Workers.number(workers)?;
    let cut = NumberOption::Cut.number(cut)?;
    let limit = NumberOption::MaxStates.number(limit)?;
    match Options::new(workers, cut, limit) {
        Some(options) => Ok(options),
        None => unreachable!(),
    }
}

/// The matches of the words.
fn parse<'a>(alloc: Global, words: &'a [&'a str]) -> Result<ArgMatches<'a>, LineFault>
    ensures taken { OnOk result (faults_of (texts words.entry.now) ≡ []) }
    ensures matches { IfOk result (λ m.
        rows_of (found_of m) ≡ matches_of tlacheck (texts words.entry.now)) }
    ensures values { IfOk result HasEach }
    ensures fault { IfErr result (IsFaultOf (texts words.entry.now)) }
    ensures clap { IfErr result IsOfClap }
{
    let command = command(alloc)?;
    Ok(command.try_get_matches_from(words)?)
}

/// The command for `clap`.
fn command<'a>(alloc: Global) -> Result<Command<'a>, AllocError>
    ensures app { IfOk result (λ c. app_of c ≡ tlacheck) }
    ensures values { IfOk result GivesEach }
{
    Command::new(alloc, "tlacheck")
        .version(VERSION)
        .about("Checks a TLA+ module under a configuration")
        .override_usage("tlacheck [OPTIONS] <MODULE> <CONFIG>")
        .after_help(STATUSES)
        .arg(required_word(alloc, "MODULE", "The file of the module"))?
        .arg(required_word(alloc, "CONFIG", "The file of the configuration"))?
        .arg(number_option(alloc, "workers", "1", "How many threads search, 1 to 64"))?
        .arg(number_option(
            alloc,
            "cut",
            "1024",
            "How many states make a piece of work, 1 to 65536",
        ))?
        .arg(number_option(
            alloc,
            "max-states",
            "16777216",
            "How many states may be found, 1 to 16777216",
        ))?
        .arg(file_option(
            alloc,
            "json",
            "Write report and explanation to FILE as JSON",
        ))?
        .arg(file_option(
            alloc,
            "dot",
            "Write the states that were found to FILE as a graph for Graphviz",
        ))?
        .arg(flag(alloc, "full", "Show values whole in the explanation"))?
        .arg(flag(
            alloc,
            "coverage",
            "Count the steps of each part of the next-state action",
        ))?
        .arg(flag(
            alloc,
            "explain",
            "Explain on standard error what was found, which is the default",
        ))?
        .arg(flag(
            alloc,
            "quiet",
            "Write to standard error only why there is no report",
        ))
}

/// A required positional argument.
fn required_word<'a>(alloc: Global, name: &'a str, help: &'a str) -> Arg<'a>
    ensures rule { rule_of result ≡ required_word name.entry.now }
    ensures argument { IsArgument name.entry.now result }
    ensures value { AlwaysHasValue result }
{
    Arg::new(alloc, name)
        .required(true)
        .action(ArgAction::Set)
        .help(help)
}

/// The option `--name N`, with its default.
fn number_option<'a>(alloc: Global, name: &'a str, fallback: &'a str, help: &'a str) -> Arg<'a>
    ensures rule { rule_of result ≡ number_option name.entry.now fallback.entry.now }
    ensures argument { IsArgument name.entry.now result }
    ensures value { AlwaysHasValue result }
{
    Arg::new(alloc, name)
        .long(name)
        .value_name("N")
        .action(ArgAction::Set)
        .default_value(fallback)
        .help(help)
}

/// The option `--name FILE`.
fn file_option<'a>(alloc: Global, name: &'a str, help: &'a str) -> Arg<'a>
    ensures rule { rule_of result ≡ file_option name.entry.now }
    ensures argument { IsArgument name.entry.now result }
{
    Arg::new(alloc, name)
        .long(name)
        .value_name("FILE")
        .action(ArgAction::Set)
        .help(help)
}

/// The flag `--name`.
fn flag<'a>(alloc: Global, name: &'a str, help: &'a str) -> Arg<'a>
    ensures rule { rule_of result ≡ flag name.entry.now }
    ensures argument { IsArgument name.entry.now result }
{
    Arg::new(alloc, name)
        .long(name)
        .action(ArgAction::SetTrue)
        .help(help)
}
