//! The messages for words that mean no line.

pub const MISSING: &str = "error: the following required arguments were not provided:
  <CONFIG>

Usage: tlacheck [OPTIONS] <MODULE> <CONFIG>

For more information, try '--help'.
";

pub const MISSING_AND_BAD_CUT: &str = "error: the following required arguments were not provided:
  <CONFIG>

Usage: tlacheck [OPTIONS] <MODULE> <CONFIG>

For more information, try '--help'.
hint: --cut takes a number from 1 to 65536
hint: name the configuration too: tlacheck M.tla M.cfg
";

pub const MISSING_BESIDE: &str = "error: the following required arguments were not provided:
  <CONFIG>

Usage: tlacheck [OPTIONS] <MODULE> <CONFIG>

For more information, try '--help'.
hint: name the configuration too: tlacheck M.tla M.cfg
";

pub const UNKNOWN_OPTION: &str = "error: unexpected argument '--depth' found

  tip: to pass '--depth' as a value, use '-- --depth'

Usage: tlacheck [OPTIONS] <MODULE> <CONFIG>

For more information, try '--help'.
";

pub const OPTION_OF_TLC: &str = "error: unexpected argument '-w' found

  tip: to pass '-w' as a value, use '-- -w'

Usage: tlacheck [OPTIONS] <MODULE> <CONFIG>

For more information, try '--help'.
hint: TLC's -workers is --workers here
";

pub const HELP: &str = "Checks a TLA+ module under a configuration

Usage: tlacheck [OPTIONS] <MODULE> <CONFIG>

Arguments:
  <MODULE>  The file of the module
  <CONFIG>  The file of the configuration

Options:
      --workers <N>     How many threads search, 1 to 64 [default: 1]
      --cut <N>         How many states make a piece of work, 1 to 65536 [default: 1024]
      --max-states <N>  How many states may be found, 1 to 16777216 [default: 16777216]
      --json <FILE>     Write report and explanation to FILE as JSON
      --dot <FILE>      Write the states that were found to FILE as a graph for Graphviz
      --full            Show values whole in the explanation
      --coverage        Count the steps of each part of the next-state action
      --explain         Explain on standard error what was found, which is the default
      --quiet           Write to standard error only why there is no report
  -h, --help            Print help
  -V, --version         Print version

Exit statuses:
   0  No error
  10  An invariant is false
  11  Deadlock
  12  A fault of evaluation
  13  An assumption is false
  14  The limit on states was passed
  20  The module or the configuration is refused
  21  No report: the command line, a file or a write is at fault
  22  Out of memory, or a worker could not be started

Example:
  tlacheck Jugs.tla Jugs.cfg --workers 4
";

pub const VERSION: &str =
    "tlacheck 0.1.0, proved with rattle-kit-13f when built by rt run; a build by rt try is not proved\n";
