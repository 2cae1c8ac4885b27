//! The options that take a number.
ghost use Rattle.std.specs.Prelude.{◌≡◌, IfOk, IfErr, IfSome, IfNone};
ghost use Rattle.tla_line.specs.CommandLine.{Writes, WritesNoCount, most_of};
ghost use Rattle.tla_line.specs.LineFault.{hint_of};
ghost use Rattle.tla_line.specs.Private.Parsing.{WritesNoNumber};
ghost use Rattle.tla_options.specs.Options.{IsCount};

use tla_options::MAX_STATES;

/// An option that takes a number.
#[derive(Clone, Copy, Debug, PartialEq, Eq)]
pub enum NumberOption {
    Workers,
    Cut,
    MaxStates,
}

impl NumberOption {
    pub const ALL: [NumberOption; 3] = [
        NumberOption::Workers,
        NumberOption::Cut,
        NumberOption::MaxStates,
    ];

    /// The hint for a bad number: the option and its range.
    pub fn hint(self) -> &'static str
        ensures { result.now ≡ hint_of self }
    {
        match self {
            NumberOption::Workers => "hint: --workers takes a number from 1 to 64\n",
            NumberOption::Cut => "hint: --cut takes a number from 1 to 65536\n",
            NumberOption::MaxStates => "hint: --max-states takes a number from 1 to 16777216\n",
        }
    }

    /// Whether the option has a text in the words that is no number within its range, also if `clap` refuses the words.
    pub fn is_bad_in(self, words: &[&str]) -> bool {
        match self.text_in(words) {
            Some(text) => self.number(text).is_err(),
            None => false,
        }
    }

    /// The number that a text denotes, if it is within the option's range.
    pub(crate) fn number(self, text: &str) -> Result<u64, NumberOption>
        ensures writes { IfOk result (Writes text.now) }
        ensures within { IfOk result (IsCount (most_of self)) }
        ensures option { IfErr result (λ o. o ≡ self) }
        ensures bad { IfErr result (λ o. WritesNoCount (most_of o) text.now) }
    {
        let Some(number) = written(text) else {
            return Err(self);
        };
        if number < 1 || self.most() < number {
            return Err(self);
        }
        Ok(number)
    }

    fn most(self) -> u64
        ensures { result ≡ most_of self }
    {
        match self {
            NumberOption::Workers => 64,
            NumberOption::Cut => 65_536,
            NumberOption::MaxStates => MAX_STATES,
        }
    }

    /// The text of the option in the words, if it has one.
    fn text_in<'a>(self, words: &[&'a str]) -> Option<&'a str> {
        let mut is_next = false;
        for &word in words {
            if is_next {
                return Some(word);
            }
            if let Some(rest) = word.strip_prefix(self.word()) {
                if let Some(text) = rest.strip_prefix("=") {
                    return Some(text);
                }
                is_next = rest.is_empty();
            }
        }
        None
    }

    fn word(self) -> &'static str {
        match self {
            NumberOption::Workers => "--workers",
            NumberOption::Cut => "--cut",
            NumberOption::MaxStates => "--max-states",
        }
    }
}

/// The number that a text denotes.
fn written(text: &str) -> Option<u64>
    ensures some { IfSome result (Writes text.now) }
    ensures none { IfNone result (WritesNoNumber text.now) }
{
    text.parse().ok()
}
