//! Ranges of at most as many numbers as a set may have members.
ghost use Rattle.std.specs.Prelude.{◌≡◌, ◌≤◌, ◌<◌, Some, length, slice_get};
ghost use Rattle.tla_value.specs.Tree.{int};
ghost use Rattle.tla_value.specs.Choices.{range_of};
ghost use Rattle.tla_value.specs.declared.set.TheConstants.{MAX_ELEMENTS};

/// The numbers from `low` to `high`.
#[derive(Clone, Copy)]
pub struct Span {
    pub low: i64,
    pub high: i64,
    ghost few: { length (range_of low high) ≤ MAX_ELEMENTS },
}

impl Span {
    /// The numbers from `low` to `high`.
    pub(crate) fn new(low: i64, high: i64) -> Span
        requires { length (range_of low high) ≤ MAX_ELEMENTS }
        ensures low { result.low ≡ low }
        ensures high { result.high ≡ high }
    {
        Span { low, high }
    }

    /// How many numbers there are.
    pub(crate) fn count(self) -> usize
        ensures { result ≡ length (range_of self.low self.high) }
    {
        count_between(self.low, self.high)
    }

    /// The number at an index.
    pub(crate) fn number_at(self, place: usize) -> i64
        requires { place < length (range_of self.low self.high) }
        ensures { Some (int result) ≡ slice_get (range_of self.low self.high) place }
    {
        number_above(self.low, self.high, place)
    }
}

/// How many numbers there are from `low` to `high`.
fn count_between(low: i64, high: i64) -> usize
    requires { length (range_of low high) ≤ MAX_ELEMENTS }
    ensures { result ≡ length (range_of low high) }
{
    if high < low {
        return 0;
    }
    let steps = high.abs_diff(low);
    steps.saturating_add(1) as usize
}

/// The number at an index of the range from `low` to `high`.
fn number_above(low: i64, high: i64, place: usize) -> i64
    requires { place < length (range_of low high) }
    ensures { Some (int result) ≡ slice_get (range_of low high) place }
{
    match low.checked_add_unsigned(place as u64) {
        Some(number) => number,
        None => unreachable!(),
    }
}
