//! Tables of words, each with what to write instead.

/// A word, and what to write instead.
pub(crate) type Entry = (&'static str, &'static str);

/// The entry of a word in a table.
pub(crate) fn entry_of(table: &'static [Entry], word: &str) -> Option<&'static str> {
    for (known, cure) in table {
        if *known == word {
            return Some(*cure);
        }
    }
    None
}
