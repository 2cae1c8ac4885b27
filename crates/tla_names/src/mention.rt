//! Names, operators and first words of forms, with their places.

use tla_lex::Place;
use tla_tree::Written;

/// A name, an operator or the first word of a form, with its place.
#[derive(Clone, Copy)]
pub struct Mention<'a> {
    pub place: Place,
    pub word: &'a [u8],
}

impl<'a> Mention<'a> {
    ghost use Rattle.std.specs.Prelude.{◌≡◌};
    ghost use Rattle.tla_names.specs.Mentions.{written_of};

    /// A name of a tree.
    pub fn of(written: &'a Written) -> Mention<'a>
        ensures { written_of result ≡ written.entry.now }
    {
        Mention {
            place: written.place,
            word: written.word.as_bytes(),
        }
    }
}
