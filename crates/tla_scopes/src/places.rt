//! Places of the text.

ghost use Rattle.std.specs.Prelude.{◌≡◌};
ghost use Rattle.tla_scopes.specs.Places as places;

use tla_core::Place;

/// A place of the text, as an expression keeps it.
pub fn place_of(place: tla_lex::Place) -> Place
    ensures { result ≡ places.place_of place }
{
    Place {
        line: place.line,
        column: place.column,
    }
}
