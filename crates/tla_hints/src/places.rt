//! Places in a text.
ghost use Rattle.std.specs.Prelude.{◌≡◌, ◌<◌, ◌⊎◌, ◌↔◌, IsTrue};

use tla_lex::Place;

/// Whether a place comes before another.
pub fn is_before(place: Place, other: Place) -> bool
    ensures { IsTrue result
        ↔ ((place.line < other.line)
        ⊎ ((place.line ≡ other.line) × (place.column < other.column))) }
{
    place.line < other.line || (place.line == other.line && place.column < other.column)
}
