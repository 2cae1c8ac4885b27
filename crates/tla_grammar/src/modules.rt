//! The modules that may be extended.
ghost use Rattle.std.specs.Prelude.{◌≡◌};
ghost use Rattle.tla_grammar.specs.Modules.{is_module};

/// Whether it is one of the modules that may be extended.
pub fn is_module(word: &[u8]) -> bool
    ensures { result ≡ is_module word.now }
{
    word == b"Naturals".as_slice()
        || word == b"Integers".as_slice()
        || word == b"Sequences".as_slice()
        || word == b"FiniteSets".as_slice()
        || word == b"TLC".as_slice()
}
