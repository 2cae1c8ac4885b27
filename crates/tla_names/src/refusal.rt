//! Refusals.

ghost use Rattle.std.specs.Prelude.{◌≡◌, ◌≢◌, IfOk, IfErr};
ghost use Rattle.tla_config.specs.declared.error.DefsCode.TheVariants.{Memory};
ghost use Rattle.tla_names.specs.Mentions.{written_of};
ghost use Rattle.tla_names.specs.Refusal.{refusal_of};

use crate::mention::Mention;
use std::alloc::Global;
use tla_config::{DefsCode, DefsError, Source};
use tla_value::Text;

/// The text of a name. Names are ASCII, so the only error is that memory ran out.
pub fn text_of(alloc: Global, name: &[u8]) -> Result<Text, DefsError>
    ensures ok { IfOk result (λ t. t ≡ name.now) }
    ensures err { IfErr result (λ e. e.code ≡ Memory) }
{
    let Ok(name) = str::from_utf8(name) else {
        return Err(DefsError::no_memory(Source::Module));
    };
    match Text::new(alloc, name) {
        Ok(name) => Ok(name),
        Err(_) => Err(DefsError::no_memory(Source::Module)),
    }
}

/// A refusal of a name, or the error that memory ran out.
pub fn refusal_of(alloc: Global, code: DefsCode, source: Source, mention: Mention<'_>) -> DefsError
    ensures { result.code ≢ Memory → result ≡ refusal_of code source (written_of mention.entry) }
{
    match text_of(alloc, mention.word) {
        Ok(name) => DefsError {
            code,
            source,
            place: Some(mention.place),
            name: Some(name),
        },
        Err(e) => e,
    }
}
