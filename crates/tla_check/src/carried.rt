//! The codes of the stages as codes of a report. That memory ran out has none.
ghost use Rattle.std.specs.Prelude.{◌≡◌};
ghost use Rattle.tla_check.specs.CarriesOver.{defs_code, lex_code, parse_code};

use tla_config::DefsCode;
use tla_lex::LexCode;
use tla_parse::ParseCode;
use tla_report::RefusalCode;

pub(crate) fn lex_code(code: LexCode) -> Option<RefusalCode>
    ensures { result ≡ lex_code code }
{
    match code {
        LexCode::NotUtf8 => Some(RefusalCode::NotUtf8),
        LexCode::Unknown => Some(RefusalCode::UnknownCharacter),
        LexCode::OpenString => Some(RefusalCode::OpenString),
        LexCode::OpenComment => Some(RefusalCode::OpenComment),
        LexCode::NumberTooLarge => Some(RefusalCode::NumberTooLarge),
        LexCode::NoHeader => Some(RefusalCode::NoHeader),
        LexCode::NoClosingLine => Some(RefusalCode::NoClosingLine),
        LexCode::NoMemory => None,
    }
}

pub(crate) fn parse_code(code: ParseCode) -> Option<RefusalCode>
    ensures { result ≡ parse_code code }
{
    match code {
        ParseCode::Unexpected => Some(RefusalCode::UnexpectedToken),
        ParseCode::Precedence => Some(RefusalCode::PrecedenceConflict),
        ParseCode::Column => Some(RefusalCode::LeftOfJunction),
        ParseCode::Nesting => Some(RefusalCode::NestedTooDeep),
        ParseCode::LeftOut => Some(RefusalCode::FormLeftOut),
        ParseCode::NoMemory => None,
    }
}

pub(crate) fn defs_code(code: DefsCode) -> Option<RefusalCode>
    ensures { result ≡ defs_code code }
{
    match code {
        DefsCode::ConfigurationText => Some(RefusalCode::ConfigurationText),
        DefsCode::UnknownName => Some(RefusalCode::UnknownName),
        DefsCode::DefinedTwice => Some(RefusalCode::DefinedTwice),
        DefsCode::ArgumentCount => Some(RefusalCode::ArgumentCount),
        DefsCode::Level => Some(RefusalCode::Level),
        DefsCode::ConstantWithoutValue => Some(RefusalCode::ConstantWithoutValue),
        DefsCode::CircularReplacement => Some(RefusalCode::CircularReplacement),
        DefsCode::SpecificationForm => Some(RefusalCode::SpecificationForm),
        DefsCode::BehaviourCount => Some(RefusalCode::BehaviourCount),
        DefsCode::StatementLeftOut => Some(RefusalCode::StatementLeftOut),
        DefsCode::ExpansionTooLarge => Some(RefusalCode::ExpansionTooLarge),
        DefsCode::Memory => None,
    }
}
