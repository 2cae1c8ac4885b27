//! The titles of refusals.

use tla_report::RefusalCode;

/// The title of a refusal, which its name follows.
pub(crate) fn title_of(code: RefusalCode) -> &'static str {
    match code {
        RefusalCode::NotUtf8 => "not UTF-8",
        RefusalCode::UnknownCharacter => "unknown character or escape",
        RefusalCode::OpenString => "a string is not closed on its line",
        RefusalCode::OpenComment => "a comment is not closed",
        RefusalCode::NumberTooLarge => "a number is too large",
        RefusalCode::NoHeader => "no header ---- MODULE Name ----",
        RefusalCode::NoClosingLine => "no closing line ====",
        RefusalCode::UnexpectedToken => "this can't be here",
        RefusalCode::PrecedenceConflict =>
            "parentheses are missing: neither operator binds tighter",
        RefusalCode::LeftOfJunction =>
            "this continues an item of a list, but is not right of its bullet",
        RefusalCode::NestedTooDeep => "an expression is nested too deep",
        RefusalCode::FormLeftOut => "left out of the language:",
        RefusalCode::ConfigurationText => "this can't be here in a configuration",
        RefusalCode::UnknownName => "unknown name",
        RefusalCode::DefinedTwice => "a second meaning of",
        RefusalCode::ArgumentCount => "wrong number of arguments of",
        RefusalCode::Level => "the level of this expression is too high",
        RefusalCode::ConstantWithoutValue => "no value for the constant",
        RefusalCode::CircularReplacement => "this item leads back to its own name:",
        RefusalCode::SpecificationForm => "not of the form Init /\\ [][Next]_vars",
        RefusalCode::BehaviourCount => "no behaviour, or two",
        RefusalCode::StatementLeftOut => "left out of configurations:",
        RefusalCode::ExpansionTooLarge => "too large",
    }
}
