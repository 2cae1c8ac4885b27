//! Names with the wrong number of arguments.

use tla_finding::finding::Finding;
use tla_finding::spot::Spot;
use tla_hints::{closes_bracket, library_arity, library_form, opens_bracket};
use tla_lex::Kind;
use tla_page::output::Output;
use tla_page::units::{Known, Role, known_name};

/// Finds how many arguments a name takes that has the wrong number of them in a module.
pub fn find(finding: &mut Finding, spot: &Spot<'_>, known: &[Known<'_>]) {
    let name = spot.word(spot.at);
    let place = spot.place(spot.at);
    let given = given_arguments(spot);
    let Some(one) = known_name(known, name) else {
        return find_other(finding, spot, given);
    };
    if one.arity == 0 && given > 0 {
        finding.say_what(place, name, one.role.noun(), ", and takes no arguments");
        if one.role != Role::Assumption {
            hint_function(finding, spot);
        }
    } else {
        say_count(finding, spot, one.arity, given);
    }
    finding.show_name(one.place, name, one.role.brought_in(), " here");
}

/// The same for a name that no unit introduces: an operator of a module or of LET, or a bound name.
fn find_other(finding: &mut Finding, spot: &Spot<'_>, given: usize) {
    let name = spot.word(spot.at);
    if let Some(arity) = library_arity(name) {
        say_count(finding, spot, arity, given);
        if let Some(form) = library_form(name) {
            finding.hint(&["write ", form]);
        }
    } else if given > 0 && !is_defined_before(spot, name) {
        finding.say(
            spot.place(spot.at),
            &["'", name, "' is a value, and takes no arguments"],
        );
        hint_function(finding, spot);
    } else {
        hint_given(finding, given);
    }
}

/// Whether a name is defined with parameters before a token.
fn is_defined_before(spot: &Spot<'_>, name: &str) -> bool {
    let before = spot.tokens.get(..spot.at).unwrap_or(&[]);
    for (index, token) in before.iter().enumerate() {
        let is_name = token.kind == Kind::Name && spot.word(index) == name;
        if is_name && spot.is_head(index) {
            return true;
        }
    }
    false
}

fn hint_function(finding: &mut Finding, spot: &Spot<'_>) {
    finding.hint(&[
        "write ",
        spot.word(spot.at),
        "[",
        arguments_text(spot),
        "] for the value of a function",
    ]);
}

fn say_count(finding: &mut Finding, spot: &Spot<'_>, arity: usize, given: usize) {
    let name = spot.word(spot.at);
    let mut title = Output::new(finding.alloc(), false);
    put_count(&mut title, name, arity, given);
    finding.title = title;
    if given == 0 && spot.ahead(1) == Some(Kind::LeftBracket) {
        finding.hint(&[
            "write ",
            name,
            "(",
            arguments_text(spot),
            "): [..] is for functions",
        ]);
    }
}

/// Says how many arguments a name takes, and how many it has.
fn put_count(title: &mut Output, name: &str, arity: usize, given: usize) {
    title.put(&["'", name, "' takes "]);
    put_arguments(title, arity);
    title.put_text(", and has ");
    title.put_number(given as u128);
    title.put_text(" here");
}

/// Adds `1 argument`, `2 arguments` and so on.
pub(crate) fn put_arguments(output: &mut Output, count: usize) {
    output.put_number(count as u128);
    output.put_text(if count == 1 {
        " argument"
    } else {
        " arguments"
    });
}

fn hint_given(finding: &mut Finding, given: usize) {
    let mut help = Output::new(finding.alloc(), false);
    help.put_text("hint: it has ");
    put_arguments(&mut help, given);
    help.put_text(" here\n");
    finding.help = help;
}

/// The arguments of the name at a token, as they are written.
fn arguments_text<'a>(spot: &Spot<'a>) -> &'a str {
    let mut deep: usize = 0;
    let mut start: usize = 0;
    for token in spot.tokens.get(spot.at..).unwrap_or(&[]) {
        if opens_bracket(token.kind) {
            start = if deep == 0 { token.end } else { start };
            deep = deep.saturating_add(1);
        } else if closes_bracket(token.kind) {
            deep = deep.saturating_sub(1);
            if deep == 0 {
                let text = spot.text.get(start..token.start).unwrap_or(&[]);
                return str::from_utf8(text).unwrap_or("").trim();
            }
        }
    }
    ""
}

/// How many arguments the name at a token has.
pub(crate) fn given_arguments(spot: &Spot<'_>) -> usize {
    if spot.ahead(1) != Some(Kind::LeftParen) {
        return 0;
    }
    let mut deep: usize = 0;
    let mut count: usize = 1;
    for token in spot.tokens.get(spot.at.saturating_add(1)..).unwrap_or(&[]) {
        if opens_bracket(token.kind) {
            deep = deep.saturating_add(1);
        } else if closes_bracket(token.kind) {
            deep = deep.saturating_sub(1);
            if deep == 0 {
                return count;
            }
        } else if deep == 1 && token.kind == Kind::Comma {
            count = count.saturating_add(1);
        }
    }
    count
}
