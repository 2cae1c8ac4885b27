//! Arms of CASE.

use crate::kinds::begins_unit;
use tla_finding::finding::Finding;
use tla_finding::spot::Spot;
use tla_hints::{closes_bracket, opens_bracket};
use tla_lex::Kind;

const ARMS: &str = "the arms are written CASE p -> e [] q -> f [] OTHER -> g";

/// Finds what is wrong with the symbols of a CASE.
pub(crate) fn find(finding: &mut Finding, spot: &Spot<'_>) -> bool {
    let Some(has_arrow) = arm_before(spot) else {
        return false;
    };
    let is_first = spot.back(1) == Some(Kind::Box);
    let title = match spot.kind(spot.at) {
        Some(Kind::Else) if is_first => "'ELSE' in a CASE",
        Some(Kind::Colon) if !has_arrow => "':' where an arm of CASE has '->'",
        Some(Kind::Comma) if has_arrow => "',' where a CASE has '[]'",
        Some(kind) if !has_arrow && (kind == Kind::Box || ends_before(spot, kind)) => {
            "'->' is missing in the arm of a CASE before this"
        }
        _ => return false,
    };
    finding.say(spot.place(spot.at), &[title]);
    finding.hint(&[ARMS]);
    true
}

/// Whether the definition of a CASE ends before a token.
fn ends_before(spot: &Spot<'_>, kind: Kind) -> bool {
    begins_unit(kind) || (spot.begins_line(spot.at) && spot.is_head(spot.at))
}

/// Finds that `[]` is missing before an arm of CASE that begins at a token.
pub(crate) fn find_arm(finding: &mut Finding, spot: &Spot<'_>) -> bool {
    let is_arm = arm_before(spot) == Some(true) && arrow_follows(spot);
    if is_arm {
        finding.say(
            spot.place(spot.at),
            &["'[]' is missing before this arm of a CASE"],
        );
        finding.hint(&[ARMS]);
    }
    is_arm
}

/// Whether `->` follows a token in its line.
fn arrow_follows(spot: &Spot<'_>) -> bool {
    let line = spot.place(spot.at).line;
    let rest = spot.tokens.get(spot.at..).unwrap_or(&[]);
    let mut same = rest.iter().take_while(|token| token.place.line == line);
    same.any(|token| token.kind == Kind::Arrow)
}

/// Whether the arm of CASE before a token has its arrow; none if no CASE is before it.
fn arm_before(spot: &Spot<'_>) -> Option<bool> {
    let mut deep: usize = 0;
    let mut has_arrow = false;
    let mut arm = None;
    for count in 1..spot.tokens.len() {
        let kind = spot.back(count)?;
        if closes_bracket(kind) {
            deep = deep.saturating_add(1);
        } else if opens_bracket(kind) {
            deep = deep.checked_sub(1)?;
        } else if deep == 0 && kind == Kind::Case {
            return arm.or(Some(has_arrow));
        } else if deep == 0 && kind == Kind::Define {
            return None;
        } else if deep == 0 && kind == Kind::Box && count > 1 {
            arm = arm.or(Some(has_arrow));
        } else if deep == 0 && kind == Kind::Arrow {
            has_arrow = true;
        }
    }
    None
}
