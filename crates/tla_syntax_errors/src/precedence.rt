//! Adjacent operators with overlapping precedences.

use crate::kinds::ends_operand;
use tla_finding::finding::Finding;
use tla_finding::spot::Spot;
use tla_hints::{closes_bracket, opens_bracket};
use tla_lex::Kind;

/// The precedence range of an operator.
#[derive(Clone, Copy, PartialEq, Eq)]
struct Range {
    low: u8,
    high: u8,
}

/// The range of the comparison operators.
const COMPARES: Range = Range { low: 5, high: 5 };

/// Finds the operator before this one whose precedence range overlaps.
pub fn find(finding: &mut Finding, spot: &Spot<'_>) {
    let Some(range) = infix_range(spot.kind(spot.at)) else {
        return;
    };
    if is_proof_step(spot) {
        return say_proof(finding, spot);
    }
    let mut deep: usize = 0;
    for count in 1..spot.tokens.len() {
        let Some(index) = spot.at.checked_sub(count) else {
            return;
        };
        let Some(kind) = spot.kind(index) else {
            return;
        };
        if closes_bracket(kind) {
            deep = deep.saturating_add(1);
        } else if opens_bracket(kind) && deep > 0 {
            deep = deep.saturating_sub(1);
        } else if deep == 0 && ends_search(kind) {
            return;
        } else if deep == 0 && meets(spot, index, range) {
            return say(finding, spot, index, range);
        }
    }
}

/// Whether a token is the `>` of the number of a proof's step, as in `<1>2`.
fn is_proof_step(spot: &Spot<'_>) -> bool {
    let begins = match spot.at.checked_sub(2) {
        Some(index) => spot.begins_line(index),
        None => false,
    };
    let is_number = matches!(spot.back(1), Some(Kind::Number(_)));
    begins && is_number && spot.is(spot.at, Kind::Greater) && spot.back(2) == Some(Kind::Less)
}

fn say_proof(finding: &mut Finding, spot: &Spot<'_>) {
    let first = spot.place(spot.at.saturating_sub(2));
    finding.say(first, &["a step of a proof"]);
    finding.hint(&["remove the proof; THEOREM itself may stay"]);
}

/// Whether no operator before this token can conflict with one after it.
fn ends_search(kind: Kind) -> bool {
    opens_bracket(kind)
        || matches!(
            kind,
            Kind::Define | Kind::Then | Kind::Else | Kind::In | Kind::Colon | Kind::Comma
        )
}

/// Whether a token is an operator, and its range and this one overlap.
fn meets(spot: &Spot<'_>, index: usize, range: Range) -> bool {
    let own = if is_infix(spot, index) {
        infix_range(spot.kind(index))
    } else {
        prefix_range(spot.kind(index))
    };
    own.is_some_and(|own| own.low <= range.high && range.low <= own.high)
}

/// Whether an operator is infix, and no bullet of a list.
fn is_infix(spot: &Spot<'_>, index: usize) -> bool {
    let is_bullet = matches!(spot.kind(index), Some(Kind::And | Kind::Or))
        && spot.begins_line(index);
    let before = index.checked_sub(1).and_then(|before| spot.kind(before));
    before.is_some_and(ends_operand) && !is_bullet
}

/// Says which two operators need parentheses, and where these may be.
fn say(finding: &mut Finding, spot: &Spot<'_>, index: usize, range: Range) {
    let first = spot.word(index);
    let second = spot.word(spot.at);
    let place = spot.place(spot.at);
    finding.say(
        place,
        &["'", first, "' and '", second, "' need parentheses"],
    );
    if !is_infix(spot, index) {
        let texts = ["write (", first, " a) ", second, " b, or ", first];
        finding.hint_of(&texts, &[" (a ", second, " b)"]);
    } else if range == COMPARES {
        finding.hint(&["write a ", first, " b /\\ b ", second, " c"]);
    } else {
        let texts = ["write (a ", first, " b) ", second, " c, or a ", first];
        finding.hint_of(&texts, &[" (b ", second, " c)"]);
    }
}

/// The range of an infix operator.
fn infix_range(kind: Option<Kind>) -> Option<Range> {
    let (low, high) = match kind? {
        Kind::Implies => (1, 1),
        Kind::Equivalent | Kind::LeadsTo => (2, 2),
        Kind::And | Kind::Or => (3, 3),
        Kind::Equal
        | Kind::NotEqual
        | Kind::Less
        | Kind::Greater
        | Kind::AtMost
        | Kind::AtLeast
        | Kind::Member
        | Kind::NotMember
        | Kind::SubsetEqual => (5, 5),
        Kind::Override => (6, 6),
        Kind::Pair => (7, 7),
        Kind::Cup | Kind::Cap | Kind::Difference => (8, 8),
        Kind::Range => (9, 9),
        Kind::Plus => (10, 10),
        Kind::Remainder => (10, 11),
        Kind::Minus => (11, 11),
        Kind::Product => (10, 13),
        Kind::Times | Kind::Quotient | Kind::Concatenation => (13, 13),
        Kind::Power => (14, 14),
        _ => return None,
    };
    Some(Range { low, high })
}

/// The range of a prefix operator.
fn prefix_range(kind: Option<Kind>) -> Option<Range> {
    let (low, high) = match kind? {
        Kind::Not => (4, 4),
        Kind::Box | Kind::Diamond | Kind::Unchanged => (4, 15),
        Kind::Subset | Kind::Union => (8, 8),
        Kind::Domain => (9, 9),
        Kind::Minus => (12, 12),
        _ => return None,
    };
    Some(Range { low, high })
}
