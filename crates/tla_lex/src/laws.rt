//! Laws of the definitions.

ghost use Rattle.tla_lex.specs.InCode.{ClosingIsFirst, TokensInCode};
ghost use Rattle.tla_lex.specs.Longest.{LongestSymbol};
ghost use Rattle.tla_lex.specs.LongestToken.{LongestTokens};
ghost use Rattle.tla_lex.specs.ScannerLaws.{ClosingIsFound, FrontIsFound, GapIsFound, HeaderIsFound, NumberIsFound, StringIsFound, TextIsRead};

/// A symbol is the longest at its place.
pub fn longest_symbol()
    ensures { LongestSymbol }
{}

/// Each token that is read is the longest at its place.
pub fn longest_tokens()
    ensures { LongestTokens }
{}

/// The search for the closing line and the reading of tokens agree on what is outside comments and strings.
pub fn tokens_in_code()
    ensures { TokensInCode }
{}

/// The closing line begins at the first `====` outside comments and strings.
pub fn closing_is_first()
    ensures { ClosingIsFirst }
{}

/// The loop over blanks and comments ends where they end, and finds the comment that stays open.
pub fn gap_is_found()
    ensures { GapIsFound }
{}

/// The loop that looks for the closing line finds it.
pub fn closing_is_found()
    ensures { ClosingIsFound }
{}

/// The loop that looks for the header finds it.
pub fn header_is_found()
    ensures { HeaderIsFound }
{}

/// What comes next in a text is what follows its blanks and comments.
pub fn front_is_found()
    ensures { FrontIsFound }
{}

/// What is read from a quote on is the string or the fault that begins there.
pub fn string_is_found()
    ensures { StringIsFound }
{}

/// A string's text is read, and it has no other.
pub fn text_is_read()
    ensures { TextIsRead }
{}

/// Digits are read as the number that they say.
pub fn number_is_found()
    ensures { NumberIsFound }
{}
