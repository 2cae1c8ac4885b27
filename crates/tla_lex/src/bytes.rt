//! Bytes by class.

ghost use Rattle.std.specs.Prelude.{◌≡◌, ◌≤◌, length};
ghost use Rattle.std.specs.List.{prefix_len};
ghost use Rattle.tla_lex.specs.Bytes as spec;

/// The first byte, or 0 where there is none.
pub fn first(text: &[u8]) -> u8
    ensures { result ≡ spec.first text.now }
{
    match text {
        [] => 0,
        [b, ..] => *b,
    }
}

pub fn is_space_or_tab(b: u8) -> bool
    ensures { result ≡ spec.is_space_or_tab b }
{
    b == b' ' || b == b'\t'
}

pub fn is_blank(b: u8) -> bool
    ensures { result ≡ spec.is_blank b }
{
    is_space_or_tab(b) || b == b'\n' || b == 12 || b == b'\r'
}

pub fn is_digit(b: u8) -> bool
    ensures { result ≡ spec.is_digit b }
{
    b.is_ascii_digit()
}

pub fn is_letter(b: u8) -> bool
    ensures { result ≡ spec.is_letter b }
{
    b.is_ascii_alphabetic()
}

pub fn is_word(b: u8) -> bool
    ensures { result ≡ spec.is_word b }
{
    is_digit(b) || is_letter(b) || b == b'_'
}

pub fn is_dash(b: u8) -> bool
    ensures { result ≡ spec.is_dash b }
{
    b == b'-'
}

pub fn is_equal_sign(b: u8) -> bool
    ensures { result ≡ spec.is_equal_sign b }
{
    b == b'='
}
