//! The words of a line.

/// The letters, digits and `_` at the beginning of these bytes.
pub fn word_of(bytes: &[u8]) -> &[u8] {
    let len = bytes
        .iter()
        .take_while(|b| b.is_ascii_alphanumeric() || **b == b'_')
        .count();
    bytes.get(..len).unwrap_or(bytes)
}
