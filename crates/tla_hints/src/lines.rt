//! Lines of a text.
ghost use Rattle.std.specs.Prelude.{◌≡◌, ◌≤◌, ◌<◌, ◌+◌, ◌⊎◌, ℕ, length, IfSome, IfNone, not};
ghost use Rattle.std.specs.List.{prefix_len};
ghost use Rattle.tla_hints.specs.Lines.{BeginsAt, feeds_before, is_line_feed, line_at};

/// The line with this number, from 1, without its line feed; none if the text has fewer lines.
pub fn line_of(text: &[u8], number: u64) -> Option<&[u8]>
    ensures line { IfSome result (λ line.
        (at : ℕ) × BeginsAt text.now number at × (line.now ≡ line_at text.now at)) }
    ensures none { IfNone result
        ((number ≡ 0) ⊎ (feeds_before text.now (length text.now) + 1 < number)) }
{
    let start = start_of(text, number)?;
    let rest = &text[start..];
    Some(&rest[..len_of(rest)])
}

/// The byte where the line with this number begins.
fn start_of(text: &[u8], number: u64) -> Option<usize>
    ensures start { IfSome result (BeginsAt text.now number) }
    ensures none { IfNone result
        ((number ≡ 0) ⊎ (feeds_before text.now (length text.now) + 1 < number)) }
{
    if number == 0 {
        return None;
    }
    let mut left = number - 1;
    let mut start = 0;
    for (index, byte) in text.iter().enumerate() {
        if left == 0 {
            return Some(start);
        }
        if *byte == b'\n' {
            left -= 1;
            start = index + 1;
        }
    }
    (left == 0).then_some(start)
}

/// How many bytes come before the first line feed.
fn len_of(text: &[u8]) -> usize
    ensures value { result ≡ prefix_len (λ b. not (is_line_feed b)) text.now }
    ensures within { result ≤ length text.now }
{
    text.iter().take_while(|b| **b != b'\n').count()
}
