//! Lines end with a line feed. A last line without one counts, and nothing after the last line feed doesn't.
ghost use Rattle.std.specs.Prelude.{◌≡◌, ◌==◌, ◌+◌, ◌<◌, ◌≤◌, ◌∷◌, [], MatchOption, IfSome, length};
ghost use Rattle.std.specs.List.{position_or_len};
ghost use Rattle.line_text.specs.Lines.{lines_of};

/// The place of the first such byte, or the length.
pub fn first_place(bytes: &[u8], byte: u8) -> usize
    ensures { result ≡ position_or_len (λ b. b == byte) bytes.now }
{
    for (i, b) in bytes.iter().enumerate() {
        if *b == byte {
            return i;
        }
    }
    bytes.len()
}

/// The first line and the bytes after its line feed.
pub fn next_line(bytes: &[u8]) -> Option<(&[u8], &[u8])>
    ensures lines { MatchOption result (lines_of bytes.now ≡ []) (λ x. lines_of bytes.now ≡ x.0.now ∷ lines_of x.1.now) }
    ensures parts { IfSome result (λ x. length x.0.now + length x.1.now ≤ length bytes.now) }
    ensures shorter { IfSome result (λ x. length x.1.now < length bytes.now) }
{
    if bytes.is_empty() {
        return None;
    }
    let end = first_place(bytes, b'\n');
    if end < bytes.len() {
        Some((&bytes[..end], &bytes[end + 1..]))
    } else {
        Some((bytes, &bytes[bytes.len()..]))
    }
}
