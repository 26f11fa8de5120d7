//! Lines end with a line feed, before which one carriage return is dropped. A last line without one counts, and nothing
//! after the last line feed doesn't.
ghost use Rattle.std.specs.Prelude.{◌≡◌, ◌+◌, ◌<◌, ◌≤◌, ◌∷◌, ◌++◌, [], MatchOption, IfSome, length};
ghost use Rattle.text_rows.specs.Lines.{free_lines};
ghost use Rattle.text_rows.specs.Lines as lines;

use memchr::memchr;

/// The line without the carriage return at its end.
#[inline(always)]
fn without_return(line: &[u8]) -> &[u8]
    ensures line { result.now ≡ lines.without_return line.now }
    ensures shorter { length result.now ≤ length line.now }
{
    if line.is_empty() {
        return line;
    }
    let end = line.len() - 1;
    if line[end] == b'\r' {
        &line[..end]
    } else {
        line
    }
}

/// The first line, and the bytes after its line feed.
#[inline(always)]
pub fn next_free_line(bytes: &[u8]) -> Option<(&[u8], &[u8])>
    ensures lines { MatchOption result (free_lines bytes.now ≡ []) (λ x. free_lines bytes.now ≡ x.0.now ∷ free_lines x.1.now) }
    ensures parts { IfSome result (λ x. length x.0.now + length x.1.now ≤ length bytes.now) }
    ensures shorter { IfSome result (λ x. length x.1.now < length bytes.now) }
{
    if bytes.is_empty() {
        return None;
    }
    match memchr(b'\n', bytes) {
        Some(end) => Some((without_return(&bytes[..end]), &bytes[end + 1..])),
        None => Some((bytes, &bytes[bytes.len()..])),
    }
}
