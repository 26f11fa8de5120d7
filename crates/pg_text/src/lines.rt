//! The lines of a graph text: lines as everywhere, without one carriage return at the end.
ghost use Rattle.std.specs.Prelude.{◌≡◌, ◌+◌, ◌<◌, ◌≤◌, ◌∷◌, [], MatchOption, IfSome, length};
ghost use Rattle.pg_text.specs.Lines.{without_return, graph_lines};

use line_text::next_line;

/// The line without one carriage return at its end.
fn trim_return(line: &[u8]) -> &[u8]
    ensures line { result.now ≡ without_return line.now }
    ensures bound { length result.now ≤ length line.now }
{
    match line {
        [front @ .., b'\r'] => front,
        _ => line,
    }
}

/// The first line without its carriage return, and the text after its line feed.
pub(crate) fn next_graph_line(bytes: &[u8]) -> Option<(&[u8], &[u8])>
    ensures lines { MatchOption result (graph_lines bytes.now ≡ []) (λ x. graph_lines bytes.now ≡ x.0.now ∷ graph_lines x.1.now) }
    ensures parts { IfSome result (λ x. length x.0.now + length x.1.now ≤ length bytes.now) }
    ensures shorter { IfSome result (λ x. length x.1.now < length bytes.now) }
{
    match next_line(bytes) {
        Some((line, after)) => Some((trim_return(line), after)),
        None => None,
    }
}
