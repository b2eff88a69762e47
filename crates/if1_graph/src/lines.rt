//! The lines of a text.
ghost use Rattle.std.specs.Prelude.{◌≡◌, ◌+◌, ◌<◌, ◌≤◌, ◌∷◌, [], IfSome, MatchOption, drop, length, slice_range};
ghost use Rattle.std.specs.List.{prefix_len};
ghost use Rattle.if1_graph.specs.TextLines.{is_in_line, without_return, lines_in};

/// Where the next line of a text ends, from a place on, without the line feed, or carriage return
/// and line feed, that end it; and the place behind those. None at the end of the text.
pub fn next_line(text: &[u8], from: usize) -> Option<(usize, usize)>
    ensures line { MatchOption
        result
        (lines_in (drop from text.now) ≡ [])
        (λ l. lines_in (drop from text.now) ≡ slice_range text.now from l.0 ∷ lines_in (drop l.1 text.now)) }
    ensures on { IfSome result (λ l. from < l.1) }
    ensures order { IfSome result (λ l. from ≤ l.0) }
    ensures ends { IfSome result (λ l. l.0 ≤ l.1) }
    ensures within { IfSome result (λ l. l.1 ≤ length text.now) }
{
    if from >= text.len() {
        return None;
    }
    let end = from + bytes_in_line(text, from);
    if end == text.len() {
        return Some((end, end));
    }
    Some((line_end(text, from, end), end + 1))
}

fn line_bytes(text: &[u8]) -> usize
    ensures { result ≡ prefix_len is_in_line text.now }
{
    text.iter().take_while(|c| **c != b'\n').count()
}

/// How many bytes stand from a place on before the next line feed.
fn bytes_in_line(text: &[u8], from: usize) -> usize
    requires { from ≤ length text.now }
    ensures value { result ≡ prefix_len is_in_line (drop from text.now) }
    ensures within { from + result ≤ length text.now }
{
    line_bytes(&text[from..])
}

/// Where a line ends that has a line feed at `end`: there, or at the carriage return before it.
fn line_end(text: &[u8], from: usize, end: usize) -> usize
    requires order { from ≤ end }
    requires within { end ≤ length text.now }
    ensures line { slice_range text.now from result ≡ without_return (slice_range text.now from end) }
    ensures order { from ≤ result }
    ensures ends { result ≤ end }
{
    if end > from && text[end - 1] == b'\r' {
        end - 1
    } else {
        end
    }
}
