//! The lines of a text.
ghost use Rattle.std.specs.Prelude.{◌≡◌, ◌<◌, [], ◌∷◌, length, IfNone, IfSome};
ghost use Rattle.std.specs.Str.Lines.{lines, strip_carriage_return};

use crate::cuts::{from, until};

/// A line without the carriage return at its end, if it has one.
fn without_return(line: &[u8]) -> &[u8]
    ensures { result.now ≡ strip_carriage_return line.now }
{
    if !line.is_empty() && line[line.len() - 1] == b'\r' {
        &line[..line.len() - 1]
    } else {
        line
    }
}

/// The first line of a text, and what follows it. A line ends with a line feed, which the last may
/// lack; a carriage return before the line feed is no part of it.
pub(crate) fn next_line(text: &[u8]) -> Option<(&[u8], &[u8])>
    ensures none { IfNone result (lines text.now ≡ []) }
    ensures line { IfSome result (λ r. lines text.now ≡ r.0.now ∷ lines r.1.now) }
    ensures shorter { IfSome result (λ r. length r.1.now < length text.now) }
{
    if text.is_empty() {
        return None;
    }
    let end = until(text, b'\n');
    if end == text.len() {
        return Some((text, from(text, end)));
    }
    Some((without_return(&text[..end]), from(text, end + 1)))
}
