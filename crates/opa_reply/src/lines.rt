// A line of the input, as it is read.
ghost use Rattle.std.specs.Prelude.{◌≡◌};
ghost use Rattle.std.specs.Str.Lines.{strip_carriage_return};
ghost use Rattle.opa_reply.specs.Interviews as meant_asked;
ghost use Rattle.opa_reply.specs.Lines as meant;

use opa_io::limits::MOST_LINE;
use opa_script::{is_idle, slashed};

/// Without the carriage return at the end.
fn without_return(bytes: &[u8]) -> &[u8]
    ensures { result.now ≡ strip_carriage_return bytes.now }
{
    match bytes {
        [front @ .., 13] => front,
        _ => bytes,
    }
}

/// The bytes of a line: all but its line feed.
pub fn bytes_of(line: &[u8]) -> &[u8]
    ensures { result.now ≡ meant.bytes_of line.now }
{
    match line {
        [front @ .., 10] => front,
        _ => line,
    }
}

/// The text of a line: its bytes, but for a carriage return before its line feed.
pub fn text_of(line: &[u8]) -> &[u8]
    ensures { result.now ≡ meant.text_of line.now }
{
    match line {
        [front @ .., 10] => without_return(front),
        _ => line,
    }
}

/// Whether a line is neither blank nor a comment, and has more bytes than a line may have.
pub(crate) fn is_too_long(line: &[u8]) -> bool
    ensures { result ≡ meant.is_too_long line.now }
{
    bytes_of(line).len() > MOST_LINE && !is_idle(text_of(line))
}

/// Whether a text is blank or a comment, also behind a slash.
fn is_idle_reply(text: &[u8]) -> bool
    ensures { result ≡ meant_asked.is_idle_reply text.now }
{
    match slashed(text) {
        Some(rest) => is_idle(rest),
        None => is_idle(text),
    }
}

/// Whether a line of an interview is neither blank nor a comment, also behind a slash, and has more bytes than a line may have.
pub(crate) fn is_long_reply(line: &[u8]) -> bool
    ensures { result ≡ meant_asked.is_long_reply line.now }
{
    bytes_of(line).len() > MOST_LINE && !is_idle_reply(text_of(line))
}
