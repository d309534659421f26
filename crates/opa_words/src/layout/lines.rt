// A text is cut into lines.
ghost use Rattle.std.specs.Prelude.{ℕ, ◌≡◌, [], ◌∷◌, MatchOption, ◌<◌, ◌+◌, ◌^◌, ◌≤◌, length, if◌then◌else◌};
ghost use Rattle.std.specs.Str.Lines.{strip_carriage_return};
ghost use Rattle.opa_words.specs.Layout.Lines.{without_mark, rows_from};

/// A line as it stands in the file without its line feed, and whether it has one.
#[derive(Clone, Copy)]
pub struct Line<'t> {
    pub bytes: &'t str,
    pub ended: bool,
}

/// Without the byte order mark at the start.
pub fn without_mark(text: &str) -> &str
    ensures text { result.now ≡ without_mark text.now }
    ensures shorter { length result.now ≤ length text.now }
{
    match text.strip_prefix("\u{feff}") {
        Some(rest) => rest,
        None => text,
    }
}

/// The first line with what follows it.
pub fn first_line(text: &str) -> Option<(Line<'_>, &str)>
    ensures rows { MatchOption result (text.now ≡ [])
        (λ x. (n : ℕ) → rows_from n text.now ≡ record {
          number = n;
          size = length x.0.bytes.now;
          text = (if x.0.ended then strip_carriage_return x.0.bytes.now else x.0.bytes.now);
        } ∷ rows_from (n + 1) x.1.now) }
    ensures shorter { MatchOption result (text.now ≡ [])
        (λ x. (length x.0.bytes.now + length x.1.now ≤ length text.now) × (length x.1.now < length text.now)) }
{
    match text.split_once('\n') {
        Some((bytes, rest)) => Some((Line { bytes, ended: true }, rest)),
        None => {
            if text.is_empty() {
                None
            } else {
                Some((
                    Line {
                        bytes: text,
                        ended: false,
                    },
                    "",
                ))
            }
        }
    }
}

/// The text of a line, which loses a carriage return before its line feed.
pub fn text_of(line: Line<'_>) -> &str
    ensures text { result.now ≡ (if line.entry.ended then strip_carriage_return line.entry.bytes.now
        else line.entry.bytes.now) }
    ensures shorter { length result.now ≤ length line.entry.bytes.now }
{
    if line.ended {
        without_return(line.bytes)
    } else {
        line.bytes
    }
}

fn without_return(text: &str) -> &str
    ensures text { result.now ≡ strip_carriage_return text.now }
    ensures shorter { length result.now ≤ length text.now }
{
    match text.as_bytes() {
        [front @ .., 13] => &text[..front.len()],
        _ => text,
    }
}
