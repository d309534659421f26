// The lines of a text, one after another.
ghost use Rattle.std.specs.Prelude.{◌≡◌, ◌<◌, ◌++◌, [], length, IfSome, MatchOption};
ghost use Rattle.opa_verify.specs.Spelling.Lines.{lined, with_line};

use opa_io::front;

/// The first line with its line feed, and what follows it. None where no line ends.
pub(crate) fn first_line(text: &[u8]) -> Option<(&[u8], &[u8])>
    ensures parts { IfSome result (λ x. text.now ≡ x.0.now ++ x.1.now) }
    ensures shorter { IfSome result (λ x. length x.1.now < length text.now) }
    ensures lines { MatchOption result (lined text.now ≡ record { lines = []; left = text.now }) (λ x. lined text.now ≡ with_line x.0.now (lined x.1.now)) }
{
    let mut count = 0;
    let mut rest = text;
    while let Some((byte, later)) = front(rest) {
        count += 1;
        if *byte == 10 {
            let (line, _) = text.split_at(count);
            return Some((line, later));
        }
        rest = later;
    }
    None
}
