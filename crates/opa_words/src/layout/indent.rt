// The indentation of a line.
ghost use Rattle.std.specs.Prelude.{◌≡◌, ◌<◌, ◌^◌, ◌∷◌, [], length, MatchOption, if◌then◌else◌, false};
ghost use Rattle.opa_words.specs.Layout.Indents.{level, has_odd_space, past_blanks, is_blank, NoBlankFirst, is_void, is_passed};

/// How a line is indented, and what follows its indentation.
#[derive(Clone, Copy)]
pub struct Indent<'t> {
    pub level: u32,
    pub odd: bool,
    pub text: &'t str,
}

/// The first blank, whether it is a tab, with what follows it.
fn first_blank(text: &str) -> Option<(bool, &str)>
    ensures { MatchOption result (NoBlankFirst text.now) (λ x. text.now ≡ (if x.0 then 9 else 32) ∷ x.1.now) }
{
    if let Some(later) = text.strip_prefix('\t') {
        return Some((true, later));
    }
    match text.strip_prefix(' ') {
        Some(later) => Some((false, later)),
        None => None,
    }
}

/// The indentation of a line.
pub fn indent_of(line: &str) -> Indent<'_>
    requires { length line.now < 2 ^ 32 }
    ensures level { result.level ≡ level line.now }
    ensures odd { result.odd ≡ has_odd_space line.now }
    ensures text { result.text.now ≡ past_blanks line.now }
{
    let mut level = 0;
    let mut odd = false;
    let mut half = false;
    let mut rest = line;
    while let Some((tab, later)) = first_blank(rest) {
        if tab {
            odd = odd || half;
            half = false;
            level += 1;
        } else if half {
            half = false;
            level += 1;
        } else {
            half = true;
        }
        rest = later;
    }
    Indent::new(level, odd || half, rest)
}

impl<'t> Indent<'t> {
    fn new(level: u32, odd: bool, text: &'t str) -> Indent<'t>
        ensures level { result.level ≡ level }
        ensures odd { result.odd ≡ odd }
        ensures text { result.text.now ≡ text.now }
    {
        Indent { level, odd, text }
    }
}

/// Whether nothing stands there, or a comment.
pub fn is_void(text: &str) -> bool
    ensures { result ≡ is_void text.now }
{
    match text.as_bytes() {
        [] => true,
        [first, ..] => *first == b'#',
    }
}
