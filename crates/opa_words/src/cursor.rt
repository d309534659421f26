// A place in the characters of a text.
ghost use Rattle.std.specs.Prelude.{◌≡◌, ◌+◌, ◌<◌, ◌^◌, ◌∷◌, [], length, MatchOption, IfSome};
ghost use Rattle.std.specs.Str.{chars};
ghost use Rattle.opa_words.specs.Characters.{width};

/// What is left of a line, and the byte at which it begins.
#[derive(Clone, Copy)]
pub struct Cursor<'t> {
    pub rest: &'t str,
    pub at: u32,
    ghost in_range: { at + width (chars rest.now) < 2 ^ 32 },
}

impl<'t> Cursor<'t> {
    pub fn new(all: &'t str) -> Cursor<'t>
        requires { length all.now < 2 ^ 32 }
        ensures rest { result.rest.now ≡ all.now }
        ensures place { result.at ≡ 0 }
    {
        Cursor { rest: all, at: 0 }
    }

    /// The first character, with what follows it.
    pub fn first(self) -> Option<(char, Cursor<'t>)>
        ensures rest { MatchOption result (chars self.entry.rest.now ≡ []) (λ x. chars self.entry.rest.now ≡ x.0 ∷ chars x.1.rest.now) }
        ensures place { IfSome result (λ x. x.1.at + width (chars x.1.rest.now) ≡ self.entry.at + width (chars self.entry.rest.now)) }
    {
        match first_of(self.rest) {
            Some((c, rest)) => Some((c, self.after(c, rest))),
            None => None,
        }
    }

    /// One character further.
    fn after(self, c: char, rest: &'t str) -> Cursor<'t>
        requires { chars self.rest.now ≡ c ∷ chars rest.now }
        ensures rest { result.rest.now ≡ rest.now }
        ensures place { result.at + width (chars result.rest.now) ≡ self.entry.at + width (chars self.entry.rest.now) }
    {
        Cursor {
            rest,
            at: self.at + c.len_utf8() as u32,
        }
    }
}

/// The first character of a text, and the rest.
fn first_of(text: &str) -> Option<(char, &str)>
    ensures { MatchOption result (chars text.now ≡ []) (λ x. chars text.now ≡ x.0 ∷ chars x.1.now) }
{
    let mut left = text.chars();
    match left.next() {
        Some(c) => Some((c, left.as_str())),
        None => None,
    }
}
