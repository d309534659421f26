// The tokens of each kind, and the longest one that begins at a place.
ghost use Rattle.std.specs.Prelude.{◌≡◌, ◌+◌, ◌<◌, ◌≤◌, length, IfSome, Option, ◌==◌, [], ◌∷◌, false, ◌||◌};
ghost use Rattle.std.specs.Option.{option_map};
ghost use Rattle.std.specs.Str.{chars};
ghost use Rattle.opa_words.specs.Characters.{width, is_digit, is_control, is_blank, continues_word};
ghost use Rattle.opa_words.specs.Kinds.{is_single};
ghost use Rattle.opa_words.specs.Scan.{past, one, digit, hyphen, point, whole, word, past_most, number, date, inside, past_quote, text, second, symbol, token};

use crate::TokenKind;
use crate::characters::{begins_word, continues_word, is_control};
use crate::cursor::Cursor;

impl<'t> Cursor<'t> {
    fn digit(self) -> Option<Cursor<'t>>
        ensures rest { option_map (λ c. chars c.rest.now) result ≡ digit (chars self.entry.rest.now) }
        ensures place { IfSome result (λ c. c.at + width (chars c.rest.now) ≡ self.entry.at + width (chars self.entry.rest.now)) }
        ensures shorter { IfSome result (λ c. length (chars c.rest.now) < length (chars self.entry.rest.now)) }
    {
        match self.first() {
            Some((c, next)) => if c.is_ascii_digit() { Some(next) } else { None },
            None => None,
        }
    }

    fn sign(self, sign: char) -> Option<Cursor<'t>>
        ensures rest { option_map (λ c. chars c.rest.now) result ≡ one (λ c. c == sign) (chars self.entry.rest.now) }
        ensures place { IfSome result (λ c. c.at + width (chars c.rest.now) ≡ self.entry.at + width (chars self.entry.rest.now)) }
        ensures shorter { IfSome result (λ c. length (chars c.rest.now) < length (chars self.entry.rest.now)) }
    {
        match self.first() {
            Some((c, next)) => if c == sign { Some(next) } else { None },
            None => None,
        }
    }

    fn digits(self) -> Cursor<'t>
        ensures rest { chars result.rest.now ≡ past is_digit (chars self.entry.rest.now) }
        ensures place { result.at + width (chars result.rest.now) ≡ self.entry.at + width (chars self.entry.rest.now) }
        ensures shorter { length (chars result.rest.now) ≤ length (chars self.entry.rest.now) }
    {
        let mut here = self;
        while let Some(next) = here.digit() {
            here = next;
        }
        here
    }

    fn date(self) -> Option<Cursor<'t>>
        ensures rest { option_map (λ c. chars c.rest.now) result ≡ date (chars self.entry.rest.now) }
        ensures place { IfSome result (λ c. c.at + width (chars c.rest.now) ≡ self.entry.at + width (chars self.entry.rest.now)) }
        ensures shorter { IfSome result (λ c. length (chars c.rest.now) < length (chars self.entry.rest.now)) }
    {
        let year = self.digit()?.digit()?.digit()?.digit()?;
        let month = year.sign('-')?.digit()?.digit()?;
        month.sign('-')?.digit()?.digit()
    }
}

impl<'t> Cursor<'t> {
    fn word(self) -> Option<Cursor<'t>>
        ensures rest { option_map (λ c. chars c.rest.now) result ≡ word (chars self.entry.rest.now) }
        ensures place { IfSome result (λ c. c.at + width (chars c.rest.now) ≡ self.entry.at + width (chars self.entry.rest.now)) }
        ensures shorter { IfSome result (λ c. length (chars c.rest.now) < length (chars self.entry.rest.now)) }
    {
        match self.first() {
            Some((c, next)) => if begins_word(c) {
                Some(next.letters())
            } else {
                None
            },
            None => None,
        }
    }

    fn letters(self) -> Cursor<'t>
        ensures rest { chars result.rest.now ≡ past continues_word (chars self.entry.rest.now) }
        ensures place { result.at + width (chars result.rest.now) ≡ self.entry.at + width (chars self.entry.rest.now) }
        ensures shorter { length (chars result.rest.now) ≤ length (chars self.entry.rest.now) }
    {
        let mut here = self;
        while let Some((c, next)) = here.first() {
            if continues_word(c) {
                here = next;
            } else {
                return here;
            }
        }
        here
    }

    /// At most this many digits.
    fn digits_of(self, most: u32) -> Cursor<'t>
        ensures rest { chars result.rest.now ≡ past_most most (chars self.entry.rest.now) }
        ensures place { result.at + width (chars result.rest.now) ≡ self.entry.at + width (chars self.entry.rest.now) }
        ensures shorter { length (chars result.rest.now) ≤ length (chars self.entry.rest.now) }
    {
        if most == 0 {
            return self;
        }
        match self.digit() {
            None => self,
            Some(next) => next.digits_of(most - 1),
        }
    }

    fn point(self) -> Option<Cursor<'t>>
        ensures rest { option_map (λ c. chars c.rest.now) result ≡ point (chars self.entry.rest.now) }
        ensures place { IfSome result (λ c. c.at + width (chars c.rest.now) ≡ self.entry.at + width (chars self.entry.rest.now)) }
        ensures shorter { IfSome result (λ c. length (chars c.rest.now) < length (chars self.entry.rest.now)) }
    {
        self.sign('.')?.digit()
    }

    fn whole(self) -> Cursor<'t>
        ensures rest { chars result.rest.now ≡ whole (chars self.entry.rest.now) }
        ensures place { result.at + width (chars result.rest.now) ≡ self.entry.at + width (chars self.entry.rest.now) }
        ensures shorter { length (chars result.rest.now) ≤ length (chars self.entry.rest.now) }
    {
        match self.point() {
            None => self,
            Some(after) => after.digits_of(3),
        }
    }

    fn number(self) -> Option<Cursor<'t>>
        ensures rest { option_map (λ c. chars c.rest.now) result ≡ number (chars self.entry.rest.now) }
        ensures place { IfSome result (λ c. c.at + width (chars c.rest.now) ≡ self.entry.at + width (chars self.entry.rest.now)) }
        ensures shorter { IfSome result (λ c. length (chars c.rest.now) < length (chars self.entry.rest.now)) }
    {
        match self.digit() {
            None => None,
            Some(after) => Some(after.digits().whole()),
        }
    }

    fn text(self) -> Option<Cursor<'t>>
        ensures rest { option_map (λ c. chars c.rest.now) result ≡ text (chars self.entry.rest.now) }
        ensures place { IfSome result (λ c. c.at + width (chars c.rest.now) ≡ self.entry.at + width (chars self.entry.rest.now)) }
        ensures shorter { IfSome result (λ c. length (chars c.rest.now) < length (chars self.entry.rest.now)) }
    {
        self.sign('"')?.inside()
    }

    /// To the end of a text, from inside it.
    fn inside(self) -> Option<Cursor<'t>>
        ensures rest { option_map (λ c. chars c.rest.now) result ≡ inside false (chars self.entry.rest.now) }
        ensures place { IfSome result (λ c. c.at + width (chars c.rest.now) ≡ self.entry.at + width (chars self.entry.rest.now)) }
        ensures shorter { IfSome result (λ c. length (chars c.rest.now) ≤ length (chars self.entry.rest.now)) }
    {
        let mut here = self;
        let mut end = None;
        while let Some(after) = here.past_quote() {
            match after.sign('"') {
                None => return Some(after),
                Some(next) => {
                    end = Some(after);
                    here = next;
                }
            }
        }
        end
    }

    /// Past the next quote, if no control character stands before it.
    fn past_quote(self) -> Option<Cursor<'t>>
        ensures rest { option_map (λ c. chars c.rest.now) result ≡ past_quote (chars self.entry.rest.now) }
        ensures place { IfSome result (λ c. c.at + width (chars c.rest.now) ≡ self.entry.at + width (chars self.entry.rest.now)) }
        ensures shorter { IfSome result (λ c. length (chars c.rest.now) < length (chars self.entry.rest.now)) }
    {
        let mut here = self;
        while let Some((c, next)) = here.first() {
            if c == '"' {
                return Some(next);
            }
            if is_control(c) {
                return None;
            }
            here = next;
        }
        None
    }
}

fn is_single(c: char) -> bool
    ensures { result ≡ is_single c }
{
    c == '('
        || c == ')'
        || c == '['
        || c == ']'
        || c == ','
        || c == ':'
        || c == ';'
        || c == '/'
        || c == '+'
        || c == '-'
        || c == '*'
        || c == '='
}

impl<'t> Cursor<'t> {
    /// Past one of two characters, if it stands here.
    fn second(self, first: char, other: char) -> Cursor<'t>
        ensures rest { chars result.rest.now ≡ second (λ d. (d == first) || (d == other)) (chars self.entry.rest.now) }
        ensures place { result.at + width (chars result.rest.now) ≡ self.entry.at + width (chars self.entry.rest.now) }
        ensures shorter { length (chars result.rest.now) ≤ length (chars self.entry.rest.now) }
    {
        match self.first() {
            Some((c, next)) => if c == first || c == other { next } else { self },
            None => self,
        }
    }

    fn symbol(self) -> Option<Cursor<'t>>
        ensures rest { option_map (λ c. chars c.rest.now) result ≡ symbol (chars self.entry.rest.now) }
        ensures place { IfSome result (λ c. c.at + width (chars c.rest.now) ≡ self.entry.at + width (chars self.entry.rest.now)) }
        ensures shorter { IfSome result (λ c. length (chars c.rest.now) < length (chars self.entry.rest.now)) }
    {
        match self.first() {
            None => None,
            Some((c, next)) => {
                if is_single(c) {
                    Some(next)
                } else if c == '<' {
                    Some(next.second('=', '>'))
                } else if c == '>' {
                    Some(next.second('=', '='))
                } else {
                    None
                }
            }
        }
    }

    /// The longest token here, with what follows it.
    pub fn token(self) -> Option<(TokenKind, Cursor<'t>)>
        ensures rest { option_map (λ x. (x.0, chars x.1.rest.now)) result ≡ token (chars self.entry.rest.now) }
        ensures place { IfSome result (λ x. x.1.at + width (chars x.1.rest.now) ≡ self.entry.at + width (chars self.entry.rest.now)) }
        ensures shorter { IfSome result (λ x. length (chars x.1.rest.now) < length (chars self.entry.rest.now)) }
    {
        if let Some(next) = self.date() {
            return Some((TokenKind::Date, next));
        }
        if let Some(next) = self.number() {
            return Some((TokenKind::Number, next));
        }
        if let Some(next) = self.word() {
            return Some((TokenKind::Word, next));
        }
        if let Some(next) = self.text() {
            return Some((TokenKind::Text, next));
        }
        match self.symbol() {
            Some(next) => Some((TokenKind::Symbol, next)),
            None => None,
        }
    }
}
