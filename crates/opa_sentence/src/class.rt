// What a token is to the grammar.
ghost use Rattle.std.specs.Prelude.{◌≡◌};
ghost use Rattle.opa_sentence.specs.Lexemes.{class_of, word_class, symbol_class, function_class};
ghost use Rattle.opa_sentence.specs.Phrases.{is_word, is_wordlike};

use crate::Function;
use crate::functions::function_named;
use opa_tree::OpKind;
use opa_words::TokenKind;

/// What a token is to the grammar. A word that is no other is `Word`, and a symbol that stands nowhere in a line is `Other`.
#[derive(Clone, Copy, Debug, PartialEq, Eq)]
pub enum Class {
    Word,
    Number,
    Date,
    Text,
    Open,
    Close,
    Comma,
    Plus,
    Minus,
    Times,
    Slash,
    Compare(OpKind),
    Function(Function),
    Not,
    And,
    Or,
    True,
    False,
    Uncertain,
    Other,
}

/// The class of a token of this kind and text.
pub fn class_of(kind: TokenKind, text: &str) -> Class
    ensures { result ≡ class_of kind text.now }
{
    match kind {
        TokenKind::Word => word_class(text),
        TokenKind::Number => Class::Number,
        TokenKind::Date => Class::Date,
        TokenKind::Text => Class::Text,
        TokenKind::Symbol => symbol_class(text),
    }
}

fn word_class(word: &str) -> Class
    ensures { result ≡ word_class word.now }
{
    match word {
        "not" => Class::Not,
        "and" => Class::And,
        "or" => Class::Or,
        "true" => Class::True,
        "false" => Class::False,
        "uncertain" => Class::Uncertain,
        _ => function_class(function_named(word)),
    }
}

fn function_class(function: Option<Function>) -> Class
    ensures { result ≡ function_class function }
{
    match function {
        None => Class::Word,
        Some(function) => Class::Function(function),
    }
}

fn symbol_class(symbol: &str) -> Class
    ensures { result ≡ symbol_class symbol.now }
{
    match symbol {
        "(" => Class::Open,
        ")" => Class::Close,
        "," => Class::Comma,
        "+" => Class::Plus,
        "-" => Class::Minus,
        "*" => Class::Times,
        "/" => Class::Slash,
        "=" => Class::Compare(OpKind::Eq),
        "<>" => Class::Compare(OpKind::Ne),
        "<" => Class::Compare(OpKind::Lt),
        "<=" => Class::Compare(OpKind::Le),
        ">" => Class::Compare(OpKind::Gt),
        ">=" => Class::Compare(OpKind::Ge),
        _ => Class::Other,
    }
}

impl Class {
    /// Whether it is a word's.
    pub fn is_word(self) -> bool
        ensures { result ≡ is_word self }
    {
        match self {
            Class::Word
            | Class::Function(_)
            | Class::Not
            | Class::And
            | Class::Or
            | Class::True
            | Class::False
            | Class::Uncertain => true,
            _ => false,
        }
    }

    /// Whether it is a word's or a number's.
    pub fn is_wordlike(self) -> bool
        ensures { result ≡ is_wordlike self }
    {
        match self {
            Class::Number => true,
            _ => self.is_word(),
        }
    }
}
