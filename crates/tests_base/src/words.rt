// Tokens, phrases and quoted texts.
use opa_io::{List, Txt};
use opa_words::{
    Phrases, Pieces, TokenKind, WordFault, is_ending, is_phrase, is_reserved, phrase_text, quoted,
    text_of_token, token_text, tokens,
};
use std::alloc::Global;
use std::test::Fail;

fn letter(kind: TokenKind) -> &'static str {
    match kind {
        TokenKind::Word => "W",
        TokenKind::Number => "N",
        TokenKind::Date => "D",
        TokenKind::Text => "T",
        TokenKind::Symbol => "S",
    }
}

/// The tokens as `KIND:TEXT` with bars between them, or the place of the fault.
fn shown(alloc: Global, text: &str) -> Result<String, Fail> {
    let mut out = String::new(alloc);
    if text.len() > 1_000_000 {
        return Ok(out);
    }
    match tokens(alloc, text) {
        Ok(found) => {
            for token in &found {
                let one = format!(in alloc;
                    "|{}:{}",
                    letter(token.kind),
                    token_text(text, *token)
                )?;
                out.push_str(one.as_str())?;
            }
        }
        Err(WordFault::Place(place)) => out.push_str(format!(in alloc; "at {place}")?.as_str())?,
        Err(WordFault::NoMemory) => out.push_str("no memory")?,
    }
    Ok(out)
}

/// A text, and its tokens or the place of the fault.
const CUT: [(&str, &str); 28] = [
    ("", ""),
    (" \t ", ""),
    ("10.5", "|N:10.5"),
    ("10.", "at 2"),
    ("1.23456", "|N:1.2345|N:6"),
    ("12.5.3", "at 4"),
    ("2024-01-01", "|D:2024-01-01"),
    ("2024-01-1", "|N:2024|S:-|N:01|S:-|N:1"),
    ("2024-01-015", "|D:2024-01-01|N:5"),
    ("a-b", "|W:a-b"),
    ("a - b", "|W:a|S:-|W:b"),
    ("-5", "|S:-|N:5"),
    ("1a _x1", "|N:1|W:a|W:_x1"),
    ("\"a\"\"b\"", "|T:\"a\"\"b\""),
    ("\"a\" \"\"", "|T:\"a\"|T:\"\""),
    ("\"a", "at 0"),
    ("\"A\"\" x", "at 3"),
    ("\"a\tb\"", "at 0"),
    ("the child's friend", "|W:the|W:child's|W:friend"),
    ("child\u{2019}s", "|W:child\u{2019}s"),
    ("e\u{301}a", "|W:e\u{301}a"),
    ("\u{301}a", "at 0"),
    ("x 'y", "at 2"),
    ("λόγος عمر", "|W:λόγος|W:عمر"),
    ("λ.", "at 2"),
    (
        "a<=b<>c>=d<e>f=g",
        "|W:a|S:<=|W:b|S:<>|W:c|S:>=|W:d|S:<|W:e|S:>|W:f|S:=|W:g",
    ),
    (
        "()[],:;/+-*",
        "|S:(|S:)|S:[|S:]|S:,|S::|S:;|S:/|S:+|S:-|S:*",
    ),
    ("a\r", "at 1"),
];

/// The first text that is cut otherwise than its row says.
fn first_other(alloc: Global, rows: &[(&str, &str)]) -> Result<Option<usize>, Fail> {
    for (place, (text, want)) in rows.iter().enumerate() {
        if shown(alloc, text)?.as_str() != *want {
            return Ok(Some(place));
        }
    }
    Ok(None)
}

#[test]
fn cuts(rt: HostRuntime) -> Result<(), Fail> {
    assert_eq!(rt; first_other(rt.alloc(), &CUT)?, None);
    Ok(())
}

/// Texts, and whether they are phrases.
const PHRASES: [(&str, bool); 10] = [
    ("the child", true),
    ("the x if 5", true),
    ("x 10.5", true),
    ("", false),
    ("5 x", false),
    ("members", false),
    ("if x", false),
    ("the x otherwise", false),
    ("a, b", false),
    ("a 2024-01-01", false),
];

/// Whether the text is a phrase, and the phrase of its tokens.
fn phrase_of(alloc: Global, text: &str) -> Result<(bool, Txt), Fail> {
    if text.len() > 1_000 {
        return Ok((false, Txt::from_str(alloc, "")?));
    }
    let found = tokens(alloc, text)?;
    Ok((is_phrase(text, &found), phrase_text(alloc, text, &found)?))
}

/// The first text of which is told otherwise than its row says whether it is a phrase.
fn first_mistaken(alloc: Global, rows: &[(&str, bool)]) -> Result<Option<usize>, Fail> {
    for (place, (text, want)) in rows.iter().enumerate() {
        if phrase_of(alloc, text)?.0 != *want {
            return Ok(Some(place));
        }
    }
    Ok(None)
}

#[test]
fn tells_phrases(rt: HostRuntime) -> Result<(), Fail> {
    assert_eq!(rt; first_mistaken(rt.alloc(), &PHRASES)?, None);
    let (_, text) = phrase_of(rt.alloc(), " the \t child's  friend")?;
    assert_eq!(rt; text.as_str(), "the child's friend");
    assert!(rt;
        is_reserved("uncertain") && !is_reserved("Verb") && is_ending("or") && !is_ending("any")
    );
    Ok(())
}

/// The phrases of the test, and one of so many bytes.
fn phrases_with(alloc: Global, width: usize) -> Result<List<Txt>, Fail> {
    let mut texts = List::new(alloc);
    for phrase in [
        "the child",
        "the child's friend",
        "friend",
        "the child's friend",
        "at 1.0",
    ] {
        texts.push(Txt::from_str(alloc, phrase)?)?;
    }
    let long = "a".repeat(alloc, width)?;
    texts.push(Txt::from_str(alloc, long.as_str())?)?;
    Ok(texts)
}

/// A text, a place among its tokens, and the longest phrase there with how many tokens it has.
type Sought = (&'static str, usize, Option<(u32, usize)>);

const SOUGHT: [Sought; 9] = [
    ("the child's \t friend is", 0, Some((1, 3))),
    ("the child's friend", 2, Some((2, 1))),
    ("the child's", 0, None),
    ("the child is", 0, Some((0, 2))),
    ("the childish", 0, None),
    ("at 1", 0, None),
    ("at 1.0 (", 0, Some((4, 2))),
    ("friend", 1, None),
    ("friend", 9, None),
];

/// The first row at whose place another phrase is the longest.
fn first_elsewhere(
    alloc: Global,
    phrases: &Phrases,
    rows: &[Sought],
) -> Result<Option<usize>, Fail> {
    for (place, (text, at, want)) in rows.iter().enumerate() {
        if text.len() < 1_000 {
            let found = tokens(alloc, text)?;
            if phrases.longest(text, &found, *at) != *want {
                return Ok(Some(place));
            }
        }
    }
    Ok(None)
}

/// The same over phrases of which one has so many bytes.
fn first_elsewhere_beside(alloc: Global, width: usize) -> Result<Option<usize>, Fail> {
    let texts = phrases_with(alloc, width)?;
    if texts.as_slice().len() > 9 {
        return Ok(Some(0));
    }
    let phrases = Phrases::new(alloc, &texts)?;
    first_elsewhere(alloc, &phrases, &SOUGHT)
}

#[test]
fn finds_the_longest(rt: HostRuntime) -> Result<(), Fail> {
    assert_eq!(rt; first_elsewhere_beside(rt.alloc(), 1)?, None);
    assert_eq!(rt; first_elsewhere_beside(rt.alloc(), 1024)?, None);
    assert_eq!(rt; first_elsewhere_beside(rt.alloc(), 1025)?, None);
    Ok(())
}

/// A text, and the text as it stands between quotes.
const QUOTED: [(&str, &str); 3] = [
    ("", "\"\""),
    ("a\"b", "\"a\"\"b\""),
    ("\"\"", "\"\"\"\"\"\""),
];

/// The text of the first token.
fn unquoted(alloc: Global, text: &str) -> Result<String, Fail> {
    let mut out = String::new(alloc);
    if text.len() > 1_000 {
        return Ok(out);
    }
    for token in &tokens(alloc, text)? {
        if token.kind == TokenKind::Text {
            out.push_str(text_of_token(alloc, token_text(text, *token))?.as_str())?;
        }
    }
    Ok(out)
}

/// The first text that is quoted, or read between quotes, otherwise than its row says.
fn first_misquoted(alloc: Global, rows: &[(&str, &str)]) -> Result<Option<usize>, Fail> {
    for (place, (text, want)) in rows.iter().enumerate() {
        if quoted(alloc, text)?.as_str() != *want || unquoted(alloc, want)?.as_str() != *text {
            return Ok(Some(place));
        }
    }
    Ok(None)
}

#[test]
fn quotes(rt: HostRuntime) -> Result<(), Fail> {
    assert_eq!(rt; first_misquoted(rt.alloc(), &QUOTED)?, None);
    Ok(())
}

/// The tokens with their kinds.
fn shown_pieces(alloc: Global, text: &str) -> Result<String, Fail> {
    let mut out = String::new(alloc);
    if text.len() > 1_000_000 {
        return Ok(out);
    }
    let Ok(found) = tokens(alloc, text) else {
        return Ok(out);
    };
    let mut rest = Pieces::new(text, &found);
    while let Some((kind, token, later)) = rest.first() {
        let one = format!(in alloc; "{}:{token} ", letter(kind))?;
        out.push_str(one.as_str())?;
        rest = later;
    }
    if rest.is_empty() {
        out.push_str(".")?;
    }
    Ok(out)
}

/// A text, and its tokens with their kinds.
const PIECES: [(&str, &str); 3] = [
    ("", "."),
    ("true; from 2024-01-01", "W:true S:; W:from D:2024-01-01 ."),
    ("\"An\"\"na\", -5", "T:\"An\"\"na\" S:, S:- N:5 ."),
];

/// The first text whose tokens are others than its row says.
fn first_apart(alloc: Global, rows: &[(&str, &str)]) -> Result<Option<usize>, Fail> {
    for (place, (text, want)) in rows.iter().enumerate() {
        if shown_pieces(alloc, text)?.as_str() != *want {
            return Ok(Some(place));
        }
    }
    Ok(None)
}

#[test]
fn pieces(rt: HostRuntime) -> Result<(), Fail> {
    assert_eq!(rt; first_apart(rt.alloc(), &PIECES)?, None);
    Ok(())
}
