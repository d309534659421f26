// The mode that words ask for.
ghost use Rattle.std.specs.Prelude.{◌≡◌, map, string_bytes};
ghost use Rattle.std.specs.Option.{option_map};
ghost use Rattle.opa_rules.specs.Asked as meant;

/// What the program does.
#[derive(Clone, Copy, Debug, PartialEq, Eq)]
pub enum Mode {
    Describe,
    Faults,
    Print,
    Review,
    ReviewJson,
}

/// A mode, and the name of its rulebase.
#[derive(Drop)]
pub struct Asked<'a> {
    pub mode: Mode,
    pub name: &'a str,
}

/// The mode of this name.
fn mode_named(word: &str) -> Option<Mode>
    ensures { result ≡ meant.mode_named word.now }
{
    match word {
        "describe" => Some(Mode::Describe),
        "faults" => Some(Mode::Faults),
        "print" => Some(Mode::Print),
        "review" => Some(Mode::Review),
        _ => None,
    }
}

fn begins_with_dash(name: &str) -> bool
    ensures { result ≡ meant.begins_with_dash name.now }
{
    match name.as_bytes() {
        [] => false,
        [first, ..] => *first == b'-',
    }
}

/// A mode over a name.
fn taken<'a>(word: &str, name: &'a str) -> Option<Asked<'a>>
    ensures { option_map (λ a. (a.mode, a.name.now)) result ≡ meant.taken_by word.now name.now }
{
    if begins_with_dash(name) {
        return None;
    }
    let mode = mode_named(word)?;
    Some(Asked { mode, name })
}

fn is_review_as_json(word: &str, option: &str) -> bool
    ensures { result ≡ meant.is_review_as_json word.now option.now }
{
    word == "review" && option == "--json"
}

/// A mode with an option over a name.
fn taken_as_json<'a>(word: &str, option: &str, name: &'a str) -> Option<Asked<'a>>
    ensures { option_map (λ a. (a.mode, a.name.now)) result ≡ meant.taken_as_json word.now option.now name.now }
{
    if begins_with_dash(name) {
        return None;
    }
    if is_review_as_json(word, option) {
        Some(Asked {
            mode: Mode::ReviewJson,
            name,
        })
    } else {
        None
    }
}

/// The mode that the words of the command line ask for; the first word is the program's name.
pub fn read_words<'a>(words: &'a [String]) -> Option<Asked<'a>>
    ensures { option_map (λ a. (a.mode, a.name.now)) result ≡ meant.asked_of (map string_bytes words.now) }
{
    match words {
        [_, word, name] => taken(word.as_str(), name.as_str()),
        [_, word, option, name] => taken_as_json(word.as_str(), option.as_str(), name.as_str()),
        _ => None,
    }
}
