// The number of the screen that a question lies on.
ghost use Rattle.std.specs.Prelude.{◌≡◌, ◌≤◌, length};
ghost use Rattle.opa_text.specs.Screen.Screens.{asks, lists, screen_of as screen_of_question, IsListedOnlyOn};

use opa_case::Question;
use opa_model::{Item, Model, Screen};

/// The number of the declared screen that lists what the question asks for, from 1; 0 where none does.
pub fn screen_of(model: &Model, question: &Question) -> u32
    ensures number { result ≡ screen_of_question model.now question.now }
    ensures declared { result ≤ length model.now.screens }
    ensures only { IsListedOnlyOn model.now question.now result }
{
    // No item stands twice, by the form of the model.
    let _count = model.screen_count();
    let number = first_listing(model, question);
    number
}

/// The number of the first screen that lists it.
fn first_listing(model: &Model, question: &Question) -> u32
    ensures { result ≡ screen_of_question model.now question.now }
{
    for place in 0..model.screen_count() {
        if is_listed(model.screen(place), question) {
            return place + 1;
        }
    }
    0
}

fn is_listed(screen: &Screen, question: &Question) -> bool
    ensures { result ≡ lists question.now screen.now }
{
    screen
        .items
        .as_slice()
        .iter()
        .any(|item| is_asked(item, question))
}

/// Whether the question asks for the item, of whatever instance.
fn is_asked(item: &Item, question: &Question) -> bool
    ensures { result ≡ asks question.now item.now }
{
    match question {
        Question::Attr(attr, _) => match item {
            Item::Attr(own) => attr.0 == own.0,
            Item::Members(_) => false,
        },
        Question::Members(rel, _) => match item {
            Item::Attr(_) => false,
            Item::Members(own) => rel.0 == own.0,
        },
    }
}
