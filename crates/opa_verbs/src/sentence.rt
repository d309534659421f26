// Sentences in their three forms.
ghost use Rattle.std.specs.Prelude.{◌≡◌, Some, IfOk};
ghost use Rattle.opa_model.specs.Models.{HasVerb};
ghost use Rattle.opa_verbs.specs.Forms.{beside as beside_of, said, spoken};

use opa_io::{NoMemory, Txt};
use opa_model::{Model, Sentence, Verb};
use std::alloc::Global;

/// A form of a sentence. A question has no question mark.
#[derive(Clone, Copy, Debug, PartialEq, Eq)]
pub enum Form {
    Positive,
    Negative,
    Question,
}

/// The sentence in a form.
pub fn say(alloc: Global, model: &Model, sentence: &Sentence, form: Form) -> Result<Txt, NoMemory>
    requires { HasVerb model.now sentence.now }
    ensures { IfOk result (λ text. said model.now sentence.now form ≡ Some text) }
{
    speak(alloc, model.verb(sentence.verb), sentence, form)
}

/// The sentence with this verb in a form.
pub(crate) fn speak(
    alloc: Global,
    verb: &Verb,
    sentence: &Sentence,
    form: Form,
) -> Result<Txt, NoMemory>
    ensures { IfOk result (λ text. text ≡ spoken verb.now sentence.now form) }
{
    let subject = sentence.subject.as_str();
    let rest = sentence.rest.as_str();
    match form {
        Form::Positive => three(alloc, subject, verb.positive.as_str(), rest),
        Form::Negative => three(alloc, subject, verb.negative.as_str(), rest),
        Form::Question => {
            let asked = three(alloc, subject, verb.rest.as_str(), rest)?;
            beside(alloc, verb.ask.as_str(), asked.as_str())
        }
    }
}

/// Three texts beside one another.
fn three(alloc: Global, first: &str, second: &str, third: &str) -> Result<Txt, NoMemory>
    ensures { IfOk result (λ text. text ≡ beside_of first.now (beside_of second.now third.now)) }
{
    let after = beside(alloc, second, third)?;
    beside(alloc, first, after.as_str())
}

/// Two texts, with a space between them where neither is empty.
fn beside(alloc: Global, left: &str, right: &str) -> Result<Txt, NoMemory>
    ensures { IfOk result (λ text. text ≡ beside_of left.now right.now) }
{
    if left.is_empty() {
        return Txt::from_str(alloc, right);
    }
    if right.is_empty() {
        return Txt::from_str(alloc, left);
    }
    let text = format!(in alloc; "{left} {right}")?;
    Ok(Txt::from_string(text))
}
