// Reads the text of a number.
ghost use Rattle.std.specs.Prelude.{◌≡◌, ◌≤◌, ◌+◌, ◌*◌, ◌-◌, ◌^◌, ℕ, List, true, length, drop, if◌then◌else◌, IfSome};
ghost use Rattle.std.specs.Option.{option_map};
ghost use Rattle.std.specs.Bool.{OnTrue};
ghost use Rattle.std.specs.Char.{is_ascii_digit};
ghost use Rattle.std.specs.List.{prefix_len};
ghost use Rattle.std.specs.Str.Parse.{starts_with_minus, digits_value, AllDigits};
ghost use Rattle.opa_value.specs.Capped.{capped, capped_count};
ghost use Rattle.opa_value.specs.NumberText.{all_digits, is_decimals, behind_of, parts_of, size_of};

use crate::arithmetic::step_of;

/// The number that digits write. What is over the greatest u64 is that.
#[tactic(auto, using(crate::proofs::Digits::digit_steps))]
fn capped_value(digits: &[u8]) -> u64
    requires { AllDigits 10 digits.now }
    ensures { result ≡ capped (digits_value 10 digits.now) }
{
    let mut value = 0u64;
    for digit in digits {
        value = value
            .saturating_mul(10)
            .saturating_add(u64::from(*digit - b'0'));
    }
    value
}

/// How many digits a text begins with.
#[tactic(auto, using(crate::proofs::Digits::front_within))]
fn leading_digits(text: &[u8]) -> usize
    ensures bound { result ≤ length text.now }
    ensures value { result ≡ prefix_len is_ascii_digit text.now }
{
    text.iter().take_while(|byte| byte.is_ascii_digit()).count()
}

/// Whether a text is of digits alone.
fn are_digits(text: &[u8]) -> bool
    ensures { result ≡ all_digits text.now }
{
    text.iter().all(|byte| byte.is_ascii_digit())
}

/// Whether a text is one to four digits.
#[tactic(auto, using(crate::proofs::Digits::decimals_digits))]
fn is_decimals(text: &[u8]) -> bool
    ensures digits { OnTrue result (AllDigits 10 text.now × (length text.now ≤ 4)) }
    ensures value { result ≡ is_decimals text.now }
{
    !text.is_empty() && text.len() <= 4 && are_digits(text)
}

/// The digits behind the point, of a text that begins with the point or is empty.
fn behind(text: &[u8]) -> Option<&[u8]>
    ensures digits { IfSome result (λ digits. AllDigits 10 digits.now × (length digits.now ≤ 4)) }
    ensures value { option_map (λ digits. digits.now) result ≡ behind_of text.now }
{
    match text {
        [] => Some(text),
        [b'.', digits @ ..] if is_decimals(digits) => Some(digits),
        _ => None,
    }
}

/// The digits before and behind the point, where the text has the form of a number without a sign.
#[tactic(auto, using(crate::proofs::Digits::front_digits))]
fn parts(text: &[u8]) -> Option<(&[u8], &[u8])>
    ensures digits { IfSome result (λ p. AllDigits 10 p.0.now × AllDigits 10 p.1.now × (length p.1.now ≤ 4)) }
    ensures value { option_map (λ p. (p.0.now, p.1.now)) result ≡ parts_of text.now }
{
    let (whole, rest) = text.split_at(leading_digits(text));
    if whole.is_empty() {
        return None;
    }
    Some((whole, behind(rest)?))
}

/// The size of a number with these digits before and behind its point. What is over the greatest u64 is that.
#[tactic(auto, using(crate::proofs::Digits::capped_sum))]
fn capped_size(whole: &[u8], behind: &[u8]) -> u64
    requires whole { AllDigits 10 whole.now }
    requires behind { AllDigits 10 behind.now }
    requires at_most { length behind.now ≤ 4 }
    ensures { result ≡ capped (size_of whole.now behind.now) }
{
    let decimals = capped_value(behind).saturating_mul(step_of(behind.len() as u8));
    capped_value(whole)
        .saturating_mul(10_000)
        .saturating_add(decimals)
}

/// A text without its sign, and whether the sign is a minus.
fn without_minus(text: &[u8]) -> (bool, &[u8])
    ensures sign { result.0 ≡ starts_with_minus text.now }
    ensures rest { result.1.now ≡ (if starts_with_minus text.now then drop 1 text.now else text.now) }
{
    match text {
        [b'-', rest @ ..] => (true, rest),
        _ => (false, text),
    }
}

/// The count that a text spells, where it has the form of a number. A size over the greatest u64 is that.
pub fn capped_count(text: &str) -> Option<i128>
    ensures { result ≡ capped_count text.now }
{
    let (negative, rest) = without_minus(text.as_bytes());
    let (whole, behind) = parts(rest)?;
    let size = i128::from(capped_size(whole, behind));
    Some(if negative { -size } else { size })
}
