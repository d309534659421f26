// Sums, products and quotients of counts, before they are held to the range.
ghost use Rattle.std.specs.Prelude.{◌≡◌, ◌+◌, ◌*◌, ◌/◌, ◌<◌, ◌≤◌, ◌^◌, ◌*ℤ◌, pos, ◌-◌, neg_ℤ, if◌then◌else◌};
ghost use Rattle.std.specs.Int.RustNames.{unsigned_abs};
ghost use Rattle.opa_value.specs.Arithmetic.{near as nearest, product as rounded_product, quotient as rounded_quotient, rounded as rounded_to};
ghost use Rattle.opa_value.specs.Numbers.{InRange};

/// The greatest size of a count.
pub const MOST: u128 = 100_000_000_000_000_000;

/// How many counts are one.
const ONE: u16 = 10_000;

/// The whole number nearest to the quotient of two sizes, halves up.
fn nearest_size(amount: u128, step: u128) -> u128
    requires above_zero { 0 < step }
    requires low_step { step ≤ 10 ^ 17 }
    requires low_amount { amount ≤ 10 ^ 34 }
    ensures value { result ≡ (2 * amount + step) / (2 * step) }
    ensures bound { result ≤ 2 * amount + step }
{
    (2 * amount + step) / (2 * step)
}

/// The whole number nearest to a quotient, halves away from zero.
fn near(amount: i128, step: u128) -> i128
    requires above_zero { 0 < step }
    requires low_step { step ≤ 10 ^ 17 }
    requires low_amount { unsigned_abs amount ≤ 10 ^ 34 }
    ensures { result ≡ nearest amount step }
{
    let size = nearest_size(amount.unsigned_abs(), step) as i128;
    if amount < 0 { -size } else { size }
}

/// The exact product of two counts. Each is at most 10^17, so the product of at most 10^34 has room in 128 bits.
fn exact_product(a: i64, b: i64) -> i128
    requires left { InRange a }
    requires right { InRange b }
    ensures value { result ≡ a *ℤ b }
    ensures bound { unsigned_abs result ≤ 10 ^ 34 }
{
    i128::from(a) * i128::from(b)
}

/// The product of two counts as a count, rounded.
pub fn product(a: i64, b: i64) -> i128
    requires left { InRange a }
    requires right { InRange b }
    ensures { result ≡ rounded_product a b }
{
    near(exact_product(a, b), u128::from(ONE))
}

/// The quotient of a count and a size as a count, rounded.
fn quotient_by(count: i64, step: u64) -> i128
    requires count { InRange count }
    requires above_zero { 0 < step }
    requires low_step { step ≤ 10 ^ 17 }
    ensures { result ≡ nearest (count *ℤ pos 10000) step }
{
    near(exact_product(count, i64::from(ONE)), u128::from(step))
}

/// The quotient of two counts as a count, rounded; none where the divisor is zero.
#[tactic(auto, using(crate::proofs::Rounding::quotients))]
pub fn quotient(a: i64, b: i64) -> Option<i128>
    requires left { InRange a }
    requires right { InRange b }
    ensures { result ≡ rounded_quotient a b }
{
    if b == 0 {
        return None;
    }
    let step = b.unsigned_abs();
    if b < 0 {
        Some(quotient_by(-a, step))
    } else {
        Some(quotient_by(a, step))
    }
}

/// How many counts are one step of so many decimals. More than four are four.
pub fn step_of(decimals: u8) -> u64
    ensures value { result ≡ 10 ^ (4 - decimals) }
    ensures above_zero { 0 < result }
    ensures bound { result ≤ 10000 }
{
    match decimals {
        0 => 10_000,
        1 => 1_000,
        2 => 100,
        3 => 10,
        _ => 1,
    }
}

/// The count rounded to so many decimals. The range ends at whole numbers, so the result is in it.
#[tactic(auto, using(crate::proofs::Rounding::rounded_range))]
pub fn rounded(count: i64, decimals: u8) -> i128
    requires { InRange count }
    ensures value { result ≡ rounded_to decimals count }
    ensures range { InRange result }
{
    let step = step_of(decimals);
    near(i128::from(count), u128::from(step)) * i128::from(step)
}
