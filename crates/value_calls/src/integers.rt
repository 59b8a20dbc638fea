ghost use Rattle.std.specs.Prelude.{◌≡◌, ◌+ℤ◌, ◌-ℤ◌, ◌*ℤ◌, neg_ℤ, pos, unsigned_abs, false};
ghost use Rattle.value_calls.specs.Integers.{within, is_zero, quotient_of, remainder_of, place_of};

/// The sum, where it fits 64 bits.
pub fn sum(a: i64, b: i64) -> Option<i64>
    ensures { result ≡ within (a +ℤ b) }
{
    a.checked_add(b)
}

/// The difference, where it fits 64 bits.
pub fn difference(a: i64, b: i64) -> Option<i64>
    ensures { result ≡ within (a -ℤ b) }
{
    a.checked_sub(b)
}

/// The product, where it fits 64 bits.
pub fn product(a: i64, b: i64) -> Option<i64>
    ensures { result ≡ within (a *ℤ b) }
{
    a.checked_mul(b)
}

/// The quotient, rounded to zero, where it fits 64 bits.
pub fn quotient(a: i64, b: i64) -> Option<i64>
    requires { is_zero b ≡ false }
    ensures { result ≡ quotient_of a b }
{
    a.checked_div(b)
}

/// The remainder, with the sign of the dividend, where the quotient fits 64 bits.
pub fn remainder(a: i64, b: i64) -> Option<i64>
    requires { is_zero b ≡ false }
    ensures { result ≡ remainder_of a b }
{
    a.checked_rem(b)
}

/// The number with the other sign, where it fits 64 bits.
pub fn negation(a: i64) -> Option<i64>
    ensures { result ≡ within (neg_ℤ a) }
{
    a.checked_neg()
}

/// The number without its sign, where it fits 64 bits.
pub fn absolute(a: i64) -> Option<i64>
    ensures { result ≡ within (pos (unsigned_abs a)) }
{
    a.checked_abs()
}

/// A number of items as a number of the language, where it fits 64 bits.
#[tactic(auto, unfolding(crate::specs::Integers::within))]
pub fn count(items: usize) -> Option<i64>
    ensures { result ≡ within (pos items) }
{
    if items < 9_223_372_036_854_775_808 {
        Some(items as i64)
    } else {
        None
    }
}

/// Whether the number is 0.
pub fn is_zero(a: i64) -> bool
    ensures { result ≡ is_zero a }
{
    a == 0
}

/// The index as a place in a list, where it is not below 0.
pub fn place(index: i64) -> Option<usize>
    ensures { result ≡ place_of index }
{
    usize::try_from(index).ok()
}
