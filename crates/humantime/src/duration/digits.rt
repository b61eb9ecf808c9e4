//! The arithmetic that builds the number of a span and its [`Fraction`] digit by digit.

ghost use Rattle.std.specs.Prelude.{◌≡◌, ℕ, List, [], ◌∷◌, ◌++◌, true, IfNone, IfSome, Some, SomeIff, ◌+◌, ◌-◌, ◌*◌, ◌^◌, ◌≤◌, ◌<◌};
ghost use Rattle.humantime.specs.Characters.{is_digit, max_fraction_digits, u64_max};
ghost use Rattle.humantime.specs.Durations.{has_too_many_digits};

/// The maximum number of digits in a fraction before its trailing zeros. Any number of so many
/// digits fits in a `u64`.
const MAX_FRACTION_DIGITS: usize = 19;

/// The powers of ten that fit in a `u64`: 10^0 to 10^19. A look-up is faster than `pow`.
static POWERS_OF_TEN: [u64; 20] = [
    1,
    10,
    100,
    1_000,
    10_000,
    100_000,
    1_000_000,
    10_000_000,
    100_000_000,
    1_000_000_000,
    10_000_000_000,
    100_000_000_000,
    1_000_000_000_000,
    10_000_000_000_000,
    100_000_000_000_000,
    1_000_000_000_000_000,
    10_000_000_000_000_000,
    100_000_000_000_000_000,
    1_000_000_000_000_000_000,
    10_000_000_000_000_000_000,
];

/// The digits after a point. Their value is `significand / 10^exponent`, which is below 1.
#[derive(Clone, Copy, Debug, Default)]
pub(crate) struct Fraction {
    /// The digits before the trailing zeros, as an integer.
    pub significand: u64,
    /// The number of digits before the trailing zeros, leading zeros included.
    pub exponent: usize,
    /// The number of digits, trailing zeros included.
    pub len: usize,
}

/// Returns `value` followed by the ASCII digit `c`, or `None` on overflow.
#[inline(always)]
#[tactic(auto, using(crate::proofs::SpanParts::digit_range))]
pub(crate) fn push_digit(value: u64, c: u8) -> Option<u64>
    requires { is_digit c ≡ true }
    ensures { SomeIff result (value * 10 + (c - 48) ≤ u64_max) (value * 10 + (c - 48)) }
{
    value.checked_mul(10)?.checked_add((c - b'0') as u64)
}

/// Returns 10 to the power of `exponent`, which is at most 19.
pub(crate) fn power_of_ten(exponent: usize) -> u64
    requires { exponent ≤ max_fraction_digits }
    ensures { result ≡ 10 ^ exponent }
{
    POWERS_OF_TEN[exponent]
}

impl Fraction {
    ghost use Rattle.humantime.specs.PrivateTypes.{HasDigits};

    /// Returns the fraction followed by the ASCII digit `c`, or `None` if it then has more than 19
    /// digits before its trailing zeros.
    #[inline(always)]
    #[tactic(auto, using(crate::proofs::SpanParts::fractions))]
    pub(crate) fn push(self, c: u8) -> Option<Fraction>
        requires digit { is_digit c ≡ true }
        requires digits { (ds : List ℕ) × HasDigits self ds }
        requires room { self.len + 1 < 2 ^ 64 }
        ensures pushed { (ds : List ℕ) → HasDigits self ds
            → IfSome result (λ f. HasDigits f (ds ++ c ∷ [])) }
        ensures full { (ds es : List ℕ) → HasDigits self ds
            → IfNone result (has_too_many_digits (Some (ds ++ c ∷ es)) ≡ true) }
    {
        let len = self.len + 1;
        if c == b'0' {
            return Some(Fraction { len, ..self });
        }
        if len > MAX_FRACTION_DIGITS {
            return None;
        }
        // The zeros before this digit are no longer trailing zeros.
        let power = power_of_ten(len - self.exponent);
        let significand = self.significand * power + (c - b'0') as u64;
        Some(Fraction {
            significand,
            exponent: len,
            len,
        })
    }
}
