//! Division by a number that stays the same, by one multiplication: a division takes several times as long, and one is due for each literal
//! that becomes true and for each clause that is looked up.
ghost use Rattle.std.specs.Prelude.{◌≡◌, ◌/◌, ◌%◌};

use std::marker::Model;

/// A number that others are divided by, with what they are multiplied by for that.
#[derive(Clone, Copy)]
pub struct Divisor {
    by: u64,
    /// 2^64 - 1 divided by it.
    factor: u64,
}

/// The quotient of two numbers and the rest.
#[derive(Clone, Copy)]
pub struct Parts {
    pub quotient: u32,
    pub rest: u32,
}

impl Model for Divisor {
    ghost use Rattle.std.specs.Prelude.{ℕ, ◌≡◌, ◌/◌};
    ghost use Rattle.std.proofs.Common.{ap, sym};

    ghost Value = { ℕ };

    ghost view = { λ d. d.by };

    ghost inverse = { λ n. record { by = n; factor = 18446744073709551615 / n } };

    ghost inverse_ok = { λ d h. ap (λ (k : ℕ). (let made : Inside = record { by = d.by; factor = k } in made)) (sym h) };

    ghost invariant = { λ d. d.factor ≡ 18446744073709551615 / d.by };
}

/// What numbers are multiplied by in place of a division; 0 where it would be a division by 0.
fn factor_of(by: u64) -> u64
    ensures { result ≡ 18446744073709551615 / by }
{
    if by == 0 {
        return 0;
    }
    18446744073709551615 / by
}

impl Divisor {
    /// The divisor that is this number.
    pub fn of(by: usize) -> Divisor
        ensures { result ≡ by }
    {
        let by = by as u64;
        Divisor {
            by,
            factor: factor_of(by),
        }
    }

    /// A number divided by it; 0 where it is 0.
    #[inline(always)]
    fn quotient(&self, number: u32) -> u32
        ensures { result ≡ number / self.now }
    {
        ((u128::from(number) + 1) * u128::from(self.factor) / 18446744073709551616) as u32
    }

    /// The quotient of a number by it, and the rest; where it is 0 the quotient is 0 and the rest the number.
    #[inline(always)]
    pub fn parts(&self, number: u32) -> Parts
        ensures quotient { result.quotient ≡ number / self.now }
        ensures rest { result.rest ≡ number % self.now }
    {
        let quotient = self.quotient(number);
        let rest = u64::from(number) - u64::from(quotient) * self.by;
        Parts {
            quotient,
            rest: rest as u32,
        }
    }
}
