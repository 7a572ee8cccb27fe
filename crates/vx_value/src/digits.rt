//! The numbers that fit a precision.

ghost use Rattle.std.specs.Prelude.{◌≡◌};
ghost use Rattle.vx_value.specs.Decimals.{has_digits, IsBeyond};

use crate::DecimalDType;

/// The numbers that have at most `precision` digits, without their points. (own)
#[derive(Clone, Copy)]
pub struct Digits {
    precision: u8,
    /// The first number with one digit more.
    beyond: i128,
    ghost is_beyond: { IsBeyond precision beyond },
}

impl DecimalDType {
    /// Returns the numbers that have at most as many digits as the precision. Compute them once for all rows of a column. (own)
    #[tactic(auto, using(crate::proofs::CastsLemmas::power_fits))]
    pub fn digits(&self) -> Digits
        ensures { result.precision ≡ self.now.precision }
    {
        let precision = self.precision();
        Digits {
            precision,
            beyond: 10_i128.pow(precision as u32),
        }
    }
}

impl Digits {
    /// Returns how many digits the numbers have at most, which is 38 or fewer.
    pub fn precision(&self) -> u8
        ensures { result ≡ self.now.precision }
    {
        self.precision
    }

    /// Checks whether `unscaled`, a number without its point, is one of them, by two comparisons.
    #[inline]
    pub fn contain(&self, unscaled: i128) -> bool
        ensures { result ≡ has_digits self.now.precision unscaled }
    {
        -self.beyond < unscaled && unscaled < self.beyond
    }
}
