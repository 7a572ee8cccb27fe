//! Numbers rescaled to a decimal type.

ghost use Rattle.std.specs.Prelude.{◌≡◌, ◌≤◌, MatchOption};
ghost use Rattle.vx_value.specs.Casts.{rescaled, sized};
ghost use Rattle.vx_value.specs.Cell.{value, fault};
ghost use Rattle.vx_value.specs.Values.{decimal};
ghost use Rattle.vx_value.specs.Powers.{HasPower};

use crate::{DecimalDType, Digits};

/// Casts numbers of scale `scale` to decimals of type `target`. (own)
#[derive(Clone, Copy)]
pub struct Rescaling {
    target: DecimalDType,
    scale: u8,
    /// Ten to the power of the difference of the two scales.
    power: i128,
    /// The numbers of type `target`.
    digits: Digits,
    ghost has_power: { HasPower target scale power },
    ghost has_digits: { digits.precision ≡ target.precision },
}

impl Rescaling {
    /// Computes the powers of ten that each row needs.
    pub fn new(target: DecimalDType, scale: u8) -> Rescaling
        requires { scale ≤ 38 }
        ensures target { result.target ≡ target }
        ensures scale { result.scale ≡ scale }
    {
        let zeros = if scale <= target.scale() {
            target.scale() - scale
        } else {
            scale - target.scale()
        };
        Rescaling {
            target,
            scale,
            power: 10_i128.pow(zeros as u32),
            digits: target.digits(),
        }
    }

    /// Returns the type that numbers are cast to.
    pub fn target(&self) -> DecimalDType
        ensures { result ≡ self.now.target }
    {
        self.target
    }

    /// Returns `number` as a number of the type, without its point.
    ///
    /// `None` exactly if the type can't hold it: the number has a digit other than 0 past the type's scale, or, written to that
    /// scale, more digits than its precision.
    #[inline]
    pub fn rescale(&self, number: i128) -> Option<i128>
        ensures { MatchOption result
            (rescaled self.now.target.precision self.now.target.scale number self.now.scale ≡ fault)
            (λ z. rescaled self.now.target.precision self.now.target.scale number self.now.scale ≡ value (decimal z self.now.target.scale)) }
    {
        let unscaled = self.scaled(number)?;
        if self.digits.contain(unscaled) {
            Some(unscaled)
        } else {
            None
        }
    }

    /// Returns `number` written to the type's scale, without its point; `None` if it has a digit other than 0 past that scale,
    /// or if it doesn't fit 128 bits.
    #[inline]
    fn scaled(&self, number: i128) -> Option<i128>
        ensures { MatchOption result
            (rescaled self.now.target.precision self.now.target.scale number self.now.scale ≡ fault)
            (λ z. rescaled self.now.target.precision self.now.target.scale number self.now.scale
            ≡ sized self.now.target.precision self.now.target.scale z) }
    {
        if self.scale <= self.target.scale() {
            number.checked_mul(self.power)
        } else if number % self.power == 0 {
            Some(number / self.power)
        } else {
            None
        }
    }
}
