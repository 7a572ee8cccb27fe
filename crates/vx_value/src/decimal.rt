//! Decimal types, as in the original's `dtype` module.

ghost use Rattle.std.specs.Prelude.{◌≡◌, IfOk, IfErr, OnOk};
ghost use Rattle.vx_value.specs.Decimals.{IsDecimal, has_digits, smallest_width, IsNarrowest};

use crate::{ArgKind, VortexError, VortexResult};

/// The precision and the scale of a decimal type: how many digits its numbers have at most, and how many of these stand behind
/// the point.
#[derive(Clone, Copy, Debug, PartialEq, Eq, Hash)]
pub struct DecimalDType {
    precision: u8,
    scale: u8,
    pub ghost is_decimal: { IsDecimal precision scale },
}

impl DecimalDType {
    /// Returns the decimal type of this precision and scale: `precision` digits, `scale` of them behind the point.
    ///
    /// Returns `InvalidArgument` with `BadType` exactly unless `precision` is from 1 to 38 and `scale` at most `precision`.
    pub fn try_new(precision: u8, scale: u8) -> VortexResult<DecimalDType>
        ensures ok { IfOk result (λ d. (d.precision ≡ precision) × (d.scale ≡ scale)) }
        ensures valid { OnOk result (IsDecimal precision scale) }
        ensures refused { IfErr result (λ e. (e ≡ VortexError.InvalidArgument ArgKind.BadType) × (¬ IsDecimal precision scale)) }
    {
        if 1 <= precision && precision <= 38 && scale <= precision {
            Ok(DecimalDType { precision, scale })
        } else {
            Err(VortexError::InvalidArgument(ArgKind::BadType))
        }
    }

    /// Returns the precision: how many digits a number has at most, from 1 to 38.
    pub fn precision(&self) -> u8
        ensures { result ≡ self.now.precision }
    {
        self.precision
    }

    /// Returns the scale: how many of the digits stand behind the point, at most all of them.
    pub fn scale(&self) -> u8
        ensures { result ≡ self.now.scale }
    {
        self.scale
    }

    /// Checks whether `unscaled`, a number without its point, has at most as many digits as the precision. (own)
    pub fn has_digits(&self, unscaled: i128) -> bool
        ensures { result ≡ has_digits self.now.precision unscaled }
    {
        self.digits().contain(unscaled)
    }
}

/// A decimal number: its integer without the point, and how many of its digits stand behind the point. (own)
///
/// Values of one scale are ordered by size; those of two scales compare by `unscaled` first.
#[derive(Clone, Copy, Debug, PartialEq, Eq, PartialOrd, Ord, Hash)]
pub struct DecimalValue {
    /// The number times ten to the power of `scale`.
    pub unscaled: i128,
    /// How many digits stand behind the point.
    pub scale: u8,
}

/// The integers that decimals are stored as in a column, by width in bits. A decimal is stored without its point.
#[derive(Clone, Copy, Debug, PartialEq, Eq, Hash)]
pub enum DecimalType {
    I8,
    I16,
    I32,
    I64,
    I128,
}

impl DecimalType {
    /// Returns the narrowest integers that hold all numbers of the type: up to a precision of 2, 4, 9, 18 and 38.
    pub fn smallest_decimal_value_type(decimal: &DecimalDType) -> DecimalType
        ensures value { result ≡ smallest_width decimal.now.precision }
        ensures narrowest { IsNarrowest result decimal.now.precision }
    {
        smallest_width(decimal.precision)
    }
}

fn smallest_width(precision: u8) -> DecimalType
    ensures { result ≡ smallest_width precision }
{
    match precision {
        0..=2 => DecimalType::I8,
        3..=4 => DecimalType::I16,
        5..=9 => DecimalType::I32,
        10..=18 => DecimalType::I64,
        _ => DecimalType::I128,
    }
}
