//! The operands of a kernel.

ghost use Rattle.std.specs.Prelude.{◌≡◌, ℕ};
ghost use Rattle.vx_value.specs.Decimals.{smallest_width};
ghost use Rattle.vx_column.specs.Arguments.{integer_in, ptype_in, unscaled_in, IsInRange, HasIntegers, AreDecimals};
ghost use Rattle.vx_column.specs.Operands.{number_in, HasRow, HasRows};

use crate::rows::{DecimalOperand, DecimalRows, IntegerOperand, IntegerRows};
use vx_tree::{NativeDecimalType, NativeInteger, NativeNumber, narrowed, native_of};

/// Numbers of a native type: one for each row, or one for every row. (own)
#[derive(Clone, Copy)]
pub(crate) enum Operand<'a, T> {
    Rows(&'a [T]),
    Value(T),
}

impl<'a, T: NativeNumber> Operand<'a, T> {
    /// Returns the number at row `index`, which must exist. (own)
    #[inline]
    pub fn row(&self, index: usize) -> T
        requires { HasRow self.now index }
        ensures { T.value result ≡ number_in T.value self.now index }
    {
        match *self {
            Operand::Rows(rows) => rows[index],
            Operand::Value(value) => value,
        }
    }
}

/// Returns `integers`, which must be of the type `T`, as native numbers. (own)
pub(crate) fn operand_of<'a, T: NativeInteger>(integers: IntegerOperand<'a>) -> Operand<'a, T>
    requires kind { ptype_in integers ≡ T.kind }
    requires ranged { IsInRange integers.rows }
    ensures numbers { number_in T.value result ≡ integer_in integers.entry }
    ensures rows { (n : ℕ) → HasIntegers integers.entry.rows n → HasRows result n }
{
    match integers.rows {
        IntegerRows::Rows(values) => Operand::Rows(T::numbers(values).as_slice()),
        IntegerRows::Value(_, wide) => Operand::Value(native_of(wide)),
    }
}

/// Returns `decimals`, which must be stored in the width of `T`, as native numbers. (own)
pub(crate) fn decimal_operand_of<'a, T: NativeDecimalType>(
    decimals: DecimalOperand<'a>,
) -> Operand<'a, T>
    requires kind { T.kind ≡ smallest_width decimals.decimal.precision }
    requires decimals { (n : ℕ) × AreDecimals decimals n }
    ensures numbers { number_in T.value result ≡ unscaled_in decimals.entry }
    ensures rows { (n : ℕ) → AreDecimals decimals.entry n → HasRows result n }
{
    match decimals.rows {
        DecimalRows::Rows(values) => Operand::Rows(T::decimals(values).as_slice()),
        DecimalRows::Value(wide) => Operand::Value(narrowed(wide)),
    }
}
