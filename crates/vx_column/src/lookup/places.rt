//! The rows that codes name.

ghost use Rattle.std.specs.Prelude.{◌≡◌, ℕ, pos, IfOk, IfErr, MatchOption};
ghost use Rattle.vx_value.specs.Values.{integer};
ghost use Rattle.vx_value.specs.Cell.{value, fault};
ghost use Rattle.vx_column.specs.Arguments.{value_at, ptype_in, type_of_argument, IsSized, AreIntegers};
ghost use Rattle.vx_column.specs.Casts.{IsIntegerType};
ghost use Rattle.vx_column.specs.LookedUp.{place_cell, AreNamed};
ghost use Rattle.vx_column.specs.Operands.{number_in, HasRow, IsFaultyRow, calculated_rows};
ghost use Rattle.vx_column.specs.ValidRows.{is_valid, HasValidity};
ghost use Rattle.vx_column.specs.declared.rows.argument.ArgumentRows.TheVariants.{Integers};

use crate::functions::kernel::{Calculation, Operand, calculate_rows, operand_of};
use crate::rows::{Argument, ArgumentRows, IntegerOperand, ValidRows};
use std::alloc::Global;
use vx_tree::{NativeInteger, by_type};
use vx_value::VortexResult;

/// Returns `wide` as the number of one of `bound` rows, or `None` if it is negative or names no row.
#[inline]
pub(crate) fn place_of(wide: i128, bound: usize) -> Option<u64>
    ensures { MatchOption result (place_cell bound (integer wide) ≡ fault) (λ k. place_cell bound (integer wide) ≡ value (integer (pos k))) }
{
    let place = u64::from_wide(wide)?;
    if place < bound as u64 {
        Some(place)
    } else {
        None
    }
}

/// Returns for each of `codes`, `len` integers, the number of the row that it names among `bound` rows, and 0 if it is null.
/// `Fault` if one is negative or names no row.
pub(crate) fn places_of(
    alloc: Global,
    codes: &Argument<'_>,
    bound: usize,
    len: usize,
) -> VortexResult<Vec<u64>>
    requires sized { IsSized len codes.now }
    requires integers { IsIntegerType (type_of_argument codes.now) }
    ensures ok { IfOk result (λ v. AreNamed codes.now.rows codes.now.valid bound len v.items) }
    ensures err { IfErr result (IsFaultyRow (is_valid codes.now.valid) (λ i. place_cell bound (value_at codes.now.rows i)) len) }
{
    let ArgumentRows::Integers(integers) = codes.rows else {
        unreachable!()
    };
    by_type!(
        integers.ptype(),
        places_in(alloc, integers, &codes.valid, bound, len)
    )
}

/// Returns for each of `codes`, `len` integers of the type `T`, the number of the row that it names among `bound` rows, and 0
/// if it isn't `valid`. `Fault` if a valid one is negative or names no row.
fn places_in<T: NativeInteger>(
    alloc: Global,
    codes: IntegerOperand<'_>,
    valid: &ValidRows,
    bound: usize,
    len: usize,
) -> VortexResult<Vec<u64>>
    requires codes { AreIntegers T.kind codes len }
    requires valid { HasValidity valid.now len }
    ensures ok { IfOk result (λ v. AreNamed (Integers codes.entry) valid.now bound len v.items) }
    ensures err { IfErr result (IsFaultyRow (is_valid valid.now) (λ i. place_cell bound (value_at (Integers codes.entry) i)) len) }
{
    let codes: Operand<'_, T> = operand_of(codes);
    let places = Places { codes, bound };
    calculate_rows::<u64, Places<'_, T>>(alloc, &places, valid, len)
}

/// The numbers of the rows that codes name, among `bound` rows.
#[derive(Clone, Copy)]
struct Places<'a, T> {
    codes: Operand<'a, T>,
    bound: usize,
}

impl<'a, T: NativeInteger> Calculation<u64> for Places<'a, T> {
    ghost has_row = { λ s i. HasRow s.codes i };

    ghost cell = { λ s i. place_cell s.bound (integer (number_in T.value s.codes i)) };

    ghost stands_for = { λ s. integer };

    #[inline]
    fn calculate_row(&self, index: usize) -> Option<u64> {
        place_of(self.codes.row(index).to_wide(), self.bound)
    }
}
