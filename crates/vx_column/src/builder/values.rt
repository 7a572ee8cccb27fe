//! The values of a growing column.

ghost use Rattle.std.specs.Prelude.{◌≡◌, ◌+◌, ◌<◌, ◌^◌, ◌∷◌, [], ◌++◌, true, false, IfOk, OnOk, OnErr, length, replicate};
ghost use Rattle.std.specs.List.{list_all};
ghost use Rattle.vx_value.specs.Errors.{OnlyOutOfMemory};
ghost use Rattle.vx_value.specs.IsOf.{is_of};
ghost use Rattle.vx_tree.specs.Canonicals.{canonical_tree};
ghost use Rattle.vx_tree.specs.Validities.{HasRows};
ghost use Rattle.vx_value.specs.View.{type_of, value_of};
ghost use Rattle.vx_value.specs.Storage.{storage_of, is_nested};
ghost use Rattle.vx_value.specs.declared.dtype.Storage.{Storage as StorageOf};
ghost use Rattle.vx_column.specs.Growing.{stored_values, zero_in, HaveStorage, Accepts, AcceptRows, values_or, IsColumnOf};
ghost use Rattle.vx_column.specs.ValidRows.{HasValidity};

use crate::builder::rows::{push_bits, push_bytes, push_decimals, push_integers};
use crate::rows::{
    ArgumentRows, ValidRows, bool_column, decimal_column, primitive_column, varbinview_column,
};
use std::alloc::Global;
use vx_mask::BitBuilder;
use vx_tree::{BinaryBuilder, Canonical, NativeVec, NullArray, Validity};
use vx_value::{DType, DecimalType, PType, ScalarValue, VortexResult};

/// A value for each row, also if it is null, by how the column's type stores them.
#[derive(Debug, Drop)]
pub(super) enum Values {
    /// No values: each of this number of rows is null.
    Nulls(usize),
    Bits(BitBuilder),
    Integers(NativeVec<PType>),
    /// Decimals without their points, and their scale.
    Decimals(NativeVec<DecimalType>, u8),
    Bytes(BinaryBuilder),
}

impl Values {
    /// Makes the values of no rows of type `dtype`, which must not be nested, with room for `capacity` of them. Fails only
    /// with `OutOfMemory`.
    pub(super) fn with_capacity(
        alloc: Global,
        dtype: &DType,
        capacity: usize,
    ) -> VortexResult<Values>
        requires { is_nested (type_of dtype.now) ≡ false }
        ensures stored { IfOk result (HaveStorage (storage_of (type_of dtype.now))) }
        ensures empty { IfOk result (λ values. stored_values values ≡ []) }
        ensures err { OnlyOutOfMemory result }
    {
        Ok(match dtype {
            DType::Null => Values::Nulls(0),
            DType::Bool(_) => Values::Bits(BitBuilder::with_capacity(alloc, capacity)?),
            DType::Primitive(ptype, _) => {
                Values::Integers(NativeVec::with_capacity(alloc, *ptype, capacity)?)
            }
            DType::Decimal(decimal, _) => {
                let width = DecimalType::smallest_decimal_value_type(decimal);
                let values = NativeVec::with_capacity(alloc, width, capacity)?;
                Values::Decimals(values, decimal.scale())
            }
            DType::Utf8(_) | DType::Binary(_) => {
                Values::Bytes(BinaryBuilder::with_capacity(alloc, capacity)?)
            }
            _ => unreachable!(),
        })
    }

    /// Appends `value`, which must be of the kind of the others. Fails only with `OutOfMemory`; the values are then
    /// unchanged.
    pub(super) fn push(&mut self, value: &ScalarValue) -> VortexResult<()>
        requires { Accepts self.old (value_of value.now) }
        ensures ok { OnOk result (stored_values self.new ≡ stored_values self.old ++ value_of value.now ∷ []) }
        ensures err { OnErr result (stored_values self.new ≡ stored_values self.old) }
        ensures memory { OnlyOutOfMemory result }
        ensures zero { zero_in self.new ≡ zero_in self.old }
        ensures stored { (st : StorageOf) → HaveStorage st self.old → HaveStorage st self.new }
    {
        match (self, value) {
            (Values::Bits(bits), ScalarValue::Bool(bit)) => Ok(bits.push(*bit)?),
            (Values::Integers(values), ScalarValue::Integer(number)) => values.push(*number),
            (Values::Decimals(values, _), ScalarValue::Decimal(decimal)) => {
                values.push(decimal.unscaled)
            }
            (Values::Bytes(rows), ScalarValue::Bytes(bytes)) => rows.push(bytes.as_slice()),
            _ => unreachable!(),
        }
    }

    /// Appends the value under a null `count` times, in one allocation. Fails only with `OutOfMemory`; the values are then
    /// unchanged.
    pub(super) fn push_zeros(&mut self, count: usize) -> VortexResult<()>
        requires { length (stored_values self.old) + count < 2 ^ 64 }
        ensures ok { OnOk result (stored_values self.new ≡ stored_values self.old ++ replicate count (zero_in self.old)) }
        ensures err { OnErr result (stored_values self.new ≡ stored_values self.old) }
        ensures memory { OnlyOutOfMemory result }
        ensures zero { zero_in self.new ≡ zero_in self.old }
        ensures stored { (st : StorageOf) → HaveStorage st self.old → HaveStorage st self.new }
    {
        match self {
            Values::Nulls(rows) => {
                *rows += count;
                Ok(())
            }
            Values::Bits(bits) => Ok(bits.push_copies(false, count)?),
            Values::Integers(values) => values.push_zeros(count),
            Values::Decimals(values, _) => values.push_zeros(count),
            Values::Bytes(rows) => rows.push_empty(count),
        }
    }

    /// Appends `len` rows, which must be of the kind of the others, with the value under a null in place of each that isn't `valid`.
    /// Fails only with `OutOfMemory`; the values are then unchanged.
    pub(super) fn push_rows(
        &mut self,
        alloc: Global,
        rows: ArgumentRows<'_>,
        valid: &ValidRows,
        len: usize,
    ) -> VortexResult<()>
        requires rows { AcceptRows self.old rows len }
        requires valid { HasValidity valid.now len }
        requires fits { length (stored_values self.old) + len < 2 ^ 64 }
        ensures ok { OnOk result (stored_values self.new ≡ stored_values self.old ++ values_or (zero_in self.old) rows.entry valid.now len) }
        ensures err { OnErr result (stored_values self.new ≡ stored_values self.old) }
        ensures memory { OnlyOutOfMemory result }
        ensures zero { zero_in self.new ≡ zero_in self.old }
        ensures stored { (st : StorageOf) → HaveStorage st self.old → HaveStorage st self.new }
    {
        match (self, rows) {
            (Values::Nulls(count), ArgumentRows::Nulls) => {
                *count += len;
                Ok(())
            }
            (Values::Bits(kept), ArgumentRows::Bits(bits)) => {
                push_bits(kept, alloc, bits, valid, len)
            }
            (Values::Integers(kept), ArgumentRows::Integers(integers)) => {
                push_integers(kept, alloc, integers, valid, len)
            }
            (Values::Decimals(kept, _), ArgumentRows::Decimals(decimals)) => {
                push_decimals(kept, alloc, decimals, valid, len)
            }
            (Values::Bytes(kept), ArgumentRows::Bytes(bytes)) => {
                push_bytes(kept, bytes, valid, len)
            }
            _ => unreachable!(),
        }
    }

    /// Returns the column of the values, which are of type `dtype`, without copying them; `validity` says which rows are null.
    /// Fails only with `OutOfMemory`.
    pub(super) fn finish(
        self,
        alloc: Global,
        dtype: &DType,
        validity: &Validity,
    ) -> VortexResult<Canonical>
        requires kind { HaveStorage (storage_of (type_of dtype.now)) self }
        requires typed { list_all (is_of (type_of dtype.now)) (stored_values self) ≡ true }
        requires sized { HasRows validity.now (length (stored_values self)) }
        ensures ok { IfOk result (λ c. IsColumnOf (storage_of (type_of dtype.now)) self validity.now (canonical_tree c)) }
        ensures err { OnlyOutOfMemory result }
    {
        match self {
            Values::Nulls(rows) => Ok(Canonical::Null(NullArray::new(alloc, rows)?)),
            Values::Bits(bits) => bool_column(alloc, bits.finish(alloc)?, validity),
            Values::Integers(values) => {
                primitive_column(alloc, values.into_values(alloc)?, validity)
            }
            Values::Decimals(values, _) => {
                let DType::Decimal(decimal, _) = dtype else {
                    unreachable!()
                };
                decimal_column(alloc, *decimal, values.into_values(alloc)?, validity)
            }
            Values::Bytes(rows) => {
                varbinview_column(alloc, dtype.storage(), rows.finish(alloc)?, validity)
            }
        }
    }
}
