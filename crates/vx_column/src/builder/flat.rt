//! Columns of a type that isn't nested, built row by row.

ghost use Rattle.std.specs.Prelude.{◌≡◌, ◌+◌, ◌<◌, ◌^◌, ◌∷◌, [], true, false, length, map, replicate, IsTrue, IfOk, IfErr, OnOk, OnErr};
ghost use Rattle.std.specs.List.{list_all};
ghost use Rattle.vx_value.specs.Errors.{OnlyOutOfMemory};
ghost use Rattle.vx_value.specs.Types.{nullability_of};
ghost use Rattle.vx_value.specs.declared.dtype.Nullability.TheVariants.{Nullable};
ghost use Rattle.vx_value.specs.Values.{null};
ghost use Rattle.vx_value.specs.View.{type_of};
ghost use Rattle.vx_value.specs.Storage.{is_nested};
ghost use Rattle.vx_value.specs.Cell.{value};
ghost use Rattle.vx_value.specs.IsOf.{is_of};
ghost use Rattle.vx_tree.specs.Tree.{dtype, len as len_of};
ghost use Rattle.vx_tree.specs.Cells.{rows, HasNoFault};
ghost use Rattle.vx_tree.specs.Canonicals.{canonical_tree, columnar_tree};
ghost use Rattle.vx_column.specs.Arguments.{IsSized, IsUnread, type_of_argument};
ghost use Rattle.vx_column.specs.Growing.{values_or, IsNullConstant};
ghost use Rattle.vx_column.specs.Built.{appended, values_in, built};

use crate::builder::rows::know_rows;
use crate::builder::validity::ValidityBuilder;
use crate::builder::values::Values;
use crate::rows::{Argument, argument_of};
use std::alloc::Global;
use std::marker::Model;
use vx_tree::{ArrayKind, Canonical, Columnar};
use vx_value::{DType, Scalar, VortexResult};

/// Builds a column of a type that isn't nested.
///
/// Allocates as a `Vec` does: room for `capacity` rows up front, then for twice as many whenever it is full. Nulls take bits
/// only from the first one on.
#[derive(Debug, Drop)]
pub(crate) struct FlatBuilder {
    dtype: DType,
    len: usize,
    values: Values,
    validity: ValidityBuilder,
}

impl Model for FlatBuilder {
    ghost use Rattle.vx_value.specs.View.{type_of};
    ghost use Rattle.vx_column.specs.Built.{TypedRows, coded_rows};

    ghost Value = { TypedRows };

    ghost coded = { coded_rows };

    ghost use Rattle.vx_column.specs.Growing.{rows_kept, IsKept};

    ghost view = { λ b. record { of_type = type_of b.dtype; values = rows_kept b.values b.validity } };

    ghost invariant = { λ b. IsKept (type_of b.dtype) b.len b.values b.validity };
}

impl FlatBuilder {
    /// Makes a builder of an empty column of type `dtype`, which must not be nested, with room for `capacity` rows. Fails only
    /// with `OutOfMemory`.
    pub(crate) fn with_capacity(
        alloc: Global,
        dtype: DType,
        capacity: usize,
    ) -> VortexResult<FlatBuilder>
        requires { is_nested (type_of dtype) ≡ false }
        ensures ok { IfOk result (λ b. b ≡ record { of_type = type_of dtype; values = [] }) }
        ensures err { OnlyOutOfMemory result }
    {
        let values = Values::with_capacity(alloc, &dtype, capacity)?;
        Ok(FlatBuilder {
            dtype,
            len: 0,
            values,
            validity: ValidityBuilder::new(alloc),
        })
    }

    /// Returns the type of the rows, which isn't nested.
    pub(crate) fn dtype(&self) -> &DType
        ensures dtype { type_of result.now ≡ self.now.of_type }
        ensures typed { list_all (is_of self.now.of_type) self.now.values ≡ true }
        ensures unnested { is_nested self.now.of_type ≡ false }
    {
        let _values = &self.values;
        &self.dtype
    }

    /// Returns the number of rows.
    pub(crate) fn len(&self) -> usize
        ensures { result ≡ length self.now.values }
    {
        self.len
    }

    /// Appends `scalar`, which must be of the type. Fails only with `OutOfMemory`; the builder is then unchanged.
    pub(crate) fn push(&mut self, scalar: &Scalar) -> VortexResult<()>
        requires typed { scalar.now.of_type ≡ self.old.of_type }
        requires fits { length self.old.values + 1 < 2 ^ 64 }
        ensures ok { OnOk result (self.new ≡ appended self.old (scalar.now.value ∷ [])) }
        ensures err { OnErr result (self.new ≡ self.old) }
        ensures refused { OnlyOutOfMemory result }
    {
        match scalar.value() {
            Some(value) => {
                self.values.push(value)?;
                self.len += 1;
                Ok(())
            }
            None => self.push_nulls(1),
        }
    }

    /// Appends the rows of `column`, which must be of the type. Copies the values of a column in runs and those of a constant in
    /// one pass; text and bytes row by row. `Fault` if a row has no value. The builder is unchanged after an error.
    pub(crate) fn push_column(&mut self, alloc: Global, column: &Columnar) -> VortexResult<()>
        requires typed { dtype (columnar_tree column.now) ≡ self.old.of_type }
        requires fits { length self.old.values + len_of (columnar_tree column.now) < 2 ^ 64 }
        ensures ok { OnOk result (self.new ≡ appended self.old (values_in (rows (columnar_tree column.now)))) }
        ensures err { OnErr result (self.new ≡ self.old) }
        ensures valid { OnOk result (HasNoFault (rows (columnar_tree column.now))) }
        ensures refused { IfErr result (IsUnread (columnar_tree column.now)) }
    {
        let _dtype = self.dtype();
        if is_null_constant(column) {
            return self.push_nulls(column.len());
        }
        column.as_array().well_formed_tree();
        match argument_of(alloc, column) {
            Ok(argument) => self.push_argument(alloc, &argument, column.len()),
            Err(e) => Err(e),
        }
    }

    /// Appends `count` nulls. The type must be nullable. Fails only with `OutOfMemory`; the builder is then unchanged.
    pub(crate) fn push_nulls(&mut self, count: usize) -> VortexResult<()>
        requires nullable { nullability_of self.old.of_type ≡ Nullable }
        requires fits { length self.old.values + count < 2 ^ 64 }
        ensures ok { OnOk result (self.new ≡ appended self.old (replicate count null)) }
        ensures err { OnErr result (self.new ≡ self.old) }
        ensures refused { OnlyOutOfMemory result }
    {
        if let Values::Nulls(rows) = &mut self.values {
            *rows += count;
            self.len += count;
            return Ok(());
        }
        let told = self.validity.len();
        self.validity.push_nulls(self.len, count)?;
        if let Err(e) = self.values.push_zeros(count) {
            self.validity.truncate(told);
            return Err(e);
        }
        self.len += count;
        Ok(())
    }

    /// Appends the rows of `argument`, `len` of the builder's type. Fails only with `OutOfMemory`; the builder is then unchanged.
    fn push_argument(
        &mut self,
        alloc: Global,
        argument: &Argument<'_>,
        len: usize,
    ) -> VortexResult<()>
        requires typed { self.old.of_type ≡ type_of_argument argument.now }
        requires sized { IsSized len argument.now }
        requires fits { length self.old.values + len < 2 ^ 64 }
        ensures ok { OnOk result (self.new ≡ appended self.old (values_or null argument.now.rows argument.now.valid len)) }
        ensures err { OnErr result (self.new ≡ self.old) }
        ensures refused { OnlyOutOfMemory result }
    {
        know_rows(argument.rows, len);
        let before = self.validity.len();
        self.validity.push_valid(self.len, &argument.valid, len)?;
        if let Err(e) = self
            .values
            .push_rows(alloc, argument.rows, &argument.valid, len)
        {
            self.validity.truncate(before);
            return Err(e);
        }
        self.len += len;
        Ok(())
    }

    /// Returns the rows as a column, without copying them. Its validity has one form for given rows: `NonNullable` or
    /// `AllValid` if no row is null, `AllInvalid` if there is a row and all are null. Fails only with `OutOfMemory`.
    pub(crate) fn finish(self, alloc: Global) -> VortexResult<Canonical>
        ensures ok { IfOk result (λ c. canonical_tree c ≡ built self) }
        ensures rows { IfOk result (λ c. rows (canonical_tree c) ≡ map (λ v. value v) self.values) }
        ensures err { OnlyOutOfMemory result }
    {
        let FlatBuilder {
            dtype,
            len,
            values,
            validity,
        } = self;
        let valid = validity.finish(alloc, len, dtype.nullability())?;
        let validity = valid.validity(alloc, len)?;
        values.finish(alloc, &dtype, &validity)
    }
}

/// Returns whether `column` is a constant of null, or of type `Null`.
fn is_null_constant(column: &Columnar) -> bool
    ensures { IsTrue result → IsNullConstant (columnar_tree column.now) }
{
    match column.as_array().kind() {
        ArrayKind::Null => true,
        ArrayKind::Constant(scalar) => scalar.is_null(),
        _ => false,
    }
}
