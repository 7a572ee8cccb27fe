//! Columns built row by row.

ghost use Rattle.std.specs.Prelude.{◌≡◌, ◌⊎◌, ◌↔◌, ◌∷◌, [], true, replicate, Some, None, IsTrue, IfOk, IfErr, OnOk, OnErr, MatchResult};
ghost use Rattle.vx_value.specs.Errors.{OnlyOutOfMemory};
ghost use Rattle.vx_value.specs.Values.{null};
ghost use Rattle.vx_value.specs.View.{type_of};
ghost use Rattle.vx_value.specs.Supported.{has_columns};
ghost use Rattle.vx_tree.specs.Cells.{rows, HasNoFault};
ghost use Rattle.vx_tree.specs.Canonicals.{canonical_tree, columnar_tree};
ghost use Rattle.vx_column.specs.Built.{length_refusal};
ghost use Rattle.vx_column.specs.Expanded.{expansion};
ghost use Rattle.vx_column.specs.Grown.{GrownRows, grown, grown_cells, count, none_of, with_values, with_column, cells_read, IsGrown, type_refusal, scalar_refusal, more_nulls_refusal, column_refusal, IsUnappended};

mod columns;
mod flat;
mod join;
mod nested;
mod rows;
mod validity;
mod values;

use flat::FlatBuilder;
use nested::NestedBuilder;
use std::alloc::Global;
use std::marker::Model;
use vx_tree::{Canonical, Columnar};
use vx_value::{ArgKind, DType, Scalar, VortexError, VortexResult};

/// Builds a column row by row. (own)
///
/// Of a type that isn't nested, allocates as a `Vec` does: room for `capacity` rows up front, then for twice as many whenever it
/// is full. Nulls take bits only from the first one on. Of a nested type, keeps the columns that are appended, without copying
/// their rows, and the scalars after them.
#[derive(Debug, Drop)]
pub struct Builder {
    rows: KeptRows,
}

/// The rows, by how they are kept.
#[derive(Debug, Drop)]
enum KeptRows {
    Flat(FlatBuilder),
    Nested(NestedBuilder),
}

impl Model for Builder {
    ghost use Rattle.vx_column.specs.Grown.{GrownRows, coded_grown};
    ghost use Rattle.vx_column.specs.Kept.{rows_in};

    ghost Value = { GrownRows };

    ghost coded = { coded_grown };

    ghost view = { λ b. rows_in b.rows };
}

impl Builder {
    /// Makes a builder of an empty column of type `dtype`, which must have columns, with room for `capacity` rows. Fails only
    /// with `OutOfMemory`.
    pub fn with_capacity(alloc: Global, dtype: DType, capacity: usize) -> VortexResult<Builder>
        requires { has_columns (type_of dtype) ≡ true }
        ensures ok { IfOk result (λ b. b ≡ none_of (type_of dtype)) }
        ensures err { OnlyOutOfMemory result }
    {
        let rows = if dtype.is_nested() {
            KeptRows::Nested(NestedBuilder::new(alloc, dtype))
        } else {
            KeptRows::Flat(FlatBuilder::with_capacity(alloc, dtype, capacity)?)
        };
        Ok(Builder { rows })
    }

    /// Returns the type of the rows.
    pub fn dtype(&self) -> &DType
        ensures dtype { type_of result.now ≡ self.now.of_type }
        ensures grown { IsGrown self.now }
    {
        match &self.rows {
            KeptRows::Flat(rows) => {
                let _len = rows.len();
                rows.dtype()
            }
            KeptRows::Nested(rows) => rows.dtype(),
        }
    }

    /// Returns the number of rows.
    pub fn len(&self) -> usize
        ensures { result ≡ count self.now }
    {
        match &self.rows {
            KeptRows::Flat(rows) => rows.len(),
            KeptRows::Nested(rows) => rows.len(),
        }
    }

    /// Returns whether there are no rows.
    pub fn is_empty(&self) -> bool
        ensures { IsTrue result ↔ (count self.now ≡ 0) }
    {
        self.len() == 0
    }

    /// Appends a row, `scalar`. The builder is unchanged after an error.
    ///
    /// The first condition that fails gives the error: `InvalidArgument` with `BadType` exactly if `scalar` isn't of the
    /// builder's type, nullability included, then `TooLong` exactly if there are `usize::MAX` rows. Otherwise the only error is
    /// `OutOfMemory`.
    pub fn append_scalar(&mut self, scalar: &Scalar) -> VortexResult<()>
        ensures ok { OnOk result (self.new ≡ with_values self.old (scalar.now.value ∷ [])) }
        ensures err { OnErr result (self.new ≡ self.old) }
        ensures valid { OnOk result (scalar_refusal self.old scalar.now ≡ None) }
        ensures refused { IfErr result (λ e. (e ≡ VortexError.OutOfMemory) ⊎ (scalar_refusal self.old scalar.now ≡ Some e)) }
    {
        self.check_type(scalar.dtype())?;
        self.check_len(1)?;
        match &mut self.rows {
            KeptRows::Flat(rows) => rows.push(scalar),
            KeptRows::Nested(rows) => rows.push(scalar),
        }
    }

    /// Appends `count` nulls. The builder is unchanged after an error.
    ///
    /// The first condition that fails gives the error: `InvalidArgument` with `BadType` exactly if `count` isn't 0 and the
    /// builder's type isn't nullable, then `TooLong` exactly if there would be more than `usize::MAX` rows. Otherwise the only
    /// error is `OutOfMemory`.
    pub fn append_nulls(&mut self, count: usize) -> VortexResult<()>
        ensures ok { OnOk result (self.new ≡ with_values self.old (replicate count null)) }
        ensures err { OnErr result (self.new ≡ self.old) }
        ensures valid { OnOk result (more_nulls_refusal self.old count ≡ None) }
        ensures refused { IfErr result (λ e. (e ≡ VortexError.OutOfMemory) ⊎ (more_nulls_refusal self.old count ≡ Some e)) }
    {
        if count == 0 {
            return Ok(());
        }
        if !self.dtype().is_nullable() {
            return Err(VortexError::InvalidArgument(ArgKind::BadType));
        }
        self.check_len(count)?;
        match &mut self.rows {
            KeptRows::Flat(rows) => rows.push_nulls(count),
            KeptRows::Nested(rows) => rows.push_nulls(count),
        }
    }

    /// Appends the rows of `column`. Of a type that isn't nested, copies the values of a column in runs and those of a constant in
    /// one pass; text and bytes row by row. Of a nested type, reads the column's validity alone. The builder is unchanged after an
    /// error.
    ///
    /// The first condition that fails gives the error: `InvalidArgument` with `BadType` exactly if `column` isn't of the
    /// builder's type, nullability included, then `TooLong` exactly if there would be more than `usize::MAX` rows, then `Fault`
    /// exactly if a row that is read has no value. Otherwise the only error is `OutOfMemory`.
    pub fn append_column(&mut self, alloc: Global, column: &Columnar) -> VortexResult<()>
        ensures ok { OnOk result (self.new ≡ with_column self.old (columnar_tree column.now)) }
        ensures err { OnErr result (self.new ≡ self.old) }
        ensures valid { OnOk result ((column_refusal self.old (columnar_tree column.now) ≡ None)
            × HasNoFault (cells_read self.old.of_type (expansion (columnar_tree column.now)))) }
        ensures refused { IfErr result (IsUnappended self.old (columnar_tree column.now)) }
    {
        column.as_array().well_formed_tree();
        self.check_type(column.dtype())?;
        self.check_len(column.len())?;
        match &mut self.rows {
            KeptRows::Flat(rows) => {
                let _dtype = rows.dtype();
                rows.push_column(alloc, column)
            }
            KeptRows::Nested(rows) => rows.push_column(alloc, column),
        }
    }

    /// Checks that `dtype` is the type of the rows.
    fn check_type(&self, dtype: &DType) -> VortexResult<()>
        ensures { MatchResult result (λ _. type_refusal self.now (type_of dtype.now) ≡ None) (λ e. type_refusal self.now (type_of dtype.now) ≡ Some e) }
    {
        if dtype == self.dtype() {
            Ok(())
        } else {
            Err(VortexError::InvalidArgument(ArgKind::BadType))
        }
    }

    /// Checks that `more` rows don't overflow the number of rows.
    fn check_len(&self, more: usize) -> VortexResult<()>
        ensures { MatchResult result (λ _. length_refusal (count self.now) more ≡ None) (λ e. length_refusal (count self.now) more ≡ Some e) }
    {
        let len = self.len();
        if more > usize::MAX - len {
            return Err(VortexError::TooLong { len, factor: more });
        }
        Ok(())
    }

    /// Returns the rows as a column, without copying those of columns of a nested type. Its validity has one form for given rows:
    /// `NonNullable` or `AllValid` if no row is null, `AllInvalid` if there is a row and all are null. Fails only with
    /// `OutOfMemory`.
    pub fn finish(self, alloc: Global) -> VortexResult<Canonical>
        ensures ok { IfOk result (λ c. canonical_tree c ≡ grown self) }
        ensures rows { IfOk result (λ c. rows (canonical_tree c) ≡ grown_cells self) }
        ensures err { OnlyOutOfMemory result }
    {
        match self.rows {
            KeptRows::Flat(rows) => {
                let _dtype = rows.dtype();
                rows.finish(alloc)
            }
            KeptRows::Nested(rows) => rows.finish(alloc),
        }
    }
}
