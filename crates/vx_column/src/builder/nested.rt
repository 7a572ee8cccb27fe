//! Columns of a nested type, built of columns and scalars.

ghost use Rattle.std.specs.Prelude.{◌≡◌, ◌<◌, ◌+◌, ◌^◌, ◌++◌, ◌∷◌, [], true, replicate, IfOk, IfErr, OnOk, OnErr};
ghost use Rattle.std.specs.List.{All};
ghost use Rattle.vx_value.specs.Errors.{OnlyOutOfMemory};
ghost use Rattle.vx_value.specs.Types.{nullability_of};
ghost use Rattle.vx_value.specs.declared.dtype.Nullability.TheVariants.{Nullable};
ghost use Rattle.vx_value.specs.Values.{null};
ghost use Rattle.vx_value.specs.View.{type_of};
ghost use Rattle.vx_value.specs.Storage.{is_nested};
ghost use Rattle.vx_value.specs.Supported.{has_columns};
ghost use Rattle.vx_tree.specs.Tree.{dtype, len as len_of};
ghost use Rattle.vx_tree.specs.Cells.{rows, HasNoFault};
ghost use Rattle.vx_tree.specs.Canonicals.{canonical_tree, columnar_tree};
ghost use Rattle.vx_column.specs.Expanded.{expansion};
ghost use Rattle.vx_column.specs.Grown.{grown, grown_cells, count, none_of, open_piece, with_values, with_column, cells_read, IsGrown};
ghost use Rattle.vx_column.specs.Pieces.{columns_in, IsPieceOf, IsNoPiece};
ghost use Rattle.vx_column.specs.ValueColumns.{values_of, AreOf};

use crate::builder::columns::column_of;
use crate::builder::join::{Piece, join, piece_of};
use crate::canonicalize::constant_canonicalize;
use std::alloc::Global;
use std::marker::Model;
use vx_tree::{ArrayRef, Canonical, Columnar, IntoArray};
use vx_value::{DType, Scalar, VortexResult};

/// Builds a column of a nested type: the columns that were appended, and the scalars after them.
#[derive(Debug, Drop)]
pub(crate) struct NestedBuilder {
    dtype: DType,
    len: usize,
    pieces: Vec<Piece>,
    scalars: Vec<Scalar>,
}

impl Model for NestedBuilder {
    ghost use Rattle.vx_value.specs.View.{type_of};
    ghost use Rattle.vx_column.specs.Grown.{GrownRows, coded_grown};
    ghost use Rattle.vx_column.specs.KeptPieces.{pieces_kept, ArePieces};

    ghost Value = { GrownRows };

    ghost coded = { coded_grown };

    ghost view = { λ b. pieces_kept (type_of b.dtype) b.pieces.items b.scalars.items };

    ghost invariant = { λ b. ArePieces (type_of b.dtype) b.len b.pieces.items b.scalars.items };
}

impl NestedBuilder {
    /// Makes a builder of an empty column of type `dtype`, which must be nested and have columns.
    pub(crate) fn new(alloc: Global, dtype: DType) -> NestedBuilder
        requires nested { is_nested (type_of dtype) ≡ true }
        requires columns { has_columns (type_of dtype) ≡ true }
        ensures { result ≡ none_of (type_of dtype) }
    {
        NestedBuilder {
            dtype,
            len: 0,
            pieces: Vec::new(alloc),
            scalars: Vec::new(alloc),
        }
    }

    /// Returns the type of the rows.
    pub(crate) fn dtype(&self) -> &DType
        ensures dtype { type_of result.now ≡ self.now.of_type }
        ensures grown { IsGrown self.now }
    {
        &self.dtype
    }

    /// Returns the number of rows.
    pub(crate) fn len(&self) -> usize
        ensures { result ≡ count self.now }
    {
        self.len
    }

    /// Appends `scalar`, which must be of the type. Fails only with `OutOfMemory`; the builder is then unchanged.
    pub(crate) fn push(&mut self, scalar: &Scalar) -> VortexResult<()>
        requires typed { scalar.now.of_type ≡ self.old.of_type }
        requires fits { count self.old + 1 < 2 ^ 64 }
        ensures ok { OnOk result (self.new ≡ with_values self.old (scalar.now.value ∷ [])) }
        ensures err { OnErr result (self.new ≡ self.old) }
        ensures refused { OnlyOutOfMemory result }
    {
        let _value = scalar.value();
        self.scalars.push(scalar.clone()?)?;
        self.len += 1;
        Ok(())
    }

    /// Appends `more` nulls. The type must be nullable. Fails only with `OutOfMemory`; the builder is then unchanged.
    pub(crate) fn push_nulls(&mut self, more: usize) -> VortexResult<()>
        requires nullable { nullability_of self.old.of_type ≡ Nullable }
        requires fits { count self.old + more < 2 ^ 64 }
        ensures ok { OnOk result (self.new ≡ with_values self.old (replicate more null)) }
        ensures err { OnErr result (self.new ≡ self.old) }
        ensures refused { OnlyOutOfMemory result }
    {
        push_null_scalars(&mut self.scalars, &self.dtype, more)?;
        self.len += more;
        Ok(())
    }

    /// Appends the rows of `column`, which must be of the type. `Fault` if a row of its validity has no value. The builder is
    /// unchanged after an error.
    pub(crate) fn push_column(&mut self, alloc: Global, column: &Columnar) -> VortexResult<()>
        requires typed { dtype (columnar_tree column.now) ≡ self.old.of_type }
        requires fits { count self.old + len_of (columnar_tree column.now) < 2 ^ 64 }
        ensures ok { OnOk result (self.new ≡ with_column self.old (columnar_tree column.now)) }
        ensures err { OnErr result (self.new ≡ self.old) }
        ensures valid { OnOk result (HasNoFault (cells_read self.old.of_type (expansion (columnar_tree column.now)))) }
        ensures refused { IfErr result (IsNoPiece self.old.of_type (expansion (columnar_tree column.now))) }
    {
        let dtype = &self.dtype;
        column.as_array().well_formed_tree();
        let piece = piece_of(alloc, canonical(alloc, column)?)?;
        let mut more = last_piece(alloc, dtype, self.scalars.as_slice())?;
        more.push(piece)?;
        self.pieces.append(&mut more)?;
        self.scalars = Vec::new(alloc);
        self.len += column.len();
        Ok(())
    }

    /// Returns the rows as a column. Fails only with `OutOfMemory`.
    pub(crate) fn finish(self, alloc: Global) -> VortexResult<Canonical>
        ensures ok { IfOk result (λ c. canonical_tree c ≡ grown self) }
        ensures rows { IfOk result (λ c. rows (canonical_tree c) ≡ grown_cells self) }
        ensures err { OnlyOutOfMemory result }
    {
        let NestedBuilder {
            dtype,
            len,
            mut pieces,
            scalars,
        } = self;
        if pieces.is_empty() {
            return column_of(alloc, &dtype, scalars.as_slice());
        }
        pieces.append(&mut last_piece(alloc, &dtype, scalars.as_slice())?)?;
        join(alloc, &dtype, len, pieces.as_slice())
    }
}

/// Appends `more` nulls of type `dtype`, which must be nullable, to `scalars`. Fails only with `OutOfMemory`; the scalars are then
/// unchanged.
fn push_null_scalars(scalars: &mut Vec<Scalar>, dtype: &DType, more: usize) -> VortexResult<()>
    requires { nullability_of (type_of dtype.now) ≡ Nullable }
    ensures ok { OnOk result (scalars.new.items ≡ scalars.old.items ++ replicate more (record { of_type = type_of dtype.now; value = null })) }
    ensures err { OnErr result (scalars.new.items ≡ scalars.old.items) }
    ensures memory { OnlyOutOfMemory result }
{
    let before = scalars.len();
    scalars.reserve(more)?;
    for _ in 0..more {
        match dtype.clone() {
            Ok(dtype) => scalars.push_reserved(Scalar::null(dtype)),
            Err(e) => {
                scalars.truncate(before);
                return Err(e.into());
            }
        }
    }
    Ok(())
}

/// Returns the column of `scalars`, all of type `dtype`, which must be nested and have columns; no column if there are none. Fails
/// only with `OutOfMemory`.
fn last_piece(alloc: Global, dtype: &DType, scalars: &[Scalar]) -> VortexResult<Vec<Piece>>
    requires nested { is_nested (type_of dtype.now) ≡ true }
    requires columns { has_columns (type_of dtype.now) ≡ true }
    requires typed { AreOf (type_of dtype.now) scalars.now }
    ensures columns { IfOk result (λ ps. columns_in ps.items ≡ open_piece (type_of dtype.now) (values_of scalars.now)) }
    ensures pieces { IfOk result (λ ps. All (IsPieceOf (type_of dtype.now)) ps.items) }
    ensures err { OnlyOutOfMemory result }
{
    let mut pieces = Vec::new(alloc);
    if !scalars.is_empty() {
        let column = column_of(alloc, dtype, scalars)?.into_array();
        pieces.push(piece_of(alloc, column)?)?;
    }
    Ok(pieces)
}

/// Returns `column` as a canonical one. Fails only with `OutOfMemory`.
fn canonical(alloc: Global, column: &Columnar) -> VortexResult<ArrayRef>
    ensures ok { IfOk result (λ t. t ≡ expansion (columnar_tree column.now)) }
    ensures err { OnlyOutOfMemory result }
{
    match column {
        Columnar::Canonical(canonical) => Ok(canonical.as_array().clone()?),
        Columnar::Constant(constant) => {
            Ok(constant_canonicalize(alloc, constant.as_view())?.into_array())
        }
    }
}
