//! Columns of a nested type joined to one.

ghost use Rattle.std.specs.Prelude.{◌≡◌, ◌<◌, ◌^◌, length, map, sum, true, Some, IfOk, IfErr, slice_get};
ghost use Rattle.std.specs.List.{All};
ghost use Rattle.vx_value.specs.Errors.{OnlyOutOfMemory};
ghost use Rattle.vx_value.specs.Types as type;
ghost use Rattle.vx_value.specs.Types.{nullability_of};
ghost use Rattle.vx_value.specs.View.{type_of, fields_of};
ghost use Rattle.vx_value.specs.Supported.{has_columns};
ghost use Rattle.vx_tree.specs.Tree.{dtype, len as len_of, datum, is_composed, slots};
ghost use Rattle.vx_tree.specs.Canonicals.{canonical_tree};
ghost use Rattle.vx_tree.specs.Validities.{child_by};
ghost use Rattle.vx_tree.specs.Well.{shapes, shape};
ghost use Rattle.vx_column.specs.Joined.{joined, joined_slot, slot_of_each, all_valid};
ghost use Rattle.vx_column.specs.Pieces.{columns_in, own_validity, IsPieceOf, IsNoPiece};
ghost use Rattle.vx_column.specs.Arguments.{AreUnread};
ghost use Rattle.vx_column.specs.ValidRows.{AreTold, HasValidity, TellsRows, child_in, nullability_in};

use crate::builder::validity::ValidityBuilder;
use crate::canonicalize::composed_column;
use crate::rows::{ValidRows, truths_in};
use std::alloc::Global;
use vx_tree::{
    ArrayKind, ArrayRef, Canonical, ChunkedArray, IntoArray, Layout, struct_slots,
    validity_to_child,
};
use vx_value::{DType, Field, Nullability, VortexResult};

/// A column of a nested type, and which of its rows aren't null by a validity of its own.
#[derive(Debug, Drop)]
pub(super) struct Piece {
    pub(super) column: ArrayRef,
    pub(super) valid: ValidRows,
}

/// Reads the validity of `column`, which must be of a nested type, if it has one of its own. `Fault` if a row of the validity has
/// no value.
#[tactic(auto, using(crate::proofs::PiecesLemmas::piece_told))]
pub(super) fn piece_of(alloc: Global, column: ArrayRef) -> VortexResult<Piece>
    requires { is_composed (datum column) ≡ true }
    ensures column { IfOk result (λ p. p.column ≡ column) }
    ensures ok { IfOk result (IsPieceOf (dtype column)) }
    ensures err { IfErr result (IsNoPiece (dtype column) column) }
{
    column.well_formed_tree();
    let valid = told_valid(alloc, &column)?;
    Ok(Piece { column, valid })
}

/// Returns which rows of `column` aren't null by a validity of its own; all if it has none.
fn told_valid(alloc: Global, column: &ArrayRef) -> VortexResult<ValidRows>
    requires { is_composed (datum column.now) ≡ true }
    ensures ok { IfOk result (AreTold (len_of column.now) (own_validity (dtype column.now) column.now)) }
    ensures sized { IfOk result (λ v. HasValidity v (len_of column.now)) }
    ensures nullability { IfOk result (λ v. nullability_in v ≡ nullability_of (dtype column.now)) }
    ensures err { IfErr result (IsNoPiece (dtype column.now) column.now) }
{
    column.well_formed_tree();
    match column.kind() {
        ArrayKind::Composed(Layout::Struct, slots) => {
            let (_, validity) = struct_slots(slots);
            told_by(alloc, column, validity)
        }
        ArrayKind::Composed(Layout::Extension, _) => {
            Ok(ValidRows::All(column.dtype().nullability()))
        }
        _ => unreachable!(),
    }
}

/// Returns which rows of `column` its own `validity` says aren't null. `Fault` if a row of `validity` has no value.
fn told_by(alloc: Global, column: &ArrayRef, validity: &Option<ArrayRef>) -> VortexResult<ValidRows>
    requires { TellsRows (nullability_of (dtype column.now)) (len_of column.now) validity.now }
    ensures ok { IfOk result (AreTold (len_of column.now) validity.now) }
    ensures sized { IfOk result (λ v. HasValidity v (len_of column.now)) }
    ensures nullability { IfOk result (λ v. nullability_in v ≡ nullability_of (dtype column.now)) }
    ensures err { IfErr result (AreUnread (len_of column.now) validity.now) }
{
    let Some(child) = validity else {
        return Ok(ValidRows::All(column.dtype().nullability()));
    };
    match truths_in(alloc, child) {
        Ok(bits) => Ok(ValidRows::Bits(bits)),
        Err(e) => Err(e),
    }
}

/// Returns the column of type `dtype` of the rows of all `pieces`, of which there must be one, `len` of them. Each slot is that
/// of the one piece, or has those of all as its chunks. Fails only with `OutOfMemory`.
pub(super) fn join(
    alloc: Global,
    dtype: &DType,
    len: usize,
    pieces: &[Piece],
) -> VortexResult<Canonical>
    requires pieces { All (IsPieceOf (type_of dtype.now)) pieces.now }
    requires columns { has_columns (type_of dtype.now) ≡ true }
    requires some { 0 < length pieces.now }
    requires counted { len ≡ sum (map len_of (columns_in pieces.now)) }
    ensures ok { IfOk result (λ c. canonical_tree c ≡ joined (type_of dtype.now) (columns_in pieces.now)) }
    ensures err { OnlyOutOfMemory result }
{
    match dtype {
        DType::Struct(fields, nullability) => {
            join_structs(alloc, dtype, fields.as_slice(), *nullability, len, pieces)
        }
        DType::Extension(extension) => {
            let storage = join_slot(alloc, extension.storage(), pieces, 0)?;
            let slots = vec![in alloc; Some(storage)]?;
            composed_column(alloc, Layout::Extension, dtype.clone()?, len, slots)
        }
        _ => unreachable!(),
    }
}

/// Does the same for structs with these `fields`.
fn join_structs(
    alloc: Global,
    dtype: &DType,
    fields: &[Field],
    nullability: Nullability,
    len: usize,
    pieces: &[Piece],
) -> VortexResult<Canonical>
    requires structs { type_of dtype.now ≡ type.struct (fields_of fields.now) nullability }
    requires pieces { All (IsPieceOf (type_of dtype.now)) pieces.now }
    requires columns { has_columns (type_of dtype.now) ≡ true }
    requires counted { len ≡ sum (map len_of (columns_in pieces.now)) }
    ensures ok { IfOk result (λ c. canonical_tree c ≡ joined (type_of dtype.now) (columns_in pieces.now)) }
    ensures err { OnlyOutOfMemory result }
{
    let mut slots = Vec::with_capacity(alloc, fields.len() + 1)?;
    for i in 0..fields.len() {
        slots.push(Some(join_slot(alloc, &fields[i].dtype, pieces, i)?))?;
    }
    let valid = valid_in(alloc, nullability, len, pieces)?;
    slots.push(validity_to_child(alloc, &valid.validity(alloc, len)?, len)?)?;
    composed_column(alloc, Layout::Struct, dtype.clone()?, len, slots)
}

/// Returns which rows of all `pieces` aren't null. Fails only with `OutOfMemory`.
fn valid_in(
    alloc: Global,
    nullability: Nullability,
    len: usize,
    pieces: &[Piece],
) -> VortexResult<ValidRows>
    requires structs { (fs : type.Fields) × All (IsPieceOf (type.struct fs nullability)) pieces.now }
    requires counted { len ≡ sum (map len_of (columns_in pieces.now)) }
    ensures ok { IfOk result (λ valid. child_in valid ≡ child_by (all_valid (columns_in pieces.now))) }
    ensures sized { IfOk result (λ valid. HasValidity valid len) }
    ensures nullability { IfOk result (λ valid. nullability_in valid ≡ nullability) }
    ensures err { OnlyOutOfMemory result }
{
    let mut valid = ValidityBuilder::new(alloc);
    let mut rows = 0;
    for piece in pieces {
        let more = piece.column.len();
        valid.push_valid(rows, &piece.valid, more)?;
        rows += more;
    }
    Ok(valid.finish(alloc, len, nullability)?)
}

/// Returns the rows of slot `index`, of type `dtype`, of all `pieces`: the tree of the one, or those of all as chunks. Fails only
/// with `OutOfMemory`.
fn join_slot(alloc: Global, dtype: &DType, pieces: &[Piece], index: usize) -> VortexResult<ArrayRef>
    requires slots { All (λ p. slice_get (shapes (slots p.column)) index ≡ Some (Some (shape (type_of dtype.now) (len_of p.column)))) pieces.now }
    requires columns { has_columns (type_of dtype.now) ≡ true }
    requires fits { sum (map len_of (columns_in pieces.now)) < 2 ^ 64 }
    ensures ok { IfOk result (λ t. t ≡ joined_slot (type_of dtype.now) (slot_of_each index (columns_in pieces.now))) }
    ensures err { OnlyOutOfMemory result }
{
    let mut trees = slots_of(alloc, pieces, index)?;
    if trees.len() == 1 {
        let Some(tree) = trees.pop() else {
            unreachable!()
        };
        return Ok(tree);
    }
    Ok(ChunkedArray::try_new(alloc, trees, dtype.clone()?)?.into_array())
}

/// Returns the tree in slot `index` of each of `pieces`.
fn slots_of(alloc: Global, pieces: &[Piece], index: usize) -> VortexResult<Vec<ArrayRef>>
    requires { All (λ p. (t : type.DataType) × (slice_get (shapes (slots p.column)) index ≡ Some (Some (shape t (len_of p.column))))) pieces.now }
    ensures ok { IfOk result (λ ts. ts.items ≡ slot_of_each index (columns_in pieces.now)) }
    ensures err { OnlyOutOfMemory result }
{
    let mut trees = Vec::with_capacity(alloc, pieces.len())?;
    for piece in pieces {
        let Some(tree) = &piece.column.slots()[index] else {
            unreachable!()
        };
        trees.push(tree.clone()?)?;
    }
    Ok(trees)
}
