//! Slices of canonical columns.

ghost use Rattle.std.specs.Prelude.{◌≡◌, ◌≤◌, IfOk};
ghost use Rattle.vx_value.specs.Errors.{OnlyOutOfMemory};
ghost use Rattle.vx_tree.specs.Tree.{len, slice_of};
ghost use Rattle.vx_tree.specs.Parts.{column_range};
ghost use Rattle.vx_tree.specs.Keeps.{KeepsExactly};
ghost use Rattle.vx_tree.specs.Canonicals.{canonical_tree};

use crate::arrays::null::NullArray;
use crate::canonical::canonical::Canonical;
use crate::canonical::composed::slice_composed;
use crate::canonical::flat::flat_slice;
use std::alloc::Global;
use std::ops::Range;
use vx_value::VortexResult;

/// Returns the rows of `column` in `range`, which must be in order and in bounds, as a column that shares its storage. Fails
/// only with `OutOfMemory`. (own)
pub fn slice_canonical(
    alloc: Global,
    column: &Canonical,
    range: Range<usize>,
) -> VortexResult<Canonical>
    requires { (range.start ≤ range.end) × (range.end ≤ len (canonical_tree column.now)) }
    ensures ok { IfOk result (λ c. KeepsExactly (slice_of range.start range.end (canonical_tree column.now)) (canonical_tree c)) }
    ensures range { IfOk result (λ c. canonical_tree c ≡ column_range range.start range.end (canonical_tree column.now)) }
    ensures err { OnlyOutOfMemory result }
{
    Ok(match column {
        Canonical::Null(column) => Canonical::Null(slice_nulls(alloc, column, range)?),
        Canonical::Bool(column) => Canonical::Bool(flat_slice(alloc, column, range)?),
        Canonical::Primitive(column) => Canonical::Primitive(flat_slice(alloc, column, range)?),
        Canonical::Decimal(column) => Canonical::Decimal(flat_slice(alloc, column, range)?),
        Canonical::VarBinView(column) => Canonical::VarBinView(flat_slice(alloc, column, range)?),
        Canonical::Struct(column) => Canonical::Struct(slice_composed(alloc, column, range)?),
        Canonical::Extension(column) => Canonical::Extension(slice_composed(alloc, column, range)?),
    })
}

/// Returns the rows of `column` in `range`, which must be in order and in bounds. Fails only with `OutOfMemory`.
fn slice_nulls(alloc: Global, column: &NullArray, range: Range<usize>) -> VortexResult<NullArray>
    requires { (range.start ≤ range.end) × (range.end ≤ len column.now) }
    ensures ok { IfOk result (λ a. KeepsExactly (slice_of range.start range.end column.now) a) }
    ensures range { IfOk result (λ a. a ≡ column_range range.start range.end column.now) }
    ensures err { OnlyOutOfMemory result }
{
    let _nulls = column.data();
    column.as_array().well_formed_tree();
    NullArray::new(alloc, range.end - range.start)
}
