//! Columns appended to builders.

ghost use Rattle.std.specs.Prelude.{◌≡◌, None, IfErr, OnOk, OnErr};
ghost use Rattle.vx_tree.specs.Cells.{HasNoFault};
ghost use Rattle.vx_tree.specs.Canonicals.{columnar_tree};
ghost use Rattle.vx_column.specs.Expanded.{expansion};
ghost use Rattle.vx_column.specs.Grown.{with_column, cells_read, column_refusal, IsUnappended};

use std::alloc::Global;
use vx_column::Builder;
use vx_tree::Columnar;
use vx_value::VortexResult;

/// Appends the rows of `column` to `builder`, which is unchanged after an error.
///
/// The first condition that fails gives the error: `InvalidArgument` with `BadType` exactly if `column` isn't of the builder's
/// type, nullability included, then `TooLong` exactly if there would be more than `usize::MAX` rows, then `Fault` exactly if a row
/// that is read has no value: of a nested type, one of the validity alone. Otherwise the only error is `OutOfMemory`.
pub fn append_to_builder(
    alloc: Global,
    column: &Columnar,
    builder: &mut Builder,
) -> VortexResult<()>
    ensures ok { OnOk result (builder.new ≡ with_column builder.old (columnar_tree column.now)) }
    ensures err { OnErr result (builder.new ≡ builder.old) }
    ensures valid { OnOk result ((column_refusal builder.old (columnar_tree column.now) ≡ None)
        × HasNoFault (cells_read builder.old.of_type (expansion (columnar_tree column.now)))) }
    ensures refused { IfErr result (IsUnappended builder.old (columnar_tree column.now)) }
{
    builder.append_column(alloc, column)
}
