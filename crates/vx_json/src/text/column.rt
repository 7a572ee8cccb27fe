//! The text of a column.

ghost use Rattle.std.specs.Prelude.{◌≡◌, IfOk, IfErr, OnOk, string_bytes};
ghost use Rattle.vx_value.specs.Errors.{OnlyOutOfMemory};
ghost use Rattle.vx_tree.specs.Tree.{dtype, datum, id_of};
ghost use Rattle.vx_tree.specs.Cells.{rows};
ghost use Rattle.vx_tree.specs.Columns.{IsLawful};
ghost use Rattle.vx_tree.specs.Canonicals.{columnar_tree};
ghost use Rattle.vx_json.specs.Output.{AddsRows, Shows, IsUnread, head_lines};

use crate::text::lines::push_rows;
use crate::text::rows::push_row;
use std::alloc::Global;
use vx_column::{argument_of, execute_scalar};
use vx_tree::{ArrayRef, Columnar};
use vx_value::{VortexResult, type_text};

/// Returns the lines of the type and the encoding. Fails only with `OutOfMemory`.
fn head_text(alloc: Global, array: &ArrayRef) -> VortexResult<String>
    ensures ok { IfOk result (λ s. string_bytes s ≡ head_lines (dtype array.now) (id_of (datum array.now))) }
    ensures err { OnlyOutOfMemory result }
{
    let mut text = String::from_str(alloc, "type ")?;
    text.push_str(type_text(alloc, array.dtype())?.as_str())?;
    text.push_str("\nencoding ")?;
    text.push_str(array.encoding_id().as_str())?;
    text.push_str("\n")?;
    Ok(text)
}

/// Appends a line for each row of `array`, which are read one by one. `Fault` if a row has no value; `OutOfMemory`. Some of the lines
/// may have been appended.
fn push_each(alloc: Global, text: &mut String, array: &ArrayRef) -> VortexResult<()>
    ensures ok { OnOk result (AddsRows (dtype array.now) (rows array.now) (string_bytes text.old) (string_bytes text.new)) }
    ensures err { IfErr result (IsUnread array.now) }
{
    array.well_formed_tree();
    for index in 0..array.len() {
        let scalar = execute_scalar(alloc, array, index)?;
        push_row(text, &scalar)?;
        text.push('\n')?;
    }
    Ok(())
}

/// Appends a line for each row of `column`. Rows of nested types are read one by one. `Fault` if a row has no value; `OutOfMemory`. Some
/// of the lines may have been appended.
fn push_column(alloc: Global, text: &mut String, column: &Columnar) -> VortexResult<()>
    ensures ok { OnOk result (AddsRows (dtype (columnar_tree column.now)) (rows (columnar_tree column.now)) (string_bytes text.old) (string_bytes text.new)) }
    ensures err { IfErr result (IsUnread (columnar_tree column.now)) }
{
    let array = column.as_array();
    if array.dtype().is_nested() {
        return push_each(alloc, text, array);
    }
    array.well_formed_tree();
    let argument = argument_of(alloc, column)?;
    push_rows(text, &argument, array.len())
}

/// Returns the lines of the type and the encoding, and a line for each row. `Fault` only if a row has no value, because its
/// validity has none; `OutOfMemory`.
pub fn column_text(alloc: Global, column: &Columnar) -> VortexResult<String>
    ensures ok { IfOk result (λ s. Shows (dtype (columnar_tree column.now)) (id_of (datum (columnar_tree column.now))) (rows (columnar_tree column.now))
        (string_bytes s)) }
    ensures lawful { OnOk result (IsLawful (id_of (datum (columnar_tree column.now))) (dtype (columnar_tree column.now)) (rows (columnar_tree column.now))) }
    ensures err { IfErr result (IsUnread (columnar_tree column.now)) }
{
    let array = column.as_array();
    array.well_formed_tree();
    let mut text = head_text(alloc, array)?;
    // A row takes at least two bytes, so a column too long for memory is refused at once.
    text.reserve(array.len().saturating_mul(2))?;
    push_column(alloc, &mut text, column)?;
    Ok(text)
}
