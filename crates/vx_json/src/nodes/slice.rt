//! A lazy slice.

ghost use Rattle.std.specs.Prelude.{◌≡◌, ◌≤◌, Some, None, IfOk, IfErr};
ghost use Rattle.serde_json.specs.View.{view};
ghost use Rattle.vx_tree.specs.Tree.{len, slice_of};
ghost use Rattle.vx_json.specs.Refused.{IsRefused, IsRead};
ghost use Rattle.vx_json.specs.SpelledNodes.Slice.{slice_spelled};

use crate::BAD_VALUE;
use crate::fields::{check_keys, number};
use serde_json::Value;
use std::alloc::Global;
use std::ops::Range;
use vx_tree::{ArrayRef, IntoArray, SliceArray};
use vx_value::VortexResult;

/// Reads the range of a lazy slice of `child`, which must be in order and in bounds.
fn slice_rows(value: &Value, child: &ArrayRef) -> VortexResult<Range<usize>>
    ensures ok { IfOk result (λ rows. slice_spelled (view value.now) child.now ≡ Some (slice_of rows.start rows.end child.now)) }
    ensures within { IfOk result (λ rows. (rows.start ≤ rows.end) × (rows.end ≤ len child.now)) }
    ensures err { IfErr result (IsRefused (slice_spelled (view value.now) child.now ≡ None)) }
{
    check_keys(value, 4)?;
    let Some(start) = number(value, "start") else {
        return Err(BAD_VALUE);
    };
    let Some(stop) = number(value, "stop") else {
        return Err(BAD_VALUE);
    };
    if stop < start || stop > child.len() as u64 {
        return Err(BAD_VALUE);
    }
    Ok(start as usize..stop as usize)
}

/// Reads a lazy slice of `child`.
pub(crate) fn read(alloc: Global, value: &Value, child: ArrayRef) -> VortexResult<ArrayRef>
    ensures { IsRead (slice_spelled (view value.now) child) result }
{
    let rows = slice_rows(value, &child)?;
    Ok(SliceArray::new(alloc, child, rows)?.into_array())
}
