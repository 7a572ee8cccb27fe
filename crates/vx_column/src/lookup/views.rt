//! Rows of bytes gathered by their numbers.

ghost use Rattle.std.specs.Prelude.{◌≡◌, ◌<◌, ℕ, length, IfOk};
ghost use Rattle.vx_value.specs.Errors.{OnlyOutOfMemory};
ghost use Rattle.vx_tree.specs.Views.{viewed};
ghost use Rattle.vx_column.specs.Arguments.{AreBytes};
ghost use Rattle.vx_column.specs.LookedUp.{view_of, views_named, AreGatheredBytes};
ghost use Rattle.vx_column.specs.ValidRows.{HasValidity};

use crate::functions::kernel::byte_rows;
use crate::rows::{BytesOperand, BytesRows, ValidRows};
use std::alloc::Global;
use vx_tree::{BinaryViews, View};
use vx_value::{ByteBuffer, VortexResult};

/// Returns the rows of `bytes` at `places`, `len` of them, which share the data; no bytes in each row that isn't `valid`.
/// Repeats a single value. Fails only with `OutOfMemory`.
pub(crate) fn gather_bytes(
    alloc: Global,
    bytes: BytesOperand<'_>,
    places: &[u64],
    valid: &ValidRows,
    len: usize,
) -> VortexResult<BinaryViews>
    requires bytes { (n : ℕ) × AreBytes bytes n }
    requires places { length places.now ≡ len }
    requires valid { HasValidity valid.now len }
    ensures ok { IfOk result (AreGatheredBytes bytes.entry places.now valid.now len) }
    ensures err { OnlyOutOfMemory result }
{
    match bytes.rows {
        BytesRows::Value(_) => byte_rows(alloc, bytes, len),
        BytesRows::Rows(rows) if rows.is_empty() => {
            BinaryViews::repeat(alloc, ByteBuffer::empty(), len)
        }
        BytesRows::Rows(rows) => gather_views(alloc, rows, places, valid, len),
    }
}

/// Returns `rows`, of which there must be one, at `places`, `len` of them; a view of no bytes in each row that isn't `valid`.
/// Fails only with `OutOfMemory`.
fn gather_views(
    alloc: Global,
    rows: &BinaryViews,
    places: &[u64],
    valid: &ValidRows,
    len: usize,
) -> VortexResult<BinaryViews>
    requires rows { 0 < length rows.now.views }
    requires places { length places.now ≡ len }
    requires valid { HasValidity valid.now len }
    ensures ok { IfOk result (λ r. r ≡ viewed (views_named rows.now.views places.now valid.now len) rows.now.buffers) }
    ensures err { OnlyOutOfMemory result }
{
    let (views, _buffers) = rows.parts();
    let mut gathered = Vec::with_capacity(alloc, len)?;
    for index in 0..len {
        let is_valid = valid.is_valid(index);
        gathered.push_reserved(view_at(views, places[index] as usize, is_valid));
    }
    rows.with_views(alloc, gathered)
}

/// Returns the view at `place`; a view of no bytes if the row isn't `valid` or the place is past the last one.
#[inline]
fn view_at(views: &[View], place: usize, valid: bool) -> View
    ensures { result ≡ view_of views.now valid place }
{
    if !valid {
        return View {
            buffer: 0,
            start: 0,
            size: 0,
        };
    }
    match views.get(place) {
        Some(view) => *view,
        None => View {
            buffer: 0,
            start: 0,
            size: 0,
        },
    }
}
