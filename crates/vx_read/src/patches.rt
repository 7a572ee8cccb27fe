//! Exceptions to an array's rows.

ghost use Rattle.std.specs.Prelude.{◌≡◌, length, map, option_map, slice_get};
ghost use Rattle.vx_read.specs.PatchChildren.{children_of, child_names};

use vx_tree::ArrayRef;

/// Exceptions to the rows of an array: the row at each of `indices` has the value at the same place of `values`.
#[derive(Clone, Debug, Drop)]
pub struct Patches {
    /// The number of rows of the array.
    pub array_len: usize,
    /// What is subtracted from each index.
    pub offset: usize,
    pub indices: ArrayRef,
    /// As many rows as `indices`.
    pub values: ArrayRef,
    /// For each chunk of the array's rows, the place in `indices` at which the chunk's patches begin.
    pub chunk_offsets: Option<ArrayRef>,
}

/// Returns the number of arrays that `patches` hold: 2, or 3 with offsets of chunks.
pub fn patches_nchildren(patches: &Patches) -> usize
    ensures { result ≡ length (children_of patches.now) }
{
    match patches.chunk_offsets {
        Some(_) => 3,
        None => 2,
    }
}

/// Returns array `index`, counted from 0: the indices, the values, then the offsets of chunks, if there are any. `None` past the
/// last.
pub fn patches_child(patches: &Patches, index: usize) -> Option<&ArrayRef>
    ensures { option_map (λ c. c.now) result ≡ slice_get (children_of patches.now) index }
{
    match index {
        0 => Some(&patches.indices),
        1 => Some(&patches.values),
        2 => patches.chunk_offsets.as_ref(),
        _ => None,
    }
}

/// Returns the name of array `index`, counted from 0: `patch_indices`, `patch_values`, `patch_chunk_offsets`. `None` past the
/// last name.
pub fn patches_child_name(index: usize) -> Option<&'static str>
    ensures { option_map (λ s. s.now) result ≡ slice_get child_names index }
{
    match index {
        0 => Some("patch_indices"),
        1 => Some("patch_values"),
        2 => Some("patch_chunk_offsets"),
        _ => None,
    }
}
