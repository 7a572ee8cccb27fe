//! Dictionaries whose values are the child: the rows D1 and D2.

ghost use Rattle.std.specs.Prelude.{◌≡◌, Some};
ghost use Rattle.vx_tree.specs.Tree.{dict_of};
ghost use Rattle.vx_rule.specs.Answers.{Answers};

use crate::raw_node::RawNode;
use crate::rule::ArrayParentReduceRule;
use std::alloc::Global;
use vx_tree::{ArrayKind, ArrayRef, ArrayView, Dict, VTable};
use vx_value::VortexResult;

/// Encodings that have a row for a dictionary of which they are the values.
pub trait TakeReduce: VTable {
    /// Returns the answer for `parent`, the dictionary of the values `array` by `codes`: `None` exactly if no row fits. Fails
    /// only with `OutOfMemory`.
    fn take(
        alloc: Global,
        array: &ArrayView<'_, Self>,
        parent: &ArrayRef,
        codes: &ArrayRef,
    ) -> VortexResult<Option<RawNode>>
        requires dict { parent.now ≡ dict_of codes.now array.now.array.now }
        ensures { Answers (Some 1) parent.now result };
}

/// The rule of `V` for a dictionary above it. Answers only for the values.
#[derive(Debug, Default, Drop)]
pub struct TakeReduceAdaptor<V>(pub V);

impl<V: TakeReduce> ArrayParentReduceRule<V> for TakeReduceAdaptor<V> {
    type Parent = Dict;

    #[tactic(auto, using(crate::proofs::QuietLemmas::codes_quiet, crate::proofs::CallsLemmas::values_of))]
    fn reduce_parent(
        &self,
        alloc: Global,
        child: &ArrayView<'_, V>,
        parent: &ArrayRef,
        slot: usize,
    ) -> VortexResult<Option<RawNode>> {
        let ArrayKind::Dict(codes, _) = parent.kind() else {
            unreachable!()
        };
        if slot != 1 {
            return Ok(None);
        }
        V::take(alloc, child, parent, codes)
    }
}
