//! Functions whose first argument is the child: the rows G1 to G4, M1 and K1 to K4.

ghost use Rattle.std.specs.Prelude.{◌≡◌, Some, ◌∷◌, []};
ghost use Rattle.vx_fn.specs.declared.function.ScalarFnRef.TheVariants as fn_of;
ghost use Rattle.vx_rule.specs.Calls.{IsCallOf};
ghost use Rattle.vx_rule.specs.Answers.{Answers};

use crate::raw_node::RawNode;
use crate::rule::ArrayParentReduceRule;
use crate::scalar_fns::{Between, Cast, ExactScalarFn, FillNull, GetItem, Mask, Not};
use crate::slots::{three_arguments, two_arguments};
use std::alloc::Global;
use vx_fn::{BetweenOptions, ScalarFnRef};
use vx_tree::{ArrayKind, ArrayRef, ArrayView, VTable};
use vx_value::{DType, Name, VortexResult};

/// Encodings that have a row for `get_item` above them. (own)
pub trait GetItemReduce: VTable {
    /// Returns the answer for `parent`, the field `name` of `array`: `None` exactly if no row fits. Fails only with
    /// `OutOfMemory`. (own)
    fn get_item(
        alloc: Global,
        array: &ArrayView<'_, Self>,
        parent: &ArrayRef,
        name: &Name,
    ) -> VortexResult<Option<RawNode>>
        requires call { IsCallOf (fn_of.GetItem name.now) (array.now.array.now ∷ []) parent.now }
        ensures { Answers (Some 0) parent.now result };
}

/// Encodings that have a row for a mask above them.
pub trait MaskReduce: VTable {
    /// Returns the answer for `parent`, the mask of `array` by `mask`: `None` exactly if no row fits. Fails only with
    /// `OutOfMemory`.
    fn mask(
        alloc: Global,
        array: &ArrayView<'_, Self>,
        parent: &ArrayRef,
        mask: &ArrayRef,
    ) -> VortexResult<Option<RawNode>>
        requires call { IsCallOf fn_of.Mask (array.now.array.now ∷ mask.now ∷ []) parent.now }
        ensures { Answers (Some 0) parent.now result };
}

/// Encodings that have a row for a cast above them.
pub trait CastReduce: VTable {
    /// Returns the answer for `parent`, the cast of `array` to `dtype`: `None` exactly if no row fits. Fails only with
    /// `OutOfMemory`.
    fn cast(
        alloc: Global,
        array: &ArrayView<'_, Self>,
        parent: &ArrayRef,
        dtype: &DType,
    ) -> VortexResult<Option<RawNode>>
        requires call { IsCallOf (fn_of.Cast dtype.now) (array.now.array.now ∷ []) parent.now }
        ensures { Answers (Some 0) parent.now result };
}

/// Encodings that have a row for a negation above them.
pub trait NotReduce: VTable {
    /// Returns the answer for `parent`, the negation of `array`: `None` exactly if no row fits. Fails only with `OutOfMemory`.
    fn invert(
        alloc: Global,
        array: &ArrayView<'_, Self>,
        parent: &ArrayRef,
    ) -> VortexResult<Option<RawNode>>
        requires call { IsCallOf fn_of.Not (array.now.array.now ∷ []) parent.now }
        ensures { Answers (Some 0) parent.now result };
}

/// Encodings that have a row for a `between` above them.
pub trait BetweenReduce: VTable {
    /// Returns the answer for `parent`, whether `array` lies between `lower` and `upper`: `None` exactly if no row fits. Fails
    /// only with `OutOfMemory`.
    fn between(
        alloc: Global,
        array: &ArrayView<'_, Self>,
        parent: &ArrayRef,
        lower: &ArrayRef,
        upper: &ArrayRef,
        options: &BetweenOptions,
    ) -> VortexResult<Option<RawNode>>
        requires call { IsCallOf (fn_of.Between options.now) (array.now.array.now ∷ lower.now ∷ upper.now ∷ []) parent.now }
        ensures { Answers (Some 0) parent.now result };
}

/// Encodings that have a row for a `fill_null` above them.
pub trait FillNullReduce: VTable {
    /// Returns the answer for `parent`, `array` with its nulls replaced by `fill_value`: `None` exactly if no row fits. Fails
    /// only with `OutOfMemory`.
    fn fill_null(
        alloc: Global,
        array: &ArrayView<'_, Self>,
        parent: &ArrayRef,
        fill_value: &ArrayRef,
    ) -> VortexResult<Option<RawNode>>
        requires call { IsCallOf fn_of.FillNull (array.now.array.now ∷ fill_value.now ∷ []) parent.now }
        ensures { Answers (Some 0) parent.now result };
}

/// Evaluates to `$answer`, with the function of `$parent` and the slots of its arguments bound, if `$slot` is that of the first
/// argument. For a later one, returns `Ok(None)` from the function.
macro_rules! for_first_argument {
    ($parent:expr, $slot:expr; $function:pat, $slots:pat => $answer:expr) => {{
        let ArrayKind::ScalarFn($function, $slots) = $parent.kind() else {
            unreachable!()
        };
        if $slot != 0 {
            return Ok(None);
        }
        $answer
    }};
}

/// The rule of `V` for `get_item` above it. (own)
#[derive(Debug, Default, Drop)]
pub struct GetItemReduceAdaptor<V>(pub V);

impl<V: GetItemReduce> ArrayParentReduceRule<V> for GetItemReduceAdaptor<V> {
    type Parent = ExactScalarFn<GetItem>;

    #[tactic(auto, using(crate::proofs::QuietLemmas::later_quiet, crate::proofs::CallsLemmas::call_of_one))]
    fn reduce_parent(
        &self,
        alloc: Global,
        child: &ArrayView<'_, V>,
        parent: &ArrayRef,
        slot: usize,
    ) -> VortexResult<Option<RawNode>> {
        for_first_argument!(parent, slot; ScalarFnRef::GetItem(name), _ => V::get_item(alloc, child, parent, name))
    }
}

/// The rule of `V` for a mask above it. Answers only for the first argument.
#[derive(Debug, Default, Drop)]
pub struct MaskReduceAdaptor<V>(pub V);

impl<V: MaskReduce> ArrayParentReduceRule<V> for MaskReduceAdaptor<V> {
    type Parent = ExactScalarFn<Mask>;

    #[tactic(auto, using(crate::proofs::QuietLemmas::later_quiet, crate::proofs::CallsLemmas::call_of_two))]
    fn reduce_parent(
        &self,
        alloc: Global,
        child: &ArrayView<'_, V>,
        parent: &ArrayRef,
        slot: usize,
    ) -> VortexResult<Option<RawNode>> {
        for_first_argument!(parent, slot; ScalarFnRef::Mask, slots => V::mask(alloc, child, parent, two_arguments(slots).1))
    }
}

/// The rule of `V` for a cast above it.
#[derive(Debug, Default, Drop)]
pub struct CastReduceAdaptor<V>(pub V);

impl<V: CastReduce> ArrayParentReduceRule<V> for CastReduceAdaptor<V> {
    type Parent = ExactScalarFn<Cast>;

    #[tactic(auto, using(crate::proofs::QuietLemmas::later_quiet, crate::proofs::CallsLemmas::call_of_one))]
    fn reduce_parent(
        &self,
        alloc: Global,
        child: &ArrayView<'_, V>,
        parent: &ArrayRef,
        slot: usize,
    ) -> VortexResult<Option<RawNode>> {
        for_first_argument!(parent, slot; ScalarFnRef::Cast(dtype), _ => V::cast(alloc, child, parent, dtype))
    }
}

/// The rule of `V` for a negation above it.
#[derive(Debug, Default, Drop)]
pub struct NotReduceAdaptor<V>(pub V);

impl<V: NotReduce> ArrayParentReduceRule<V> for NotReduceAdaptor<V> {
    type Parent = ExactScalarFn<Not>;

    #[tactic(auto, using(crate::proofs::QuietLemmas::later_quiet, crate::proofs::CallsLemmas::call_of_one))]
    fn reduce_parent(
        &self,
        alloc: Global,
        child: &ArrayView<'_, V>,
        parent: &ArrayRef,
        slot: usize,
    ) -> VortexResult<Option<RawNode>> {
        for_first_argument!(parent, slot; ScalarFnRef::Not, _ => V::invert(alloc, child, parent))
    }
}

/// The rule of `V` for a `between` above it. Answers only for the first argument.
#[derive(Debug, Default, Drop)]
pub struct BetweenReduceAdaptor<V>(pub V);

impl<V: BetweenReduce> ArrayParentReduceRule<V> for BetweenReduceAdaptor<V> {
    type Parent = ExactScalarFn<Between>;

    #[tactic(auto, using(crate::proofs::QuietLemmas::later_quiet, crate::proofs::CallsLemmas::call_of_three))]
    fn reduce_parent(
        &self,
        alloc: Global,
        child: &ArrayView<'_, V>,
        parent: &ArrayRef,
        slot: usize,
    ) -> VortexResult<Option<RawNode>> {
        for_first_argument!(parent, slot; ScalarFnRef::Between(options), slots => {
            let (_, lower, upper) = three_arguments(slots);
            V::between(alloc, child, parent, lower, upper, options)
        })
    }
}

/// The rule of `V` for a `fill_null` above it. Answers only for the first argument.
#[derive(Debug, Default, Drop)]
pub struct FillNullReduceAdaptor<V>(pub V);

impl<V: FillNullReduce> ArrayParentReduceRule<V> for FillNullReduceAdaptor<V> {
    type Parent = ExactScalarFn<FillNull>;

    #[tactic(auto, using(crate::proofs::QuietLemmas::later_quiet, crate::proofs::CallsLemmas::call_of_two))]
    fn reduce_parent(
        &self,
        alloc: Global,
        child: &ArrayView<'_, V>,
        parent: &ArrayRef,
        slot: usize,
    ) -> VortexResult<Option<RawNode>> {
        for_first_argument!(parent, slot; ScalarFnRef::FillNull, slots => V::fill_null(alloc, child, parent, two_arguments(slots).1))
    }
}
