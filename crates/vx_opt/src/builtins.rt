//! Functions of arrays, by name.

ghost use Rattle.std.specs.Prelude.{◌≡◌, List, [], ◌∷◌, IfOk, true, false};
ghost use Rattle.vx_value.specs.Types.{nullability_of, is_nullable};
ghost use Rattle.vx_value.specs.View.{type_of};
ghost use Rattle.vx_tree.specs.Tree.{Tree, dtype, len, constant_of};
ghost use Rattle.vx_fn.specs.declared.function.ScalarFnRef.TheVariants as fn_of;
ghost use Rattle.vx_opt.specs.Select.{GivesJust};
ghost use Rattle.vx_opt.specs.Builtins.{Calls, Casts, CastsTo, MakesCall, StandsForCall, Interleaves};

use crate::optimizer::ArrayOptimizer;
use std::alloc::Global;
use vx_fn::{BetweenOptions, Operator, ScalarFnRef};
use vx_tree::{ArrayRef, ConstantArray, InterleaveArray, IntoArray, ScalarFnArray};
use vx_value::{ArgKind, DType, Name, Scalar, VortexError, VortexResult, has_columns};

/// The functions as methods. Each makes the node of its function over the array and optimizes it; only `zip` and
/// `interleave` don't optimize.
///
/// # Errors
///
/// Those of `ScalarFnArray::try_new_with_len` for the array's length, of `interleave` those of `InterleaveArray::try_new`; then
/// those of `ArrayOptimizer::optimize`.
pub trait ArrayBuiltins: Sized {
    // the tree that is the function's argument
    ghost tree: { Self → Tree };

    /// Returns the array as values of type `target`: the array itself if it has that type, which meets no limit.
    fn cast(&self, alloc: Global, target: DType) -> VortexResult<ArrayRef>
        ensures keeps { IfOk result (StandsForCall (fn_of.Cast target) (tree self.now ∷ []) (len (tree self.now))) }
        ensures same { type_of target ≡ dtype (tree self.now) → GivesJust (tree self.now) result }
        ensures call { ¬ (type_of target ≡ dtype (tree self.now)) → Calls (fn_of.Cast target) (tree self.now ∷ []) (len (tree self.now)) result };

    /// Returns the array with `fill_value` in place of each null. An array that isn't nullable is cast to `fill_value`'s type: it is itself if it
    /// has that type.
    fn fill_null(&self, alloc: Global, fill_value: Scalar) -> VortexResult<ArrayRef>
        ensures filled { is_nullable (nullability_of (dtype (tree self.now))) ≡ true
            → Calls fn_of.FillNull (tree self.now ∷ constant_of fill_value (len (tree self.now)) ∷ []) (len (tree self.now)) result }
        ensures cast { is_nullable (nullability_of (dtype (tree self.now))) ≡ false → Casts fill_value.of_type (tree self.now) result }
        ensures same { is_nullable (nullability_of (dtype (tree self.now))) ≡ false → fill_value.of_type ≡ dtype (tree self.now)
            → GivesJust (tree self.now) result };

    /// Returns the field named `name` of each row of the array, which holds structs; null where the struct is.
    fn get_item(&self, alloc: Global, name: &str) -> VortexResult<ArrayRef>
        ensures { Calls (fn_of.GetItem name.now) (tree self.now ∷ []) (len (tree self.now)) result };

    /// Returns whether each row is null.
    fn is_null(&self, alloc: Global) -> VortexResult<ArrayRef>
        ensures { Calls fn_of.IsNull (tree self.now ∷ []) (len (tree self.now)) result };

    /// Returns whether each row isn't null.
    fn is_not_null(&self, alloc: Global) -> VortexResult<ArrayRef>
        ensures { Calls fn_of.IsNotNull (tree self.now ∷ []) (len (tree self.now)) result };

    /// Returns the array with null in each row for which `mask` isn't true.
    fn mask(&self, alloc: Global, mask: ArrayRef) -> VortexResult<ArrayRef>
        ensures { Calls fn_of.Mask (tree self.now ∷ mask ∷ []) (len (tree self.now)) result };

    /// Returns the negation of each row.
    fn not(&self, alloc: Global) -> VortexResult<ArrayRef>
        ensures { Calls fn_of.Not (tree self.now ∷ []) (len (tree self.now)) result };

    /// Returns whether each row of the array, which holds lists, has the row of `needle` among its elements.
    fn list_contains(&self, alloc: Global, needle: ArrayRef) -> VortexResult<ArrayRef>
        ensures { Calls fn_of.ListContains (tree self.now ∷ needle ∷ []) (len (tree self.now)) result };

    /// Returns the rows of `if_true` for which the array is true, and the rows of `if_false` elsewhere. The node isn't
    /// optimized.
    fn zip(&self, alloc: Global, if_true: ArrayRef, if_false: ArrayRef) -> VortexResult<ArrayRef>
        ensures { MakesCall fn_of.Zip (if_true ∷ if_false ∷ tree self.now ∷ []) (len (tree self.now)) result };

    /// Returns `operator` applied to the array and `rhs`.
    fn binary(&self, alloc: Global, rhs: ArrayRef, operator: Operator) -> VortexResult<ArrayRef>
        ensures { Calls (fn_of.Binary operator) (tree self.now ∷ rhs ∷ []) (len (tree self.now)) result };

    /// Returns whether each row lies between the rows of `lower` and `upper`.
    fn between(
        &self,
        alloc: Global,
        lower: ArrayRef,
        upper: ArrayRef,
        options: BetweenOptions,
    ) -> VortexResult<ArrayRef>
        ensures { Calls (fn_of.Between options) (tree self.now ∷ lower ∷ upper ∷ []) (len (tree self.now)) result };

    /// Returns the array whose row i is row `row_indices[i]` of `values[j]`, where j is row i of the array. The node isn't
    /// optimized.
    fn interleave(
        &self,
        alloc: Global,
        values: Vec<ArrayRef>,
        row_indices: ArrayRef,
    ) -> VortexResult<ArrayRef>
        ensures { Interleaves (tree self.now) row_indices values.items result };
}

impl ArrayBuiltins for ArrayRef {
    ghost tree = { λ a. a };

    fn cast(&self, alloc: Global, target: DType) -> VortexResult<ArrayRef> {
        cast_to(alloc, self, target)
    }

    fn fill_null(&self, alloc: Global, fill_value: Scalar) -> VortexResult<ArrayRef> {
        if !self.dtype().is_nullable() {
            let target = fill_value.dtype().clone()?;
            return cast_to(alloc, self, target);
        }
        if !has_columns(fill_value.dtype()) {
            return Err(VortexError::InvalidArgument(ArgKind::NoRow));
        }
        let fill = ConstantArray::new_unchecked(alloc, fill_value, self.len())?;
        call_of_two(alloc, ScalarFnRef::FillNull, self, fill.into_array())
    }

    fn get_item(&self, alloc: Global, name: &str) -> VortexResult<ArrayRef> {
        let name = Name::new(alloc, String::from_str(alloc, name)?)?;
        call_of_one(alloc, ScalarFnRef::GetItem(name), self)
    }

    fn is_null(&self, alloc: Global) -> VortexResult<ArrayRef> {
        call_of_one(alloc, ScalarFnRef::IsNull, self)
    }

    fn is_not_null(&self, alloc: Global) -> VortexResult<ArrayRef> {
        call_of_one(alloc, ScalarFnRef::IsNotNull, self)
    }

    fn mask(&self, alloc: Global, mask: ArrayRef) -> VortexResult<ArrayRef> {
        call_of_two(alloc, ScalarFnRef::Mask, self, mask)
    }

    fn not(&self, alloc: Global) -> VortexResult<ArrayRef> {
        call_of_one(alloc, ScalarFnRef::Not, self)
    }

    fn list_contains(&self, alloc: Global, needle: ArrayRef) -> VortexResult<ArrayRef> {
        call_of_two(alloc, ScalarFnRef::ListContains, self, needle)
    }

    fn zip(&self, alloc: Global, if_true: ArrayRef, if_false: ArrayRef) -> VortexResult<ArrayRef> {
        let children = vec![in alloc; if_true, if_false, self.clone()?]?;
        call_node(alloc, ScalarFnRef::Zip, children, self.len())
    }

    fn binary(&self, alloc: Global, rhs: ArrayRef, operator: Operator) -> VortexResult<ArrayRef> {
        call_of_two(alloc, ScalarFnRef::Binary(operator), self, rhs)
    }

    fn between(
        &self,
        alloc: Global,
        lower: ArrayRef,
        upper: ArrayRef,
        options: BetweenOptions,
    ) -> VortexResult<ArrayRef> {
        let children = vec![in alloc; self.clone()?, lower, upper]?;
        call(alloc, ScalarFnRef::Between(options), children, self.len())
    }

    fn interleave(
        &self,
        alloc: Global,
        values: Vec<ArrayRef>,
        row_indices: ArrayRef,
    ) -> VortexResult<ArrayRef> {
        let node = InterleaveArray::try_new(alloc, values, self.clone()?, row_indices)?;
        Ok(node.into_array())
    }
}

/// Makes the node of `function` over `children`, with `len` rows.
fn call_node(
    alloc: Global,
    function: ScalarFnRef,
    children: Vec<ArrayRef>,
    len: usize,
) -> VortexResult<ArrayRef>
    ensures { MakesCall function children.items len result }
{
    let node = ScalarFnArray::try_new_with_len(alloc, function, children, len)?;
    Ok(node.into_array())
}

/// Makes the node of `function` over `children`, with `len` rows, and optimizes it.
#[tactic(auto, using(crate::proofs::BuiltinsLemmas::calls_by))]
fn call(
    alloc: Global,
    function: ScalarFnRef,
    children: Vec<ArrayRef>,
    len: usize,
) -> VortexResult<ArrayRef>
    ensures { Calls function children.items len result }
{
    let node = call_node(alloc, function, children, len)?;
    node.optimize(alloc)
}

/// Makes the node of `function` over `array` alone, and optimizes it.
fn call_of_one(alloc: Global, function: ScalarFnRef, array: &ArrayRef) -> VortexResult<ArrayRef>
    ensures { Calls function (array.now ∷ []) (len array.now) result }
{
    let children = vec![in alloc; array.clone()?]?;
    call(alloc, function, children, array.len())
}

/// Makes the node of `function` over `lhs` and `rhs`, with as many rows as `lhs`, and optimizes it.
fn call_of_two(
    alloc: Global,
    function: ScalarFnRef,
    lhs: &ArrayRef,
    rhs: ArrayRef,
) -> VortexResult<ArrayRef>
    ensures { Calls function (lhs.now ∷ rhs ∷ []) (len lhs.now) result }
{
    let children = vec![in alloc; lhs.clone()?, rhs]?;
    call(alloc, function, children, lhs.len())
}

/// Returns `array` as values of type `target`: the array itself if it has that type.
fn cast_to(alloc: Global, array: &ArrayRef, target: DType) -> VortexResult<ArrayRef>
    ensures { CastsTo target array.now result }
{
    if *array.dtype() == target {
        array.well_formed_tree();
        return Ok(array.clone()?);
    }
    call_of_one(alloc, ScalarFnRef::Cast(target), array)
}
