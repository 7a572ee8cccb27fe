//! The requests of slots that aren't ready.

use std::alloc::Global;
use std::test::Fail;
use vx_step::{ExecutionResult, ExecutionStep, SlotTarget, Suspended};
use vx_tree::{
    AnyCanonical, AnyColumnar, ArrayRef, ConstantArray, DictArray, IntoArray, SliceArray,
};
use vx_value::{Nullability, PType, Scalar, VortexResult};

/// Returns a dictionary, whose codes are a constant and whose values are a slice.
fn dictionary(alloc: Global) -> VortexResult<ArrayRef> {
    let zero = Scalar::primitive(0, PType::U8, Nullability::NonNullable);
    let codes = ConstantArray::new(alloc, zero, 2)?.into_array();
    let values = SliceArray::try_new(alloc, codes.clone()?, 0..1)?.into_array();
    Ok(DictArray::try_new(alloc, codes, values)?.into_array())
}

fn patches_of(array: Suspended) -> VortexResult<ExecutionResult> {
    vx_step::require_patches!(array, 2, 1, 0);
    Ok(ExecutionResult::done(array))
}

fn validity_of(array: Suspended) -> VortexResult<ExecutionResult> {
    vx_step::require_validity!(array, 2);
    Ok(ExecutionResult::done(array))
}

fn child_of(array: Suspended, child: &ArrayRef) -> VortexResult<ExecutionResult> {
    let array = vx_step::require_child!(array, child, 0 => AnyColumnar);
    vx_step::require_opt_child!(array, Some(child), 0 => AnyCanonical);
    Ok(ExecutionResult::done(array))
}

#[test]
fn the_first_slot_that_is_not_ready_is_requested(rt: HostRuntime) -> Result<(), Fail> {
    let alloc = rt.alloc();
    let array = dictionary(alloc)?;
    let result = patches_of(Suspended::of(array.clone()?))?;
    assert!(rt;
        matches!(
            result.step(),
            ExecutionStep::ExecuteSlot(1, SlotTarget::Primitive)
        )
    );
    let result = validity_of(Suspended::of(array.clone()?))?;
    assert!(rt; matches!(result.step(), ExecutionStep::Done));
    let zero = Scalar::primitive(0, PType::U8, Nullability::NonNullable);
    let child = ConstantArray::new(alloc, zero, 2)?.into_array();
    let result = child_of(Suspended::of(array), &child)?;
    assert!(rt;
        matches!(
            result.step(),
            ExecutionStep::ExecuteSlot(0, SlotTarget::Canonical)
        )
    );
    Ok(())
}
