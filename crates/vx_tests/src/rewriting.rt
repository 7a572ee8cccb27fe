//! Rewriting by its public calls: the limit at one root, and nodes that are optimized as they are made.

use std::alloc::Global;
use std::test::Fail;
use vx_fn::{PackOptions, ScalarFnRef};
use vx_opt::{ArrayBuiltins, ArrayOptimizer, ArraySelect, RuleRegistry};
use vx_tree::{ArrayKind, ArrayRef, ConstantArray, IntoArray, ScalarFnArray, SliceArray};
use vx_value::{DType, FieldNames, Name, Nullability, PType, Scalar, VortexError, VortexResult};

/// Returns a constant of `len` rows.
fn sevens(alloc: Global, len: usize) -> VortexResult<ArrayRef> {
    let seven = Scalar::primitive(7, PType::I32, Nullability::NonNullable);
    Ok(ConstantArray::new(alloc, seven, len)?.into_array())
}

/// Returns `nested` slices 0..1 over a constant of five rows.
fn slices(alloc: Global, nested: usize) -> VortexResult<ArrayRef> {
    let mut array = sevens(alloc, 5)?;
    for _i in 0..nested {
        array = SliceArray::try_new(alloc, array, 0..1)?.into_array();
    }
    Ok(array)
}

/// Checks that `array` is a constant of `len` rows, each `value`.
fn repeats(array: &ArrayRef, value: i128, len: usize) -> bool {
    match array.kind() {
        ArrayKind::Constant(scalar) => scalar.as_integer() == Some(value) && array.len() == len,
        _ => false,
    }
}

#[test]
fn a_hundred_rewrites_at_one_root(rt: HostRuntime) -> Result<(), Fail> {
    let alloc = rt.alloc();
    assert!(rt; repeats(&slices(alloc, 100)?.optimize(alloc)?, 7, 1));
    let limit = VortexError::RewriteLimit {
        at_root: 101,
        total: 101,
    };
    let mut rules = RuleRegistry::empty(alloc);
    let refused = slices(alloc, 101)?.optimize_recursive(alloc, &mut rules);
    assert!(rt; matches!(refused, Err(e) if e == limit));
    Ok(())
}

/// Returns a column of `len` structs with the field `x`.
pub(crate) fn structs(alloc: Global, len: usize) -> VortexResult<ArrayRef> {
    let name = Name::new(alloc, String::from_str(alloc, "x")?)?;
    let names = FieldNames::new(alloc, vec![in alloc; name]?)?;
    let options = PackOptions {
        names,
        nullability: Nullability::NonNullable,
    };
    let columns = vec![in alloc; sevens(alloc, len)?]?;
    let pack = ScalarFnArray::try_new(alloc, ScalarFnRef::Pack(options), columns)?;
    pack.into_array().optimize(alloc)
}

#[test]
fn a_field_is_its_column(rt: HostRuntime) -> Result<(), Fail> {
    let alloc = rt.alloc();
    assert!(rt; repeats(&structs(alloc, 3)?.get_item(alloc, "x")?, 7, 3));
    Ok(())
}

/// Slices three rows, and checks how many rows are left.
fn has_rows(alloc: Global, start: usize, stop: usize, len: usize) -> VortexResult<bool> {
    Ok(sevens(alloc, 3)?.slice(alloc, start..stop)?.len() == len)
}

/// Checks that a range of three rows is refused as out of bounds.
fn is_out_of_bounds(alloc: Global, start: usize, stop: usize) -> bool {
    let refusal = VortexError::OutOfBounds {
        start,
        stop,
        len: 3,
    };
    matches!(has_rows(alloc, start, stop, 0), Err(e) if e == refusal)
}

#[test]
fn ranges_of_three_rows(rt: HostRuntime) -> Result<(), Fail> {
    let alloc = rt.alloc();
    for (start, stop, len) in [(0, 3, 3), (2, 2, 0), (3, 3, 0)] {
        assert!(rt; has_rows(alloc, start, stop, len)?);
    }
    for (start, stop) in [(4, 4), (1, 4), (2, 1)] {
        assert!(rt; is_out_of_bounds(alloc, start, stop));
    }
    Ok(())
}

#[test]
fn nodes_are_optimized_as_they_are_made(rt: HostRuntime) -> Result<(), Fail> {
    let alloc = rt.alloc();
    assert!(rt; repeats(&sevens(alloc, 3)?.slice(alloc, 1..3)?, 7, 2));
    let null = Scalar::null(DType::Primitive(PType::I32, Nullability::Nullable));
    let nulls = ConstantArray::new(alloc, null, 3)?.into_array();
    let one = Scalar::primitive(1, PType::I32, Nullability::NonNullable);
    assert!(rt; repeats(&nulls.fill_null(alloc, one)?, 1, 3));
    Ok(())
}

#[test]
fn taken_rows_are_optimized_and_interleaved_ones_are_not(rt: HostRuntime) -> Result<(), Fail> {
    let alloc = rt.alloc();
    assert!(rt; repeats(&sevens(alloc, 10)?.take(alloc, sevens(alloc, 2)?)?, 7, 2));
    let values = vec![in alloc; sevens(alloc, 8)?]?;
    let node = sevens(alloc, 2)?.interleave(alloc, values, sevens(alloc, 2)?)?;
    assert!(rt; matches!(node.kind(), ArrayKind::Interleave(_)) && node.len() == 2);
    Ok(())
}
