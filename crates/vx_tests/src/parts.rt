//! Nodes made of their parts: each tag, with memory to spare.

use std::alloc::Global;
use std::rc::Rc;
use std::test::Fail;
use vx_fn::ScalarFnRef;
use vx_mask::{BitBuffer, Buffer, Mask};
use vx_tree::{
    Array, ArrayRef, BinaryViews, BoolArray, Canonical, CanonicalView, ChunkedArray, Columnar,
    ColumnarView, ConstantArray, DecimalArray, DecimalType, DecimalValues, DictArray, FilterArray,
    InterleaveArray, IntoArray, MaskedArray, NullArray, PrimitiveArray, PrimitiveValues,
    ScalarFnArray, ScalarFnValidityArray, SliceArray, VTable, Validity, VarBinViewArray, View,
};
use vx_value::{
    ArgKind, ByteBuffer, DType, DecimalDType, Nullability, PType, Scalar, VortexError, VortexResult,
};

const NEVER: Nullability = Nullability::NonNullable;

/// Checks that a node is made again of the parts of `handle`, which isn't shared.
fn is_remade<V: VTable>(alloc: Global, handle: Array<V>) -> bool {
    match handle.try_into_parts() {
        Ok(parts) => Array::try_from_parts(alloc, parts).is_ok(),
        Err(_) => false,
    }
}

fn bools(alloc: Global) -> VortexResult<BoolArray> {
    let bits = BitBuffer::repeat(alloc, true, 3)?;
    BoolArray::try_new(alloc, DType::Bool(NEVER), bits, &Validity::NonNullable)
}

fn integers(alloc: Global) -> VortexResult<PrimitiveArray> {
    let items = vec![in alloc; 10i32, 20, 30]?;
    let values = PrimitiveValues::new(PType::I32, Buffer::from_vec(alloc, items)?);
    let dtype = DType::Primitive(PType::I32, NEVER);
    PrimitiveArray::try_new(alloc, dtype, values, &Validity::NonNullable)
}

fn decimals(alloc: Global) -> VortexResult<DecimalArray> {
    let items = vec![in alloc; 1234i16, -5, 0]?;
    let values = DecimalValues::new(DecimalType::I16, Buffer::from_vec(alloc, items)?);
    let dtype = DType::Decimal(DecimalDType::try_new(4, 2)?, NEVER);
    DecimalArray::try_new(alloc, dtype, values, &Validity::NonNullable)
}

fn views(alloc: Global) -> VortexResult<BinaryViews> {
    let view = View {
        buffer: 0,
        start: 1,
        size: 2,
    };
    let views = Buffer::from_vec(alloc, vec![in alloc; view]?)?;
    let buffers = vec![in alloc; ByteBuffer::copy_from(alloc, b"abc")?]?;
    match BinaryViews::try_new(alloc, views, buffers)? {
        Some(rows) => Ok(rows),
        None => Err(VortexError::InvalidArgument(ArgKind::BadValue)),
    }
}

fn texts(alloc: Global) -> VortexResult<VarBinViewArray> {
    let rows = views(alloc)?;
    VarBinViewArray::try_new(alloc, DType::Utf8(NEVER), rows, &Validity::NonNullable)
}

#[test]
fn columns_are_made_of_their_parts(rt: HostRuntime) -> Result<(), Fail> {
    let alloc = rt.alloc();
    assert!(rt; is_remade(alloc, bools(alloc)?));
    assert!(rt; is_remade(alloc, integers(alloc)?));
    assert!(rt; is_remade(alloc, decimals(alloc)?));
    assert!(rt; is_remade(alloc, texts(alloc)?));
    assert!(rt; is_remade(alloc, NullArray::new(alloc, 3)?));
    Ok(())
}

fn seven() -> Scalar {
    Scalar::primitive(7, PType::I32, NEVER)
}

fn chosen(alloc: Global) -> VortexResult<FilterArray> {
    let mask = Mask::from_bits(BitBuffer::repeat(alloc, true, 3)?);
    FilterArray::try_new(alloc, integers(alloc)?.into_array(), mask)
}

fn part(alloc: Global) -> VortexResult<SliceArray> {
    SliceArray::try_new(alloc, integers(alloc)?.into_array(), 1..3)
}

fn test(alloc: Global) -> VortexResult<ScalarFnArray> {
    let children = vec![in alloc; integers(alloc)?.into_array()]?;
    ScalarFnArray::try_new(alloc, ScalarFnRef::IsNull, children)
}

fn named(alloc: Global) -> VortexResult<DictArray> {
    DictArray::try_new(
        alloc,
        integers(alloc)?.into_array(),
        texts(alloc)?.into_array(),
    )
}

fn joined(alloc: Global) -> VortexResult<ChunkedArray> {
    let chunks = vec![in alloc; integers(alloc)?.into_array(), part(alloc)?.into_array()]?;
    ChunkedArray::try_new(alloc, chunks, DType::Primitive(PType::I32, NEVER))
}

fn picked(alloc: Global) -> VortexResult<InterleaveArray> {
    let values = vec![in alloc; texts(alloc)?.into_array()]?;
    let rows = integers(alloc)?.into_array();
    InterleaveArray::try_new(alloc, values, integers(alloc)?.into_array(), rows)
}

#[test]
fn nodes_of_several_slots_are_made_of_their_parts(rt: HostRuntime) -> Result<(), Fail> {
    let alloc = rt.alloc();
    assert!(rt; joined(alloc)?.len() == 5);
    assert!(rt; is_remade(alloc, named(alloc)?));
    assert!(rt; is_remade(alloc, joined(alloc)?));
    assert!(rt; is_remade(alloc, picked(alloc)?));
    Ok(())
}

fn has_name(alloc: Global, array: &ArrayRef, slot: usize, text: &str) -> VortexResult<bool> {
    match array.slot_name(slot) {
        Some(name) => Ok(format!(in alloc; "{name}")?.as_str() == text),
        None => Ok(false),
    }
}

#[test]
fn slots_have_names(rt: HostRuntime) -> Result<(), Fail> {
    let alloc = rt.alloc();
    let chunks = joined(alloc)?.into_array();
    let rows = picked(alloc)?.into_array();
    assert!(rt; has_name(alloc, &named(alloc)?.into_array(), 1, "values")?);
    assert!(rt; has_name(alloc, &chunks, 1, "chunk1")?);
    assert!(rt; chunks.slot_name(2).is_none());
    assert!(rt; has_name(alloc, &rows, 1, "row_indices")?);
    assert!(rt; has_name(alloc, &rows, 2, "value0")?);
    Ok(())
}

#[test]
fn lazy_nodes_are_made_of_their_parts(rt: HostRuntime) -> Result<(), Fail> {
    let alloc = rt.alloc();
    let child = integers(alloc)?.into_array();
    assert!(rt; is_remade(alloc, ConstantArray::new(alloc, seven(), 3)?));
    assert!(rt; is_remade(alloc, chosen(alloc)?));
    assert!(rt; is_remade(alloc, part(alloc)?));
    assert!(rt; is_remade(alloc, test(alloc)?));
    assert!(rt; is_remade(alloc, ScalarFnValidityArray::new(alloc, child.clone()?)?));
    assert!(rt;
        is_remade(
            alloc,
            MaskedArray::new_unchecked(alloc, child, &Validity::AllValid)?
        )
    );
    Ok(())
}

fn other(alloc: Global) -> VortexResult<ArrayRef> {
    Ok(ConstantArray::new(alloc, seven(), 3)?.into_array())
}

fn replaced(alloc: Global) -> VortexResult<ArrayRef> {
    part(alloc)?.into_array().with_slot(alloc, 0, other(alloc)?)
}

fn all_replaced(alloc: Global) -> VortexResult<ArrayRef> {
    let slots = vec![in alloc; Some(other(alloc)?)]?;
    part(alloc)?.into_array().with_slots(alloc, slots)
}

#[test]
fn slots_are_replaced(rt: HostRuntime) -> Result<(), Fail> {
    assert!(rt; replaced(rt.alloc())?.len() == 2);
    assert!(rt; all_replaced(rt.alloc())?.len() == 2);
    Ok(())
}

fn owned(alloc: Global) -> VortexResult<PrimitiveArray> {
    integers(alloc)?.as_view().into_owned()
}

fn unshared(alloc: Global) -> VortexResult<ArrayRef> {
    let shared = Rc::new(alloc, integers(alloc)?)?;
    Array::shared_into_array(shared)
}

#[test]
fn handles_are_owned(rt: HostRuntime) -> Result<(), Fail> {
    assert!(rt; owned(rt.alloc())?.len() == 3);
    assert!(rt; unshared(rt.alloc())?.len() == 3);
    Ok(())
}

fn column_back(alloc: Global) -> VortexResult<Canonical> {
    let column = Canonical::Primitive(integers(alloc)?);
    Canonical::try_from(CanonicalView::from(&column))
}

fn constant_back(alloc: Global) -> VortexResult<Columnar> {
    let column = Columnar::constant(alloc, seven(), 2)?;
    Columnar::try_from(ColumnarView::from(&column))
}

fn canonical_tree(array: &ArrayRef) -> VortexResult<ArrayRef> {
    match array.as_canonical() {
        Some(column) => column.to_array_ref(),
        None => Err(VortexError::InvalidArgument(ArgKind::BadValue)),
    }
}

fn columnar_tree(array: &ArrayRef) -> VortexResult<ArrayRef> {
    match array.as_columnar() {
        Some(column) => column.to_array_ref(),
        None => Err(VortexError::InvalidArgument(ArgKind::BadValue)),
    }
}

#[test]
fn columns_are_borrowed(rt: HostRuntime) -> Result<(), Fail> {
    let tree = integers(rt.alloc())?.into_array();
    assert!(rt; column_back(rt.alloc())?.len() == 3);
    assert!(rt; constant_back(rt.alloc())?.len() == 2);
    assert!(rt; canonical_tree(&tree)?.len() == 3);
    assert!(rt; columnar_tree(&other(rt.alloc())?)?.len() == 3);
    Ok(())
}
