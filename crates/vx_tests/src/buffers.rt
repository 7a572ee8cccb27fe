//! How buffers are printed, and more bits than there is room for.

use std::alloc::{AllocError, Global};
use std::fmt::Debug;
use std::test::Fail;
use vx_mask::{BitBuffer, BitBuilder, Buffer};
use vx_tree::{BinaryBuilder, BinaryViews};
use vx_value::VortexResult;

fn is_printed_as<T: Debug>(alloc: Global, value: &T, text: &str) -> bool {
    match format!(in alloc; "{value:?}") {
        Ok(printed) => printed.as_str() == text,
        Err(_) => false,
    }
}

fn bits(alloc: Global) -> Result<BitBuffer, AllocError> {
    let mut builder = BitBuilder::with_capacity(alloc, 3)?;
    for bit in [false, false, true] {
        builder.push(bit)?;
    }
    builder.finish(alloc)
}

fn rows(alloc: Global) -> VortexResult<BinaryViews> {
    let mut builder = BinaryBuilder::with_capacity(alloc, 2)?;
    for row in [b"one".as_slice(), b"", b"\xc3"] {
        builder.push(row)?;
    }
    builder.finish(alloc)
}

#[test]
fn items_are_printed(rt: HostRuntime) -> Result<(), Fail> {
    let alloc = rt.alloc();
    let items = Buffer::from_vec(alloc, vec![in alloc; 10, 20, 30, 40, 50]?)?;
    assert!(rt; is_printed_as(alloc, &items.slice(2..4)?, "[30, 40]"));
    Ok(())
}

#[test]
fn bits_are_printed(rt: HostRuntime) -> Result<(), Fail> {
    let alloc = rt.alloc();
    assert!(rt; is_printed_as(alloc, &bits(alloc)?, "[false, false, true]"));
    Ok(())
}

#[test]
fn rows_are_printed(rt: HostRuntime) -> Result<(), Fail> {
    let alloc = rt.alloc();
    assert!(rt; is_printed_as(alloc, &rows(alloc)?, "[[111, 110, 101], [], [195]]"));
    Ok(())
}

#[test]
fn more_bits_than_there_is_room(rt: HostRuntime) {
    assert!(rt; BitBuilder::with_capacity(rt.alloc(), usize::MAX).is_err());
    assert!(rt; BitBuffer::repeat(rt.alloc(), true, usize::MAX).is_err());
}
