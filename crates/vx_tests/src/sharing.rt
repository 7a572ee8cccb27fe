//! Nodes that are shared, and nodes that aren't.

use std::test::Fail;
use vx_tree::NullArray;

/// Checks that the parts of a node that isn't shared are returned.
fn has_parts(nulls: NullArray) -> bool {
    nulls.try_into_parts().is_ok()
}

#[test]
fn parts_come_back_if_not_shared(rt: HostRuntime) -> Result<(), Fail> {
    let nulls = NullArray::new(rt.alloc(), 3)?;
    assert!(rt; !has_parts(nulls.clone()?));
    assert!(rt; has_parts(nulls));
    Ok(())
}
