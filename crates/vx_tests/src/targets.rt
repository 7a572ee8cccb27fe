//! Trees executed to each target, with memory to spare, and contexts.

use std::alloc::Global;
use std::test::Fail;
use vx_exec::{ArrayExecute, ExecutionCtx, VortexSession};
use vx_json::{column_text, tree_of_bytes};
use vx_tree::{AnyCanonical, ArrayRef, Canonical, Columnar};
use vx_value::VortexResult;

const SLICE: &[u8] =
    b"{\"enc\":\"slice\",\"start\":1,\"stop\":3,\"child\":{\"enc\":\"constant\",\"type\":\"i32\",\"value\":7,\"len\":5}}";

fn to_columnar(alloc: Global) -> VortexResult<Columnar> {
    let mut ctx = VortexSession::empty(alloc).create_execution_ctx(alloc);
    tree_of_bytes(alloc, SLICE)?.execute(&mut ctx)
}

fn to_canonical(alloc: Global) -> VortexResult<Canonical> {
    let mut ctx = VortexSession::empty(alloc).create_execution_ctx(alloc);
    tree_of_bytes(alloc, SLICE)?.execute_as("test", &mut ctx)
}

fn until_canonical(alloc: Global) -> VortexResult<ArrayRef> {
    let mut ctx = VortexSession::empty(alloc).create_execution_ctx(alloc);
    tree_of_bytes(alloc, SLICE)?.execute_until::<AnyCanonical>(&mut ctx)
}

#[test]
fn a_tree_is_executed_to_each_target(rt: HostRuntime) -> Result<(), Fail> {
    let alloc = rt.alloc();
    let text = column_text(alloc, &to_columnar(alloc)?)?;
    assert!(rt; text.as_str() == "type i32\nencoding vortex.primitive\n7\n7\n");
    let text = column_text(alloc, &Columnar::Canonical(to_canonical(alloc)?))?;
    assert!(rt; text.as_str() == "type i32\nencoding vortex.primitive\n7\n7\n");
    assert!(rt; until_canonical(alloc)?.is::<AnyCanonical>());
    Ok(())
}

#[test]
fn a_context_hands_its_session_back(rt: HostRuntime) -> Result<(), Fail> {
    let alloc = rt.alloc();
    let ctx = ExecutionCtx::new(alloc, VortexSession::empty(alloc)).with_allocator(alloc);
    assert!(rt; format!(in alloc; "{ctx}")?.as_str() == "exec");
    let session = ctx.with_limit(5).into_session();
    assert!(rt; session.create_execution_ctx(alloc).limit() == 4_194_304);
    Ok(())
}
