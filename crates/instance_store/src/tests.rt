//! What no clause says: that a copy succeeds.
use super::*;
use serna_kinds::{NameId, NodeName, NodeRef};
use std::test::Fail;

#[test]
fn copies(rt: HostRuntime) -> Result<(), Fail> {
    let request = Request::apply(rt.alloc(), NodeRef::Node(NodeName(3)), Some(NameId(1)));
    let same = request.copy(rt.alloc())?;
    assert!(rt; same.passed.len() == 0);
    Ok(())
}
