use crate::tree::by_subtree;
use std::test::Fail;

#[test]
fn subtrees_stand_together(rt: HostRuntime) -> Result<(), Fail> {
    let placed = by_subtree(rt.alloc(), &[1, 2, 3, 4, 5], &[0, 5, 4, 5, 5, 0])?;
    let wanted = [1u32, 3, 2, 4, 5];
    assert_eq!(rt; placed.as_slice(), wanted.as_slice());
    Ok(())
}
